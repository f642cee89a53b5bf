// The frames of a file up to the start: what they post, and why one is refused.
use crate::answer::Refusal;
use crate::plain::faults;
use crate::plain::frames::{Frame, Halt, byte, number, part};
use crate::problem::{CELLS, Kind, Posted, Problem, Sense};
use std::alloc::{AllocError, Global};

// The most rules of one automaton.
const RULES_OF_KIND: usize = 24;

// What has been posted so far; an automaton or the map, once it is given.
#[derive(Drop)]
pub struct Drafted {
    pub size: usize,
    cells: [u16; CELLS],
    set: Option<u16>,
    word: Option<Vec<u8>>,
    table: Option<(u8, Vec<u8>)>,
    classes: Option<[u8; 16]>,
    rules: Vec<Posted>,
}

// Refuses what was given before.
fn once<T>(given: &Option<T>) -> Result<(), Refusal> {
    if given.is_some() {
        return Err(faults::fault(22, 0));
    }
    Ok(())
}

impl TryFrom<u8> for Kind {
    type Error = Refusal;

    fn try_from(number: u8) -> Result<Kind, Refusal> {
        match number {
            3 => Ok(Kind::Among),
            4 => Ok(Kind::Word),
            5 => Ok(Kind::Table),
            _ => Err(faults::fault(11, 0)),
        }
    }
}

impl Drafted {
    pub fn new(heap: Global) -> Drafted {
        Drafted {
            size: 0,
            cells: [0xffff; CELLS],
            set: None,
            word: None,
            table: None,
            classes: None,
            rules: Vec::new(heap),
        }
    }

    fn post_masks(&mut self, body: &[u8]) -> Result<(), Refusal> {
        let first = usize::from(byte(body, 0));
        let cells = usize::from(byte(body, 1));
        let mask = (number(part(body, 2, 4)) & 0xffff) as u16;
        faults::check_range(first, cells, self.size, mask)?;
        for old in self.cells.iter_mut().skip(first).take(cells) {
            *old = mask;
        }
        Ok(())
    }

    fn post_set(&mut self, body: &[u8]) -> Result<(), Refusal> {
        once(&self.set)?;
        self.set = Some((number(body) & 0xffff) as u16);
        Ok(())
    }

    fn post_word(&mut self, heap: Global, body: &[u8]) -> Result<(), Halt> {
        faults::check_word(body)?;
        once(&self.word)?;
        self.word = Some(Vec::from_slice(heap, body)?);
        Ok(())
    }

    fn post_table(&mut self, heap: Global, body: &[u8]) -> Result<(), Halt> {
        let states = byte(body, 0);
        let steps = part(body, 1, body.len());
        faults::check_table(states, steps)?;
        once(&self.table)?;
        self.table = Some((states, Vec::from_slice(heap, steps)?));
        Ok(())
    }

    fn post_map(&mut self, body: &[u8]) -> Result<(), Refusal> {
        faults::check_duties(body)?;
        once(&self.classes)?;
        self.classes = <[u8; 16]>::try_from(body).ok();
        Ok(())
    }

    // Whether a kind's automaton is there.
    fn has(&self, kind: Kind) -> bool {
        match kind {
            Kind::Among => self.set.is_some(),
            Kind::Word => self.word.is_some(),
            Kind::Table => self.table.is_some(),
        }
    }

    // A kind that a rule may count with: its automaton is there, and it has room for a rule more.
    fn check_kind(&self, kind: Kind) -> Result<(), Refusal> {
        if !self.has(kind) {
            return Err(faults::fault(23, 0));
        }
        if self.rules.iter().filter(|rule| rule.kind == kind).count() >= RULES_OF_KIND {
            return Err(faults::fault(24, 0));
        }
        Ok(())
    }

    fn post_rule(&mut self, heap: Global, body: &[u8]) -> Result<(), Halt> {
        let cells = part(body, 10, body.len());
        let tally = number(part(body, 2, 10));
        faults::check_row(cells, self.size)?;
        let sense = Sense::try_from(byte(body, 1))?;
        let kind = Kind::try_from(byte(body, 0))?;
        faults::check_tally(tally)?;
        self.check_kind(kind)?;
        let cells = Vec::from_slice(heap, cells)?;
        self.rules.push(Posted {
            kind,
            sense,
            tally,
            cells,
        })?;
        Ok(())
    }

    // Carries out a frame up to the start.
    pub fn post(&mut self, heap: Global, frame: &Frame) -> Result<(), Halt> {
        let body = frame.body.as_slice();
        match frame.kind {
            0x01 => self.size = usize::from(byte(body, 0)),
            0x02 => self.post_masks(body)?,
            0x03 => self.post_set(body)?,
            0x04 => self.post_word(heap, body)?,
            0x05 => self.post_table(heap, body)?,
            0x06 => self.post_map(body)?,
            0x07 => self.post_rule(heap, body)?,
            _ => {}
        }
        Ok(())
    }

    // The problem that was posted. What was not given, no rule counts with.
    pub fn problem(self, heap: Global) -> Result<Problem, AllocError> {
        let Drafted {
            size: _,
            cells,
            set,
            word,
            table,
            classes,
            rules,
        } = self;
        let mut problem = Problem::new(heap);
        problem.cells = cells;
        problem.set = set.unwrap_or(problem.set);
        problem.classes = classes.unwrap_or(problem.classes);
        problem.rules = in_order(heap, rules)?;
        if let Some(word) = word {
            problem.word = word;
        }
        if let Some((states, steps)) = table {
            problem.states = states;
            problem.steps = steps;
        }
        Ok(problem)
    }
}

// The rules in the order of their numbers: by kind, and then as they were posted.
fn in_order(heap: Global, rules: Vec<Posted>) -> Result<Vec<Posted>, AllocError> {
    let mut amongs = Vec::new(heap);
    let mut words = Vec::new(heap);
    let mut tables = Vec::new(heap);
    for rule in rules {
        match rule.kind {
            Kind::Among => amongs.push(rule)?,
            Kind::Word => words.push(rule)?,
            Kind::Table => tables.push(rule)?,
        }
    }
    amongs.extend(words)?;
    amongs.extend(tables)?;
    Ok(amongs)
}
