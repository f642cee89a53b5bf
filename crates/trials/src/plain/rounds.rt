// Masks of a plan, and settling: rounds of runs, in the rules' order, until a round takes nothing.
use crate::answer::{Answer, Failure, Figures, Work};
use crate::plain::counters::counter_of;
use crate::plain::judging;
use crate::problem::{CELLS, Posted, Problem, RULES};
use std::alloc::{AllocError, Global};

// More rounds than there are values to take.
const ROUNDS: u32 = 10_000;

// What is open in each cell and in each rule's tally.
#[derive(Clone, Copy)]
pub struct Masks {
    pub cells: [u16; CELLS],
    pub tallies: [u64; RULES],
}

// Nothing open.
pub const EMPTY: Masks = Masks {
    cells: [0; CELLS],
    tallies: [0; RULES],
};

impl Masks {
    // What a problem has open before any rule has run.
    pub fn new(problem: &Problem) -> Masks {
        let mut masks = EMPTY;
        masks.cells = problem.cells;
        for (tally, rule) in masks.tallies.iter_mut().zip(problem.rules.iter()) {
            *tally = rule.tally;
        }
        masks
    }

    pub fn cell(&self, cell: usize) -> u16 {
        self.cells.get(cell).copied().unwrap_or(0)
    }

    pub fn tally(&self, rule: usize) -> u64 {
        self.tallies.get(rule).copied().unwrap_or(0)
    }

    // (Two functions each to read and to set: a cell's mask and a tally differ in width.)
    pub fn set_cell(&mut self, cell: usize, mask: u16) {
        if let Some(old) = self.cells.get_mut(cell) {
            *old = mask;
        }
    }

    pub fn set_tally(&mut self, rule: usize, tally: u64) {
        if let Some(old) = self.tallies.get_mut(rule) {
            *old = tally;
        }
    }

    // Whether all that is open here is open there too.
    pub fn lie_within(&self, others: &Masks) -> bool {
        let cells = self.cells.iter().zip(others.cells.iter());
        let tallies = self.tallies.iter().zip(others.tallies.iter());
        cells.into_iter().all(|(mask, other)| *mask & !*other == 0)
            && tallies
                .into_iter()
                .all(|(tally, other)| *tally & !*other == 0)
    }

    // Whether a cell has nothing open, or the tally of one of so many rules.
    pub fn has_empty(&self, rules: usize) -> bool {
        self.tallies.iter().take(rules).any(|tally| *tally == 0) || self.empty_cell().is_some()
    }

    // The masks along a row.
    fn along(&self, heap: Global, cells: &[u8]) -> Result<Vec<u16>, AllocError> {
        cells
            .iter()
            .map(|cell| self.cell(usize::from(*cell)))
            .collect(heap)
    }

    // The lowest cell with nothing open.
    fn empty_cell(&self) -> Option<usize> {
        self.cells.iter().position(|mask| *mask == 0)
    }
}

// Lets a rule run on the masks, and answers how many values it took.
pub fn run(
    heap: Global,
    problem: &Problem,
    number: usize,
    rule: &Posted,
    masks: &mut Masks,
) -> Result<u32, AllocError> {
    let along = masks.along(heap, rule.cells.as_slice())?;
    let tally = masks.tally(number);
    let counter = counter_of(problem, rule.kind);
    let left = judging::judge(heap, counter, rule.sense, along.as_slice(), tally)?;
    let mut taken = (tally ^ left.tally).count_ones();
    masks.set_tally(number, left.tally);
    for (cell, mask) in rule.cells.iter().zip(left.masks.iter()) {
        let cell = usize::from(*cell);
        taken = taken.saturating_add((masks.cell(cell) ^ *mask).count_ones());
        masks.set_cell(cell, *mask);
    }
    Ok(taken)
}

// Lets every rule run once. Where a mask is empty after a run, the failure.
fn round(
    heap: Global,
    problem: &Problem,
    masks: &mut Masks,
    work: &mut Work,
) -> Result<Option<Failure>, AllocError> {
    for (number, rule) in problem.rules.iter().enumerate() {
        let taken = run(heap, problem, number, rule, masks)?;
        work.runs = work.runs.saturating_add(1);
        work.removed = work.removed.saturating_add(taken);
        let cell = masks.empty_cell();
        if cell.is_some() || masks.tally(number) == 0 {
            return Ok(Some(Failure {
                rule: number,
                cell,
                work: *work,
            }));
        }
    }
    Ok(None)
}

// Settles the masks: `Settled`, or `Failed`.
pub fn settle(heap: Global, problem: &Problem, masks: &mut Masks) -> Result<Answer, AllocError> {
    let mut work = Work {
        runs: 0,
        removed: 0,
    };
    for _ in 0..ROUNDS {
        let before = work.removed;
        if let Some(failure) = round(heap, problem, masks, &mut work)? {
            return Ok(Answer::Failed(failure));
        }
        if work.removed == before {
            break;
        }
    }
    Ok(Answer::Settled(work))
}

// The figures of a rule over the masks.
pub fn figures(
    heap: Global,
    problem: &Problem,
    rule: &Posted,
    masks: &Masks,
) -> Result<Option<Figures>, AllocError> {
    let along = masks.along(heap, rule.cells.as_slice())?;
    judging::figures(heap, counter_of(problem, rule.kind), along.as_slice())
}
