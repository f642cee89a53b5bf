// A plan as a decision log. No masks are kept between calls: each call works them out afresh, from
// what the plan started with and the decisions that stand, so nothing can be left behind by a try.
use crate::answer::{Answer, refused};
use crate::plain::rounds;
use crate::plain::rounds::{EMPTY, Masks};
use crate::problem::{CELLS, Call, Problem, Request, WORKSPACE};
use std::alloc::{AllocError, Global};

// How many levels may be open.
const LEVELS: usize = 16;

// A decision that stands, or is tried.
#[derive(Clone, Copy)]
pub enum Decision {
    Cell { cell: usize, mask: u16 },
    Tally { rule: usize, tally: u64 },
}

impl Decision {
    // What it leaves of the mask that it names.
    fn shared(self, masks: &Masks) -> u64 {
        match self {
            Decision::Cell { cell, mask } => u64::from(masks.cell(cell) & mask),
            Decision::Tally { rule, tally } => masks.tally(rule) & tally,
        }
    }

    // Narrows the mask that it names.
    pub fn narrow(self, masks: &mut Masks) {
        match self {
            Decision::Cell { cell, mask } => {
                let kept = masks.cell(cell) & mask;
                masks.set_cell(cell, kept);
            }
            Decision::Tally { rule, tally } => {
                let kept = masks.tally(rule) & tally;
                masks.set_tally(rule, kept);
            }
        }
    }
}

// The decisions that stood before the first mark, and a list more for each open level. A void plan has
// none, and still answers.
#[derive(Drop)]
pub struct Log<'a> {
    problem: &'a Problem,
    first: Vec<Decision>,
    levels: Vec<Vec<Decision>>,
    void: bool,
}

impl<'a> Log<'a> {
    // Starts a plan. Where the workspace is too short nothing runs, and the plan is void.
    pub fn start(
        heap: Global,
        problem: &'a Problem,
        workspace: usize,
    ) -> Result<(Log<'a>, Answer), AllocError> {
        let mut log = Log {
            problem,
            first: Vec::new(heap),
            levels: Vec::new(heap),
            void: true,
        };
        if workspace < WORKSPACE {
            return Ok((log, refused(14)));
        }
        let mut masks = Masks::new(problem);
        let answer = rounds::settle(heap, problem, &mut masks)?;
        log.void = !matches!(answer, Answer::Settled(_));
        Ok((log, answer))
    }

    pub fn is_void(&self) -> bool {
        self.void
    }

    // The decisions that stand, in the order in which they were made.
    pub fn standing(&self, heap: Global) -> Result<Vec<Decision>, AllocError> {
        let mut standing = Vec::from_slice(heap, self.first.as_slice())?;
        for level in self.levels.iter() {
            standing.extend_from_slice(level.as_slice())?;
        }
        Ok(standing)
    }

    // What the plan started with, narrowed by every decision that stands; no rule has run.
    pub fn narrowed(&self, heap: Global) -> Result<Masks, AllocError> {
        let mut masks = Masks::new(self.problem);
        for decision in self.standing(heap)?.iter() {
            decision.narrow(&mut masks);
        }
        Ok(masks)
    }

    // The masks of the plan.
    pub fn masks(&self, heap: Global) -> Result<Masks, AllocError> {
        if self.void {
            return Ok(EMPTY);
        }
        let mut masks = self.narrowed(heap)?;
        rounds::settle(heap, self.problem, &mut masks)?;
        Ok(masks)
    }

    // Writes a decision down, on the newest level.
    fn write_down(&mut self, decision: Decision) -> Result<(), AllocError> {
        match self.levels.last_mut() {
            Some(level) => level.push(decision)?,
            None => self.first.push(decision)?,
        }
        Ok(())
    }

    // Tries a decision, and writes it down if it goes through.
    fn attempt(&mut self, heap: Global, decision: Decision) -> Result<Answer, AllocError> {
        let mut masks = self.masks(heap)?;
        if decision.shared(&masks) == 0 {
            return Ok(Answer::Own);
        }
        decision.narrow(&mut masks);
        let answer = rounds::settle(heap, self.problem, &mut masks)?;
        if matches!(answer, Answer::Settled(_)) {
            self.write_down(decision)?;
        }
        Ok(answer)
    }

    fn decide(
        &mut self,
        heap: Global,
        cell: usize,
        mask: u16,
        workspace: usize,
    ) -> Result<Answer, AllocError> {
        if cell >= CELLS {
            Ok(refused(6))
        } else if mask == 0 {
            Ok(refused(7))
        } else if workspace < WORKSPACE {
            Ok(refused(14))
        } else if self.void {
            Ok(refused(25))
        } else {
            self.attempt(heap, Decision::Cell { cell, mask })
        }
    }

    fn bound(
        &mut self,
        heap: Global,
        rule: usize,
        tally: u64,
        workspace: usize,
    ) -> Result<Answer, AllocError> {
        if tally == 0 {
            Ok(refused(12))
        } else if rule >= self.problem.rules.len() {
            Ok(refused(13))
        } else if workspace < WORKSPACE {
            Ok(refused(14))
        } else if self.void {
            Ok(refused(25))
        } else {
            self.attempt(heap, Decision::Tally { rule, tally })
        }
    }

    fn mark(&mut self, heap: Global) -> Result<Answer, AllocError> {
        if self.void {
            return Ok(refused(25));
        }
        if self.levels.len() >= LEVELS {
            return Ok(refused(26));
        }
        self.levels.push(Vec::new(heap))?;
        Ok(Answer::Level(self.levels.len()))
    }

    fn back(&mut self) -> Answer {
        if self.void {
            return refused(25);
        }
        match self.levels.pop() {
            Some(_) => Answer::Level(self.levels.len()),
            None => refused(27),
        }
    }

    fn cell(&self, heap: Global, cell: usize) -> Result<Answer, AllocError> {
        if cell >= CELLS {
            return Ok(refused(6));
        }
        Ok(Answer::Mask(u64::from(self.masks(heap)?.cell(cell))))
    }

    fn tally(&self, heap: Global, rule: usize) -> Result<Answer, AllocError> {
        if rule >= self.problem.rules.len() {
            return Ok(refused(13));
        }
        Ok(Answer::Mask(self.masks(heap)?.tally(rule)))
    }

    fn figures(&self, heap: Global, rule: usize, workspace: usize) -> Result<Answer, AllocError> {
        let Some(posted) = self.problem.rules.get(rule) else {
            return Ok(refused(13));
        };
        if workspace < WORKSPACE {
            return Ok(refused(14));
        }
        if self.void {
            return Ok(Answer::Told(None));
        }
        let masks = self.masks(heap)?;
        Ok(Answer::Told(rounds::figures(heap, self.problem, posted, &masks)?))
    }

    // Makes a call.
    pub fn make(&mut self, heap: Global, call: Call) -> Result<Answer, AllocError> {
        match call.request {
            Request::Decide { cell, mask } => self.decide(heap, cell, mask, call.workspace),
            Request::Bound { rule, tally } => self.bound(heap, rule, tally, call.workspace),
            Request::Mark => self.mark(heap),
            Request::Back => Ok(self.back()),
            Request::Cell(cell) => self.cell(heap, cell),
            Request::Tally(rule) => self.tally(heap, rule),
            Request::Figures(rule) => self.figures(heap, rule, call.workspace),
        }
    }
}
