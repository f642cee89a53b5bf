// Settling many times with one family, and a plan's whole history of calls.
use crate::fields::{Families, RuleFields, families_of};
use families::MOST_RULES;
use planning::plan::{Draft, Plan, Start, Try};
use refusals::PlanFault;
use settling::{Failure, Settled, Snapshot, Spot, Work};
use std::alloc::Global;

// How a call went: 0 settled, 1 failed at a rule, 2 failed as its own, 3 a level was opened or
// closed, 4 refused; then the rule (or the level, or the refusal's number), the empty cell (192 for
// the rule's tally), the runs and the values taken.
#[repr(C)]
#[derive(Clone, Copy)]
pub struct Outcome {
    // A kind by its number: the C interface.
    pub kind: u32,
    pub rule: u32,
    pub cell: u32,
    pub runs: u32,
    pub removed: u32,
}

// One call: 0 decide, 1 bound, 2 mark, 3 back.
#[repr(C)]
#[derive(Clone, Copy)]
pub struct CallFields {
    // A kind by its number: the C interface.
    pub kind: u8,
    pub target: u8,
    pub mask: u64,
}

// An outcome with no work.
fn plain_outcome(kind: u32, rule: u32) -> Outcome {
    Outcome {
        kind,
        rule,
        cell: 0,
        runs: 0,
        removed: 0,
    }
}

impl From<Work> for Outcome {
    fn from(work: Work) -> Outcome {
        Outcome {
            kind: 0,
            rule: 0,
            cell: 0,
            runs: work.runs,
            removed: work.removed,
        }
    }
}

impl From<Failure> for Outcome {
    fn from(failure: Failure) -> Outcome {
        let cell = match failure.spot {
            Spot::Cell(cell) => cell.min(191) as u32,
            Spot::Tally => 192,
        };
        Outcome {
            kind: 1,
            rule: failure.rule.min(MOST_RULES) as u32,
            cell,
            runs: failure.work.runs,
            removed: failure.work.removed,
        }
    }
}

impl From<PlanFault> for Outcome {
    fn from(fault: PlanFault) -> Outcome {
        plain_outcome(4, u32::from(fault.report().number))
    }
}

impl From<Start> for Outcome {
    fn from(start: Start) -> Outcome {
        match start {
            Start::Settled(work) => Outcome::from(work),
            Start::Void(failure) => Outcome::from(failure),
            Start::Short => Outcome::from(PlanFault::Workspace),
        }
    }
}

impl From<Try> for Outcome {
    fn from(tried: Try) -> Outcome {
        match tried {
            Try::Settled(work) => Outcome::from(work),
            Try::Failed(failure) => Outcome::from(failure),
            Try::Own => plain_outcome(2, 0),
        }
    }
}

// How many levels are open. (No `From<usize>`: a bare number is no level.)
fn level_outcome(level: usize) -> Outcome {
    plain_outcome(3, level.min(16) as u32)
}

// What came of a call, or why it did not go through. (Like `answer_to` in the trials: each makes a type of its own crate.)
fn outcome_of<T, E>(answer: Result<T, E>) -> Outcome
where
    Outcome: From<T> + From<E>,
{
    match answer {
        Ok(told) => Outcome::from(told),
        Err(fault) => Outcome::from(fault),
    }
}

impl From<Settled> for Outcome {
    fn from(settled: Settled) -> Outcome {
        outcome_of(settled)
    }
}

// Settles each case in place. (Here and below a let-else answers C with false.)
#[unsafe(no_mangle)]
pub extern "C" fn kernel_settle(
    heap: Global,
    set: u16,
    word: &[u8],
    steps: &[u8],
    rules: &[RuleFields],
    cases: &mut [Snapshot],
    outcomes: &mut [Outcome],
    workspace: &mut [u64],
) -> bool {
    let Some(family) = families_of(heap, set, word, steps, rules) else {
        return false;
    };
    for (case, outcome) in cases.iter_mut().zip(outcomes.iter_mut()) {
        *outcome = outcome_of(settling::settle(&family, case, workspace));
    }
    true
}

// A draft with these masks; every duty is open where a mask is empty.
fn draft_of(cells: &[u16; 192]) -> Draft {
    let mut draft = Draft::new();
    for (cell, mask) in cells.iter().enumerate() {
        let _ = draft.set_range(cell, 1, *mask);
    }
    draft
}

// (The kinds are numbers in the C interface.)
fn make(plan: &mut Plan<Families<'_>>, call: CallFields, workspace: &mut [u64]) -> Outcome {
    let target = call.target as usize;
    match call.kind {
        0 => outcome_of(plan.decide(target, (call.mask & 0xffff) as u16, workspace)),
        1 => outcome_of(plan.bound(target, call.mask, workspace)),
        2 => plan.mark().map_or_else(Outcome::from, level_outcome),
        _ => plan.back().map_or_else(Outcome::from, level_outcome),
    }
}

// What a plan holds.
fn copy_out(plan: &Plan<Families<'_>>, end: &mut Snapshot) {
    for (cell, mask) in end.cells.iter_mut().enumerate() {
        *mask = plan.cell(cell).unwrap_or(0);
    }
    for (rule, tally) in end.tallies.iter_mut().enumerate() {
        *tally = plan.tally(rule).unwrap_or(0);
    }
}

// Starts a plan, makes the calls in order, and tells how each went and what the plan then holds. The
// first outcome is that of the start.
#[unsafe(no_mangle)]
pub extern "C" fn kernel_tries(
    heap: Global,
    set: u16,
    word: &[u8],
    steps: &[u8],
    rules: &[RuleFields],
    cells: &[u16; 192],
    calls: &[CallFields],
    outcomes: &mut [Outcome],
    end: &mut Snapshot,
    workspace: &mut [u64],
) -> bool {
    let Some(family) = families_of(heap, set, word, steps, rules) else {
        return false;
    };
    let Some((first, rest)) = outcomes.split_first_mut() else {
        return false;
    };
    let (mut plan, start) = draft_of(cells).start(family, workspace);
    *first = Outcome::from(start);
    for (call, outcome) in calls.iter().zip(rest.iter_mut()) {
        *outcome = make(&mut plan, *call, workspace);
    }
    copy_out(&plan, end);
    true
}
