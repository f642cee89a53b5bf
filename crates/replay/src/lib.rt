// Replaying: one function that starts a plan and then performs a list of calls on it.
//
// The law over every history of a plan stands, whole, on the contract of `replay` (`History` in the
// crate `histories`), for every draft, every family and every list of calls, refused and failed ones
// left in. A program that makes its calls itself has it step by step, from each call's own contract.
#![tactic(auto)]

ghost use Rattle.std.specs.Prelude.{◌≡◌, ℕ, ◌<◌, ◌≤◌, min, map, length, take, slice_index_or};
ghost use Rattle.families.specs.Meaning.{workspace_needed};
ghost use Rattle.histories.specs.Calls.{Answer as LawAnswer};
ghost use Rattle.histories.specs.Law.{History};
ghost use Rattle.histories.specs.Plans.{Called, Ran, voided};
ghost use Rattle.planning.specs.declared.plan.Start.TheVariants.{Short};
ghost use Rattle.planning.specs.Views.{view, started};
ghost use Rattle.replay.specs.Requests.{request_of, call_of, answer_of};

use families::Family;
use measures::Figures;
use planning::plan::{Draft, Plan, Start, Try};
use refusals::PlanFault;

// What is asked of a running plan.
#[derive(Clone, Copy)]
pub enum Request {
    Decide { cell: usize, mask: u16 },
    Bound { rule: usize, tally: u64 },
    Mark,
    Back,
    Cell(usize),
    Tally(usize),
    Figures(usize),
}

// A request, and how many numbers of the lent workspace it may have.
#[derive(Clone, Copy)]
pub struct Call {
    pub request: Request,
    pub workspace: usize,
}

// What a call answers that is not refused.
#[derive(Clone, Copy)]
pub enum Answer {
    Tried(Try),
    Level(usize),
    Mask(u64),
    Told(Option<Figures>),
}

// Makes one request on a lent workspace.
fn ask<F: Family>(
    plan: &mut Plan<F>,
    wanted: Request,
    workspace: &mut [u64],
) -> Result<Answer, PlanFault>
    ensures family { plan.new.held.family ≡ plan.old.held.family }
    ensures called { Called (F.Family.meaning plan.old.held.family) (request_of (length workspace.old) wanted) (answer_of result) (view plan.old) (view plan.new) }
    ensures short { length workspace.old < workspace_needed → workspace.new ≡ workspace.old }
{
    match wanted {
        Request::Decide { cell, mask } => plan.decide(cell, mask, workspace).map(Answer::Tried),
        Request::Bound { rule, tally } => plan.bound(rule, tally, workspace).map(Answer::Tried),
        Request::Mark => plan.mark().map(Answer::Level),
        Request::Back => plan.back().map(Answer::Level),
        Request::Cell(cell) => plan.cell(cell).map(|mask| Answer::Mask(u64::from(mask))),
        Request::Tally(rule) => plan.tally(rule).map(Answer::Mask),
        Request::Figures(rule) => plan.figures(rule, workspace).map(Answer::Told),
    }
}

// Makes one call: its request, on as much of the workspace as it may have.
pub fn make<F: Family>(
    plan: &mut Plan<F>,
    call: Call,
    workspace: &mut [u64],
) -> Result<Answer, PlanFault>
    ensures family { plan.new.held.family ≡ plan.old.held.family }
    ensures called { Called (F.Family.meaning plan.old.held.family) (call_of (length workspace.old) call) (answer_of result) (view plan.old) (view plan.new) }
    ensures short { length workspace.old < workspace_needed → workspace.new ≡ workspace.old }
{
    let room = call.workspace.min(workspace.len());
    ask(plan, call.request, &mut workspace[..room])
}

// Starts a plan and performs the calls in order, until the list or the room for answers is used up.
// Answers the plan, how the start went, and the number of calls performed.
pub fn replay<F: Family>(
    draft: Draft,
    family: F,
    calls: &[Call],
    answers: &mut [Result<Answer, PlanFault>],
    workspace: &mut [u64],
) -> (Plan<F>, Start, usize)
    ensures made { result.2 ≡ min (length calls.now) (length answers.old) }
    ensures history { workspace_needed ≤ length workspace.old → History (F.Family.meaning family) draft.cells (started result.1) (map (call_of (length workspace.old)) (take result.2 calls.now)) (map answer_of (take result.2 answers.new)) (view result.0) }
    ensures short { length workspace.old < workspace_needed → (result.1 ≡ Short) × (view result.0 ≡ voided) × (workspace.new ≡ workspace.old) }
    ensures short_answers { length workspace.old < workspace_needed → Ran (F.Family.meaning family) voided (map (call_of (length workspace.old)) (take result.2 calls.now)) (map answer_of (take result.2 answers.new)) voided }
    ensures beyond { (k : ℕ) (d : LawAnswer) → result.2 ≤ k → slice_index_or (map answer_of answers.new) k d ≡ slice_index_or (map answer_of answers.old) k d }
{
    let (mut plan, start) = draft.start(family, workspace);
    let number = calls.len().min(answers.len());
    // Answers are written at an index: of what a zip of `iter_mut` wrote a proof knows nothing.
    for (i, call) in calls[..number].iter().enumerate() {
        answers[i] = make(&mut plan, *call, workspace);
    }
    (plan, start, number)
}
