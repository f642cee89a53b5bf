// Whole lists of frames, carried out.
//
// The law over every history of a plan stands here, on `perform`, for every list of frames: which draft
// and which family of rules the frames before the start make, which calls the frames after it are, and
// then all that the law says of that draft, that family and those calls.
ghost use Rattle.std.specs.Prelude.{◌≡◌, ℕ, ◌≤◌, length, take, MatchResult, slice_index_or};
ghost use Rattle.interpreter.specs.declared.file.Told.{Told};
ghost use Rattle.planning.specs.Views.{view};
ghost use Rattle.posting.specs.Families.{rules_meaning};
ghost use Rattle.posting.specs.Sheets.{sheet_of};
ghost use Rattle.interpreter.specs.Performing.{is_call, Drafts, NotPosted, Stops, calls_made, Makes, Performed, NotPerformed};

use crate::file::{FilePlan, Told};
use planning::plan::Start;
use posting::drafting::{Drafted, FileDraft};
use posting::kept::KeptTable;
use refusals::{FrameError, FrameFault};
use std::alloc::Global;
use wire::frame::Frame;

// Posts a list of frames, until one is refused. A start is out of order here.
pub fn post_all(draft: &mut FileDraft, heap: Global, posts: &[Frame]) -> Result<(), FrameError>
    ensures { MatchResult result (λ _. Drafts (sheet_of draft.old) posts.now (sheet_of draft.new)) (NotPosted (sheet_of draft.old) posts.now (sheet_of draft.new)) }
{
    for frame in posts {
        match draft.take(heap, *frame)? {
            Drafted::Posted => {}
            Drafted::Start => return Err(FrameError::Fault(FrameFault::Order)),
        }
    }
    Ok(())
}

// Whether a frame asks for a call on a running plan.
fn asks_call(frame: Frame) -> bool
    ensures { result ≡ is_call frame.entry }
{
    matches!(
        frame,
        Frame::Decide { .. } | Frame::Bound { .. } | Frame::Mark | Frame::Back
    )
}

// Makes the calls of a list, until a frame asks for none, or the list or the room for answers is used
// up. Answers how many were made.
pub fn call_all<'a>(
    plan: &mut FilePlan<'a>,
    calls: &[Frame],
    told: &mut [Told],
    workspace: &mut [u64],
) -> usize
    ensures same { (plan.new.size ≡ plan.old.size) × (plan.new.plan.held.family ≡ plan.old.plan.held.family) }
    ensures stops { Stops calls.now (length told.old) result }
    ensures beyond { (k : ℕ) (d : Told) → result ≤ k → slice_index_or told.new k d ≡ slice_index_or told.old k d }
    ensures made { Makes (rules_meaning plan.old.plan.held.family) plan.old.size.cells (length workspace.old) (view plan.old.plan) (take result calls.now) (take result told.new) (view plan.new.plan) }
{
    let number = calls.len().min(told.len());
    // Answers are written at an index: of what a zip of `iter_mut` wrote a proof knows nothing.
    for (i, frame) in calls[..number].iter().enumerate() {
        if !asks_call(*frame) {
            return i;
        }
        let Ok(answer) = plan.take(*frame, workspace) else {
            return i;
        };
        told[i] = answer;
    }
    number
}

// Carries out a file: the frames before the start for a plan of so many cells, the start, and the calls
// after it, as far as they are calls and there is room for answers. Answers the plan, how the start went,
// and the number of calls.
pub fn perform<'a>(
    heap: Global,
    size: u8,
    posts: &[Frame],
    calls: &[Frame],
    told: &mut [Told],
    room: &'a mut KeptTable,
    workspace: &mut [u64],
) -> Result<(FilePlan<'a>, Start, usize), FrameError>
    ensures beyond { (k : ℕ) (d : Told) → calls_made result ≤ k → slice_index_or told.new k d ≡ slice_index_or told.old k d }
    ensures performed { MatchResult result (λ x. Stops calls.now (length told.old) x.2 × Performed size (length workspace.old) posts.now x.1 (take x.2 calls.now) (take x.2 told.new) (view x.0.plan)) (NotPerformed size posts.now) }
{
    let mut draft = FileDraft::new(heap, size)?;
    post_all(&mut draft, heap, posts)?;
    let (mut plan, start) = FilePlan::start(draft, room, workspace);
    let made = call_all(&mut plan, calls, told, workspace);
    Ok((plan, start, made))
}
