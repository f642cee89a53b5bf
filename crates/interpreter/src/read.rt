// Lines, carried out: the calls that a program makes for each line of a file. (What they share is
// `read_line`; each hands its frame to another type.)
ghost use Rattle.std.specs.Prelude.{◌≡◌, true, length, MatchResult};
ghost use Rattle.planning.specs.Views.{view};
ghost use Rattle.posting.specs.Families.{rules_meaning};
ghost use Rattle.posting.specs.Sheets.{sheet_of};
ghost use Rattle.interpreter.specs.Calls.{leaves_workspace};
ghost use Rattle.interpreter.specs.Lines.{Opens, NotOpened, DraftLine, NoDraftLine, CallLine, NoCallLine};

use crate::file::{FilePlan, Told};
use posting::drafting::{Drafted, FileDraft};
use refusals::{FrameFault, LineError, LineFault};
use std::alloc::Global;
use wire::digits::FrameBytes;
use wire::frame::Frame;
use wire::lines::Line;
use wire::order::Phase;
use wire::reader::read_line;

// The draft that a file's first line opens.
pub fn open(heap: Global, line: Line) -> Result<FileDraft, LineFault>
    ensures { MatchResult result (λ d. Opens line.entry.text.now line.entry.ended (sheet_of d)) (NotOpened line.entry.text.now line.entry.ended) }
{
    let mut bytes = FrameBytes::new();
    let (_, frame) = read_line(Phase::Fresh, line, &mut bytes)?;
    match frame {
        Frame::Size { cells } => Ok(FileDraft::new(heap, cells)?),
        _ => Err(LineFault::Frame(FrameFault::Order)),
    }
}

// Carries out a line before the start.
pub fn draft_line(draft: &mut FileDraft, heap: Global, line: Line) -> Result<Drafted, LineError>
    ensures { MatchResult result (DraftLine line.entry.text.now line.entry.ended (sheet_of draft.old) (sheet_of draft.new)) (λ e. (sheet_of draft.new ≡ sheet_of draft.old) × NoDraftLine line.entry.text.now line.entry.ended (sheet_of draft.old) e) }
{
    let mut bytes = FrameBytes::new();
    let (_, frame) = read_line(Phase::Draft, line, &mut bytes)?;
    Ok(draft.take(heap, frame)?)
}

// Carries out a line after the start.
pub fn plan_line<'a>(
    plan: &mut FilePlan<'a>,
    line: Line,
    workspace: &mut [u64],
) -> Result<Told, LineFault>
    ensures workspace { leaves_workspace result ≡ true → workspace.new ≡ workspace.old }
    ensures same { (plan.new.size ≡ plan.old.size) × (plan.new.plan.held.family ≡ plan.old.plan.held.family) }
    ensures tells { MatchResult result (λ t. CallLine line.entry.text.now line.entry.ended (rules_meaning plan.old.plan.held.family) plan.old.size.cells (length workspace.old) (view plan.old.plan) t (view plan.new.plan)) (λ e. (view plan.new.plan ≡ view plan.old.plan) × NoCallLine line.entry.text.now line.entry.ended e) }
{
    let mut bytes = FrameBytes::new();
    let (_, frame) = read_line(Phase::Running, line, &mut bytes)?;
    Ok(plan.take(frame, workspace)?)
}
