// The reader: a line's digits, then the frame's kind, its order and its parts.
//
// Proved: what is read is what the line spells, with the phase that the order gives. Of several
// things wrong, the one that is answered is the first in this order: the line, a digit, the kind, the
// order, the length of a fixed part, the number of cells.
ghost use Rattle.std.specs.Prelude.{◌≡◌, MatchResult};
ghost use Rattle.wire.specs.Digits.{Spelt, bytes_of};
ghost use Rattle.wire.specs.Reading.{Reads, Refused, LineRefused, numbered};

use crate::digits::FrameBytes;
use crate::frame::{Frame, parse};
use crate::kind::Kind;
use crate::lines::Line;
use crate::order::{Phase, next};
use refusals::{FileFault, FrameFault, LineFault};

// The frame that bytes show, and the phase after it.
pub fn read_frame<'a>(phase: Phase, bytes: &'a [u8]) -> Result<(Phase, Frame<'a>), FrameFault>
    ensures { MatchResult result (λ x. Reads phase bytes.now x.0 x.1) (Refused phase bytes.now) }
{
    let [first, rest @ ..] = bytes else {
        return Err(FrameFault::Kind);
    };
    let kind = Kind::try_from(*first)?;
    let after = next(phase, kind)?;
    let frame = parse(kind, rest)?;
    Ok((after, frame))
}

// The frame that a line spells, and the phase after it. Its bytes are put into the room.
pub fn read_line<'a>(
    phase: Phase,
    line: Line,
    room: &'a mut FrameBytes,
) -> Result<(Phase, Frame<'a>), LineFault>
    ensures { MatchResult result (λ x. Spelt line.entry.text.now line.entry.ended × Reads phase (bytes_of line.entry.text.now) x.0 x.1) (LineRefused phase line.entry.text.now line.entry.ended) }
{
    room.decode(line)?;
    let read = read_frame(phase, room.bytes())?;
    Ok(read)
}

// An answer with the number of its line, where it is a refusal.
pub fn at_line<T>(line: u64, answer: Result<T, LineFault>) -> Result<T, FileFault>
    ensures { result ≡ numbered line answer }
{
    answer.map_err(|fault| FileFault { line, fault })
}
