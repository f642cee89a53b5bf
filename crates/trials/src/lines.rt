// Trials of the lines of drawn files: the frame that a line spells, or why it is refused.
use crate::answer::{Answer, FINE};
use crate::bench::Bench;
use crate::counts::more;
use crate::dice::Dice;
use crate::drawing::Scale;
use crate::files::draw_file;
use crate::plain::frames;
use crate::plain::frames::{Halt, Stage};
use crate::stop::{Stop, What, agree};
use crate::whole::try_whole;
use std::alloc::{AllocError, Global};
use wire::digits::FrameBytes;
use wire::frame::Frame;
use wire::lines::LineBuffer;
use wire::order::Phase;
use wire::reader::read_line;

// The line as the kernel keeps it.
fn buffer_of(text: &[u8]) -> LineBuffer {
    let mut buffer = LineBuffer::new();
    for character in text {
        buffer.push(*character);
    }
    buffer
}

// Appends a kind, by its number as a file has it, and parts of what follows it.
fn spell(bytes: &mut Vec<u8>, kind: u8, first: &[u8], second: &[u8]) -> Result<(), AllocError> {
    bytes.push(kind)?;
    bytes.extend_from_slice(first)?;
    bytes.extend_from_slice(second)
}

// A rule's fixed part, and then its cells.
fn spell_rule(
    bytes: &mut Vec<u8>,
    head: [u8; 2],
    tally: u64,
    cells: &[u8],
) -> Result<(), AllocError> {
    spell(bytes, 0x07, &head, &tally.to_be_bytes())?;
    bytes.extend_from_slice(cells)
}

// The bytes of the frame that the kernel read.
fn spelled(bytes: &mut Vec<u8>, frame: &Frame) -> Result<(), AllocError> {
    match frame {
        Frame::Size { cells } => spell(bytes, 0x01, &[*cells], &[]),
        Frame::Masks {
            first,
            number,
            mask,
        } => spell(bytes, 0x02, &[*first, *number], &mask.to_be_bytes()),
        Frame::Among { set } => spell(bytes, 0x03, &set.to_be_bytes(), &[]),
        Frame::Word { duties } => spell(bytes, 0x04, duties, &[]),
        Frame::Table { states, steps } => spell(bytes, 0x05, &[*states], steps),
        Frame::Map { classes } => spell(bytes, 0x06, *classes, &[]),
        Frame::Rule {
            automaton,
            sense,
            tally,
            cells,
        } => spell_rule(bytes, [*automaton, *sense], *tally, cells),
        Frame::Start => spell(bytes, 0x08, &[], &[]),
        Frame::Decide { cell, mask } => spell(bytes, 0x09, &[*cell], &mask.to_be_bytes()),
        Frame::Bound { rule, tally } => spell(bytes, 0x0a, &[*rule], &tally.to_be_bytes()),
        Frame::Mark => spell(bytes, 0x0b, &[], &[]),
        Frame::Back => spell(bytes, 0x0c, &[], &[]),
        Frame::Publish => spell(bytes, 0x0d, &[], &[]),
    }
}

// Reads a line by the kernel: the bytes of its frame are appended.
fn read_kernel(
    line: &frames::Line,
    phase: &mut Phase,
    bytes: &mut Vec<u8>,
) -> Result<Answer, Stop> {
    let buffer = buffer_of(line.text.as_slice());
    let mut room = FrameBytes::new();
    match read_line(*phase, buffer.line(line.ended), &mut room) {
        Ok((next, frame)) => {
            *phase = next;
            spelled(bytes, &frame)?;
            Ok(FINE)
        }
        Err(fault) => Ok(Answer::from(fault)),
    }
}

// Reads a line by the plain implementation: the bytes of its frame are appended.
fn read_plain(
    heap: Global,
    line: &frames::Line,
    stage: &mut Stage,
    bytes: &mut Vec<u8>,
) -> Result<Answer, Stop> {
    match frames::read_frame(heap, line, stage) {
        Ok(frame) => {
            spell(bytes, frame.kind, frame.body.as_slice(), &[])?;
            Ok(FINE)
        }
        Err(Halt::Fault(refusal)) => Ok(Answer::Refused(refusal)),
        Err(Halt::Memory) => Err(Stop::Memory),
    }
}

// Reads the lines of a file by both, up to one that is refused.
pub fn try_lines(bench: &mut Bench, scale: Scale) -> Result<(), Stop> {
    let heap = bench.heap;
    let file = draw_file(heap, &mut bench.dice, scale)?;
    let mut phase = Phase::Fresh;
    let mut stage = Stage::First;
    for (i, line) in frames::lines_of(heap, file.as_slice())?.iter().enumerate() {
        let mut told = Vec::new(heap);
        let mut known = Vec::new(heap);
        let kernel = read_kernel(line, &mut phase, &mut told)?;
        let plain = read_plain(heap, line, &mut stage, &mut known)?;
        let what = What::Line(i.saturating_add(1));
        agree(0, what, kernel, plain)?;
        let same = told.as_slice() == known.as_slice();
        agree(0, what, Answer::Holds(same), FINE)?;
        more(&mut bench.counts.lines);
        if let Answer::Refused(refusal) = plain {
            bench.counts.note_refusal(refusal.number);
            break;
        }
    }
    more(&mut bench.counts.files);
    try_whole(bench, file.as_slice())
}
