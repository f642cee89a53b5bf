// Lines and frames of a file, read from the description of the format.
use crate::answer::{Layer, Refusal};
use std::alloc::{AllocError, AllocFailed, Global};

// The most characters of a line.
const LONGEST: usize = 516;

// A line: its characters, and whether a newline follows. (Both: what is wrong with the characters is told first.)
#[derive(Drop)]
pub struct Line {
    pub text: Vec<u8>,
    pub ended: bool,
}

// Why a line is not carried out.
#[derive(Clone, Copy)]
pub enum Halt {
    Memory,
    Fault(Refusal),
}

impl From<Refusal> for Halt {
    fn from(refusal: Refusal) -> Halt {
        Halt::Fault(refusal)
    }
}

impl From<AllocError> for Halt {
    fn from(_e: AllocError) -> Halt {
        Halt::Memory
    }
}

impl<T: Drop> From<AllocFailed<T>> for Halt {
    fn from(_e: AllocFailed<T>) -> Halt {
        Halt::Memory
    }
}

// How far a file has come.
#[derive(Clone, Copy)]
pub enum Stage {
    First,
    Draft,
    Running,
    Ended,
}

// A frame: its kind, and the bytes after it. The kind is the number that the file has: this reading
// shares no table of kinds with the kernel's.
#[derive(Drop)]
pub struct Frame {
    pub kind: u8,
    pub body: Vec<u8>,
}

// The lines of a file. Characters after the last newline are a line that does not end.
pub fn lines_of(heap: Global, file: &[u8]) -> Result<Vec<Line>, AllocError> {
    let mut lines = Vec::new(heap);
    let mut text = Vec::new(heap);
    for character in file {
        if *character == b'\n' {
            lines.push(Line { text, ended: true })?;
            text = Vec::new(heap);
        } else {
            text.push(*character)?;
        }
    }
    if !text.is_empty() {
        lines.push(Line { text, ended: false })?;
    }
    Ok(lines)
}

fn fault(number: u8, layer: Layer, place: usize) -> Halt {
    Halt::Fault(Refusal {
        number,
        layer,
        place,
    })
}

// What a digit is worth.
fn worth(character: u8) -> Option<u8> {
    let place = b"0123456789abcdef"
        .iter()
        .position(|digit| *digit == character)?;
    Some((place % 16) as u8)
}

// The bytes that a line's digits spell.
fn decode(heap: Global, line: &Line) -> Result<Vec<u8>, Halt> {
    let text = line.text.as_slice();
    if text.is_empty() || text.len() > LONGEST || !line.ended {
        return Err(fault(1, Layer::Line, 0));
    }
    let mut bytes = Vec::new(heap);
    let mut high = None;
    for (place, character) in text.iter().enumerate() {
        let Some(worth) = worth(*character) else {
            return Err(fault(2, Layer::Line, place));
        };
        match high {
            None => high = Some(worth),
            Some(first) => {
                bytes.push(first % 16 * 16 + worth % 16)?;
                high = None;
            }
        }
    }
    if high.is_some() {
        return Err(fault(2, Layer::Line, text.len()));
    }
    Ok(bytes)
}

// Whether a frame of this kind, by its number, may come at this stage.
fn may_come(stage: Stage, kind: u8) -> bool {
    match stage {
        Stage::First => kind == 1,
        Stage::Draft => 2 <= kind && kind <= 8,
        Stage::Running => 9 <= kind,
        Stage::Ended => false,
    }
}

// Whether so many bytes may follow the kind.
fn fits(kind: u8, length: usize) -> bool {
    match kind {
        0x01 => length == 1,
        0x02 => length == 4,
        0x03 => length == 2,
        0x04 => true,
        0x05 => length >= 1,
        0x06 => length == 16,
        0x07 => length >= 10,
        0x09 => length == 3,
        0x0a => length == 9,
        _ => length == 0,
    }
}

// The stage after a frame.
fn after(stage: Stage, kind: u8) -> Stage {
    match kind {
        0x01 => Stage::Draft,
        0x08 => Stage::Running,
        0x0d => Stage::Ended,
        _ => stage,
    }
}

// Reads a line as a frame, and goes on to the stage after it.
pub fn read_frame(heap: Global, line: &Line, stage: &mut Stage) -> Result<Frame, Halt> {
    let bytes = decode(heap, line)?;
    let kind = bytes.first().copied().unwrap_or(0);
    if kind < 1 || kind > 0x0d {
        return Err(fault(3, Layer::Frame, 0));
    }
    if !may_come(*stage, kind) {
        return Err(fault(21, Layer::Frame, 0));
    }
    let body = Vec::from_slice(heap, part(bytes.as_slice(), 1, bytes.len()))?;
    if !fits(kind, body.len()) {
        return Err(fault(4, Layer::Frame, 0));
    }
    let cells = number(body.as_slice());
    if kind == 1 && (cells < 1 || cells > 192) {
        return Err(fault(5, Layer::Frame, 0));
    }
    *stage = after(*stage, kind);
    Ok(Frame { kind, body })
}

// The number that bytes spell, the high byte first; of more than eight bytes the last eight count.
pub fn number(bytes: &[u8]) -> u64 {
    bytes
        .iter()
        .fold(0u64, |number, byte| number << 8 | u64::from(*byte))
}

// Some of the bytes of a body; none where they are not there.
pub fn part<'a>(body: &'a [u8], from: usize, to: usize) -> &'a [u8] {
    body.get(from..to).unwrap_or(&[])
}

// The byte at a place; 0 where there is none.
pub fn byte(body: &[u8], place: usize) -> u8 {
    body.get(place).copied().unwrap_or(0)
}
