// Drawing whole files of frames: most of them good, the others with some fault.
use crate::dice::Dice;
use crate::drawing::{Scale, draw_problem, draw_request};
use crate::plain::rounds::Masks;
use crate::problem::{Kind, Posted, Problem, Request, Sense};
use std::alloc::{AllocError, Global};

// Appends a byte as two digits.
fn write_byte(file: &mut Vec<u8>, byte: u8) -> Result<(), AllocError> {
    let digits = b"0123456789abcdef";
    file.push(digits[byte as usize / 16])?;
    file.push(digits[byte as usize % 16])?;
    Ok(())
}

// Appends a line of bytes.
fn write_line(file: &mut Vec<u8>, bytes: &[u8]) -> Result<(), AllocError> {
    for byte in bytes {
        write_byte(file, *byte)?;
    }
    file.push(b'\n')?;
    Ok(())
}

// Changes a byte somewhere.
fn change(dice: &mut Dice, bytes: &mut Vec<u8>) {
    let place = dice.below(bytes.len() as u64) as usize;
    let byte = (dice.roll() & 0xff) as u8;
    if let Some(old) = bytes.get_mut(place) {
        *old = byte;
    }
}

// Writes a frame; once in a while with a byte too many or too few, another byte, or twice.
fn write_frame(dice: &mut Dice, file: &mut Vec<u8>, mut bytes: Vec<u8>) -> Result<(), AllocError> {
    match dice.below(160) {
        0 => bytes.push(0)?,
        1 => {
            let _ = bytes.pop();
        }
        2..=4 => change(dice, &mut bytes),
        5 => write_line(file, bytes.as_slice())?,
        _ => {}
    }
    write_line(file, bytes.as_slice())
}

// A frame of a kind, by the number that a file has for it, and the bytes after it. (`spell` in `lines` is
// the like over what the kernel read; neither shares a table of kinds with the kernel.)
fn frame(heap: Global, kind: u8, body: &[u8]) -> Result<Vec<u8>, AllocError> {
    let mut bytes = Vec::new(heap);
    bytes.push(kind)?;
    bytes.extend_from_slice(body)?;
    Ok(bytes)
}

// The masks of the cells in use, a line for each.
fn write_masks(
    heap: Global,
    dice: &mut Dice,
    cells: &[u16],
    file: &mut Vec<u8>,
) -> Result<(), AllocError> {
    for (cell, mask) in cells.iter().enumerate() {
        let [high, low] = mask.to_be_bytes();
        let cell = (cell % 256) as u8;
        write_frame(dice, file, frame(heap, 0x02, &[cell, 1, high, low])?)?;
    }
    Ok(())
}

// The automata, and sometimes no map.
fn write_automata(
    heap: Global,
    dice: &mut Dice,
    problem: &Problem,
    file: &mut Vec<u8>,
) -> Result<(), AllocError> {
    write_frame(dice, file, frame(heap, 0x03, &problem.set.to_be_bytes())?)?;
    if !dice.one_in(4) {
        write_frame(dice, file, frame(heap, 0x06, &problem.classes)?)?;
    }
    write_frame(dice, file, frame(heap, 0x04, problem.word.as_slice())?)?;
    let mut table = frame(heap, 0x05, &[problem.states])?;
    table.extend_from_slice(problem.steps.as_slice())?;
    write_frame(dice, file, table)
}

fn rule_frame(heap: Global, posted: &Posted) -> Result<Vec<u8>, AllocError> {
    let kind = match posted.kind {
        Kind::Among => 3,
        Kind::Word => 4,
        Kind::Table => 5,
    };
    let sense = match posted.sense {
        Sense::AtMost => 0,
        Sense::AtLeast => 1,
        Sense::Exactly => 2,
    };
    let mut bytes = frame(heap, 0x07, &[kind, sense])?;
    bytes.extend_from_slice(&posted.tally.to_be_bytes())?;
    bytes.extend_from_slice(posted.cells.as_slice())?;
    Ok(bytes)
}

// The rules, the last first, so that a file's order is not that of their numbers.
fn write_rules(
    heap: Global,
    dice: &mut Dice,
    rules: &[Posted],
    file: &mut Vec<u8>,
) -> Result<(), AllocError> {
    for posted in rules.iter().rev() {
        write_frame(dice, file, rule_frame(heap, posted)?)?;
    }
    Ok(())
}

// The frame of a request; a question, which has none, is a mark.
fn request_frame(heap: Global, request: Request) -> Result<Vec<u8>, AllocError> {
    match request {
        Request::Decide { cell, mask } => {
            let [high, low] = mask.to_be_bytes();
            frame(heap, 0x09, &[(cell % 256) as u8, high, low])
        }
        Request::Bound { rule, tally } => {
            let mut bytes = frame(heap, 0x0a, &[(rule % 256) as u8])?;
            bytes.extend_from_slice(&tally.to_be_bytes())?;
            Ok(bytes)
        }
        Request::Back => frame(heap, 0x0c, &[]),
        _ => frame(heap, 0x0b, &[]),
    }
}

// So many requests.
fn write_requests(
    heap: Global,
    dice: &mut Dice,
    scale: Scale,
    problem: &Problem,
    file: &mut Vec<u8>,
) -> Result<(), AllocError> {
    let masks = Masks::new(problem);
    for _ in 0..dice.between(0, 12) {
        let request = draw_request(dice, scale, problem, &masks);
        write_frame(dice, file, request_frame(heap, request)?)?;
    }
    Ok(())
}

// Draws a file of a problem of that size.
pub fn draw_file(heap: Global, dice: &mut Dice, scale: Scale) -> Result<Vec<u8>, AllocError> {
    let problem = draw_problem(heap, dice, scale)?;
    let mut file = Vec::new(heap);
    let used = (scale.cells as usize).min(192);
    let size = dice.between(scale.cells, scale.cells.saturating_add(2));
    write_frame(dice, &mut file, frame(heap, 0x01, &[(size % 256) as u8])?)?;
    write_masks(heap, dice, &problem.cells[0..used], &mut file)?;
    if dice.one_in(20) {
        write_rules(heap, dice, problem.rules.as_slice(), &mut file)?;
    }
    write_automata(heap, dice, &problem, &mut file)?;
    write_rules(heap, dice, problem.rules.as_slice(), &mut file)?;
    write_frame(dice, &mut file, frame(heap, 0x08, &[])?)?;
    write_requests(heap, dice, scale, &problem, &mut file)?;
    write_frame(dice, &mut file, frame(heap, 0x0d, &[])?)?;
    if dice.one_in(4) {
        change(dice, &mut file);
    }
    Ok(file)
}
