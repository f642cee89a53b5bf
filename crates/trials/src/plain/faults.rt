// What is wrong with a word, a table, a row and the rest, looked at in the order of the numbers.
use crate::answer::{Layer, Refusal};
use crate::problem::Sense;

// A fault of something posted.
pub fn fault(number: u8, place: usize) -> Refusal {
    Refusal {
        number,
        layer: Layer::Post,
        place,
    }
}

// The first of some numbers that is not below a limit.
fn first_at_least(numbers: &[u8], limit: usize) -> Option<usize> {
    numbers
        .iter()
        .position(|number| usize::from(*number) >= limit)
}

// The first of some numbers that stood before.
fn first_repeated(numbers: &[u8]) -> Option<usize> {
    let mut stood = [false; 256];
    for (place, number) in numbers.iter().enumerate() {
        let number = *number as usize;
        if stood[number] {
            return Some(place);
        }
        stood[number] = true;
    }
    None
}

// Goes on where there is no place at fault.
fn none_at(number: u8, place: Option<usize>) -> Result<(), Refusal> {
    match place {
        Some(place) => Err(fault(number, place)),
        None => Ok(()),
    }
}

pub fn check_word(duties: &[u8]) -> Result<(), Refusal> {
    if duties.is_empty() || duties.len() > 16 {
        return Err(fault(4, duties.len().min(16)));
    }
    check_duties(duties)
}

// Duties, or classes, are below 16.
pub fn check_duties(duties: &[u8]) -> Result<(), Refusal> {
    none_at(9, first_at_least(duties, 16))
}

pub fn check_table(states: u8, steps: &[u8]) -> Result<(), Refusal> {
    let needed = usize::from(states).saturating_mul(16);
    if steps.len() != needed {
        return Err(fault(4, steps.len().min(needed)));
    }
    if states == 0 || states > 16 {
        return Err(fault(8, 0));
    }
    none_at(8, first_at_least(steps, needed))
}

pub fn check_row(cells: &[u8], limit: usize) -> Result<(), Refusal> {
    if cells.is_empty() || cells.len() > 64 {
        return Err(fault(4, cells.len().min(64)));
    }
    none_at(6, first_at_least(cells, limit))?;
    none_at(10, first_repeated(cells))
}

// A rule's tally has a count.
pub fn check_tally(tally: u64) -> Result<(), Refusal> {
    if tally == 0 {
        return Err(fault(12, 0));
    }
    Ok(())
}

// A range of cells of a draft, and its mask.
pub fn check_range(first: usize, number: usize, limit: usize, mask: u16) -> Result<(), Refusal> {
    if number == 0 || first.saturating_add(number) > limit {
        return Err(fault(6, 0));
    }
    if mask == 0 {
        return Err(fault(7, 0));
    }
    Ok(())
}

impl TryFrom<u8> for Sense {
    type Error = Refusal;

    fn try_from(number: u8) -> Result<Sense, Refusal> {
        match number {
            0 => Ok(Sense::AtMost),
            1 => Ok(Sense::AtLeast),
            2 => Ok(Sense::Exactly),
            _ => Err(fault(11, 0)),
        }
    }
}
