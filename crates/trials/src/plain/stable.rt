// The largest masks from which no rule takes anything, found by trying all masks below given ones.
use crate::plain::rounds;
use crate::plain::rounds::Masks;
use crate::problem::{CELLS, Problem, RULES};
use std::alloc::{AllocError, Global};

// Where a value is open: in a cell's mask, or in a rule's tally.
#[derive(Clone, Copy)]
enum Place {
    Cell(usize),
    Tally(usize),
}

// A value that is open somewhere: a duty of a cell, or a count of a tally.
#[derive(Clone, Copy)]
struct Value {
    place: Place,
    member: u32,
}

// Adds the values that are open at a place.
fn add_values(values: &mut Vec<Value>, place: Place, mask: u64) -> Result<(), AllocError> {
    for member in (0..64u32).filter(|member| (mask >> *member) & 1 == 1) {
        values.push(Value { place, member })?;
    }
    Ok(())
}

// Every value of the first cells, so many, and of every rule.
fn values_of(
    heap: Global,
    problem: &Problem,
    cells: usize,
    masks: &Masks,
) -> Result<Vec<Value>, AllocError> {
    let mut values = Vec::new(heap);
    for (cell, mask) in masks.cells.iter().enumerate().take(cells) {
        add_values(&mut values, Place::Cell(cell), u64::from(*mask))?;
    }
    for (rule, tally) in masks.tallies.iter().enumerate().take(problem.rules.len()) {
        add_values(&mut values, Place::Tally(rule), *tally)?;
    }
    Ok(values)
}

// Masks with nothing open in the first cells and in the tallies.
fn emptied(cells: usize, within: &Masks) -> Masks {
    let mut masks = *within;
    masks.tallies = [0; RULES];
    masks.cells[..cells.min(CELLS)].fill(0);
    masks
}

// Masks with the values of a choice alone in the first cells and in the tallies.
fn chosen(values: &[Value], choice: u64, cells: usize, within: &Masks) -> Masks {
    let mut masks = emptied(cells, within);
    for (i, value) in values.iter().enumerate() {
        if i < 64 && (choice >> i) & 1 == 1 {
            let member = value.member;
            match value.place {
                Place::Cell(cell) => masks.set_cell(cell, masks.cell(cell) | 1 << (member % 16)),
                Place::Tally(rule) => {
                    masks.set_tally(rule, masks.tally(rule) | 1 << (member % 64));
                }
            }
        }
    }
    masks
}

// Whether no rule takes anything from the masks.
fn is_stable(heap: Global, problem: &Problem, masks: &Masks) -> Result<bool, AllocError> {
    for (number, rule) in problem.rules.iter().enumerate() {
        let mut ran = *masks;
        if rounds::run(heap, problem, number, rule, &mut ran)? != 0 {
            return Ok(false);
        }
    }
    Ok(true)
}

// All stable masks within the given ones, united, where every row lies in the first cells. None where there are too many masks to try.
pub fn largest(
    heap: Global,
    problem: &Problem,
    cells: usize,
    within: &Masks,
    most_values: usize,
) -> Result<Option<Masks>, AllocError> {
    let values = values_of(heap, problem, cells, within)?;
    if values.len() > most_values.min(20) {
        return Ok(None);
    }
    let mut united = 0;
    for choice in 0..1u64 << values.len() {
        let masks = chosen(values.as_slice(), choice, cells, within);
        if is_stable(heap, problem, &masks)? {
            united |= choice;
        }
    }
    Ok(Some(chosen(values.as_slice(), united, cells, within)))
}
