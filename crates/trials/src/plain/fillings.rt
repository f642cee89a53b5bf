// Fillings: a duty for each cell, such that every rule has a count that its row's total meets.
use crate::plain::counters::{Reading, counter_of};
use crate::plain::judging::met;
use crate::plain::rounds::{EMPTY, Masks};
use crate::plain::sequences::Odometer;
use crate::problem::{CELLS, Posted, Problem};
use std::alloc::{AllocError, Global};

// The duties that a filling gives the cells of a row.
pub fn sequence_of(heap: Global, cells: &[u8], filling: &[u8]) -> Result<Vec<u8>, AllocError> {
    cells
        .iter()
        .map(|cell| filling.get(usize::from(*cell)).copied().unwrap_or(0))
        .collect(heap)
}

// The counts of a rule's tally that the total of a filling meets.
fn counts_met(
    heap: Global,
    problem: &Problem,
    rule: &Posted,
    tally: u64,
    filling: &[u8],
) -> Result<u64, AllocError> {
    let sequence = sequence_of(heap, rule.cells.as_slice(), filling)?;
    let mut reading = Reading::new(heap);
    reading.read(counter_of(problem, rule.kind), sequence.as_slice())?;
    Ok(tally & met(rule.sense, reading.total))
}

// Masks with the duties of a filling alone.
fn duties_of(filling: &[u8]) -> Masks {
    let mut used = EMPTY;
    for (mask, duty) in used.cells.iter_mut().zip(filling.iter()) {
        *mask = 1 << (*duty % 16);
    }
    used
}

// A filling's duties, and the counts that it meets, rule by rule; none where some rule has no such count.
fn accepted(
    heap: Global,
    problem: &Problem,
    masks: &Masks,
    filling: &[u8],
) -> Result<Option<Masks>, AllocError> {
    let mut used = duties_of(filling);
    for (number, rule) in problem.rules.iter().enumerate() {
        let counts = counts_met(heap, problem, rule, masks.tally(number), filling)?;
        if counts == 0 {
            return Ok(None);
        }
        used.set_tally(number, counts);
    }
    Ok(Some(used))
}

// Adds to the masks what is open in others.
fn unite(masks: &mut Masks, others: &Masks) {
    for (mask, other) in masks.cells.iter_mut().zip(others.cells.iter()) {
        *mask |= *other;
    }
    for (tally, other) in masks.tallies.iter_mut().zip(others.tallies.iter()) {
        *tally |= *other;
    }
}

// What the accepted fillings of the first cells use, where every row lies in these: nothing where there is none.
pub fn used(
    heap: Global,
    problem: &Problem,
    cells: usize,
    within: &Masks,
) -> Result<Masks, AllocError> {
    let first = &within.cells[..cells.min(CELLS)];
    let mut all = EMPTY;
    Odometer::new(heap, first)?.each(heap, |filling| {
        if let Some(masks) = accepted(heap, problem, within, filling)? {
            unite(&mut all, &masks);
        }
        Ok(())
    })?;
    Ok(all)
}
