// Rules as they are written down: a row of cells, a sense and a start tally.
//
// Each is checked once, where it is made, and what is made keeps in its type what was checked. (What
// a rule counts is its automaton, which the family holds; what a run does is in the crate `runs`.)
#![tactic(auto)]

ghost use Rattle.std.specs.Prelude.{◌≡◌, ℕ, ◌^◌, ◌<◌, ◌≤◌, min, length, MatchOption, MatchResult, slice_index};
ghost use Rattle.refusals.specs.declared.PostFault.TheVariants.{EmptyTally};
ghost use Rattle.refusals.specs.Posting.{Refusing};
ghost use Rattle.rules.specs.Rows.{GoodRow, Different, RowFault, StoodBefore};
ghost use Rattle.rules.specs.Senses.{sense_number, SenseFault};

use refusals::{PostError, PostFault};
use std::alloc::Global;

// How a row's total has to stand to a count in order to meet it.
#[derive(Clone, Copy, PartialEq, Eq, Debug)]
pub enum Sense {
    AtMost,
    AtLeast,
    Exactly,
}

// The sense that a number stands for.
impl TryFrom<u8> for Sense {
    type Error = PostFault;

    ghost try_from_gives = { λ number r. MatchResult r (λ s. sense_number s ≡ number) (SenseFault number) };

    fn try_from(number: u8) -> Result<Sense, PostFault> {
        match number {
            0 => Ok(Sense::AtMost),
            1 => Ok(Sense::AtLeast),
            2 => Ok(Sense::Exactly),
            _ => Err(PostFault::Sense),
        }
    }
}

// The first cell that stood before. (A loop: with `position` the proof did not close.)
fn first_repeat(cells: &[u8]) -> Option<usize>
    ensures { MatchOption result ((i : ℕ) → i < length cells.now → StoodBefore cells.now i → ⊥) (λ i. (i < length cells.now) × StoodBefore cells.now i × ((j : ℕ) → j < i → StoodBefore cells.now j → ⊥)) }
{
    for (i, cell) in cells.iter().enumerate() {
        if cells[..i].contains(cell) {
            return Some(i);
        }
    }
    None
}

// Whether the cells make a row: else what is wrong with them.
fn check_row(cells: &[u8], limit: usize) -> Result<(), PostFault>
    ensures { MatchResult result (λ _. GoodRow limit cells.now) (RowFault limit cells.now) }
{
    if cells.len() < 1 || cells.len() > 64 {
        return Err(PostFault::Length {
            place: cells.len().min(64),
        });
    }
    if let Some(place) = cells.iter().position(|cell| *cell as usize >= limit) {
        return Err(PostFault::Cell { place });
    }
    match first_repeat(cells) {
        Some(place) => Err(PostFault::Repeated { place }),
        None => Ok(()),
    }
}

// The cells that a rule reads, in order: 1 to 64 different ones of the 192.
#[derive(Drop)]
pub struct Row {
    cells: Vec<u8>,
    ghost some: { 1 ≤ length cells.items },
    ghost few: { length cells.items ≤ 64 },
    ghost below: { (i : ℕ) → i < length cells.items → slice_index cells.items i < 192 },
    ghost different: { Different cells.items },
}

impl Row {
    // The limit is that of the plan's cells where it has fewer than 192.
    pub fn new(heap: Global, cells: &[u8], limit: usize) -> Result<Row, PostError>
        ensures { MatchResult result (λ row. GoodRow (min limit 192) cells.now × (row.cells.items ≡ cells.now)) (Refusing (RowFault (min limit 192) cells.now) (GoodRow (min limit 192) cells.now)) }
    {
        check_row(cells, limit.min(192))?;
        let cells = Vec::from_slice(heap, cells)?;
        Ok(Row { cells })
    }

    pub fn cells(&self) -> &[u8]
        ensures { result.now ≡ self.now.cells.items }
    {
        self.cells.as_slice()
    }
}

// A row, when the total meets a count, and the counts that are open at the start: at least one.
#[derive(Drop)]
pub struct Rule {
    row: Row,
    sense: Sense,
    tally: u64,
    ghost open: { 0 < tally },
    ghost fits: { tally < 2 ^ 64 },
}

impl Rule {
    pub fn new(row: Row, sense: Sense, tally: u64) -> Result<Rule, PostFault>
        ensures { MatchResult result (λ rule. (rule.row ≡ row) × (rule.sense ≡ sense) × (rule.tally ≡ tally)) (λ e. (e ≡ EmptyTally) × (tally ≡ 0)) }
    {
        if tally == 0 {
            return Err(PostFault::EmptyTally);
        }
        Ok(Rule { row, sense, tally })
    }

    pub fn row(&self) -> &Row
        ensures { result.now ≡ self.now.row }
    {
        &self.row
    }

    pub fn sense(&self) -> Sense
        ensures { result ≡ self.now.sense }
    {
        self.sense
    }

    pub fn tally(&self) -> u64
        ensures { result ≡ self.now.tally }
    {
        self.tally
    }
}
