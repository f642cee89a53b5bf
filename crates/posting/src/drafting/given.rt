// Masks, automata and the map of a file's draft.
ghost use Rattle.std.specs.Prelude.{◌≡◌, ◌≤◌, ◌⊎◌, MatchResult};
ghost use Rattle.refusals.specs.declared.FrameFault.TheVariants.{Cells};
ghost use Rattle.posting.specs.Sheets.{sheet_of, new_sheet};
ghost use Rattle.posting.specs.Posts.{MasksSet, NoMasks, SetGiven, WordGiven, TableGiven, MapGiven, NotGivenNow, NoWord, NoTable, NoMap};

use super::FileDraft;
use crate::kept::KeptTable;
use crate::sizes::PlanSize;
use crate::slots::Slot;
use automata::{Among, check_classes};
use planning::plan::Draft;
use refusals::{FrameFault, PostFault};
use std::alloc::Global;
use words::Word;

impl FileDraft {
    // Nothing posted yet, for a plan of 1 to 192 cells.
    pub fn new(heap: Global, size: u8) -> Result<FileDraft, FrameFault>
        ensures { MatchResult result (λ d. (1 ≤ size) × (size ≤ 192) × (sheet_of d ≡ new_sheet size)) (λ e. (e ≡ Cells) × ((size ≡ 0) ⊎ (193 ≤ size))) }
    {
        Ok(FileDraft {
            size: PlanSize::try_from(size)?,
            draft: Draft::new(),
            among: Slot::new(heap),
            word: Slot::new(heap),
            table: Slot::new(heap),
            classes: None,
        })
    }

    // Sets the masks of a range of the plan's cells.
    pub(super) fn set_masks(&mut self, first: u8, number: u8, mask: u16) -> Result<(), PostFault>
        ensures { MatchResult result (λ _. MasksSet first number mask (sheet_of self.old) (sheet_of self.new)) (λ e. (sheet_of self.new ≡ sheet_of self.old) × NoMasks first number mask (sheet_of self.old) e) }
    {
        let first = usize::from(first);
        let number = usize::from(number);
        if first + number > self.size.count() {
            return Err(PostFault::Range);
        }
        self.draft.set_range(first, number, mask)
    }

    // Takes the set that rules may count.
    pub(super) fn give_set(&mut self, set: u16) -> Result<(), PostFault>
        ensures { MatchResult result (λ _. SetGiven set (sheet_of self.old) (sheet_of self.new)) (λ e. (sheet_of self.new ≡ sheet_of self.old) × NotGivenNow (sheet_of self.old).set e) }
    {
        self.among.give(Among::new(set))
    }

    // Takes the word that rules may count.
    pub(super) fn give_word(&mut self, duties: &[u8]) -> Result<(), PostFault>
        ensures { MatchResult result (λ _. WordGiven duties.now (sheet_of self.old) (sheet_of self.new)) (λ e. (sheet_of self.new ≡ sheet_of self.old) × NoWord duties.now (sheet_of self.old) e) }
    {
        let word = Word::new(duties)?;
        self.word.give(word)
    }

    // Takes the table that rules may count with.
    pub(super) fn give_table(&mut self, states: u8, steps: &[u8]) -> Result<(), PostFault>
        ensures { MatchResult result (λ _. TableGiven states steps.now (sheet_of self.old) (sheet_of self.new)) (λ e. (sheet_of self.new ≡ sheet_of self.old) × NoTable states steps.now (sheet_of self.old) e) }
    {
        let table = KeptTable::copy_of(states, steps)?;
        self.table.give(table)
    }

    // Takes the classes of the map over the word.
    pub(super) fn give_map(&mut self, classes: &[u8; 16]) -> Result<(), PostFault>
        ensures { MatchResult result (λ _. MapGiven classes.now (sheet_of self.old) (sheet_of self.new)) (λ e. (sheet_of self.new ≡ sheet_of self.old) × NoMap classes.now (sheet_of self.old) e) }
    {
        check_classes(classes)?;
        if self.classes.is_some() {
            return Err(PostFault::GivenBefore);
        }
        self.classes = Some(*classes);
        Ok(())
    }
}
