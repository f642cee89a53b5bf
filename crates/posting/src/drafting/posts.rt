// Posting: each frame before the start, carried out on a file's draft.
//
// Proved: what a frame posts is as the frame says, or the answer is the first thing wrong with it, and
// then the draft is as it was.
ghost use Rattle.std.specs.Prelude.{◌≡◌, MatchResult};
ghost use Rattle.posting.specs.Sheets.{sheet_of};
ghost use Rattle.posting.specs.Posts.{RulePosted, NoRule, Taken, Refused};

use super::{Drafted, FileDraft};
use crate::counters::Counter;
use refusals::{FrameError, FrameFault, PostError, PostFault};
use rules::{Row, Rule, Sense};
use std::alloc::Global;
use wire::frame::Frame;

impl FileDraft {
    // Posts a rule to the automaton that it names.
    fn post_rule(
        &mut self,
        heap: Global,
        automaton: u8,
        sense: u8,
        tally: u64,
        cells: &[u8],
    ) -> Result<(), PostError>
        ensures { MatchResult result (λ _. RulePosted automaton sense tally cells.now (sheet_of self.old) (sheet_of self.new)) (λ e. (sheet_of self.new ≡ sheet_of self.old) × NoRule automaton sense tally cells.now (sheet_of self.old) e) }
    {
        let row = Row::new(heap, cells, self.size.count())?;
        let sense = Sense::try_from(sense)?;
        let counter = Counter::try_from(automaton)?;
        let rule = Rule::new(row, sense, tally)?;
        match counter {
            Counter::Among => self.among.post(rule),
            Counter::Word => self.word.post(rule),
            Counter::Table => self.table.post(rule),
        }
    }

    // Carries a frame out. One that may not come before the start is out of order.
    pub fn take(&mut self, heap: Global, frame: Frame) -> Result<Drafted, FrameError>
        ensures { MatchResult result (Taken frame.entry (sheet_of self.old) (sheet_of self.new)) (λ e. (sheet_of self.new ≡ sheet_of self.old) × Refused frame.entry (sheet_of self.old) e) }
    {
        match frame {
            Frame::Masks {
                first,
                number,
                mask,
            } => self.set_masks(first, number, mask)?,
            Frame::Among { set } => self.give_set(set)?,
            Frame::Word { duties } => self.give_word(duties)?,
            Frame::Table { states, steps } => self.give_table(states, steps)?,
            Frame::Map { classes } => self.give_map(classes)?,
            Frame::Rule {
                automaton,
                sense,
                tally,
                cells,
            } => self.post_rule(heap, automaton, sense, tally, cells)?,
            Frame::Start => return Ok(Drafted::Start),
            _ => return Err(FrameError::Fault(FrameFault::Order)),
        }
        Ok(Drafted::Posted)
    }
}
