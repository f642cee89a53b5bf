// The kinds of frame: what the first byte of a frame stands for.
//
// Proved: a byte gives the kind whose number it is, and is refused where no kind has that number.
ghost use Rattle.std.specs.Prelude.{◌≡◌, MatchResult, ◌≢◌};
ghost use Rattle.refusals.specs.declared.FrameFault.TheVariants as faults;
ghost use Rattle.wire.specs.declared.kind.Kind.{Kind};
ghost use Rattle.wire.specs.Kinds.{kind_number};

use refusals::FrameFault;

// What a frame is about.
#[derive(Clone, Copy, PartialEq, Eq, Debug)]
pub enum Kind {
    // How many cells the plan has.
    Size,
    // A range of cells, and the mask of each.
    Masks,
    // An automaton that counts the duties of a set.
    Among,
    // An automaton that counts a word.
    Word,
    // An automaton that is given by its table.
    Table,
    // A map of duties to classes.
    Map,
    // A rule.
    Rule,
    // The draft is closed and the plan started.
    Start,
    // A cell's mask is narrowed.
    Decide,
    // A rule's tally is narrowed.
    Bound,
    // A level is opened.
    Mark,
    // The latest level is undone.
    Back,
    // The plan is published.
    Publish,
}

// The kind that a byte stands for.
// (Like the other two of numbers, a sense's and an automaton's: they share no case.)
impl TryFrom<u8> for Kind {
    type Error = FrameFault;

    ghost try_from_gives = { λ byte r. MatchResult r (λ k. kind_number k ≡ byte) (λ e. ((k : Kind) → kind_number k ≢ byte) × (e ≡ faults.Kind)) };

    fn try_from(byte: u8) -> Result<Kind, FrameFault> {
        match byte {
            0x01 => Ok(Kind::Size),
            0x02 => Ok(Kind::Masks),
            0x03 => Ok(Kind::Among),
            0x04 => Ok(Kind::Word),
            0x05 => Ok(Kind::Table),
            0x06 => Ok(Kind::Map),
            0x07 => Ok(Kind::Rule),
            0x08 => Ok(Kind::Start),
            0x09 => Ok(Kind::Decide),
            0x0a => Ok(Kind::Bound),
            0x0b => Ok(Kind::Mark),
            0x0c => Ok(Kind::Back),
            0x0d => Ok(Kind::Publish),
            _ => Err(FrameFault::Kind),
        }
    }
}
