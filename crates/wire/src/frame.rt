// Frames: what the bytes after a kind say.
//
// A frame borrows its variable part from the bytes that it was read from; nothing is copied.
//
// Proved: `parse` answers the frame that the bytes show, or that their number does not fit the kind,
// or that a plan cannot have so many cells.
ghost use Rattle.std.specs.Result.{MatchResult};
ghost use Rattle.wire.specs.declared.kind.Kind.TheVariants.{Size, Map, Rule};
ghost use Rattle.wire.specs.Frames.{Body, BodyFault};

use crate::kind::Kind;
use refusals::FrameFault;

// The most cells that a plan has.
const MOST_CELLS: u8 = 192;

// One frame, by its kind.
#[derive(Clone, Copy)]
pub enum Frame<'a> {
    Size {
        cells: u8,
    },
    Masks {
        first: u8,
        number: u8,
        mask: u16,
    },
    Among {
        set: u16,
    },
    Word {
        duties: &'a [u8],
    },
    Table {
        states: u8,
        steps: &'a [u8],
    },
    Map {
        classes: &'a [u8; 16],
    },
    Rule {
        automaton: u8,
        sense: u8,
        tally: u64,
        cells: &'a [u8],
    },
    Start,
    Decide {
        cell: u8,
        mask: u16,
    },
    Bound {
        rule: u8,
        tally: u64,
    },
    Mark,
    Back,
    Publish,
}

// The size of a plan: 1 to 192 cells. (A file's draft judges it again, by the type that it keeps.)
fn size<'a>(rest: &'a [u8]) -> Result<Frame<'a>, FrameFault>
    ensures { MatchResult result (Body Size rest.now) (BodyFault Size rest.now) }
{
    let &[cells] = rest else {
        return Err(FrameFault::Fixed);
    };
    if cells < 1 || cells > MOST_CELLS {
        return Err(FrameFault::Cells);
    }
    Ok(Frame::Size { cells })
}

// A map: its sixteen classes.
fn map<'a>(rest: &'a [u8]) -> Result<Frame<'a>, FrameFault>
    ensures { MatchResult result (Body Map rest.now) (BodyFault Map rest.now) }
{
    // (A let-else: with `map` and `map_err` the proof did not close without lemmas of its own.)
    let Ok(classes) = <&'a [u8; 16]>::try_from(rest) else {
        return Err(FrameFault::Fixed);
    };
    Ok(Frame::Map { classes })
}

// A rule: its automaton, its sense, its tally, and then its cells.
fn rule<'a>(rest: &'a [u8]) -> Result<Frame<'a>, FrameFault>
    ensures { MatchResult result (Body Rule rest.now) (BodyFault Rule rest.now) }
{
    match rest {
        [automaton, sense, t0, t1, t2, t3, t4, t5, t6, t7, cells @ ..] => Ok(Frame::Rule {
            automaton: *automaton,
            sense: *sense,
            tally: u64::from_be_bytes([*t0, *t1, *t2, *t3, *t4, *t5, *t6, *t7]),
            cells,
        }),
        _ => Err(FrameFault::Fixed),
    }
}

// The frame of a kind, from the bytes after it.
pub fn parse<'a>(kind: Kind, rest: &'a [u8]) -> Result<Frame<'a>, FrameFault>
    ensures { MatchResult result (Body kind rest.now) (BodyFault kind rest.now) }
{
    match (kind, rest) {
        (Kind::Size, cells) => size(cells),
        (Kind::Masks, [first, number, m0, m1]) => Ok(Frame::Masks {
            first: *first,
            number: *number,
            mask: u16::from_be_bytes([*m0, *m1]),
        }),
        (Kind::Among, [s0, s1]) => Ok(Frame::Among {
            set: u16::from_be_bytes([*s0, *s1]),
        }),
        (Kind::Word, duties) => Ok(Frame::Word { duties }),
        (Kind::Table, [states, steps @ ..]) => Ok(Frame::Table {
            states: *states,
            steps,
        }),
        (Kind::Map, classes) => map(classes),
        (Kind::Rule, fields) => rule(fields),
        (Kind::Start, []) => Ok(Frame::Start),
        (Kind::Decide, [cell, m0, m1]) => Ok(Frame::Decide {
            cell: *cell,
            mask: u16::from_be_bytes([*m0, *m1]),
        }),
        (Kind::Bound, [rule, t0, t1, t2, t3, t4, t5, t6, t7]) => Ok(Frame::Bound {
            rule: *rule,
            tally: u64::from_be_bytes([*t0, *t1, *t2, *t3, *t4, *t5, *t6, *t7]),
        }),
        (Kind::Mark, []) => Ok(Frame::Mark),
        (Kind::Back, []) => Ok(Frame::Back),
        (Kind::Publish, []) => Ok(Frame::Publish),
        _ => Err(FrameFault::Fixed),
    }
}
