// Answers of either implementation, in a form in which they can be compared and printed. They are types
// of their own, so that the plain implementation uses none of the kernel's.
use std::fmt;

// Which part found a fault.
#[derive(Clone, Copy, PartialEq, Eq, Debug)]
pub enum Layer {
    Line,
    Frame,
    Post,
    Plan,
}

// Why a call is turned down: the number, who found it, and the index at fault.
#[derive(Clone, Copy, PartialEq, Eq, Debug)]
pub struct Refusal {
    pub number: u8,
    pub layer: Layer,
    pub place: usize,
}

// The runs of a settling and the values that they took.
#[derive(Clone, Copy, PartialEq, Eq, Debug)]
pub struct Work {
    pub runs: u32,
    pub removed: u32,
}

// The rule at which a settling failed; the empty cell, or none where the rule's tally is empty.
#[derive(Clone, Copy, PartialEq, Eq, Debug)]
pub struct Failure {
    pub rule: usize,
    pub cell: Option<usize>,
    pub work: Work,
}

// The least and the greatest total of a row, and the set of the totals below 64.
#[derive(Clone, Copy, PartialEq, Eq, Debug)]
pub struct Figures {
    pub least: u64,
    pub greatest: u64,
    pub totals: u64,
}

#[derive(Clone, Copy, PartialEq, Eq, Debug)]
pub enum Answer {
    Settled(Work),
    Failed(Failure),
    // A try that leaves nothing of the mask that it names.
    Own,
    Level(usize),
    Mask(u64),
    Told(Option<Figures>),
    Refused(Refusal),
    // Whether something holds that has to.
    Holds(bool),
}

impl fmt::Display for Layer {
    fn fmt<W: fmt::Write>(&self, f: &mut fmt::Formatter<W>) -> fmt::Result {
        let name = match self {
            Layer::Line => "line",
            Layer::Frame => "frame",
            Layer::Post => "post",
            Layer::Plan => "plan",
        };
        write!(f, "{name}")
    }
}

impl fmt::Display for Refusal {
    fn fmt<W: fmt::Write>(&self, f: &mut fmt::Formatter<W>) -> fmt::Result {
        let number = self.number;
        let layer = self.layer;
        let place = self.place;
        write!(f, "refused {number} {layer} {place}")
    }
}

// That nothing is wrong.
pub const FINE: Answer = Answer::Holds(true);

impl From<bool> for Answer {
    fn from(holds: bool) -> Answer {
        Answer::Holds(holds)
    }
}

impl From<Refusal> for Answer {
    fn from(refusal: Refusal) -> Answer {
        Answer::Refused(refusal)
    }
}

// A refusal of a call on a plan, which has no place.
pub fn refused(number: u8) -> Answer {
    Answer::Refused(Refusal {
        number,
        layer: Layer::Plan,
        place: 0,
    })
}
