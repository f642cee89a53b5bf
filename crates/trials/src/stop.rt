// Why the trials end early.
use crate::answer::{Answer, Refusal};
use refusals::{PostError, PostFault};
use std::alloc::{AllocError, AllocFailed};
use std::fmt;

// What was compared.
#[derive(Clone, Copy)]
pub enum What {
    Answer,
    Cell(usize),
    Tally(usize),
    Figures(usize),
    // That a refused call leaves the lent memory as it was.
    Workspace,
    // That every accepted filling lies in the plan's masks.
    Fillings,
    // That a failed try has no accepted filling.
    NoFilling,
    // That the largest stable masks of a failed try have an empty one.
    NoMasks,
    // That the standing decisions go through in another order.
    BareRun,
    // What a line of a file spells, or why it is refused.
    Line(usize),
    // What is printed of a whole file.
    File,
    // A fixed case, by its number.
    Fixed(usize),
}

// Where the two implementations do not agree: at which call of a case, in what, and both answers.
#[derive(Clone, Copy)]
pub struct Difference {
    pub call: u64,
    pub what: What,
    pub kernel: Answer,
    pub plain: Answer,
}

#[derive(Clone, Copy)]
pub enum Stop {
    // There is no memory left.
    Memory,
    // The kernel does not take what is right.
    Unposted(Refusal),
    Different(Difference),
}

impl From<AllocError> for Stop {
    fn from(_e: AllocError) -> Stop {
        Stop::Memory
    }
}

impl<T: Drop> From<AllocFailed<T>> for Stop {
    fn from(_e: AllocFailed<T>) -> Stop {
        Stop::Memory
    }
}

impl From<PostFault> for Stop {
    fn from(fault: PostFault) -> Stop {
        Stop::Unposted(Refusal::from(fault))
    }
}

impl From<PostError> for Stop {
    fn from(error: PostError) -> Stop {
        match error {
            PostError::Fault(fault) => Stop::from(fault),
            PostError::Memory => Stop::Memory,
        }
    }
}

impl fmt::Display for What {
    fn fmt<W: fmt::Write>(&self, f: &mut fmt::Formatter<W>) -> fmt::Result {
        match self {
            What::Answer => write!(f, "the answer"),
            What::Cell(cell) => write!(f, "cell {cell}"),
            What::Tally(rule) => write!(f, "the tally of rule {rule}"),
            What::Figures(rule) => write!(f, "the figures of rule {rule}"),
            What::Workspace => write!(f, "the workspace of a refused call"),
            What::Fillings => write!(f, "the accepted fillings"),
            What::NoFilling => write!(f, "the fillings of a failed try"),
            What::NoMasks => write!(f, "the stable masks of a failed try"),
            What::BareRun => write!(f, "a decision of the bare run"),
            What::File => write!(f, "what is printed of a file"),
            What::Line(number) => write!(f, "line {number}"),
            What::Fixed(number) => write!(f, "fixed case {number}"),
        }
    }
}

// Whether both answers are the same: else the difference.
pub fn agree(call: u64, what: What, kernel: Answer, plain: Answer) -> Result<(), Stop> {
    if kernel == plain {
        return Ok(());
    }
    Err(Stop::Different(Difference {
        call,
        what,
        kernel,
        plain,
    }))
}
