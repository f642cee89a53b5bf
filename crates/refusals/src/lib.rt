// Refusals: why a call is turned down, and how that is told.
//
// A fault is an enum with a case for each reason, and `report` gives its number, the layer that
// found it, and the place at fault. docs/refusals.md has the whole list.
#![tactic(auto)]

ghost use Rattle.std.specs.Prelude.{◌≡◌};
ghost use Rattle.refusals.specs.declared.FrameFault.TheVariants.{Post, Plan};
ghost use Rattle.refusals.specs.declared.LineFault.TheVariants.{Frame};
ghost use Rattle.refusals.specs.declared.Stopped.TheVariants.{Fault, Memory};
ghost use Rattle.refusals.specs.Posting.{frame_error, line_error};
ghost use Rattle.refusals.specs.Reports.{refusal, post_report, plan_report, frame_report, line_report, file_report};

use std::alloc::{AllocError, AllocFailed};

// Which part of the kernel found the fault.
#[derive(Clone, Copy, PartialEq, Eq, Debug)]
pub enum Layer {
    Line,
    Frame,
    Post,
    Plan,
}

// A refusal as it is told: its number, its layer, and the index at fault (0 where there is none).
#[derive(Clone, Copy, PartialEq, Eq, Debug)]
pub struct Report {
    pub number: u8,
    pub layer: Layer,
    pub place: usize,
}

fn told(number: u8, layer: Layer, place: usize) -> Report
    ensures { result ≡ refusal number layer place }
{
    Report {
        number,
        layer,
        place,
    }
}

// What is wrong with something that a draft is made of: an automaton, a row of cells, a rule.
#[derive(Clone, Copy, PartialEq, Eq, Debug)]
pub enum PostFault {
    // A word, a table or a row is too short or too long: the first index that should be there and is not, or the other way round.
    Length { place: usize },
    // A table's number of states is not 1 to 16.
    States,
    // A next state is not below the number of states: the index of the table's byte.
    NextState { place: usize },
    // A cell is not below the limit: its index.
    Cell { place: usize },
    // A range of cells is empty or runs past the last.
    Range,
    // A cell's mask has no duty.
    EmptyMask,
    // A word has a duty, or a map a class, above 15: its index.
    Duty { place: usize },
    // A cell stands twice in a row: the first index whose cell stood before.
    Repeated { place: usize },
    // A number stands for no sense.
    Sense,
    // A number stands for no kind of automaton.
    Automaton,
    // A tally has no count.
    EmptyTally,
    // A pair would have more than 72 rules.
    TooManyRules,
    // That automaton, or a map, was given before.
    GivenBefore,
    // The automaton that a rule counts with was not given.
    NotGiven,
    // The family has 24 rules already.
    FamilyFull,
}

// (A method, as for each fault below: a `From` for `Report` would say no more.)
impl PostFault {
    pub fn report(self) -> Report
        ensures { result ≡ post_report self }
    {
        match self {
            PostFault::Length { place } => told(4, Layer::Post, place),
            PostFault::Cell { place } => told(6, Layer::Post, place),
            PostFault::Range => told(6, Layer::Post, 0),
            PostFault::EmptyMask => told(7, Layer::Post, 0),
            PostFault::States => told(8, Layer::Post, 0),
            PostFault::NextState { place } => told(8, Layer::Post, place),
            PostFault::Duty { place } => told(9, Layer::Post, place),
            PostFault::Repeated { place } => told(10, Layer::Post, place),
            PostFault::Sense => told(11, Layer::Post, 0),
            PostFault::Automaton => told(11, Layer::Post, 0),
            PostFault::EmptyTally => told(12, Layer::Post, 0),
            PostFault::TooManyRules => told(15, Layer::Post, 0),
            PostFault::GivenBefore => told(22, Layer::Post, 0),
            PostFault::NotGiven => told(23, Layer::Post, 0),
            PostFault::FamilyFull => told(24, Layer::Post, 0),
        }
    }
}

// Why a call on lent memory or on a plan is turned down.
#[derive(Clone, Copy, PartialEq, Eq, Debug)]
pub enum PlanFault {
    // A cell is not below 192.
    Cell,
    // A cell's mask has no duty.
    EmptyMask,
    // A tally has no count.
    EmptyTally,
    // A rule's number is not below the number of rules.
    Rule,
    // The lent workspace is too short.
    Workspace,
    // The plan is void.
    Void,
    // Sixteen levels are open.
    LevelsFull,
    // No level is open.
    NoLevel,
}

impl PlanFault {
    pub fn report(self) -> Report
        ensures { result ≡ plan_report self }
    {
        match self {
            PlanFault::Cell => told(6, Layer::Plan, 0),
            PlanFault::EmptyMask => told(7, Layer::Plan, 0),
            PlanFault::EmptyTally => told(12, Layer::Plan, 0),
            PlanFault::Rule => told(13, Layer::Plan, 0),
            PlanFault::Workspace => told(14, Layer::Plan, 0),
            PlanFault::Void => told(25, Layer::Plan, 0),
            PlanFault::LevelsFull => told(26, Layer::Plan, 0),
            PlanFault::NoLevel => told(27, Layer::Plan, 0),
        }
    }
}

// Why a frame is turned down.
#[derive(Clone, Copy, PartialEq, Eq, Debug)]
pub enum FrameFault {
    // The first byte stands for no kind, or there is none.
    Kind,
    // A frame of this kind may not come here.
    Order,
    // A fixed part is too short or too long.
    Fixed,
    // The number of cells is not 1 to 192.
    Cells,
    // What the frame posts is at fault.
    Post(PostFault),
    // The call that the frame asks for is turned down.
    Plan(PlanFault),
}

impl FrameFault {
    pub fn report(self) -> Report
        ensures { result ≡ frame_report self }
    {
        match self {
            FrameFault::Kind => told(3, Layer::Frame, 0),
            FrameFault::Fixed => told(4, Layer::Frame, 0),
            FrameFault::Cells => told(5, Layer::Frame, 0),
            FrameFault::Order => told(21, Layer::Frame, 0),
            FrameFault::Post(fault) => fault.report(),
            FrameFault::Plan(fault) => fault.report(),
        }
    }
}

impl From<PostFault> for FrameFault {
    ghost from_gives = { λ fault r. r ≡ Post fault };

    fn from(fault: PostFault) -> FrameFault {
        FrameFault::Post(fault)
    }
}

impl From<PlanFault> for FrameFault {
    ghost from_gives = { λ fault r. r ≡ Plan fault };

    fn from(fault: PlanFault) -> FrameFault {
        FrameFault::Plan(fault)
    }
}

// Why a line is turned down.
#[derive(Clone, Copy, PartialEq, Eq, Debug)]
pub enum LineFault {
    // It is empty, too long, or has no newline.
    Line,
    // A character is no digit: the index of the first. Or the digits are odd in number: how many.
    Digit { place: usize },
    // The frame that it spells is at fault.
    Frame(FrameFault),
}

impl LineFault {
    pub fn report(self) -> Report
        ensures { result ≡ line_report self }
    {
        match self {
            LineFault::Line => told(1, Layer::Line, 0),
            LineFault::Digit { place } => told(2, Layer::Line, place),
            LineFault::Frame(fault) => fault.report(),
        }
    }
}

impl From<FrameFault> for LineFault {
    ghost from_gives = { λ fault r. r ≡ Frame fault };

    fn from(fault: FrameFault) -> LineFault {
        LineFault::Frame(fault)
    }
}

// Why something was not done: a fault of what was given, or want of memory, which is no fault and has no number.
// (A case with a name: an `Option` of a fault would not say what `None` is.)
#[derive(Clone, Copy, PartialEq, Eq, Debug)]
pub enum Stopped<F> {
    Fault(F),
    Memory,
}

// The same of posting, of a frame and of a line.
pub type PostError = Stopped<PostFault>;

pub type FrameError = Stopped<FrameFault>;

pub type LineError = Stopped<LineFault>;

impl<F> From<AllocError> for Stopped<F> {
    ghost from_gives = { λ _ r. r ≡ Memory };

    fn from(_e: AllocError) -> Stopped<F> {
        Stopped::Memory
    }
}

impl<F, T: Drop> From<AllocFailed<T>> for Stopped<F> {
    ghost from_gives = { λ _ r. r ≡ Memory };

    fn from(_e: AllocFailed<T>) -> Stopped<F> {
        Stopped::Memory
    }
}

// (One for each fault: an impl for every F would overlap with that of AllocError.)
impl From<PostFault> for PostError {
    ghost from_gives = { λ fault r. r ≡ Fault fault };

    fn from(fault: PostFault) -> PostError {
        PostError::Fault(fault)
    }
}

impl From<FrameFault> for FrameError {
    ghost from_gives = { λ fault r. r ≡ Fault fault };

    fn from(fault: FrameFault) -> FrameError {
        FrameError::Fault(fault)
    }
}

impl From<PostFault> for FrameError {
    ghost from_gives = { λ fault r. r ≡ Fault (Post fault) };

    fn from(fault: PostFault) -> FrameError {
        FrameError::Fault(FrameFault::Post(fault))
    }
}

impl From<LineFault> for LineError {
    ghost from_gives = { λ fault r. r ≡ Fault fault };

    fn from(fault: LineFault) -> LineError {
        LineError::Fault(fault)
    }
}

// (Two matches of one shape: a `map` that takes a closure would be no plainer.)
impl From<PostError> for FrameError {
    ghost from_gives = { λ e r. r ≡ frame_error e };

    fn from(e: PostError) -> FrameError {
        match e {
            PostError::Fault(fault) => FrameError::Fault(FrameFault::Post(fault)),
            PostError::Memory => FrameError::Memory,
        }
    }
}

impl From<FrameError> for LineError {
    ghost from_gives = { λ e r. r ≡ line_error e };

    fn from(e: FrameError) -> LineError {
        match e {
            FrameError::Fault(fault) => LineError::Fault(LineFault::Frame(fault)),
            FrameError::Memory => LineError::Memory,
        }
    }
}

// Why a file is turned down: which line, and what is wrong with it.
#[derive(Clone, Copy, PartialEq, Eq, Debug)]
pub struct FileFault {
    pub line: u64,
    pub fault: LineFault,
}

impl FileFault {
    // The line's number stands beside the report, in `line`.
    pub fn report(self) -> Report
        ensures { result ≡ file_report self }
    {
        self.fault.report()
    }
}
