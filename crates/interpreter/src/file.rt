// The running plan of a file, and its roster.
use measures::Figures;
use planning::plan::{Plan, Roster, Start, Try};
use posting::drafting::Rules;
use posting::sizes::PlanSize;
use refusals::PlanFault;

pub mod calls;
pub mod rosters;
pub mod starts;

// A plan of so many cells that a file has started.
#[derive(Drop)]
pub struct FilePlan<'a> {
    size: PlanSize,
    plan: Plan<Rules<'a>>,
}

// The same, published.
#[derive(Drop)]
pub struct FileRoster<'a> {
    size: PlanSize,
    roster: Roster<Rules<'a>>,
}

// What a frame from the start on came to.
#[derive(Clone, Copy)]
pub enum Told {
    Started(Start),
    Decided {
        cell: usize,
        answer: Result<Try, PlanFault>,
    },
    Bounded {
        rule: usize,
        answer: Result<Try, PlanFault>,
    },
    Marked(Result<usize, PlanFault>),
    Backed(Result<usize, PlanFault>),
    Publish,
}

// A cell of a roster and its mask.
#[derive(Clone, Copy)]
pub struct CellLine {
    pub cell: usize,
    pub mask: u16,
}

// A rule of a roster, its tally, and its figures, which a void roster does not have.
#[derive(Clone, Copy)]
pub struct RuleLine {
    pub rule: usize,
    pub tally: u64,
    pub figures: Option<Figures>,
}
