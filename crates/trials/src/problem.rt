// What a plan is made from, as plain data: both implementations read it, and neither owns it.
use std::alloc::Global;

// How many cells there are.
pub const CELLS: usize = 192;

// How many rules a plan has at the most.
pub const RULES: usize = 72;

// How many numbers a workspace needs.
pub const WORKSPACE: usize = 4160;

// What a rule counts with.
#[derive(Clone, Copy, PartialEq, Eq)]
pub enum Kind {
    Among,
    Word,
    Table,
}

// How a row's total has to stand to a count.
#[derive(Clone, Copy)]
pub enum Sense {
    AtMost,
    AtLeast,
    Exactly,
}

// A rule as it is posted.
#[derive(Drop)]
pub struct Posted {
    pub kind: Kind,
    pub sense: Sense,
    pub tally: u64,
    pub cells: Vec<u8>,
}

// The masks of all cells, the three automata, and the rules in their order: by kind. (The table's states
// and bytes are as a file has them, and may not fit one another.)
#[derive(Drop)]
pub struct Problem {
    pub cells: [u16; CELLS],
    pub set: u16,
    pub word: Vec<u8>,
    pub classes: [u8; 16],
    pub states: u8,
    pub steps: Vec<u8>,
    pub rules: Vec<Posted>,
}

impl Problem {
    // Every duty open in every cell, and no rule yet.
    pub fn new(heap: Global) -> Problem {
        Problem {
            cells: [0xffff; CELLS],
            set: 0,
            word: Vec::new(heap),
            classes: [0, 1, 2, 3, 4, 5, 6, 7, 8, 9, 10, 11, 12, 13, 14, 15],
            states: 1,
            steps: Vec::new(heap),
            rules: Vec::new(heap),
        }
    }
}

// What is asked of a plan that runs.
#[derive(Clone, Copy)]
pub enum Request {
    Decide { cell: usize, mask: u16 },
    Bound { rule: usize, tally: u64 },
    Mark,
    Back,
    Cell(usize),
    Tally(usize),
    Figures(usize),
}

// A request, and how many numbers the lent workspace has.
#[derive(Clone, Copy)]
pub struct Call {
    pub request: Request,
    pub workspace: usize,
}

// A call with enough workspace.
impl From<Request> for Call {
    fn from(request: Request) -> Call {
        Call {
            request,
            workspace: WORKSPACE,
        }
    }
}
