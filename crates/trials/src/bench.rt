// What every trial works with.
use crate::answer::{Answer, FINE};
use crate::counts::Counts;
use crate::dice::Dice;
use crate::stop::{Stop, What, agree};
use std::alloc::{AllocError, Global};

// As much workspace as is needed, and a little more.
const ROOM: usize = 4200;

// The allocator, the dice of the present case, the workspace to lend, what it held before a call, and the counts.
#[derive(Drop)]
pub struct Bench {
    pub heap: Global,
    pub dice: Dice,
    pub workspace: Vec<u64>,
    before: Vec<u64>,
    pub counts: Counts,
}

impl Bench {
    pub fn new(heap: Global) -> Result<Bench, AllocError> {
        Ok(Bench {
            heap,
            dice: Dice::new(0, 0),
            workspace: vec![in heap; 0u64; ROOM]?,
            before: Vec::new(heap),
            counts: Counts::default(),
        })
    }

    // Fills the workspace with noise, which must not matter.
    pub fn make_noise(&mut self) {
        for number in self.workspace.iter_mut() {
            *number = self.dice.roll();
        }
    }

    // Takes down what the workspace holds.
    pub fn remember(&mut self) -> Result<(), AllocError> {
        self.before.clear();
        self.before.extend_from_slice(self.workspace.as_slice())
    }

    // A refused call must leave the workspace as it was.
    pub fn check_kept(&self, call: u64, answer: Answer) -> Result<(), Stop> {
        if !matches!(answer, Answer::Refused(_)) {
            return Ok(());
        }
        let kept = self.before.as_slice() == self.workspace.as_slice();
        agree(call, What::Workspace, Answer::Holds(kept), FINE)
    }
}
