// Counters: what reading a sequence of duties shows, duty by duty, from the meaning of each kind.
use crate::problem::{Kind, Problem};
use std::alloc::{AllocError, Global};

// What a rule counts with.
#[derive(Clone, Copy)]
pub enum Counter<'a> {
    Among {
        set: u16,
    },
    Word {
        word: &'a [u8],
        classes: &'a [u8; 16],
    },
    Table {
        steps: &'a [u8],
    },
}

// The counter of a kind.
pub fn counter_of<'a>(problem: &'a Problem, kind: Kind) -> Counter<'a> {
    match kind {
        Kind::Among => Counter::Among { set: problem.set },
        Kind::Word => Counter::Word {
            word: problem.word.as_slice(),
            classes: &problem.classes,
        },
        Kind::Table => Counter::Table {
            steps: problem.steps.as_slice(),
        },
    }
}

// How far a sequence has been read: the duties since the latest occurrence of the word (as classes),
// the state, the states before each duty so far, and the total.
#[derive(Drop)]
pub struct Reading {
    text: Vec<u8>,
    pub state: usize,
    pub states: Vec<usize>,
    pub total: u64,
}

// The length of the longest proper prefix of the word with which the text ends.
fn matched(word: &[u8], text: &[u8]) -> usize {
    (1..word.len())
        .rev()
        .find(|length| text.ends_with(&word[0..*length]))
        .unwrap_or(0)
}

impl Reading {
    pub fn new(heap: Global) -> Reading {
        Reading {
            text: Vec::new(heap),
            state: 0,
            states: Vec::new(heap),
            total: 0,
        }
    }

    // Nothing read yet.
    fn reset(&mut self) {
        self.text.clear();
        self.states.clear();
        self.state = 0;
        self.total = 0;
    }

    // One class more, where a word is looked for.
    fn spell(&mut self, word: &[u8], class: u8) -> Result<(), AllocError> {
        self.text.push(class)?;
        if self.text.as_slice().ends_with(word) {
            self.text.clear();
            self.state = 0;
            self.total = self.total.saturating_add(1);
        } else {
            self.state = matched(word, self.text.as_slice());
        }
        Ok(())
    }

    // One duty more.
    fn step(&mut self, counter: Counter, duty: u8) -> Result<(), AllocError> {
        self.states.push(self.state)?;
        let duty_index = usize::from(duty);
        match counter {
            Counter::Among { set } => {
                let added = (set >> (duty % 16)) & 1;
                self.total = self.total.saturating_add(u64::from(added));
            }
            Counter::Word { word, classes } => {
                let class = classes.get(duty_index).copied().unwrap_or(0);
                self.spell(word, class)?;
            }
            Counter::Table { steps } => {
                let index = self.state.saturating_mul(16).saturating_add(duty_index);
                let step = steps.get(index).copied().unwrap_or(0);
                self.state = usize::from(step / 16);
                self.total = self.total.saturating_add(u64::from(step % 16));
            }
        }
        Ok(())
    }

    // Reads a whole sequence, from the start.
    pub fn read(&mut self, counter: Counter, sequence: &[u8]) -> Result<(), AllocError> {
        self.reset();
        for duty in sequence {
            self.step(counter, *duty)?;
        }
        Ok(())
    }
}
