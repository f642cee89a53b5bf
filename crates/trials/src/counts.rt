// How much of each kind was tried.
use crate::answer::Answer;
use crate::problem::Sense;

#[derive(Clone, Copy, Default)]
pub struct Counts {
    pub plans: u64,
    pub void_starts: u64,
    pub short_starts: u64,
    pub accepted: u64,
    pub failed_own: u64,
    pub failed: u64,
    pub failed_later: u64,
    pub removed: u64,
    pub marks: u64,
    pub backs: u64,
    pub questions: u64,
    pub refusals: [u64; 28],
    pub bare_runs: u64,
    pub again: u64,
    pub largest: u64,
    pub fillings: u64,
    pub runs: [u64; 3],
    pub duties_taken: u64,
    pub counts_taken: u64,
    pub figures: u64,
    pub posts: u64,
    pub files: u64,
    pub lines: u64,
    pub whole_files: u64,
    pub rosters: u64,
    pub fixed: u64,
}

// One more.
pub fn more(count: &mut u64) {
    *count = count.saturating_add(1);
}

impl Counts {
    // How a start went.
    pub fn note_start(&mut self, answer: Answer) {
        more(&mut self.plans);
        match answer {
            Answer::Failed(_) => more(&mut self.void_starts),
            Answer::Refused(_) => more(&mut self.short_starts),
            _ => {}
        }
    }

    // A refusal, by its number.
    pub fn note_refusal(&mut self, number: u8) {
        if let Some(count) = self.refusals.get_mut(usize::from(number)) {
            more(count);
        }
    }

    // The answer to a call on a plan of so many rules.
    pub fn note_answer(&mut self, rules: usize, answer: Answer) {
        match answer {
            Answer::Settled(work) => {
                more(&mut self.accepted);
                self.removed = self.removed.saturating_add(u64::from(work.removed));
            }
            Answer::Failed(failure) => {
                more(&mut self.failed);
                if failure.work.runs as usize > rules {
                    more(&mut self.failed_later);
                }
            }
            Answer::Own => more(&mut self.failed_own),
            Answer::Mask(_) | Answer::Told(_) => more(&mut self.questions),
            Answer::Refused(refusal) => self.note_refusal(refusal.number),
            Answer::Level(_) | Answer::Holds(_) => {}
        }
    }

    // A run of a rule alone, and how many duties and counts it took.
    pub fn note_run(&mut self, sense: Sense, duties: u32, counts: u32) {
        match sense {
            Sense::AtMost => more(&mut self.runs[0]),
            Sense::AtLeast => more(&mut self.runs[1]),
            Sense::Exactly => more(&mut self.runs[2]),
        }
        self.duties_taken = self.duties_taken.saturating_add(u64::from(duties));
        self.counts_taken = self.counts_taken.saturating_add(u64::from(counts));
    }
}
