// One run of one rule, and a row's figures, by looking at every sequence there is.
use crate::answer::Figures;
use crate::plain::counters::{Counter, Reading};
use crate::plain::sequences::Odometer;
use crate::problem::Sense;
use std::alloc::{AllocError, Global};

// What a run leaves: of the masks along the row, and of the tally.
#[derive(Drop)]
pub struct Left {
    pub masks: Vec<u16>,
    pub tally: u64,
}

// The totals from a least to a greatest; none where the least is above the greatest.
#[derive(Clone, Copy)]
struct Span {
    least: u64,
    greatest: u64,
}

const NOTHING: Span = Span {
    least: u64::MAX,
    greatest: 0,
};

// Figures of no sequence.
const NO_FIGURES: Figures = Figures {
    least: u64::MAX,
    greatest: 0,
    totals: 0,
};

impl Span {
    // The span with one total more.
    fn with(self, total: u64) -> Span {
        Span {
            least: self.least.min(total),
            greatest: self.greatest.max(total),
        }
    }

    // The counts that it encloses.
    fn counts(self) -> u64 {
        if self.least > self.greatest || self.least > 63 {
            return 0;
        }
        u64::MAX << self.least & u64::MAX >> (63 - self.greatest.min(63))
    }
}

// The counts that a total meets, in a sense.
pub fn met(sense: Sense, total: u64) -> u64 {
    let span = match sense {
        Sense::AtMost => Span {
            least: total,
            greatest: 63,
        },
        Sense::AtLeast => Span {
            least: 0,
            greatest: total,
        },
        Sense::Exactly => NOTHING.with(total),
    };
    span.counts()
}

// Adds the duties of a sequence to the masks, place by place.
fn keep(masks: &mut Vec<u16>, sequence: &[u8]) {
    for (mask, duty) in masks.iter_mut().zip(sequence.iter()) {
        *mask |= 1 << (*duty % 16);
    }
}

// Visits every sequence over the masks, read by the counter.
fn each_reading<F: FnMut(&[u8], &Reading)>(
    heap: Global,
    counter: Counter,
    masks: &[u16],
    mut visit: F,
) -> Result<(), AllocError>
    requires { (f : _) (sequence : _) (reading : _) → F.pre f sequence reading }
{
    let mut reading = Reading::new(heap);
    Odometer::new(heap, masks)?.each(heap, |sequence| {
        reading.read(counter, sequence)?;
        visit(sequence, &reading);
        Ok(())
    })
}

// At most and at least: what is kept is what some sequence uses whose total meets an open count.
fn judge_by_sequences(
    heap: Global,
    counter: Counter,
    sense: Sense,
    masks: &[u16],
    tally: u64,
) -> Result<Left, AllocError> {
    let mut kept = vec![in heap; 0u16; masks.len()]?;
    let mut counts = 0;
    each_reading(heap, counter, masks, |sequence, reading| {
        let met = met(sense, reading.total);
        counts |= met;
        if met & tally != 0 {
            keep(&mut kept, sequence);
        }
    })?;
    Ok(Left {
        masks: kept,
        tally: tally & counts,
    })
}

// The totals by way of each place, state before it and duty there, and by way of each end state.
#[derive(Drop)]
struct Spans {
    through: Vec<Span>,
    at_end: [Span; 16],
}

// Where the span of a place, a state and a duty stands.
fn index_of(place: usize, state: usize, duty: usize) -> usize {
    place
        .saturating_mul(256)
        .saturating_add(state.saturating_mul(16))
        .saturating_add(duty)
}

impl Spans {
    fn new(heap: Global, places: usize) -> Result<Spans, AllocError> {
        Ok(Spans {
            through: vec![in heap; NOTHING; places.saturating_mul(256)]?,
            at_end: [NOTHING; 16],
        })
    }

    // Takes in a sequence that was read.
    fn add(&mut self, reading: &Reading, sequence: &[u8]) {
        for (place, duty) in sequence.iter().enumerate() {
            let state = reading.states.get(place).copied().unwrap_or(0);
            let index = index_of(place, state, usize::from(*duty));
            if let Some(span) = self.through.get_mut(index) {
                *span = span.with(reading.total);
            }
        }
        if let Some(span) = self.at_end.get_mut(reading.state) {
            *span = span.with(reading.total);
        }
    }

    // Whether, from some state, a duty at a place has an open count in its span.
    fn keeps(&self, tally: u64, place: usize, duty: usize) -> bool {
        (0..16usize).any(|state| {
            let span = self.through.get(index_of(place, state, duty)).copied();
            span.unwrap_or(NOTHING).counts() & tally != 0
        })
    }

    // The duties that are kept at a place.
    fn kept(&self, tally: u64, place: usize) -> u16 {
        (0..16usize)
            .filter(|duty| self.keeps(tally, place, *duty))
            .fold(0, |mask, duty| mask | 1 << duty % 16)
    }

    // The duties that are kept at each place.
    fn kept_masks(&self, heap: Global, tally: u64, places: usize) -> Result<Vec<u16>, AllocError> {
        (0..places)
            .map(|place| self.kept(tally, place))
            .collect(heap)
    }

    // The counts that some end state's span encloses.
    fn counts(&self) -> u64 {
        self.at_end
            .iter()
            .fold(0, |counts, span| counts | span.counts())
    }
}

// Exactly: what is kept is what has an open count between the least and the greatest total by its way.
fn judge_by_spans(
    heap: Global,
    counter: Counter,
    masks: &[u16],
    tally: u64,
) -> Result<Left, AllocError> {
    let mut spans = Spans::new(heap, masks.len())?;
    each_reading(heap, counter, masks, |sequence, reading| {
        spans.add(reading, sequence);
    })?;
    Ok(Left {
        masks: spans.kept_masks(heap, tally, masks.len())?,
        tally: tally & spans.counts(),
    })
}

// What one run of a rule leaves.
pub fn judge(
    heap: Global,
    counter: Counter,
    sense: Sense,
    masks: &[u16],
    tally: u64,
) -> Result<Left, AllocError> {
    match sense {
        Sense::AtMost | Sense::AtLeast => judge_by_sequences(heap, counter, sense, masks, tally),
        Sense::Exactly => judge_by_spans(heap, counter, masks, tally),
    }
}

// The figures of a row; none where it has no sequence.
pub fn figures(
    heap: Global,
    counter: Counter,
    masks: &[u16],
) -> Result<Option<Figures>, AllocError> {
    let mut figures = None;
    each_reading(heap, counter, masks, |_, reading| {
        let total = reading.total;
        let seen = figures.unwrap_or(NO_FIGURES);
        figures = Some(Figures {
            least: seen.least.min(total),
            greatest: seen.greatest.max(total),
            totals: seen.totals | met(Sense::Exactly, total),
        });
    })?;
    Ok(figures)
}
