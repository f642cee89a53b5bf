// Trials of posting: which words, tables, maps, rows, senses, tallies and ranges are refused, and why.
use crate::answer::{Answer, FINE, Refusal};
use crate::bench::Bench;
use crate::counts::more;
use crate::dice::Dice;
use crate::kernel::{judged, taken};
use crate::plain::faults;
use crate::problem;
use crate::stop::{Stop, What, agree};
use automata::Table;
use planning::plan::Draft;
use refusals::PostError;
use rules::{Row, Rule, Sense};
use std::alloc::Global;
use words::Word;

// What the plain implementation says of a post. (Apart from `judged`, so that neither hides a fault of the other.)
fn plain_answer<T: Drop>(post: Result<T, Refusal>) -> Answer {
    match post {
        Ok(_) => FINE,
        Err(refusal) => Answer::Refused(refusal),
    }
}

// Compares the answers to a post.
fn compare(bench: &mut Bench, kernel: Answer, plain: Answer) -> Result<(), Stop> {
    more(&mut bench.counts.posts);
    if let Answer::Refused(refusal) = plain {
        bench.counts.note_refusal(refusal.number);
    }
    agree(0, What::Answer, kernel, plain)
}

// So many bytes, mostly below a limit.
fn draw_bytes(heap: Global, dice: &mut Dice, length: u64, limit: u64) -> Result<Vec<u8>, Stop> {
    let mut bytes = Vec::new(heap);
    let spoilt = dice.one_in(3);
    for _ in 0..length {
        let any = spoilt && dice.one_in(8);
        let byte = if any { dice.roll() } else { dice.below(limit) };
        bytes.push((byte & 0xff) as u8)?;
    }
    Ok(bytes)
}

fn try_word(bench: &mut Bench) -> Result<(), Stop> {
    let length = bench.dice.between(0, 18);
    let duties = draw_bytes(bench.heap, &mut bench.dice, length, 16)?;
    let kernel = judged(Word::new(duties.as_slice()));
    let plain = plain_answer(faults::check_word(duties.as_slice()));
    compare(bench, kernel, plain)
}

fn try_table(bench: &mut Bench) -> Result<(), Stop> {
    let states = bench.dice.between(0, 18);
    let missing = if bench.dice.one_in(3) {
        bench.dice.below(20)
    } else {
        0
    };
    let excess = if bench.dice.one_in(3) {
        bench.dice.below(20)
    } else {
        0
    };
    let length = (16 * states.min(18) + excess.min(20)).saturating_sub(missing);
    let limit = 16 * states.min(18);
    let steps = draw_bytes(bench.heap, &mut bench.dice, length, limit)?;
    let number = (states % 256) as u8;
    let kernel = judged(Table::new(number, steps.as_slice()));
    let plain = plain_answer(faults::check_table(number, steps.as_slice()));
    compare(bench, kernel, plain)
}

fn try_map(bench: &mut Bench) -> Result<(), Stop> {
    let mut classes = [0; 16];
    let drawn = draw_bytes(bench.heap, &mut bench.dice, 16, 16)?;
    for (class, byte) in classes.iter_mut().zip(drawn.iter()) {
        *class = *byte;
    }
    let kernel = judged(automata::check_classes(&classes));
    compare(bench, kernel, plain_answer(faults::check_duties(&classes)))
}

// A row's cells: one after the other, but for a few.
fn draw_cells(heap: Global, dice: &mut Dice) -> Result<Vec<u8>, Stop> {
    let mut cells = Vec::new(heap);
    let first = dice.below(130);
    let spoilt = dice.one_in(2);
    for i in 0..dice.between(0, 67) {
        let any = spoilt && dice.one_in(16);
        let cell = if any {
            dice.roll()
        } else {
            first.saturating_add(i)
        };
        cells.push((cell & 0xff) as u8)?;
    }
    Ok(cells)
}

// The rule over a row by the kernel.
fn kernel_rule(heap: Global, cells: &[u8], limit: usize, tally: u64) -> Result<Rule, PostError> {
    let row = Row::new(heap, cells, limit)?;
    Ok(Rule::new(row, Sense::Exactly, tally)?)
}

// The same by the plain implementation.
fn check_rule(cells: &[u8], limit: usize, tally: u64) -> Result<(), Refusal> {
    faults::check_row(cells, limit.min(192))?;
    faults::check_tally(tally)
}

// A rule over a row, with a tally that may be empty.
fn try_rule(bench: &mut Bench) -> Result<(), Stop> {
    let cells = draw_cells(bench.heap, &mut bench.dice)?;
    let limit = bench.dice.between(1, 300) as usize;
    let tally = if bench.dice.one_in(4) {
        0
    } else {
        bench.dice.roll() | 1
    };
    let kernel = taken(kernel_rule(bench.heap, cells.as_slice(), limit, tally))?;
    compare(
        bench,
        kernel,
        plain_answer(check_rule(cells.as_slice(), limit, tally)),
    )
}

fn try_range(bench: &mut Bench) -> Result<(), Stop> {
    let first = bench.dice.between(0, 200) as usize;
    let number = bench.dice.between(0, 200) as usize;
    let mask = (bench.dice.set(2) & 0xffff) as u16;
    let mut draft = Draft::new();
    let kernel = judged(draft.set_range(first, number, mask));
    let plain = plain_answer(faults::check_range(first, number, 192, mask));
    compare(bench, kernel, plain)
}

fn try_sense(bench: &mut Bench) -> Result<(), Stop> {
    let number = (bench.dice.below(5) % 256) as u8;
    let kernel = judged(Sense::try_from(number));
    compare(
        bench,
        kernel,
        plain_answer(problem::Sense::try_from(number)),
    )
}

// Posts one of each.
pub fn try_posts(bench: &mut Bench) -> Result<(), Stop> {
    try_word(bench)?;
    try_table(bench)?;
    try_map(bench)?;
    try_rule(bench)?;
    try_range(bench)?;
    try_sense(bench)
}
