// A crew's fortnight. Standard input has a line for each day: its name, and the letters of the duties
// still open there (F free, E early, L late, N night, S standby). For each of a few patterns the
// program prints how few and how many of it there can still be, and which numbers can be reached.
#![tactic(auto)]

use anyhow::anyhow;
use automata::{Among, CounterAutomaton, Map, Table};
use refusals::PostFault;
use std::fmt;
use words::Word;

const FREE: u8 = 0;

const EARLY: u8 = 1;

const LATE: u8 = 2;

const NIGHT: u8 = 3;

// Room for the sweeps of a row of 64 days.
const CODES: usize = 1040;

// The numbers of a mask, as text.
#[derive(Clone, Copy)]
struct Listed(u64);

impl fmt::Display for Listed {
    fn fmt<W: fmt::Write>(&self, f: &mut fmt::Formatter<W>) -> fmt::Result {
        for n in masks::each(self.0) {
            write!(f, " {n}")?;
        }
        Ok(())
    }
}

// The mask of the duty that a letter stands for, empty for any other letter.
fn open_duty(letter: u8) -> u16 {
    match letter {
        b'F' => 1,
        b'E' => 2,
        b'L' => 4,
        b'N' => 8,
        b'S' => 16,
        _ => 0,
    }
}

// The mask of the duties that the letters stand for.
// (The program one_run has the same two functions: a crate of their own would be no plainer.)
fn open_duties(letters: &str) -> u16 {
    letters
        .bytes()
        .fold(0, |mask, letter| mask | open_duty(letter))
}

// The mask of a line: the letters after the day's name.
fn day_mask(line: &str) -> Option<u16> {
    line.split_whitespace().nth(1).map(open_duties)
}

// What went wrong with an automaton.
fn refused(fault: PostFault) -> anyhow::Error {
    match fault {
        PostFault::Length { .. } => anyhow!("a pattern has a wrong length"),
        _ => anyhow!("a pattern has a wrong duty or state"),
    }
}

fn word(duties: &[u8]) -> anyhow::Result<Word> {
    Word::new(duties).map_err(refused)
}

fn table<'a>(states: u8, steps: &'a [u8]) -> anyhow::Result<Table<'a>> {
    Table::new(states, steps).map_err(refused)
}

// Counts each working day that follows five others without a free day: state q has seen q of them.
fn long_stretch() -> [u8; 96] {
    let mut steps = [0; 96];
    for (q, row) in (0..6u8).zip(steps.chunks_exact_mut(16)) {
        row[1..].fill(if q < 5 { 16 * (q + 1) } else { 16 * 5 + 1 });
    }
    steps
}

// Prints what is known of one pattern.
fn tell<C: CounterAutomaton>(
    rt: &HostRuntime,
    name: &str,
    automaton: &C,
    masks: &[u16],
    codes: &mut [u64],
) -> anyhow::Result<()> {
    match sweeps::row_figures(automaton, masks, codes) {
        Ok(Some(figures)) => {
            let least = figures.least;
            let greatest = figures.greatest;
            let reached = Listed(figures.totals);
            println!(rt; "{name}: {least} to {greatest}; possible:{reached}")?;
        }
        Ok(None) => println!(rt; "{name}: no plan is left")?,
        Err(_) => println!(rt; "{name}: the workspace is too short")?,
    }
    Ok(())
}

// Prints the patterns of the days, one after the other.
fn tell_all(rt: &HostRuntime, masks: &[u16], codes: &mut [u64]) -> anyhow::Result<()> {
    tell(rt, "lates", &Among::new(1 << LATE), masks, codes)?;
    tell(rt, "free pairs", &word(&[FREE, FREE])?, masks, codes)?;
    let turn = word(&[LATE, EARLY])?;
    tell(rt, "late followed by early", &turn, masks, codes)?;
    let mut classes = [0, 1, 2, 3, 4, 5, 6, 7, 8, 9, 10, 11, 12, 13, 14, 15];
    classes[NIGHT as usize] = LATE;
    tell(
        rt,
        "late or night followed by early",
        &Map::new(classes, turn),
        masks,
        codes,
    )?;
    let points = [0, 0, 0, 3, 5, 0, 0, 0, 0, 0, 0, 0, 0, 0, 0, 0];
    tell(
        rt,
        "allowance, 3 for a night and 5 for standby",
        &table(1, &points)?,
        masks,
        codes,
    )?;
    let stretch = long_stretch();
    tell(
        rt,
        "sixth working day in a row or later",
        &table(6, &stretch)?,
        masks,
        codes,
    )
}

fn main(rt: HostRuntime) -> anyhow::Result<()> {
    let mut masks = Vec::new(rt.alloc());
    for line in rt.lines(rt.alloc()) {
        let line = line?;
        if let Some(mask) = day_mask(line.as_str()) {
            masks.push(mask)?;
        }
    }
    let days = masks.len();
    println!(rt; "{days} days read")?;
    let mut codes = [0u64; CODES];
    tell_all(&rt, masks.as_slice(), &mut codes)
}
