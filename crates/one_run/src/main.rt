// One run of each rule. Standard input has a line for each day of a crew, its name and the letters of
// the duties still open (F free, E early, L late, N night, S standby), and then a line for each rule:
//
//     rule at-most lates 0 1 2
//
// with its sense (at-most, at-least, exactly), what it counts (lates, nights, standbys, free-pairs,
// late-early) and the counts that are open. For each rule the program prints what one run over all
// the days removes from the days as they were read, duty by duty and count by count.
#![tactic(auto)]

use anyhow::{anyhow, bail};
use automata::{Among, CounterAutomaton};
use refusals::PostError;
use rules::{Row, Rule, Sense};
use std::alloc::Global;
use words::Word;

// The days that were read: their names, and the masks of the plan's cells, of which they are the first.
#[derive(Drop)]
struct Days {
    names: Vec<String>,
    cells: [u16; 192],
}

// The mask of the duty that a letter stands for, empty for any other letter.
fn open_duty(letter: u8) -> u16 {
    match letter {
        b'F' => 1,
        b'E' => 2,
        b'L' => 4,
        b'N' => 8,
        b'S' => 16,
        _ => 0,
    }
}

// The mask of the duties that the letters stand for.
// (The program fortnight has the same two functions: a crate of their own would be no plainer.)
fn open_duties(letters: &str) -> u16 {
    letters
        .bytes()
        .fold(0, |mask, letter| mask | open_duty(letter))
}

fn duty_name(duty: usize) -> &'static str {
    match duty {
        0 => "free",
        1 => "early",
        2 => "late",
        3 => "night",
        4 => "standby",
        _ => "another duty",
    }
}

// (`FromStr` could stand only beside `Sense`.)
fn sense_named(name: &str) -> anyhow::Result<Sense> {
    match name {
        "at-most" => Ok(Sense::AtMost),
        "at-least" => Ok(Sense::AtLeast),
        "exactly" => Ok(Sense::Exactly),
        _ => bail!("a rule has an unknown sense"),
    }
}

// Reads a day: its name, and the letters of its open duties.
fn read_day(heap: Global, days: &mut Days, line: &str) -> anyhow::Result<()> {
    let mut parts = line.split_whitespace();
    let Some(name) = parts.next() else {
        return Ok(());
    };
    let Some(cell) = days.cells.get_mut(days.names.len()) else {
        bail!("there are more than 192 days");
    };
    days.names.push(String::from_str(heap, name)?)?;
    *cell = parts.next().map_or(0, open_duties);
    Ok(())
}

// A row of the first cells, so many.
fn row_of(heap: Global, number: usize) -> anyhow::Result<Row> {
    let cells: Vec<u8> = (0..192).take(number).collect(heap)?;
    Row::new(heap, cells.as_slice(), 192).map_err(|error| match error {
        PostError::Fault(_) => anyhow!("a rule reads 1 to 64 days"),
        PostError::Memory => anyhow!("no memory"),
    })
}

fn word(duties: &[u8]) -> anyhow::Result<Word> {
    Word::new(duties).map_err(|_| anyhow!("a pattern is no word"))
}

// Runs a rule on a copy of the days, and prints what goes.
fn run_and_tell<C: CounterAutomaton>(
    rt: &HostRuntime,
    days: &Days,
    automaton: &C,
    rule: &Rule,
    workspace: &mut [u64],
) -> anyhow::Result<()> {
    let mut cells = days.cells;
    let mut tally = rule.tally();
    match runs::run(automaton, rule, &mut cells, &mut tally, workspace) {
        Ok(removed) => println!(rt; "  {removed} values go")?,
        Err(_) => println!(rt; "  the workspace is too short")?,
    }
    for (name, (before, after)) in days.names.iter().zip(days.cells.iter().zip(&cells)) {
        for duty in masks::each(u64::from(*before & !*after)) {
            let duty = duty_name(duty);
            println!(rt; "  {name}: {duty}")?;
        }
    }
    for count in masks::each(rule.tally() & !tally) {
        println!(rt; "  count {count}")?;
    }
    Ok(())
}

// Runs the rule of a line, whose first word was read.
fn tell_rule(
    rt: &HostRuntime,
    days: &Days,
    line: &str,
    workspace: &mut [u64],
) -> anyhow::Result<()> {
    println!(rt; "{line}")?;
    let mut parts = line.split_whitespace().skip(1);
    let sense = sense_named(parts.next().unwrap_or(""))?;
    let counted = parts.next().unwrap_or("");
    let mut tally = 0u64;
    for part in parts {
        let count = part.parse::<u32>()?;
        if count < 64 {
            tally |= 1 << count;
        }
    }
    let row = row_of(rt.alloc(), days.names.len())?;
    let rule = Rule::new(row, sense, tally).map_err(|_| anyhow!("a rule has no open count"))?;
    match counted {
        "lates" => run_and_tell(rt, days, &Among::new(4), &rule, workspace),
        "nights" => run_and_tell(rt, days, &Among::new(8), &rule, workspace),
        "standbys" => run_and_tell(rt, days, &Among::new(16), &rule, workspace),
        "free-pairs" => run_and_tell(rt, days, &word(&[0, 0])?, &rule, workspace),
        "late-early" => run_and_tell(rt, days, &word(&[2, 1])?, &rule, workspace),
        _ => bail!("a rule counts something unknown"),
    }
}

fn main(rt: HostRuntime) -> anyhow::Result<()> {
    let heap = rt.alloc();
    let mut days = Days {
        names: Vec::new(heap),
        cells: [0; 192],
    };
    let mut workspace = vec![in heap; 0u64; families::WORKSPACE]?;
    for line in rt.lines(heap) {
        let line = line?;
        if line.as_str().starts_with("rule ") {
            tell_rule(&rt, &days, line.as_str(), workspace.as_mut_slice())?;
        } else {
            read_day(heap, &mut days, line.as_str())?;
        }
    }
    Ok(())
}
