// Trials: the kernel beside a plain implementation that shares nothing with it.
//
// The plain one (the module `plain`) is written from the definitions: it looks at every sequence, and
// keeps of a plan no more than the decisions that stand. Random plans, rules and calls are made on
// both, and after each call everything that can be asked is compared. At the first difference the
// program prints how to run it again, and ends with status 1.
//
//     trials [SEED [CASES]]
#![tactic(auto)]

use crate::bench::Bench;
use crate::counts::Counts;
use crate::dice::Dice;
use crate::drawing::{DEEP, SMALL, TINY, WIDE};
use crate::stop::Stop;
use anyhow::anyhow;
use std::env;

mod answer;
mod bench;
mod counts;
mod dice;
mod drawing;
mod files;
mod fixed;
mod kernel;
mod lines;
mod plain;
mod plans;
mod posts;
mod problem;
mod singles;
mod stop;
mod whole;

// Where the numbers begin, and how many cases there are, unless arguments say otherwise.
const SEED: u64 = 20;

const CASES: u64 = 8000;

// What the program was asked to do.
#[derive(Clone, Copy)]
struct Options {
    seed: u64,
    cases: u64,
}

fn read_options(rt: &HostRuntime) -> anyhow::Result<Options> {
    let mut options = Options {
        seed: SEED,
        cases: CASES,
    };
    let mut words = env::args(rt)?.skip(1);
    if let Some(seed) = words.next() {
        options.seed = seed.as_str().parse::<u64>()?;
    }
    if let Some(cases) = words.next() {
        options.cases = cases.as_str().parse::<u64>()?;
    }
    Ok(options)
}

// One case: rules alone, and then a plan of a size that goes by the case's number.
fn try_case(bench: &mut Bench, seed: u64, case: u64) -> Result<(), Stop> {
    bench.dice = Dice::new(seed, case);
    posts::try_posts(bench)?;
    singles::try_singles(bench)?;
    lines::try_lines(bench, TINY)?;
    match case % 8 {
        0 | 1 => plans::try_plan(bench, TINY, 12),
        2 => plans::try_plan(bench, DEEP, 30),
        3 if case % 64 == 3 => plans::try_plan(bench, WIDE, 8),
        _ => plans::try_plan(bench, SMALL, 24),
    }
}

// Says where a case stopped.
fn tell_stop(rt: &HostRuntime, seed: u64, case: u64, stop: Stop) -> anyhow::Result<()> {
    println!(rt; "seed {seed}, case {case}")?;
    match stop {
        Stop::Memory => println!(rt; "no memory")?,
        Stop::Unposted(refusal) => println!(rt; "not posted: {refusal}")?,
        Stop::Different(difference) => {
            let call = difference.call;
            let what = difference.what;
            println!(rt; "call {call}: {what}")?;
            let kernel = difference.kernel;
            let plain = difference.plain;
            println!(rt; "  kernel: {kernel:?}")?;
            println!(rt; "  plain:  {plain:?}")?;
        }
    }
    Err(anyhow!("the trials ended early"))
}

fn run(rt: &HostRuntime) -> anyhow::Result<()> {
    let options = read_options(rt)?;
    let mut bench = Bench::new(rt.alloc())?;
    if let Err(stop) = fixed::try_fixed(&mut bench) {
        return tell_stop(rt, options.seed, 0, stop);
    }
    for case in 0..options.cases {
        if let Err(stop) = try_case(&mut bench, options.seed, case) {
            return tell_stop(rt, options.seed, case, stop);
        }
    }
    tell_plans(rt, &bench.counts)?;
    tell_singles(rt, &bench.counts)?;
    tell_refusals(rt, &bench.counts)?;
    println!(rt; "0 differences")?;
    Ok(())
}

// Prints how much of each kind was tried with plans.
fn tell_plans(rt: &HostRuntime, counts: &Counts) -> anyhow::Result<()> {
    let plans = counts.plans;
    let void = counts.void_starts;
    let short = counts.short_starts;
    println!(rt; "plans: {plans} ({void} void at the start, {short} on a short workspace)")?;
    let accepted = counts.accepted;
    let removed = counts.removed;
    println!(rt; "tries accepted: {accepted} (which removed {removed} values)")?;
    let own = counts.failed_own;
    let failed = counts.failed;
    let later = counts.failed_later;
    println!(rt; "tries failed as their own: {own}")?;
    println!(rt; "tries failed at a rule: {failed} ({later} in a second or later round)")?;
    let marks = counts.marks;
    let backs = counts.backs;
    let questions = counts.questions;
    println!(rt; "marks: {marks}, backs: {backs}, questions: {questions}")?;
    let bare = counts.bare_runs;
    let again = counts.again;
    let rosters = counts.rosters;
    println!(rt; "bare runs: {bare} (of {again} decisions), rosters: {rosters}")?;
    let largest = counts.largest;
    let fillings = counts.fillings;
    println!(rt; "masks held to all their sub-masks: {largest}, to all fillings: {fillings}")?;
    Ok(())
}

// Prints how much of each kind was tried without a plan.
fn tell_singles(rt: &HostRuntime, counts: &Counts) -> anyhow::Result<()> {
    let [most, least, exactly] = counts.runs;
    println!(rt; "runs alone: at most {most}, at least {least}, exactly {exactly}")?;
    let duties = counts.duties_taken;
    let taken = counts.counts_taken;
    println!(rt; "  which removed {duties} duties and {taken} counts")?;
    let figures = counts.figures;
    let posts = counts.posts;
    println!(rt; "figures alone: {figures}, posts: {posts}")?;
    let files = counts.files;
    let lines = counts.lines;
    let whole = counts.whole_files;
    println!(rt; "lines of files: {lines} (of {files} files), whole files: {whole}")?;
    let fixed = counts.fixed;
    println!(rt; "fixed cases: {fixed}")?;
    Ok(())
}

// Prints how often each refusal came.
fn tell_refusals(rt: &HostRuntime, counts: &Counts) -> anyhow::Result<()> {
    print!(rt; "refusals by number:")?;
    for (number, count) in counts.refusals.iter().enumerate() {
        if *count > 0 {
            print!(rt; " {number}: {count}")?;
        }
    }
    println!(rt; "")?;
    Ok(())
}

fn main(rt: HostRuntime) -> anyhow::Result<()> {
    run(&rt)
}
