// Fixed cases: the bounds of the kernel, and a failure that is known in full.
use crate::answer::{Answer, FINE, Failure, Layer, Refusal, Work, refused};
use crate::bench::Bench;
use crate::counts::more;
use crate::kernel;
use crate::kernel::{Rules, judged, taken};
use crate::plain::reading::roster_text;
use crate::problem::{Call, Kind, Posted, Problem, Request, Sense, WORKSPACE};
use crate::stop::{Stop, What, agree};
use automata::Among;
use counting::Counting;
use families::Pair;
use planning::plan::Plan;
use planning::plan::drafts::check_workspace;
use rules::{Row, Rule};
use std::alloc::Global;

// The lines of a file: the same plan, and then calls that fail or are refused, each in its own way.
const FILE: [&str; 15] = [
    "0103",
    "0200030003",
    "030002",
    "0703000000000000000002000102",
    "0703010000000000000004000102",
    "08",
    "09000002",
    "0b",
    "09000001",
    "0900ff00",
    "0c",
    "0c",
    "0a000000000000000001",
    "09ff0001",
    "0d",
];

// What carrying it out prints.
const TEXT: [&str; 15] = [
    "6 start ok runs 2 removed 0",
    "7 decide fails rule 1 cell 0 runs 2",
    "8 mark ok level 1",
    "9 decide fails rule 0 cell 0 runs 3",
    "10 decide fails own cell 0 runs 0",
    "11 back ok level 0",
    "12 refused 27 plan 0",
    "13 bound fails own tally 0 runs 0",
    "14 refused 6 plan 0",
    "15 publish ok",
    "cell 0 0003",
    "cell 1 0003",
    "cell 2 0003",
    "rule 0 0000000000000002 0 3",
    "rule 1 0000000000000004 0 3",
];

// Compares a fixed case, and counts it.
fn expect(bench: &mut Bench, number: usize, kernel: Answer, known: Answer) -> Result<(), Stop> {
    more(&mut bench.counts.fixed);
    if let Answer::Refused(refusal) = known {
        bench.counts.note_refusal(refusal.number);
    }
    agree(0, What::Fixed(number), kernel, known)
}

// A rule over the first cells, so many.
fn posted(heap: Global, number: usize, sense: Sense, tally: u64) -> Result<Posted, Stop> {
    let cells = (0..number.min(192)).map(|cell| cell as u8).collect(heap)?;
    Ok(Posted {
        kind: Kind::Among,
        sense,
        tally,
        cells,
    })
}

// Three cells with the duties 0 and 1: at most one 1, and at least two.
fn contrary(heap: Global) -> Result<Problem, Stop> {
    let mut problem = Problem::new(heap);
    problem.set = 2;
    problem.word.push(0)?;
    problem.steps = vec![in heap; 0u8; 16]?;
    for mask in problem.cells.iter_mut().take(3) {
        *mask = 3;
    }
    problem.rules.push(posted(heap, 3, Sense::AtMost, 2)?)?;
    problem.rules.push(posted(heap, 3, Sense::AtLeast, 4)?)?;
    Ok(problem)
}

fn make(bench: &mut Bench, plan: &mut Plan<Rules>, request: Request, workspace: usize) -> Answer {
    let call = Call { request, workspace };
    kernel::make(plan, call, bench.workspace.as_mut_slice())
}

// Neither rule takes anything alone; a decision fails at the second.
fn try_contrary(bench: &mut Bench, plan: &mut Plan<Rules>, start: Answer) -> Result<(), Stop> {
    let work = Work {
        runs: 2,
        removed: 0,
    };
    expect(bench, 1, start, Answer::Settled(work))?;
    let decide = Request::Decide { cell: 0, mask: 2 };
    let failed = make(bench, plan, decide, WORKSPACE);
    let known = Failure {
        rule: 1,
        cell: Some(0),
        work: Work {
            runs: 2,
            removed: 6,
        },
    };
    expect(bench, 2, failed, Answer::Failed(known))?;
    let short = make(bench, plan, decide, WORKSPACE - 1);
    expect(bench, 3, short, refused(14))?;
    let bound = Request::Bound { rule: 0, tally: 1 };
    let short = make(bench, plan, bound, WORKSPACE - 1);
    expect(bench, 4, short, refused(14))?;
    let short = make(bench, plan, Request::Figures(0), WORKSPACE - 1);
    expect(bench, 5, short, refused(14))
}

// Sixteen levels open, and no seventeenth.
fn try_marks(bench: &mut Bench, plan: &mut Plan<Rules>) -> Result<(), Stop> {
    for level in 1..=16usize {
        let mark = make(bench, plan, Request::Mark, 0);
        expect(bench, 6, mark, Answer::Level(level))?;
    }
    let mark = make(bench, plan, Request::Mark, 0);
    expect(bench, 7, mark, refused(26))
}

// All sixteen close, and no more.
fn try_backs(bench: &mut Bench, plan: &mut Plan<Rules>) -> Result<(), Stop> {
    for level in (0..16usize).rev() {
        let back = make(bench, plan, Request::Back, 0);
        expect(bench, 8, back, Answer::Level(level))?;
    }
    let back = make(bench, plan, Request::Back, 0);
    expect(bench, 9, back, refused(27))
}

// 4,160 numbers are a workspace, and one fewer are none.
fn try_workspace(bench: &mut Bench) -> Result<(), Stop> {
    let enough = [0; WORKSPACE];
    let fits = check_workspace(&enough).is_ok();
    expect(bench, 10, Answer::Holds(fits), FINE)?;
    let short = judged(check_workspace(&enough[0..WORKSPACE - 1]));
    expect(bench, 11, short, refused(14))
}

// The answer to a row of so many cells.
fn row_answer(heap: Global, number: usize) -> Result<Answer, Stop> {
    let rule = posted(heap, number, Sense::AtMost, 1)?;
    taken(Row::new(heap, rule.cells.as_slice(), 192))
}

fn post_refusal(number: u8, place: usize) -> Answer {
    Answer::Refused(Refusal {
        number,
        layer: Layer::Post,
        place,
    })
}

// A row has 1 to 64 cells.
fn try_rows(bench: &mut Bench) -> Result<(), Stop> {
    let answer = row_answer(bench.heap, 64)?;
    expect(bench, 12, answer, FINE)?;
    let answer = row_answer(bench.heap, 65)?;
    expect(bench, 13, answer, post_refusal(4, 64))?;
    let answer = row_answer(bench.heap, 0)?;
    expect(bench, 14, answer, post_refusal(4, 0))
}

// A family with 24 rules.
fn full(heap: Global) -> Result<Counting<Among>, Stop> {
    let mut family = Counting::new(heap, Among::new(1));
    for _ in 0..24 {
        family.post(one_rule(heap)?)?;
    }
    Ok(family)
}

fn one_rule(heap: Global) -> Result<Rule, Stop> {
    kernel::rule_of(heap, &posted(heap, 1, Sense::AtMost, 1)?)
}

// A family has 24 rules, and a pair 72.
fn try_families(bench: &mut Bench) -> Result<(), Stop> {
    let heap = bench.heap;
    let mut family = full(heap)?;
    let answer = taken(family.post(one_rule(heap)?))?;
    expect(bench, 15, answer, post_refusal(24, 0))?;
    let pair = Pair::new(family, full(heap)?);
    let third = full(heap)?;
    let fits = families::check_pair(&pair, &third).is_ok();
    expect(bench, 16, Answer::Holds(fits), FINE)?;
    let four = Pair::new(third, full(heap)?);
    let answer = judged(families::check_pair(&pair, &four));
    expect(bench, 17, answer, post_refusal(15, 0))
}

// Lines as one text.
fn joined(heap: Global, lines: &[&str]) -> Result<String, Stop> {
    let mut text = String::new(heap);
    for line in lines {
        text.push_str(line)?;
        text.push('\n')?;
    }
    Ok(text)
}

// Carries out a file by the plain implementation.
fn try_file(bench: &mut Bench) -> Result<(), Stop> {
    let file = joined(bench.heap, &FILE)?;
    let known = joined(bench.heap, &TEXT)?;
    let text = roster_text(bench.heap, file.as_bytes())?;
    let same = text.as_str() == known.as_str();
    expect(bench, 18, Answer::Holds(same), FINE)
}

pub fn try_fixed(bench: &mut Bench) -> Result<(), Stop> {
    let heap = bench.heap;
    let problem = contrary(heap)?;
    let parts = kernel::parts_of(heap, &problem)?;
    let table = kernel::table_of(&problem)?;
    let (mut plan, start) = kernel::start(heap, parts, table, bench.workspace.as_mut_slice());
    try_contrary(bench, &mut plan, start)?;
    try_marks(bench, &mut plan)?;
    try_backs(bench, &mut plan)?;
    try_workspace(bench)?;
    try_rows(bench)?;
    try_families(bench)?;
    try_file(bench)
}
