// A planner's day with the library: two crews over a week, rules over their rows and over the days of
// both, from two families joined by a pair. It starts a plan, makes tries that go through and tries
// that fail, marks and goes back, shows that a failed try leaves everything as it was, publishes,
// and then makes the same decisions in another order and shows that all is the same.
#![tactic(auto)]

use anyhow::anyhow;
use automata::Among;
use counting::Counting;
use families::{Family, Pair};
use planning::plan::{Draft, Plan, Start, Try};
use refusals::{PlanFault, PostError};
use replay::{Answer, Call, Request};
use rules::{Row, Rule, Sense};
use settling::{Failure, Spot, Work};
use std::alloc::Global;
use words::Word;

// Duties: 0 free, 1 early, 2 late, 3 standby. Crew 0 has the cells 0 to 6, crew 1 the cells 7 to 13.
const DUTIES: u16 = 15;

type Lates = Counting<Among>;

type Pairs = Counting<Word>;

type Rules = Pair<Lates, Pairs>;

// One rule over a row of cells.
fn rule(heap: Global, cells: &[u8], sense: Sense, tally: u64) -> anyhow::Result<Rule> {
    let row = Row::new(heap, cells, 192).map_err(|_| anyhow!("a row was refused"))?;
    Rule::new(row, sense, tally).map_err(|_| anyhow!("a rule was refused"))
}

fn posted(answer: Result<(), PostError>) -> anyhow::Result<()> {
    answer.map_err(|_| anyhow!("a rule was not posted"))
}

// At most two lates in each crew's week; exactly one late on the first two days of both.
fn lates(heap: Global) -> anyhow::Result<Lates> {
    let mut family = Counting::new(heap, Among::new(4));
    posted(family.post(rule(heap, &[0, 1, 2, 3, 4, 5, 6], Sense::AtMost, 7)?))?;
    posted(family.post(rule(heap, &[7, 8, 9, 10, 11, 12, 13], Sense::AtMost, 7)?))?;
    posted(family.post(rule(heap, &[0, 7], Sense::Exactly, 2)?))?;
    posted(family.post(rule(heap, &[1, 8], Sense::Exactly, 2)?))?;
    Ok(family)
}

// At least one pair of free days in each crew's week.
fn free_pairs(heap: Global) -> anyhow::Result<Pairs> {
    let word = Word::new(&[0, 0]).map_err(|_| anyhow!("the word was refused"))?;
    let mut family = Counting::new(heap, word);
    posted(family.post(rule(heap, &[0, 1, 2, 3, 4, 5, 6], Sense::AtLeast, 14)?))?;
    posted(family.post(rule(heap, &[7, 8, 9, 10, 11, 12, 13], Sense::AtLeast, 14)?))?;
    Ok(family)
}

fn rules_of(heap: Global) -> anyhow::Result<Rules> {
    let first = lates(heap)?;
    let second = free_pairs(heap)?;
    families::check_pair(&first, &second).map_err(|_| anyhow!("the families have too many rules"))?;
    Ok(Pair::new(first, second))
}

// Every duty open on every day of both crews.
fn draft_of() -> anyhow::Result<Draft> {
    let mut draft = Draft::new();
    draft
        .set_range(0, 14, DUTIES)
        .map_err(|_| anyhow!("the range was refused"))?;
    Ok(draft)
}

fn tell_failure(rt: &HostRuntime, failure: Failure) -> anyhow::Result<()> {
    let rule = failure.rule;
    let runs = failure.work.runs;
    match failure.spot {
        Spot::Cell(cell) => println!(rt;
            "  fails at rule {rule}: nothing is left in cell {cell}, after {runs} runs"
        )?,
        Spot::Tally => println!(rt; "  fails at rule {rule}: no count is left, after {runs} runs")?,
    }
    Ok(())
}

fn tell_work(rt: &HostRuntime, work: Work) -> anyhow::Result<()> {
    let runs = work.runs;
    let removed = work.removed;
    println!(rt; "  goes through: {runs} runs took {removed} values")?;
    Ok(())
}

fn tell_start(rt: &HostRuntime, start: Start) -> anyhow::Result<()> {
    match start {
        Start::Settled(work) => tell_work(rt, work),
        Start::Void(failure) => tell_failure(rt, failure),
        Start::Short => Err(anyhow!("the workspace is too short")),
    }
}

fn tell_answer(rt: &HostRuntime, answer: Result<Answer, PlanFault>) -> anyhow::Result<()> {
    match answer {
        Ok(Answer::Tried(Try::Settled(work))) => tell_work(rt, work)?,
        Ok(Answer::Tried(Try::Failed(failure))) => tell_failure(rt, failure)?,
        Ok(Answer::Tried(Try::Own)) => println!(rt;
            "  fails as its own: it leaves nothing of what it names"
        )?,
        Ok(Answer::Level(levels)) => println!(rt; "  {levels} levels are open")?,
        Ok(Answer::Mask(mask)) => println!(rt; "  {mask:04x}")?,
        Ok(Answer::Told(Some(figures))) => {
            let least = figures.least;
            let greatest = figures.greatest;
            println!(rt; "  {least} to {greatest}")?;
        }
        Ok(Answer::Told(None)) => println!(rt; "  no figures")?,
        Err(fault) => {
            let number = fault.report().number;
            println!(rt; "  refused {number}")?;
        }
    }
    Ok(())
}

// Prints every cell of both crews, and every rule's tally and figures.
fn show(rt: &HostRuntime, plan: &Plan<Rules>, workspace: &mut [u64]) -> anyhow::Result<()> {
    for crew in 0..2usize {
        print!(rt; "  crew {crew}:")?;
        for day in 0..7usize {
            let mask = plan.cell(7 * crew + day).unwrap_or(0);
            print!(rt; " {mask:04x}")?;
        }
        println!(rt; "")?;
    }
    for rule in 0..6usize {
        let tally = plan.tally(rule).unwrap_or(0);
        match plan.figures(rule, workspace) {
            Ok(Some(figures)) => {
                let least = figures.least;
                let greatest = figures.greatest;
                println!(rt; "  rule {rule}: tally {tally:x}, {least} to {greatest}")?;
            }
            _ => println!(rt; "  rule {rule}: tally {tally:x}, no figures")?,
        }
    }
    Ok(())
}

// A request with enough workspace.
fn call(request: Request) -> Call {
    Call {
        request,
        workspace: families::WORKSPACE,
    }
}

// Makes a call, and prints what was asked and what came of it.
fn make_and_tell(
    rt: &HostRuntime,
    plan: &mut Plan<Rules>,
    what: &str,
    request: Request,
    workspace: &mut [u64],
) -> anyhow::Result<()> {
    println!(rt; "{what}")?;
    let answer = replay::make(plan, call(request), workspace);
    tell_answer(rt, answer)
}

// Tries, failed ones among them, marks and backs.
fn work_on(rt: &HostRuntime, plan: &mut Plan<Rules>, workspace: &mut [u64]) -> anyhow::Result<()> {
    let few = Request::Bound { rule: 1, tally: 3 };
    make_and_tell(rt, plan, "crew 1: at most one late", few, workspace)?;
    show(rt, plan, workspace)?;
    let none = Request::Bound { rule: 0, tally: 1 };
    make_and_tell(rt, plan, "crew 0: no late at all", none, workspace)?;
    println!(rt; "after the failed try all is as before:")?;
    show(rt, plan, workspace)?;
    let late = Request::Decide { cell: 0, mask: 4 };
    make_and_tell(rt, plan, "crew 0, first day: late", late, workspace)?;
    let second = Request::Decide { cell: 7, mask: 4 };
    make_and_tell(rt, plan, "crew 1, first day: late", second, workspace)?;
    make_and_tell(rt, plan, "mark", Request::Mark, workspace)?;
    let early = Request::Decide { cell: 3, mask: 2 };
    make_and_tell(rt, plan, "crew 0, fourth day: early", early, workspace)?;
    make_and_tell(rt, plan, "mark", Request::Mark, workspace)?;
    let standby = Request::Decide { cell: 5, mask: 8 };
    make_and_tell(rt, plan, "crew 0, sixth day: standby", standby, workspace)?;
    make_and_tell(rt, plan, "back", Request::Back, workspace)?;
    make_and_tell(rt, plan, "back", Request::Back, workspace)?;
    make_and_tell(rt, plan, "back", Request::Back, workspace)?;
    let free = Request::Decide { cell: 9, mask: 1 };
    make_and_tell(rt, plan, "crew 1, third day: free", free, workspace)?;
    make_and_tell(rt, plan, "cell 192", Request::Cell(192), workspace)
}

// The decisions that stand, in another order, from a new draft.
fn again(rt: &HostRuntime, workspace: &mut [u64]) -> anyhow::Result<Plan<Rules>> {
    let calls = [
        call(Request::Decide { cell: 9, mask: 1 }),
        call(Request::Decide { cell: 0, mask: 4 }),
        call(Request::Bound { rule: 1, tally: 3 }),
    ];
    let mut answers = [Ok(Answer::Level(0)); 3];
    let draft = draft_of()?;
    let rules = rules_of(rt.alloc())?;
    let (plan, start, made) = replay::replay(draft, rules, &calls, &mut answers, workspace);
    println!(rt; "the same {made} decisions in another order:")?;
    tell_start(rt, start)?;
    for answer in answers {
        tell_answer(rt, answer)?;
    }
    Ok(plan)
}

// How many cells and tallies of two plans differ; two refused answers count as different.
fn differences(one: &Plan<Rules>, other: &Plan<Rules>) -> usize {
    let cells = (0..192usize)
        .filter(|cell| one.cell(*cell).unwrap_or(0) != other.cell(*cell).unwrap_or(1))
        .count();
    let tallies = (0..6usize)
        .filter(|rule| one.tally(*rule).unwrap_or(0) != other.tally(*rule).unwrap_or(1))
        .count();
    cells.saturating_add(tallies)
}

fn main(rt: HostRuntime) -> anyhow::Result<()> {
    let mut room = vec![in rt.alloc(); 0u64; families::WORKSPACE]?;
    let workspace = room.as_mut_slice();
    let draft = draft_of()?;
    let rules = rules_of(rt.alloc())?;
    println!(rt; "start")?;
    let (mut plan, start) = draft.start(rules, workspace);
    tell_start(&rt, start)?;
    work_on(&rt, &mut plan, workspace)?;
    show(&rt, &plan, workspace)?;
    let second = again(&rt, workspace)?;
    show(&rt, &second, workspace)?;
    let different = differences(&plan, &second);
    println!(rt; "{different} cells and tallies differ")?;
    let roster = plan.publish();
    let mask = roster.cell(9).unwrap_or(0);
    println!(rt; "published: crew 1 has {mask:04x} on the third day")?;
    Ok(())
}
