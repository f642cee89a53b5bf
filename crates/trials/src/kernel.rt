// The kernel: its families, plans and answers, from and to the plain data.
use crate::answer::{Answer, FINE, Failure, Figures, Layer, Refusal, Work, refused};
use crate::problem::{Call, Kind, Posted, Problem, Request, Sense};
use crate::stop::Stop;
use automata::{Among, Map, Table};
use counting::Counting;
use families::Pair;
use planning::plan::{Draft, Plan, Start, Try};
use refusals::{LineFault, PlanFault, PostFault, Report, Stopped};
use rules::{Row, Rule};
use settling::Spot;
use std::alloc::Global;
use words::Word;

// The rules of a problem: those that count duties of the set, then the word's, then the table's.
pub type Rules<'a> = posting::drafting::Rules<'a>;

impl From<refusals::Layer> for Layer {
    fn from(layer: refusals::Layer) -> Layer {
        match layer {
            refusals::Layer::Line => Layer::Line,
            refusals::Layer::Frame => Layer::Frame,
            refusals::Layer::Post => Layer::Post,
            refusals::Layer::Plan => Layer::Plan,
        }
    }
}

impl From<Report> for Refusal {
    fn from(report: Report) -> Refusal {
        Refusal {
            number: report.number,
            layer: Layer::from(report.layer),
            place: report.place,
        }
    }
}

impl From<PostFault> for Refusal {
    fn from(fault: PostFault) -> Refusal {
        Refusal::from(fault.report())
    }
}

impl From<measures::Figures> for Figures {
    fn from(figures: measures::Figures) -> Figures {
        Figures {
            least: figures.least,
            greatest: figures.greatest,
            totals: figures.totals,
        }
    }
}

impl From<settling::Work> for Work {
    fn from(work: settling::Work) -> Work {
        Work {
            runs: work.runs,
            removed: work.removed,
        }
    }
}

impl From<settling::Failure> for Failure {
    fn from(failure: settling::Failure) -> Failure {
        let cell = match failure.spot {
            Spot::Cell(cell) => Some(cell),
            Spot::Tally => None,
        };
        Failure {
            rule: failure.rule,
            cell,
            work: Work::from(failure.work),
        }
    }
}

impl From<settling::Work> for Answer {
    fn from(work: settling::Work) -> Answer {
        Answer::Settled(Work::from(work))
    }
}

impl From<settling::Failure> for Answer {
    fn from(failure: settling::Failure) -> Answer {
        Answer::Failed(Failure::from(failure))
    }
}

impl From<PostFault> for Answer {
    fn from(fault: PostFault) -> Answer {
        Answer::Refused(Refusal::from(fault))
    }
}

impl From<PlanFault> for Answer {
    fn from(fault: PlanFault) -> Answer {
        Answer::Refused(Refusal::from(fault.report()))
    }
}

impl From<LineFault> for Answer {
    fn from(fault: LineFault) -> Answer {
        Answer::Refused(Refusal::from(fault.report()))
    }
}

impl From<Start> for Answer {
    fn from(start: Start) -> Answer {
        match start {
            Start::Settled(work) => Answer::from(work),
            Start::Void(failure) => Answer::from(failure),
            Start::Short => refused(14),
        }
    }
}

impl From<Option<measures::Figures>> for Answer {
    fn from(figures: Option<measures::Figures>) -> Answer {
        Answer::Told(figures.map(Figures::from))
    }
}

impl From<replay::Answer> for Answer {
    fn from(answer: replay::Answer) -> Answer {
        match answer {
            replay::Answer::Tried(Try::Settled(work)) => Answer::from(work),
            replay::Answer::Tried(Try::Failed(failure)) => Answer::from(failure),
            replay::Answer::Tried(Try::Own) => Answer::Own,
            replay::Answer::Level(levels) => Answer::Level(levels),
            replay::Answer::Mask(mask) => Answer::Mask(mask),
            replay::Answer::Told(figures) => Answer::from(figures),
        }
    }
}

impl From<Request> for replay::Request {
    fn from(request: Request) -> replay::Request {
        match request {
            Request::Decide { cell, mask } => replay::Request::Decide { cell, mask },
            Request::Bound { rule, tally } => replay::Request::Bound { rule, tally },
            Request::Mark => replay::Request::Mark,
            Request::Back => replay::Request::Back,
            Request::Cell(cell) => replay::Request::Cell(cell),
            Request::Tally(rule) => replay::Request::Tally(rule),
            Request::Figures(rule) => replay::Request::Figures(rule),
        }
    }
}

impl From<Sense> for rules::Sense {
    fn from(sense: Sense) -> rules::Sense {
        match sense {
            Sense::AtMost => rules::Sense::AtMost,
            Sense::AtLeast => rules::Sense::AtLeast,
            Sense::Exactly => rules::Sense::Exactly,
        }
    }
}

// The answer to a question or a post: what came of it, or why it is refused. (Like `outcome_of` in the
// exports: each makes a type of its own crate.)
pub fn answer_to<T, E>(told: Result<T, E>) -> Answer
where
    Answer: From<T> + From<E>,
{
    match told {
        Ok(told) => Answer::from(told),
        Err(fault) => Answer::from(fault),
    }
}

// Whether a post goes through: else why not.
pub fn judged<T: Drop, E>(post: Result<T, E>) -> Answer
where
    Answer: From<E>,
{
    match post {
        Ok(_) => FINE,
        Err(fault) => Answer::from(fault),
    }
}

// Whether something was taken: else why not. Want of memory ends the trials.
pub fn taken<T: Drop, F>(post: Result<T, Stopped<F>>) -> Result<Answer, Stop>
where
    Answer: From<F>,
{
    match post {
        Ok(_) => Ok(FINE),
        Err(Stopped::Fault(fault)) => Ok(Answer::from(fault)),
        Err(Stopped::Memory) => Err(Stop::Memory),
    }
}

pub fn rule_of(heap: Global, posted: &Posted) -> Result<Rule, Stop> {
    let row = Row::new(heap, posted.cells.as_slice(), 192)?;
    Ok(Rule::new(row, rules::Sense::from(posted.sense), posted.tally)?)
}

// Posts the rules of one kind.
fn post_rules<C>(
    heap: Global,
    problem: &Problem,
    kind: Kind,
    family: &mut Counting<C>,
) -> Result<(), Stop> {
    for posted in problem.rules.iter().filter(|posted| posted.kind == kind) {
        family.post(rule_of(heap, posted)?)?;
    }
    Ok(())
}

// The rules that count with the table.
fn table_rules(heap: Global, problem: &Problem) -> Result<Vec<Rule>, Stop> {
    let mut rules = Vec::new(heap);
    for posted in problem
        .rules
        .iter()
        .filter(|posted| posted.kind == Kind::Table)
    {
        rules.push(rule_of(heap, posted)?)?;
    }
    Ok(rules)
}

pub fn mapped_word(problem: &Problem) -> Result<Map<Word>, Stop> {
    automata::check_classes(&problem.classes)?;
    let word = Word::new(problem.word.as_slice())?;
    Ok(Map::new(problem.classes, word))
}

pub fn table_of<'a>(problem: &'a Problem) -> Result<Table<'a>, Stop> {
    Ok(Table::new(problem.states, problem.steps.as_slice())?)
}

// What a plan starts from, but for its table, which is borrowed.
#[derive(Drop)]
pub struct Parts {
    draft: Draft,
    front: Pair<Counting<Among>, Counting<Map<Word>>>,
    behind: Vec<Rule>,
}

pub fn parts_of(heap: Global, problem: &Problem) -> Result<Parts, Stop> {
    let mut amongs = Counting::new(heap, Among::new(problem.set));
    post_rules(heap, problem, Kind::Among, &mut amongs)?;
    let mut words = Counting::new(heap, mapped_word(problem)?);
    post_rules(heap, problem, Kind::Word, &mut words)?;
    families::check_pair(&amongs, &words)?;
    Ok(Parts {
        draft: draft_of(problem)?,
        front: Pair::new(amongs, words),
        behind: table_rules(heap, problem)?,
    })
}

fn draft_of(problem: &Problem) -> Result<Draft, Stop> {
    let mut draft = Draft::new();
    for (cell, mask) in problem.cells.iter().enumerate() {
        draft.set_range(cell, 1, *mask)?;
    }
    Ok(draft)
}

// Starts a plan. A rule of the table that is not posted, for want of memory, shows as a difference.
pub fn start<'a>(
    heap: Global,
    parts: Parts,
    table: Table<'a>,
    workspace: &mut [u64],
) -> (Plan<Rules<'a>>, Answer) {
    let Parts {
        draft,
        front,
        behind,
    } = parts;
    let mut tables = Counting::new(heap, table);
    for rule in behind {
        let _ = tables.post(rule);
    }
    let (plan, start) = draft.start(Pair::new(front, tables), workspace);
    (plan, Answer::from(start))
}

// Makes a call on the kernel's plan.
pub fn make(plan: &mut Plan<Rules>, call: Call, workspace: &mut [u64]) -> Answer {
    let call = replay::Call {
        request: replay::Request::from(call.request),
        workspace: call.workspace,
    };
    answer_to(replay::make(plan, call, workspace))
}
