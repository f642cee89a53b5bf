// Trials of whole plans: every call is made on both implementations, and after it every answer, cell,
// tally and figure is compared.
use crate::answer::{Answer, FINE};
use crate::bench::Bench;
use crate::counts::more;
use crate::dice::Dice;
use crate::drawing::{Scale, draw_call, draw_problem, draw_workspace};
use crate::kernel;
use crate::kernel::{Rules, answer_to};
use crate::plain::log::{Decision, Log};
use crate::plain::rounds::{EMPTY, Masks};
use crate::plain::{fillings, rounds, stable};
use crate::problem::{Call, Problem, Request};
use crate::stop::{Stop, What, agree};
use automata::CounterAutomaton;
use families::Family;
use planning::plan::{Plan, Roster};
use std::alloc::Global;

// The most values of masks whose sub-masks are all tried.
const FEW: usize = 11;

// A plan of both implementations, and the number of the latest call.
#[derive(Drop)]
struct Trial<'a> {
    scale: Scale,
    problem: &'a Problem,
    plan: Plan<Rules<'a>>,
    log: Log<'a>,
    call: u64,
}

// What the kernel answers to a request with enough workspace.
fn ask(bench: &mut Bench, plan: &mut Plan<Rules>, request: Request) -> Answer {
    kernel::make(plan, Call::from(request), bench.workspace.as_mut_slice())
}

// Whether every cell of the kernel's plan is as in these masks.
fn compare_cells(
    bench: &mut Bench,
    plan: &mut Plan<Rules>,
    masks: &Masks,
    call: u64,
) -> Result<(), Stop> {
    for (cell, mask) in masks.cells.iter().enumerate() {
        let told = ask(bench, plan, Request::Cell(cell));
        let mask = Answer::Mask(u64::from(*mask));
        agree(call, What::Cell(cell), told, mask)?;
    }
    Ok(())
}

// Whether the kernel's plan shows these masks, and their figures, of which a void plan has none. (A plan is
// asked by calls, a roster further down is read.)
fn compare_plan(
    bench: &mut Bench,
    problem: &Problem,
    plan: &mut Plan<Rules>,
    masks: &Masks,
    void: bool,
    call: u64,
) -> Result<(), Stop> {
    let heap = bench.heap;
    compare_cells(bench, plan, masks, call)?;
    for (rule, posted) in problem.rules.iter().enumerate() {
        let told = ask(bench, plan, Request::Tally(rule));
        agree(
            call,
            What::Tally(rule),
            told,
            Answer::Mask(masks.tally(rule)),
        )?;
        let told = ask(bench, plan, Request::Figures(rule));
        let figures = if void {
            None
        } else {
            rounds::figures(heap, problem, posted, masks)?
        };
        agree(call, What::Figures(rule), told, Answer::Told(figures))?;
    }
    Ok(())
}

// Makes a call of the kernel's plan. A refused one must leave the lent workspace as it was.
fn make(
    bench: &mut Bench,
    plan: &mut Plan<Rules>,
    call: Call,
    number: u64,
) -> Result<Answer, Stop> {
    bench.remember()?;
    let answer = kernel::make(plan, call, bench.workspace.as_mut_slice());
    bench.check_kept(number, answer)?;
    Ok(answer)
}

// The decision that a request asks for. (An `Option`: that most requests are none is no error.)
fn decision_of(request: Request) -> Option<Decision> {
    match request {
        Request::Decide { cell, mask } => Some(Decision::Cell { cell, mask }),
        Request::Bound { rule, tally } => Some(Decision::Tally { rule, tally }),
        _ => None,
    }
}

// The decisions in another order.
fn reordered(heap: Global, dice: &mut Dice, decisions: &[Decision]) -> Result<Vec<Decision>, Stop> {
    let mut order = Vec::new(heap);
    let mut rest = Vec::new(heap);
    for decision in decisions.iter().rev() {
        if dice.one_in(2) {
            order.push(*decision)?;
        } else {
            rest.push(*decision)?;
        }
    }
    order.extend_from_slice(rest.as_slice())?;
    Ok(order)
}

impl From<Decision> for Request {
    fn from(decision: Decision) -> Request {
        match decision {
            Decision::Cell { cell, mask } => Request::Decide { cell, mask },
            Decision::Tally { rule, tally } => Request::Bound { rule, tally },
        }
    }
}

// Whether every cell of a roster is as in these masks.
fn compare_roster_cells(roster: &Roster<Rules>, masks: &Masks, call: u64) -> Result<(), Stop> {
    for (cell, mask) in masks.cells.iter().enumerate() {
        let told = answer_to(
            roster
                .cell(cell)
                .map(|mask| replay::Answer::Mask(u64::from(mask))),
        );
        let mask = Answer::Mask(u64::from(*mask));
        agree(call, What::Cell(cell), told, mask)?;
    }
    Ok(())
}

// Whether every rule of a roster has the tally of these masks, and the figures.
fn compare_roster_rules(
    bench: &mut Bench,
    problem: &Problem,
    roster: &Roster<Rules>,
    log: &Log,
    masks: &Masks,
    call: u64,
) -> Result<(), Stop> {
    for (rule, posted) in problem.rules.iter().enumerate() {
        let told = Answer::Mask(roster.tally(rule).unwrap_or(0));
        agree(
            call,
            What::Tally(rule),
            told,
            Answer::Mask(masks.tally(rule)),
        )?;
        let told = answer_to(roster.figures(rule, bench.workspace.as_mut_slice()));
        let figures = if log.is_void() {
            None
        } else {
            rounds::figures(bench.heap, problem, posted, masks)?
        };
        agree(call, What::Figures(rule), told, Answer::Told(figures))?;
    }
    Ok(())
}

impl<'a> Trial<'a> {
    // Compares the starts: the answers, and what the plans then show.
    fn check_start(&mut self, bench: &mut Bench, told: Answer, plain: Answer) -> Result<(), Stop> {
        bench.check_kept(0, told)?;
        agree(0, What::Answer, told, plain)?;
        bench.counts.note_start(plain);
        self.compare(bench)?;
        if matches!(plain, Answer::Failed(_)) {
            let masks = Masks::new(self.problem);
            self.check_failed(bench, &masks)?;
        }
        Ok(())
    }

    // Compares every cell, tally and figure.
    fn compare(&mut self, bench: &mut Bench) -> Result<(), Stop> {
        let masks = self.log.masks(bench.heap)?;
        let void = self.log.is_void();
        compare_plan(bench, self.problem, &mut self.plan, &masks, void, self.call)
    }

    // The masks to draw a call from: the present ones, or those at the start where the plan is void.
    fn present(&self, heap: Global) -> Result<Masks, Stop> {
        if self.log.is_void() {
            return Ok(Masks::new(self.problem));
        }
        Ok(self.log.masks(heap)?)
    }

    // Makes a call on both plans.
    fn step(&mut self, bench: &mut Bench, call: Call) -> Result<(), Stop> {
        self.call = self.call.saturating_add(1);
        let told = make(bench, &mut self.plan, call, self.call)?;
        let tried = self.log.narrowed(bench.heap)?;
        let plain = self.log.make(bench.heap, call)?;
        agree(self.call, What::Answer, told, plain)?;
        self.count(bench, call.request, plain);
        self.compare(bench)?;
        match (plain, decision_of(call.request)) {
            (Answer::Failed(_), Some(decision)) => {
                let mut masks = tried;
                decision.narrow(&mut masks);
                self.check_failed(bench, &masks)
            }
            _ => Ok(()),
        }
    }

    fn count(&self, bench: &mut Bench, request: Request, answer: Answer) {
        bench.counts.note_answer(self.problem.rules.len(), answer);
        match (request, answer) {
            (Request::Mark, Answer::Level(_)) => more(&mut bench.counts.marks),
            (Request::Back, Answer::Level(_)) => more(&mut bench.counts.backs),
            _ => {}
        }
    }

    // Whether the plan has the largest masks that are stable within what was decided.
    fn check_largest(&mut self, bench: &mut Bench) -> Result<(), Stop> {
        if self.log.is_void() {
            return Ok(());
        }
        let within = self.log.narrowed(bench.heap)?;
        let cells = self.scale.cells as usize;
        if let Some(largest) = stable::largest(bench.heap, self.problem, cells, &within, FEW)? {
            compare_plan(
                bench,
                self.problem,
                &mut self.plan,
                &largest,
                false,
                self.call,
            )?;
            more(&mut bench.counts.largest);
        }
        Ok(())
    }

    // Whether the plan still has all that an accepted filling uses.
    fn check_fillings(&mut self, bench: &mut Bench) -> Result<(), Stop> {
        if self.log.is_void() {
            return Ok(());
        }
        let within = self.log.narrowed(bench.heap)?;
        let masks = self.log.masks(bench.heap)?;
        let cells = self.scale.cells as usize;
        let used = fillings::used(bench.heap, self.problem, cells, &within)?;
        let kept = Answer::Holds(used.lie_within(&masks));
        agree(self.call, What::Fillings, kept, FINE)?;
        more(&mut bench.counts.fillings);
        Ok(())
    }

    // Where settling from these masks failed: no filling is accepted, and the largest stable masks have an empty one.
    fn check_failed(&self, bench: &mut Bench, within: &Masks) -> Result<(), Stop> {
        let cells = self.scale.cells as usize;
        let used = fillings::used(bench.heap, self.problem, cells, within)?;
        let none = Answer::Holds(used.lie_within(&EMPTY));
        agree(self.call, What::NoFilling, none, FINE)?;
        more(&mut bench.counts.fillings);
        if let Some(largest) = stable::largest(bench.heap, self.problem, cells, within, FEW)? {
            let rules = self.problem.rules.len();
            let empty = Answer::Holds(largest.has_empty(rules));
            agree(self.call, What::NoMasks, empty, FINE)?;
            more(&mut bench.counts.largest);
        }
        Ok(())
    }

    // Whether the roster shows what the plan showed.
    fn publish(self, bench: &mut Bench) -> Result<(), Stop> {
        let Trial {
            scale: _,
            problem,
            plan,
            log,
            call,
        } = self;
        let masks = log.masks(bench.heap)?;
        let roster = plan.publish();
        compare_roster_cells(&roster, &masks, call)?;
        compare_roster_rules(bench, problem, &roster, &log, &masks, call)?;
        more(&mut bench.counts.rosters);
        Ok(())
    }

    // A new plan that makes the standing decisions alone, in another order, shows the same.
    fn bare_run(&self, bench: &mut Bench) -> Result<(), Stop> {
        if self.log.is_void() {
            return Ok(());
        }
        let heap = bench.heap;
        let standing = self.log.standing(heap)?;
        let order = reordered(heap, &mut bench.dice, standing.as_slice())?;
        let parts = kernel::parts_of(heap, self.problem)?;
        let table = kernel::table_of(self.problem)?;
        let (mut plan, _) = kernel::start(heap, parts, table, bench.workspace.as_mut_slice());
        for decision in order.iter() {
            let answer = make(
                bench,
                &mut plan,
                Call::from(Request::from(*decision)),
                self.call,
            )?;
            let settled = Answer::Holds(matches!(answer, Answer::Settled(_)));
            agree(self.call, What::BareRun, settled, FINE)?;
            more(&mut bench.counts.again);
        }
        let masks = self.log.masks(heap)?;
        compare_plan(bench, self.problem, &mut plan, &masks, false, self.call)?;
        more(&mut bench.counts.bare_runs);
        Ok(())
    }
}

// Tries one plan with so many calls.
pub fn try_plan(bench: &mut Bench, scale: Scale, calls: u64) -> Result<(), Stop> {
    let heap = bench.heap;
    let problem = draw_problem(heap, &mut bench.dice, scale)?;
    bench.make_noise();
    bench.remember()?;
    let length = draw_workspace(&mut bench.dice, bench.workspace.len()).min(bench.workspace.len());
    let parts = kernel::parts_of(heap, &problem)?;
    let table = kernel::table_of(&problem)?;
    let lent = &mut bench.workspace.as_mut_slice()[0..length];
    let (plan, told) = kernel::start(heap, parts, table, lent);
    let (log, plain) = Log::start(heap, &problem, length)?;
    let mut trial = Trial {
        scale,
        problem: &problem,
        plan,
        log,
        call: 0,
    };
    trial.check_start(bench, told, plain)?;
    for _ in 0..calls {
        let masks = trial.present(heap)?;
        let call = draw_call(
            &mut bench.dice,
            scale,
            &problem,
            &masks,
            bench.workspace.len(),
        );
        trial.step(bench, call)?;
    }
    trial.check_largest(bench)?;
    trial.check_fillings(bench)?;
    trial.bare_run(bench)?;
    trial.publish(bench)
}
