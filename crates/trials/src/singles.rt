// Trials of one run of one rule, and of the figures of a row, outside any plan.
use crate::answer::{Answer, Work, refused};
use crate::bench::Bench;
use crate::counts::more;
use crate::dice::Dice;
use crate::drawing::{SMALL, Scale, draw_problem, draw_workspace};
use crate::kernel::{answer_to, mapped_word, rule_of, table_of};
use crate::plain::counters::counter_of;
use crate::plain::rounds::Masks;
use crate::plain::{judging, rounds};
use crate::problem::{Kind, Posted, Problem, WORKSPACE};
use crate::stop::{Stop, What, agree};
use automata::{Among, CounterAutomaton};
use rules::Rule;
use std::alloc::Global;
use words::Word;

// One run by the kernel, on cells and a tally.
fn run_kernel<C: CounterAutomaton>(
    automaton: &C,
    rule: &Rule,
    masks: &mut Masks,
    workspace: &mut [u64],
) -> Answer {
    let mut tally = masks.tally(0);
    let answer = runs::run(automaton, rule, &mut masks.cells, &mut tally, workspace);
    masks.set_tally(0, tally);
    answer_to(answer.map(|removed| settling::Work { runs: 1, removed }))
}

// Whether each duty is its own class, so that a word needs no map.
fn is_plain(classes: &[u8; 16]) -> bool {
    classes
        .iter()
        .enumerate()
        .all(|(duty, class)| usize::from(*class) == duty)
}

// The same with the automaton of the rule's kind.
fn run_of(
    heap: Global,
    problem: &Problem,
    posted: &Posted,
    masks: &mut Masks,
    workspace: &mut [u64],
) -> Result<Answer, Stop> {
    let rule = rule_of(heap, posted)?;
    Ok(match posted.kind {
        Kind::Among => run_kernel(&Among::new(problem.set), &rule, masks, workspace),
        Kind::Word if is_plain(&problem.classes) => {
            let word = Word::new(problem.word.as_slice())?;
            run_kernel(&word, &rule, masks, workspace)
        }
        Kind::Word => run_kernel(&mapped_word(problem)?, &rule, masks, workspace),
        Kind::Table => run_kernel(&table_of(problem)?, &rule, masks, workspace),
    })
}

// Any masks, empty ones too: those of the problem, of which some values are missing.
fn draw_masks(dice: &mut Dice, problem: &Problem, posted: &Posted, scale: Scale) -> Masks {
    let mut masks = Masks::new(problem);
    for mask in masks.cells.iter_mut().take(scale.cells as usize) {
        if !dice.one_in(2) {
            *mask &= (dice.roll() & 0xffff) as u16;
        }
    }
    let counts = if dice.one_in(3) {
        dice.roll()
    } else {
        u64::MAX
    };
    masks.set_tally(0, posted.tally & counts);
    masks
}

// Whether two masks are the same: the first cell that is not, or the tally of rule 0.
fn agree_masks(kernel: &Masks, plain: &Masks) -> Result<(), Stop> {
    for (cell, (told, mask)) in kernel.cells.iter().zip(plain.cells.iter()).enumerate() {
        let told = Answer::Mask(u64::from(*told));
        let mask = Answer::Mask(u64::from(*mask));
        agree(0, What::Cell(cell), told, mask)?;
    }
    let told = Answer::Mask(kernel.tally(0));
    agree(0, What::Tally(0), told, Answer::Mask(plain.tally(0)))
}

// Runs one rule by both implementations.
fn try_run(bench: &mut Bench, problem: &Problem, posted: &Posted) -> Result<(), Stop> {
    let start = draw_masks(&mut bench.dice, problem, posted, SMALL);
    let mut kernel = start;
    let mut plain = start;
    bench.remember()?;
    let length = draw_workspace(&mut bench.dice, bench.workspace.len()).min(bench.workspace.len());
    let lent = &mut bench.workspace.as_mut_slice()[0..length];
    let told = run_of(bench.heap, problem, posted, &mut kernel, lent)?;
    bench.check_kept(0, told)?;
    if length < WORKSPACE {
        bench.counts.note_refusal(14);
        agree(0, What::Answer, told, refused(14))?;
        return agree_masks(&kernel, &start);
    }
    let removed = rounds::run(bench.heap, problem, 0, posted, &mut plain)?;
    agree(
        0,
        What::Answer,
        told,
        Answer::Settled(Work { runs: 1, removed }),
    )?;
    let counts = (start.tally(0) ^ plain.tally(0)).count_ones();
    let duties = removed.saturating_sub(counts);
    bench.counts.note_run(posted.sense, duties, counts);
    agree_masks(&kernel, &plain)
}

// The figures of a row by the kernel.
fn figures_kernel<C: CounterAutomaton>(automaton: &C, masks: &[u16], codes: &mut [u64]) -> Answer {
    answer_to(sweeps::row_figures(automaton, masks, codes))
}

// Compares the figures of a row of any masks, also of none.
fn try_figures(bench: &mut Bench, problem: &Problem, kind: Kind) -> Result<(), Stop> {
    let heap = bench.heap;
    let mut masks = Vec::new(heap);
    for _ in 0..bench.dice.between(0, 5) {
        let cell = bench.dice.below(SMALL.cells) as usize;
        masks.push(problem.cells.get(cell).copied().unwrap_or(0))?;
    }
    let row = masks.as_slice();
    bench.remember()?;
    let lent = bench.dice.between(0, 400).min(bench.workspace.len() as u64) as usize;
    let codes = &mut bench.workspace.as_mut_slice()[0..lent];
    let told = match kind {
        Kind::Among => figures_kernel(&Among::new(problem.set), row, codes),
        Kind::Word => figures_kernel(&mapped_word(problem)?, row, codes),
        Kind::Table => figures_kernel(&table_of(problem)?, row, codes),
    };
    bench.check_kept(0, told)?;
    if lent < row.len().saturating_add(1).saturating_mul(16) {
        bench.counts.note_refusal(14);
        return agree(0, What::Answer, told, refused(14));
    }
    let figures = judging::figures(heap, counter_of(problem, kind), row)?;
    more(&mut bench.counts.figures);
    agree(0, What::Figures(0), told, Answer::Told(figures))
}

// Tries each rule of a problem alone, and rows of each kind.
pub fn try_singles(bench: &mut Bench) -> Result<(), Stop> {
    let problem = draw_problem(bench.heap, &mut bench.dice, SMALL)?;
    bench.make_noise();
    for posted in problem.rules.iter() {
        try_run(bench, &problem, posted)?;
    }
    try_figures(bench, &problem, Kind::Among)?;
    try_figures(bench, &problem, Kind::Word)?;
    try_figures(bench, &problem, Kind::Table)
}
