// Sweeps: one pass over a row of masks that finds, at each place and state of an automaton, a measure
// of all the sequences that lead there (forward) or go on from there (backward).
//
// `forward` and `backward` are one text each, for every measure and every automaton, and write into
// codes that the caller lends: code 16 * place + state. They visit open duties only, and forward
// only reached states, so a sweep costs at most places * states * open duties steps. `row_figures`
// sums a row up.
//
// Proved: each code is the joining over the explicit list of those sequences, whatever the lent
// codes held before; the figures are the smallest and the largest total of any sequence, and all
// totals below 64; short codes are refused and left as they were.
#![tactic(auto)]

ghost use Rattle.std.specs.Prelude.{◌≡◌, ℕ, ◌+◌, ◌*◌, ◌<◌, ◌≤◌, length, Decides, MatchResult, slice_index};
ghost use Rattle.sweeps.specs.Figures.{FiguresTold};
ghost use Rattle.sweeps.specs.Place.{Neutral, passed, pushed, pulled};
ghost use Rattle.sweeps.specs.Sweep.{backward_at, needed, SweptForward, SweptBackward, TooShort, BeyondKept};

use automata::CounterAutomaton;
use measures::{Figures, Greatest, Least, Measure, Totals};
use refusals::PlanFault;

// (The automaton, the masks and the codes stay apart: they are three callers' things, lent for one sweep.)

// Whether the lent codes are too few for a sweep over the row.
fn too_short(masks: &[u16], codes: &[u64]) -> bool
    ensures { Decides result (length codes.now < needed masks.now) }
{
    codes.len() / 16 <= masks.len()
}

// Joins into `row` what a state of that code passes on by the open duties of the mask.
fn pass<M: Measure, C: CounterAutomaton>(
    automaton: &C,
    mask: u16,
    state: usize,
    code: u64,
    row: &mut [u64; 16],
)
    requires { (q : ℕ) → q < 16 → Neutral M.Measure.kind (slice_index row.old q) }
    ensures { (q : ℕ) → q < 16 → slice_index row.new q ≡ M.Measure.kind.join (slice_index row.old q) (passed M.Measure.kind (C.CounterAutomaton.meaning automaton.now) mask q state code) }
{
    for duty in masks::each(u64::from(mask)) {
        let (next, increase) = automaton.step(state, duty);
        row[next] = M::join(row[next], M::increase(code, increase));
    }
}

// The codes of the next place, from those of this one.
fn next_row<M: Measure, C: CounterAutomaton>(automaton: &C, mask: u16, row: &[u64; 16]) -> [u64; 16]
    ensures { (q : ℕ) → q < 16 → slice_index result q ≡ pushed M.Measure.kind (C.CounterAutomaton.meaning automaton.now) mask (λ p. slice_index row.now p) q (C.CounterAutomaton.meaning automaton.now).states }
{
    let mut new = [M::none(); 16];
    for (state, code) in row[..automaton.states()].iter().enumerate() {
        if *code != M::none() {
            pass::<M, C>(automaton, mask, state, *code, &mut new);
        }
    }
    new
}

// Writes the codes of one place.
fn store(codes: &mut [u64], place: usize, row: &[u64; 16])
    requires { 16 * place + 16 ≤ length codes.old }
    ensures here { (q : ℕ) → q < 16 → slice_index codes.new (16 * place + q) ≡ slice_index row.now q }
    ensures before { (k : ℕ) → k < 16 * place → slice_index codes.new k ≡ slice_index codes.old k }
    ensures after { (k : ℕ) → 16 * place + 16 ≤ k → slice_index codes.new k ≡ slice_index codes.old k }
{
    // A loop: `copy_from_slice` reads the row back from memory, and short sweeps took twice the time.
    for (q, code) in row.iter().enumerate() {
        codes[16 * place + q] = *code;
    }
}

// Sweeps forward: code 16 * i + q measures the sequences over the i masks before a place that bring the automaton to state q.
pub fn forward<M: Measure, C: CounterAutomaton>(
    automaton: &C,
    masks: &[u16],
    codes: &mut [u64],
) -> Result<(), PlanFault>
    ensures { MatchResult result (λ _. SweptForward M.Measure.kind (C.CounterAutomaton.meaning automaton.now) masks.now codes.old codes.new) (TooShort masks.now codes.old codes.new) }
{
    if too_short(masks, codes) {
        return Err(PlanFault::Workspace);
    }
    let mut row = [M::none(); 16];
    row[0] = M::start();
    store(codes, 0, &row);
    for (i, mask) in masks.iter().enumerate() {
        row = next_row::<M, C>(automaton, *mask, &row);
        store(codes, i + 1, &row);
    }
    Ok(())
}

// What a state has from the codes of the next place, by the open duties of the mask.
fn pull<M: Measure, C: CounterAutomaton>(
    automaton: &C,
    mask: u16,
    state: usize,
    row: &[u64; 16],
) -> u64
    ensures { result ≡ pulled M.Measure.kind (C.CounterAutomaton.meaning automaton.now) mask (λ p. slice_index row.now p) state }
{
    let mut code = M::none();
    for duty in masks::each(u64::from(mask)) {
        let (next, increase) = automaton.step(state, duty);
        code = M::join(code, M::increase(row[next], increase));
    }
    code
}

// The codes of a place, from those of the next one.
fn previous_row<M: Measure, C: CounterAutomaton>(
    automaton: &C,
    mask: u16,
    row: &[u64; 16],
) -> [u64; 16]
    ensures each { (q : ℕ) → q < (C.CounterAutomaton.meaning automaton.now).states → slice_index result q ≡ pulled M.Measure.kind (C.CounterAutomaton.meaning automaton.now) mask (λ p. slice_index row.now p) q }
    ensures absent { (q : ℕ) → (C.CounterAutomaton.meaning automaton.now).states ≤ q → q < 16 → slice_index result q ≡ M.Measure.kind.none }
{
    let mut new = [M::none(); 16];
    for (state, code) in new[..automaton.states()].iter_mut().enumerate() {
        *code = pull::<M, C>(automaton, mask, state, row);
    }
    new
}

// The codes past the last place: nothing is left to read.
fn last_row<M: Measure>(states: usize) -> [u64; 16]
    requires { states ≤ 16 }
    ensures each { (q : ℕ) → q < states → slice_index result q ≡ M.Measure.kind.start }
    ensures absent { (q : ℕ) → states ≤ q → q < 16 → slice_index result q ≡ M.Measure.kind.none }
{
    let mut row = [M::none(); 16];
    row[..states].fill(M::start());
    row
}

// Sweeps backward: code 16 * i + q is the measure of all sequences from state q through the masks from i on.
pub fn backward<M: Measure, C: CounterAutomaton>(
    automaton: &C,
    masks: &[u16],
    codes: &mut [u64],
) -> Result<(), PlanFault>
    ensures { MatchResult result (λ _. SweptBackward M.Measure.kind (C.CounterAutomaton.meaning automaton.now) masks.now codes.old codes.new) (TooShort masks.now codes.old codes.new) }
{
    if too_short(masks, codes) {
        return Err(PlanFault::Workspace);
    }
    let mut row = last_row::<M>(automaton.states());
    store(codes, masks.len(), &row);
    for (i, mask) in masks.iter().enumerate().rev() {
        row = previous_row::<M, C>(automaton, *mask, &row);
        store(codes, i, &row);
    }
    Ok(())
}

// The measure of all sequences of a row.
fn figure<M: Measure, C: CounterAutomaton>(
    automaton: &C,
    masks: &[u16],
    codes: &mut [u64],
) -> Result<u64, PlanFault>
    ensures { MatchResult result (λ x. (needed masks.now ≤ length codes.old) × (x ≡ backward_at M.Measure.kind (C.CounterAutomaton.meaning automaton.now) masks.now 0 0) × BeyondKept masks.now codes.old codes.new) (TooShort masks.now codes.old codes.new) }
{
    backward::<M, C>(automaton, masks, codes)?;
    Ok(codes[0])
}

// The figures of a row, none where it has no sequence. Codes past those that the row needs are left as they were.
pub fn row_figures<C: CounterAutomaton>(
    automaton: &C,
    masks: &[u16],
    codes: &mut [u64],
) -> Result<Option<Figures>, PlanFault>
    ensures figures { MatchResult result (FiguresTold (C.CounterAutomaton.meaning automaton.now) masks.now codes.old) (TooShort masks.now codes.old codes.new) }
    ensures beyond { BeyondKept masks.now codes.old codes.new }
{
    let least = figure::<Least, C>(automaton, masks, codes)?;
    if least == u64::MAX {
        return Ok(None);
    }
    let greatest = figure::<Greatest, C>(automaton, masks, codes)? - 1;
    let totals = figure::<Totals, C>(automaton, masks, codes)?;
    Ok(Some(Figures {
        least,
        greatest,
        totals,
    }))
}
