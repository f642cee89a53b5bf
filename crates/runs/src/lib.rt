// One run of one rule: what it removes from the cells of its row and from its tally.
//
// `run` makes the sweeps that the rule's sense needs, in a lent workspace whose old contents do not
// matter, judges every duty and every count by the masks at entry, and then removes them together.
//
// Proved: under at most and at least, what stays is just what some sequence uses to meet an open
// count; under exactly, a duty stays just if an open count is in the interval of some state, and a
// count if it is in that of some end state. The answer is the number of values that went.
#![tactic(auto)]

ghost use Rattle.std.specs.Prelude.{◌≡◌, ℕ, ◌+◌, ◌-◌, ◌*◌, ◌^◌, ◌<◌, ◌≤◌, min, false, length, if◌then◌else◌, Decides, MatchResult, nat_eq, slice_index};
ghost use Rattle.masks.specs.Bit.{In, has};
ghost use Rattle.masks.specs.Members.{lost};
ghost use Rattle.families.specs.Masks.{values_lost};
ghost use Rattle.runs.specs.Codes.{BothWays, Needed, needed_prop, MetThrough, MetAtEnd};
ghost use Rattle.runs.specs.Run.{along, put, kept, leaves, RuleRan, NotRun};
ghost use Rattle.runs.specs.Stays.{DutyStays, CountStays};

use arrayvec::ArrayVec;
use automata::CounterAutomaton;
use families::WORKSPACE;
use measures::{Greatest, Least, Measure};
use refusals::PlanFault;
use rules::{Row, Rule, Sense};

// How many codes one sweep writes at most: of 16 states at each of 64 places, and at the end.
const CODES: usize = 1040;

// The codes of the two sweeps of one measure.
#[derive(Clone, Copy)]
struct Ways<'a> {
    forth: &'a [u64],
    back: &'a [u64],
}

impl<'a> Ways<'a> {
    fn new(forth: &'a [u64], back: &'a [u64]) -> Ways<'a>
        ensures forth { result.forth.now ≡ forth.now }
        ensures back { result.back.now ≡ back.now }
    {
        Ways { forth, back }
    }
}

// What a run judges by: the automaton, the sense, the masks at entry along the row, and the sweeps over them that the sense needs.
#[derive(Drop)]
struct Swept<'a, C: CounterAutomaton> {
    automaton: &'a C,
    sense: Sense,
    masks: &'a [u16],
    least: Ways<'a>,
    greatest: Ways<'a>,
    ghost few: { length masks.now ≤ 64 },
    ghost swept: { Needed sense (C.CounterAutomaton.meaning automaton.now) masks.now least greatest } by { needed_prop sense (C.CounterAutomaton.meaning automaton.now) masks.now least greatest },
}

// The counts from a least total on; none where the code says that there is no total.
fn counts_from(least: u64) -> u64
    ensures { (k : ℕ) → k < 64 → Decides (has result k) (least ≤ k) }
{
    if least < 64 { u64::MAX << least } else { 0 }
}

// The counts up to a greatest total, whose code is one more; none where there is no total.
fn counts_up_to(greatest: u64) -> u64
    ensures { (k : ℕ) → k < 64 → Decides (has result k) (k < greatest) }
{
    if greatest < 64 {
        (1 << greatest) - 1
    } else {
        u64::MAX
    }
}

// Whether two sets of counts share one.
fn overlap(counts: u64, tally: u64) -> bool
    ensures { Decides result ((k : ℕ) × (k < 64) × In counts k × In tally k) }
{
    counts & tally != 0
}

// The masks in the cells of a row, in the row's order.
pub fn gather(row: &Row, cells: &[u16; 192]) -> ArrayVec<u16, 64>
    ensures { result.items ≡ along row.now.cells.items cells.now }
{
    let mut masks = ArrayVec::new();
    for cell in row.cells() {
        masks.push(cells[*cell as usize]);
    }
    masks
}

// Both sweeps of one measure.
fn sweep<M: Measure, C: CounterAutomaton>(
    automaton: &C,
    masks: &[u16],
    forth: &mut [u64],
    back: &mut [u64],
) -> Result<(), PlanFault>
    requires forth { 16 * length masks.now + 16 ≤ length forth.old }
    requires back { 16 * length masks.now + 16 ≤ length back.old }
    ensures { MatchResult result (λ _. BothWays M.Measure.kind (C.CounterAutomaton.meaning automaton.now) masks.now forth.new back.new) (λ _. ⊥) }
{
    sweeps::forward::<M, C>(automaton, masks, forth)?;
    sweeps::backward::<M, C>(automaton, masks, back)
}

// The code of the least total by way of two places in the codes, with an increase between them.
fn least_total(ways: &Ways, before: usize, increase: u64, behind: usize) -> u64
    requires before { before < length ways.now.forth.now }
    requires behind { behind < length ways.now.back.now }
    ensures { result ≡ min (slice_index ways.now.forth.now before + increase + slice_index ways.now.back.now behind) (2 ^ 64 - 1) }
{
    ways.forth[before]
        .saturating_add(increase)
        .saturating_add(ways.back[behind])
}

// The code of the greatest total by way of two places in the codes, with an increase between them; 0 where one of them has none.
fn greatest_total(ways: &Ways, before: usize, increase: u64, behind: usize) -> u64
    requires before { before < length ways.now.forth.now }
    requires behind { behind < length ways.now.back.now }
    ensures { result ≡ (if nat_eq (slice_index ways.now.forth.now before) 0 then 0 else (if nat_eq (slice_index ways.now.back.now behind) 0 then 0 else min (slice_index ways.now.forth.now before + increase + (slice_index ways.now.back.now behind - 1)) (2 ^ 64 - 1))) }
{
    let first = ways.forth[before];
    let second = ways.back[behind];
    if first == 0 || second == 0 {
        0
    } else {
        first.saturating_add(increase).saturating_add(second - 1)
    }
}

// (That a place or a state is one of those that there are stands at each method: it is a fact of that number, and not of what was swept.)
impl<'a, C: CounterAutomaton> Swept<'a, C> {
    fn new(
        automaton: &'a C,
        sense: Sense,
        masks: &'a [u16],
        least: Ways<'a>,
        greatest: Ways<'a>,
    ) -> Swept<'a, C>
        requires few { length masks.now ≤ 64 }
        requires swept { Needed sense (C.CounterAutomaton.meaning automaton.now) masks.now least greatest }
        ensures automaton { result.automaton.now ≡ automaton.now }
        ensures sense { result.sense ≡ sense }
        ensures masks { result.masks.now ≡ masks.now }
    {
        Swept {
            automaton,
            sense,
            masks,
            least,
            greatest,
        }
    }

    // Whether some sequence comes to a state at a place.
    fn is_reached(&self, place: usize, state: usize) -> bool
        requires place { place < length self.now.masks.now }
        requires state { state < (C.CounterAutomaton.meaning self.now.automaton.now).states }
        ensures { result ≡ false → (d k : ℕ) → k < 64 → MetThrough self.now.sense (C.CounterAutomaton.meaning self.now.automaton.now) self.now.masks.now place state d k → ⊥ }
    {
        let index = 16 * place + state;
        match self.sense {
            Sense::AtLeast => self.greatest.forth[index] != 0,
            _ => self.least.forth[index] != u64::MAX,
        }
    }

    // The counts that are met by way of a state and a duty at a place.
    fn met_through(&self, place: usize, state: usize, duty: usize) -> u64
        requires place { place < length self.now.masks.now }
        requires state { state < (C.CounterAutomaton.meaning self.now.automaton.now).states }
        ensures { (k : ℕ) → k < 64 → Decides (has result k) (MetThrough self.now.sense (C.CounterAutomaton.meaning self.now.automaton.now) self.now.masks.now place state duty k) }
    {
        let (next, increase) = self.automaton.step(state, duty);
        let before = 16 * place + state;
        let behind = 16 * place + 16 + next;
        match self.sense {
            Sense::AtMost => counts_from(least_total(&self.least, before, increase, behind)),
            Sense::AtLeast => counts_up_to(greatest_total(
                &self.greatest,
                before,
                increase,
                behind,
            )),
            Sense::Exactly => {
                counts_from(least_total(&self.least, before, increase, behind))
                    & counts_up_to(greatest_total(&self.greatest, before, increase, behind))
            }
        }
    }

    // The counts that are met by sequences that end in a state.
    fn met_at_end(&self, state: usize) -> u64
        requires state { state < (C.CounterAutomaton.meaning self.now.automaton.now).states }
        ensures { (k : ℕ) → k < 64 → Decides (has result k) (MetAtEnd self.now.sense (C.CounterAutomaton.meaning self.now.automaton.now) self.now.masks.now state k) }
    {
        let end = 16 * self.masks.len() + state;
        match self.sense {
            Sense::AtMost => counts_from(self.least.forth[end]),
            Sense::AtLeast => counts_up_to(self.greatest.forth[end]),
            Sense::Exactly => counts_from(self.least.forth[end])
                & counts_up_to(self.greatest.forth[end]),
        }
    }

    // Whether an open count is met by way of a state and a duty at a place.
    fn is_met_by(&self, tally: u64, place: usize, state: usize, duty: usize) -> bool
        requires place { place < length self.now.masks.now }
        requires state { state < (C.CounterAutomaton.meaning self.now.automaton.now).states }
        ensures { Decides result ((k : ℕ) × (k < 64) × In tally k × MetThrough self.now.sense (C.CounterAutomaton.meaning self.now.automaton.now) self.now.masks.now place state duty k) }
    {
        self.is_reached(place, state) && overlap(self.met_through(place, state, duty), tally)
    }

    // Whether a duty stays at a place.
    fn duty_stays(&self, tally: u64, place: usize, duty: usize) -> bool
        requires place { place < length self.now.masks.now }
        requires duty { duty < 16 }
        requires held { In (slice_index self.now.masks.now place) duty }
        ensures { Decides result (DutyStays (C.CounterAutomaton.meaning self.now.automaton.now) self.now.masks.now self.now.sense tally place duty) }
    {
        (0..self.automaton.states()).any(|state| self.is_met_by(tally, place, state, duty))
    }

    // The duties that stay at a place.
    fn kept_duties(&self, tally: u64, place: usize) -> u16
        requires place { place < length self.now.masks.now }
        ensures { result ≡ kept (C.CounterAutomaton.meaning self.now.automaton.now) self.now.sense tally self.now.masks.now place }
    {
        let mut staying: u16 = 0;
        for duty in masks::each(u64::from(self.masks[place])) {
            if self.duty_stays(tally, place, duty) {
                staying |= 1 << duty;
            }
        }
        staying
    }

    // The counts that some sequence meets, or that lie in the interval of some end state.
    // (A loop over states, not over a slice: with `fold` the proof did not close.)
    fn met_counts(&self) -> u64
        ensures { (k : ℕ) → k < 64 → Decides (has result k) (CountStays (C.CounterAutomaton.meaning self.now.automaton.now) self.now.masks.now self.now.sense k) }
    {
        let mut met = 0;
        for state in 0..self.automaton.states() {
            met |= self.met_at_end(state);
        }
        met
    }

    // Leaves in the cells of the row what stays there, and answers how many duties went.
    fn narrow(&self, tally: u64, row: &Row, cells: &mut [u16; 192]) -> u32
        requires masks { self.now.masks.now ≡ along row.now.cells.items cells.old }
        ensures cells { cells.new ≡ put row.now.cells.items (kept (C.CounterAutomaton.meaning self.now.automaton.now) self.now.sense tally self.now.masks.now) cells.old }
        ensures removed { result ≡ values_lost cells.old cells.new }
    {
        let mut removed = 0;
        for (i, cell) in row.cells().iter().enumerate() {
            let kept = self.kept_duties(tally, i);
            removed += masks::removed(u64::from(self.masks[i]), u64::from(kept));
            cells[*cell as usize] = kept;
        }
        removed
    }

    // Leaves in the cells of the row and in the tally what stays there, and answers how many values went.
    fn remove(&self, row: &Row, cells: &mut [u16; 192], tally: &mut u64) -> u32
        requires masks { self.now.masks.now ≡ along row.now.cells.items cells.old }
        ensures cells { cells.new ≡ (leaves (C.CounterAutomaton.meaning self.now.automaton.now) self.now.sense row.now.cells.items cells.old tally.old).cells }
        ensures tally { tally.new ≡ (leaves (C.CounterAutomaton.meaning self.now.automaton.now) self.now.sense row.now.cells.items cells.old tally.old).tally }
        ensures removed { result ≡ values_lost cells.old cells.new + length (lost 64 tally.old tally.new) }
    {
        let before = *tally;
        let after = before & self.met_counts();
        *tally = after;
        self.narrow(before, row, cells) + masks::removed(before, after)
    }
}

// Runs a rule whose automaton is given, on the cells and its tally, and answers how many values went.
pub fn run<C: CounterAutomaton>(
    automaton: &C,
    rule: &Rule,
    cells: &mut [u16; 192],
    tally: &mut u64,
    workspace: &mut [u64],
) -> Result<u32, PlanFault>
    ensures { MatchResult result (RuleRan (C.CounterAutomaton.meaning automaton.now) rule.now workspace.old cells.old cells.new tally.old tally.new) (NotRun workspace.old workspace.new cells.old cells.new tally.old tally.new) }
{
    if workspace.len() < WORKSPACE {
        return Err(PlanFault::Workspace);
    }
    let row = rule.row();
    let sense = rule.sense();
    let gathered = gather(row, cells);
    let masks = gathered.as_slice();
    let (least, greatest) = workspace.split_at_mut(2 * CODES);
    let (least_forth, least_back) = least.split_at_mut(CODES);
    let (greatest_forth, greatest_back) = greatest.split_at_mut(CODES);
    if sense != Sense::AtLeast {
        sweep::<Least, C>(automaton, masks, least_forth, least_back)?;
    }
    if sense != Sense::AtMost {
        sweep::<Greatest, C>(automaton, masks, greatest_forth, greatest_back)?;
    }
    let least = Ways::new(least_forth, least_back);
    let greatest = Ways::new(greatest_forth, greatest_back);
    let swept = Swept::new(automaton, sense, masks, least, greatest);
    Ok(swept.remove(row, cells, tally))
}
