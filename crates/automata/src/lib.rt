// Counter automata: what reads a sequence of duties and counts along it.
//
// `CounterAutomaton` is the interface; everything above is written once against its meaning. `Among`
// counts the duties of a set, `Table` takes its steps from bytes that the caller lends, and `Map`
// reads duties as classes before any other automaton. (Patterns of duties are in the crate `words`.)
// A step costs a few comparisons and at most one look-up.
//
// Each kind proves the laws of an automaton, and each step is the one that the meaning gives.
#![tactic(auto)]

ghost use Rattle.std.specs.Prelude.{◌≡◌, ℕ, ◌-◌, ◌^◌, ◌<◌, min, IfOk, MatchResult, slice_index};
ghost use Rattle.automata.specs.Automaton.{Automaton, Lawful};
ghost use Rattle.automata.specs.Reading.{total};
ghost use Rattle.automata.specs.Kinds.{among, mapped, table, GoodTable, Reads};
ghost use Rattle.automata.specs.Laws.{among_lawful, mapped_lawful, table_lawful};
ghost use Rattle.automata.specs.Faults.{TableFault, ClassFault};

use refusals::PostFault;

// An automaton of 1 to 16 states that reads duties 0 to 15, starting at state 0.
pub trait CounterAutomaton {
    ghost meaning: { Self → Automaton };

    // What each kind proves of its meaning.
    ghost lawful: { (x : Self) → Lawful (meaning x) };

    fn states(&self) -> usize
        ensures { result ≡ (meaning self.now).states };

    // The next state and the increase; 0 and 0 at a state or a duty that there is not.
    fn step(&self, state: usize, duty: usize) -> (usize, u64)
        ensures next { result.0 ≡ (meaning self.now).next state duty }
        ensures increase { result.1 ≡ (meaning self.now).increase state duty };
}

// The total of a sequence that is read from state 0. (Fewer than 2^60 duties have a total that fits.)
pub fn total_of<C: CounterAutomaton>(automaton: &C, duties: &[u8]) -> u64
    ensures { result ≡ min (total (C.CounterAutomaton.meaning automaton.now) 0 duties.now) (2 ^ 64 - 1) }
{
    let mut state = 0;
    let mut sum = 0u64;
    for duty in duties {
        let (next, increase) = automaton.step(state, *duty as usize);
        state = next;
        sum = sum.saturating_add(increase);
    }
    sum
}

// Counts the duties of a set, which may be empty.
#[derive(Clone, Copy)]
pub struct Among {
    set: u16,
}

impl Among {
    pub fn new(set: u16) -> Among
        ensures { result.set ≡ set }
    {
        Among { set }
    }
}

impl CounterAutomaton for Among {
    ghost meaning = { λ a. among a.set };

    ghost lawful = { λ a. among_lawful a.set };

    fn states(&self) -> usize {
        1
    }

    fn step(&self, state: usize, duty: usize) -> (usize, u64) {
        if state < 1 && duty < 16 {
            (0, u64::from((self.set >> duty) & 1))
        } else {
            (0, 0)
        }
    }
}

// A number of states, and the steps in bytes that the caller lends: the byte at 16 * state + duty is
// 16 times the next state plus the increase. Only bytes that are a table's are kept in one.
#[derive(Clone, Copy)]
pub struct Table<'a> {
    states: usize,
    steps: &'a [u8],
    ghost good: { GoodTable states steps.now },
}

impl<'a> Table<'a> {
    pub fn new(states: u8, steps: &'a [u8]) -> Result<Table<'a>, PostFault>
        ensures made { MatchResult result (λ t. GoodTable states steps.now × Reads states steps.now (table t.states t.steps.now)) (TableFault states steps.now) }
        ensures holds { IfOk result (λ t. (t.states ≡ states) × (t.steps.now ≡ steps.now)) }
    {
        let states = states as usize;
        if steps.len() != 16 * states {
            return Err(PostFault::Length {
                place: steps.len().min(16 * states),
            });
        }
        if states < 1 || states > 16 {
            return Err(PostFault::States);
        }
        match steps.iter().position(|b| (*b / 16) as usize >= states) {
            Some(place) => Err(PostFault::NextState { place }),
            None => Ok(Table { states, steps }),
        }
    }
}

impl<'a> CounterAutomaton for Table<'a> {
    ghost meaning = { λ t. table t.states t.steps.now };

    ghost lawful = { λ t. table_lawful t.states t.steps.now };

    fn states(&self) -> usize {
        self.states
    }

    fn step(&self, state: usize, duty: usize) -> (usize, u64) {
        if state >= self.states || duty >= 16 {
            return (0, 0);
        }
        let step = self.steps[16 * state + duty];
        ((step / 16) as usize, u64::from(step % 16))
    }
}

// Reads each duty as its class, 0 to 15, and steps the automaton below on that.
#[derive(Drop)]
pub struct Map<C> {
    classes: [u8; 16],
    below: C,
}

// Whether every class is one: else the first that is not.
pub fn check_classes(classes: &[u8; 16]) -> Result<(), PostFault>
    ensures { MatchResult result (λ _. (k : ℕ) → k < 16 → slice_index classes.now k < 16) (ClassFault classes.now) }
{
    match classes.iter().position(|class| *class > 15) {
        Some(place) => Err(PostFault::Duty { place }),
        None => Ok(()),
    }
}

impl<C> Map<C> {
    // A class above 15, which `check_classes` would refuse, is a duty that the automaton below does not have.
    pub fn new(classes: [u8; 16], below: C) -> Map<C>
        ensures { (result.classes ≡ classes) × (result.below ≡ below) }
    {
        Map { classes, below }
    }
}

impl<C: CounterAutomaton> CounterAutomaton for Map<C> {
    ghost meaning = { λ m. mapped m.classes (C.CounterAutomaton.meaning m.below) };

    ghost lawful = { λ m. mapped_lawful m.classes (C.CounterAutomaton.meaning m.below) (C.CounterAutomaton.lawful m.below) };

    fn states(&self) -> usize {
        self.below.states()
    }

    fn step(&self, state: usize, duty: usize) -> (usize, u64) {
        if state < self.below.states() && duty < 16 {
            self.below.step(state, self.classes[duty] as usize)
        } else {
            (0, 0)
        }
    }
}
