// A table's bytes, kept for the plan that reads them.
//
// The bytes of a line are gone when the next line is read, so a table that a file gives is copied once,
// when it is posted. `table` then lends the copy to the automaton.
ghost use Rattle.std.specs.Prelude.{◌≡◌, ◌*◌, ◌≤◌, length, take, replicate, MatchResult};
ghost use Rattle.automata.specs.Faults.{TableFault};
ghost use Rattle.automata.specs.Kinds.{GoodTable};

use automata::Table;
use refusals::PostFault;
use std::alloc::AllocError;

// As many bytes as a table of sixteen states has.
const MOST_BYTES: usize = 256;

// (An array, and not an `ArrayVec`: a kept table is `Copy`.)
#[derive(Copy)]
pub struct KeptTable {
    states: u8,
    bytes: [u8; MOST_BYTES],
    ghost good: { GoodTable states (take (16 * states) bytes) },
}

// The same table; a copy needs no memory.
impl Clone for KeptTable {
    ghost is_clone = { λ v w. w ≡ v };

    ghost is_infallible = { λ _. Unit };

    fn clone(&self) -> Result<KeptTable, AllocError> {
        Ok(*self)
    }
}

// The bytes at the front of an array.
fn in_front(bytes: &[u8]) -> [u8; MOST_BYTES]
    requires { length bytes.now ≤ 256 }
    ensures { take (length bytes.now) result ≡ bytes.now }
{
    let mut front = [0; MOST_BYTES];
    front[0..bytes.len()].copy_from_slice(bytes);
    front
}

impl KeptTable {
    // One state, and nothing counts.
    pub fn blank() -> KeptTable
        ensures { (result.states ≡ 1) × (take 16 result.bytes ≡ replicate 16 0) }
    {
        KeptTable {
            states: 1,
            bytes: [0; MOST_BYTES],
        }
    }

    // A copy of a table that is one.
    pub fn copy_of(states: u8, steps: &[u8]) -> Result<KeptTable, PostFault>
        ensures { MatchResult result (λ k. GoodTable states steps.now × (k.states ≡ states) × (take (16 * states) k.bytes ≡ steps.now)) (TableFault states steps.now) }
    {
        Table::new(states, steps)?;
        let bytes = in_front(steps);
        Ok(KeptTable { states, bytes })
    }

    // The automaton that reads the bytes.
    pub fn table(&self) -> Table<'_>
        ensures { (result.states ≡ self.now.states) × (result.steps.now ≡ take (16 * self.now.states) self.now.bytes) }
    {
        let states = self.states;
        Table::new(states, &self.bytes[..16 * states as usize]).unwrap()
    }
}
