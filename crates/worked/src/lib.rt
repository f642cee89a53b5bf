// Worked examples as a theorem: each row of a table is a small case whose result a reader can check
// by hand, and one statement says that all of them hold of the definitions that the contracts use.
// To add a row, write it into `examples` in specs/Examples.antt and a `refl` into the proof.
#![tactic(auto)]

ghost use Rattle.std.specs.Prelude.{◌≡◌, length};
ghost use Rattle.worked.specs.Examples.{examples, AllHold};

// How many worked examples there are, all of which hold.
pub fn worked_examples() -> usize
    ensures count { result ≡ length examples }
    ensures all_hold { AllHold examples }
{
    8
}
