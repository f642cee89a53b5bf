// Measures: what is asked of all sequences together, as codes of 64 bits.
//
// A measure has a code for no sequence (`none`), a code for the empty one (`start`), an `increase`
// of a code by a number, and a `join` of two codes. `Least` and `Greatest` find the least and the
// greatest total, `Totals` the set of the totals 0 to 63. Sweeps are written once for all of them.
//
// Each measure proves the laws of a measure, and that its codes say what its name says.
#![tactic(auto)]

ghost use Rattle.std.specs.Prelude.{◌≡◌};
ghost use Rattle.measures.specs.Measuring.{Measuring, Laws, Idempotent};
ghost use Rattle.measures.specs.Kinds.{least, least_laws, least_idempotent, greatest, greatest_laws, greatest_idempotent, totals, totals_laws, totals_idempotent};

pub trait Measure {
    ghost kind: { Measuring };

    // What each measure proves, and what a sweep rests on.
    ghost laws: { Laws kind };

    // What each measure proves besides.
    ghost idempotent: { Idempotent kind };

    // The code where there is no sequence.
    fn none() -> u64
        ensures { result ≡ kind.none };

    // The code of the sequence of no duties.
    fn start() -> u64
        ensures { result ≡ kind.start };

    // The code where each total is larger by a number.
    fn increase(code: u64, by: u64) -> u64
        ensures { result ≡ kind.increase code by };

    // The code of the sequences of both.
    fn join(a: u64, b: u64) -> u64
        ensures { result ≡ kind.join a b };
}

// The least total: a total is its own code, and the largest number stands for none.
pub struct Least;

impl Measure for Least {
    ghost kind = { least };

    ghost laws = { least_laws };

    ghost idempotent = { least_idempotent };

    fn none() -> u64 {
        u64::MAX
    }

    fn start() -> u64 {
        0
    }

    fn increase(code: u64, by: u64) -> u64 {
        code.saturating_add(by)
    }

    fn join(a: u64, b: u64) -> u64 {
        a.min(b)
    }
}

// The greatest total: the code of a total is one more, and 0 stands for none.
pub struct Greatest;

impl Measure for Greatest {
    ghost kind = { greatest };

    ghost laws = { greatest_laws };

    ghost idempotent = { greatest_idempotent };

    fn none() -> u64 {
        0
    }

    fn start() -> u64 {
        1
    }

    fn increase(code: u64, by: u64) -> u64 {
        if code == 0 {
            0
        } else {
            code.saturating_add(by)
        }
    }

    fn join(a: u64, b: u64) -> u64 {
        a.max(b)
    }
}

// The set of the totals 0 to 63, as a mask; larger totals fall away.
pub struct Totals;

impl Measure for Totals {
    ghost kind = { totals };

    ghost laws = { totals_laws };

    ghost idempotent = { totals_idempotent };

    fn none() -> u64 {
        0
    }

    fn start() -> u64 {
        1
    }

    fn increase(code: u64, by: u64) -> u64 {
        if by < 64 { code << by } else { 0 }
    }

    fn join(a: u64, b: u64) -> u64 {
        a | b
    }
}

// What the three measures say of all sequences of a row together: the least and the greatest total,
// and the set of those totals that are below 64.
#[derive(Clone, Copy, PartialEq, Eq, Debug)]
pub struct Figures {
    pub least: u64,
    pub greatest: u64,
    pub totals: u64,
}
