// Exports for timing: what a harness outside calls to time the kernel's inner parts.
//
// Each call makes its automaton, rules or plan once and then works through many cases that the caller
// lends, in place, so that crossing over costs next to nothing and every result can be compared.
// Proved: every function is safe and returns, whatever numbers it is given. A call whose automaton or
// rules are refused does nothing and answers `false` or 0.
#![tactic(auto)]

pub mod fields;
pub mod many_runs;
pub mod many_sweeps;
pub mod many_tries;
