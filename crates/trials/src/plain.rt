// The plain implementation: everything from its definition, over all sequences, and nothing from the
// kernel. Slow, and meant to be: it has no sweeps, keeps no masks between calls, and undoes nothing.
pub mod counters;
pub mod drafted;
pub mod faults;
pub mod fillings;
pub mod frames;
pub mod judging;
pub mod log;
pub mod reading;
pub mod rounds;
pub mod sequences;
pub mod stable;
