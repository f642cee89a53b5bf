// Posting: the first part of a file, in which a plan is drafted.
//
// A `FileDraft` takes the frames before the start one by one: masks for ranges of cells, automata, a
// map, and rules. Each is accepted, or refused for the first thing wrong with it, and a refused frame
// changes nothing. `finish` makes of it all the draft and the family that a plan starts from.
//
// There are three kinds of automaton, and at most one of each. Rules are kept beside the kind that they
// count with until `finish`, since a map over the word may still come, and is for all its rules.
#![tactic(auto)]

pub mod counters;
pub mod drafting;
pub mod kept;
pub mod sizes;
pub mod slots;
