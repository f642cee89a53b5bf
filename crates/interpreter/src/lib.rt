// The interpreter: a file of frames, carried out.
//
// A file has three parts, and so are there three types, each made of the one before: a `FileDraft`
// (in the crate `posting`) takes the frames before the start, a `FilePlan` the calls on the running plan,
// and a `FileRoster` is read. `read` has the calls that a program makes for each line, and `perform`
// carries out whole lists of frames.
//
// Proved: which call each frame makes, with which arguments, and what it leaves; that a refused frame
// changes nothing; and that the law over every history of a plan holds of every list of frames.
#![tactic(auto)]

pub mod file;
pub mod perform;
pub mod read;
