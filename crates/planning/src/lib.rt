// Plans: a draft that is made, a running plan that is tried on, a published roster that is read.
//
// Each step consumes what it starts from: `Draft::start` the draft and a family, `Plan::publish` the
// plan. Nothing from the start on allocates.
//
// Proved of every call: what it does to the masks and levels, and that whatever decision log the
// plan shows before the call, it shows the log after it (`Called`). Refused calls and failed tries
// change nothing in the plan, and refused ones nothing in the lent workspace.
#![tactic(auto)]

pub mod plan;
