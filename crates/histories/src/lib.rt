// Decisions, the decision log of a plan, and the law over every history: definitions and theorems, no code.

#![tactic(auto)]
