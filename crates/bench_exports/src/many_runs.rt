// Many runs of one rule.
use crate::fields::{RuleFields, mapped_word, rule_of, table};
use automata::{Among, CounterAutomaton};
use std::alloc::Global;

// Masks to run a rule on, and how many values that took.
#[repr(C)]
#[derive(Clone, Copy)]
pub struct Case {
    pub cells: [u16; 192],
    pub tally: u64,
    pub removed: u32,
}

// Runs the rule once on each case, in place; false where the automaton or the rule was refused.
fn run_cases<C: CounterAutomaton + Drop>(
    heap: Global,
    automaton: Option<C>,
    fields: &RuleFields,
    cases: &mut [Case],
    workspace: &mut [u64],
) -> bool {
    let (Some(automaton), Some(rule)) = (automaton, rule_of(heap, fields)) else {
        return false;
    };
    for case in cases.iter_mut() {
        let ran = runs::run(
            &automaton,
            &rule,
            &mut case.cells,
            &mut case.tally,
            workspace,
        );
        case.removed = ran.unwrap_or(0);
    }
    true
}

#[unsafe(no_mangle)]
pub extern "C" fn kernel_run_set(
    heap: Global,
    set: u16,
    rule: &RuleFields,
    cases: &mut [Case],
    workspace: &mut [u64],
) -> bool {
    run_cases(heap, Some(Among::new(set)), rule, cases, workspace)
}

#[unsafe(no_mangle)]
pub extern "C" fn kernel_run_word(
    heap: Global,
    word: &[u8],
    rule: &RuleFields,
    cases: &mut [Case],
    workspace: &mut [u64],
) -> bool {
    run_cases(heap, mapped_word(word), rule, cases, workspace)
}

#[unsafe(no_mangle)]
pub extern "C" fn kernel_run_table(
    heap: Global,
    steps: &[u8],
    rule: &RuleFields,
    cases: &mut [Case],
    workspace: &mut [u64],
) -> bool {
    run_cases(heap, table(steps), rule, cases, workspace)
}
