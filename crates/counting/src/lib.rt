// The counting family: rules, 24 at the most, that all count with one and the same automaton.
//
// A rule is posted with its row, its sense and its start tally; the family then runs it and tells its
// figures. Want of memory is one more answer of `post`, and leaves the family as it was.
//
// Proved: the family keeps the laws of a family in all three senses; each run leaves just what the
// rule's meaning says; and every at-most or at-least rule keeps only what a sequence uses, alone and
// in pairs.
#![tactic(auto)]

ghost use Rattle.std.specs.Prelude.{◌≡◌, ◌+◌, ◌<◌, ◌≤◌, min, true, [], length, None, MatchResult};
ghost use Rattle.families.specs.Meaning.{workspace_needed, most_rules, pair as paired};
ghost use Rattle.sweeps.specs.Figures.{figures_of};
ghost use Rattle.runs.specs.Run.{along};
ghost use Rattle.counting.specs.Family.{family_of, one_sided_at, PostedTo, NotPosted};
ghost use Rattle.counting.specs.FamilyLaws.{family_lawful};
ghost use Rattle.counting.specs.Used.{KeepsOnlyUsed, AllKeep};

use automata::CounterAutomaton;
use families::{Family, Pair, WORKSPACE};
use measures::Figures;
use refusals::{PostError, PostFault};
use rules::{Row, Rule, Sense};
use std::alloc::Global;

// The most rules of one counting family.
const MOST: usize = 24;

#[derive(Drop)]
pub struct Counting<C> {
    automaton: C,
    rules: Vec<Rule>,
    ghost few: { length rules.items ≤ 24 },
}

impl<C> Counting<C> {
    // A family with no rule yet.
    pub fn new(heap: Global, automaton: C) -> Counting<C>
        ensures { (result.automaton ≡ automaton) × (result.rules.items ≡ []) }
    {
        let rules = Vec::new(heap);
        Counting { automaton, rules }
    }

    // Posts one rule more, the last.
    pub fn post(&mut self, rule: Rule) -> Result<(), PostError>
        ensures automaton { self.new.automaton ≡ self.old.automaton }
        ensures posted { MatchResult result (λ _. PostedTo rule self.old.rules.items self.new.rules.items) (NotPosted self.old.rules.items self.new.rules.items) }
    {
        if self.rules.len() >= MOST {
            return Err(PostError::Fault(PostFault::FamilyFull));
        }
        self.rules.push(rule)?;
        Ok(())
    }

    // The same rules over another automaton.
    pub fn over<D>(self, automaton: D) -> Counting<D>
    where
        C: Drop,
        ensures { (result.automaton ≡ automaton) × (result.rules.items ≡ self.rules.items) }
    {
        let Counting {
            automaton: _,
            rules,
        } = self;
        Counting { automaton, rules }
    }

    // Whether a rule is of the senses at most and at least: then a run of it keeps only what a sequence uses.
    pub fn keeps_only_used(&self, rule: usize) -> bool
    where
        C: CounterAutomaton,
        ensures tells { result ≡ one_sided_at self.now.rules.items rule }
        ensures keeps { result ≡ true → KeepsOnlyUsed ((family_of (C.CounterAutomaton.meaning self.now.automaton) (self.now.rules.items)).rule rule) }
    {
        self.rules
            .get(rule)
            .is_some_and(|rule| rule.sense() != Sense::Exactly)
    }
}

// The figures of a row over the cells, absent on a short workspace.
fn row_figures<C: CounterAutomaton>(
    automaton: &C,
    row: &Row,
    cells: &[u16; 192],
    workspace: &mut [u64],
) -> Option<Figures>
    ensures figures { workspace_needed ≤ length workspace.old → result ≡ figures_of (C.CounterAutomaton.meaning automaton.now) (along row.now.cells.items cells.now) }
    ensures short { length workspace.old < workspace_needed → (result ≡ None) × (workspace.new ≡ workspace.old) }
{
    if workspace.len() < WORKSPACE {
        return None;
    }
    let masks = runs::gather(row, cells);
    sweeps::row_figures(automaton, masks.as_slice(), workspace).unwrap_or(None)
}

impl<C: CounterAutomaton> Family for Counting<C> {
    ghost meaning = { λ f. family_of (C.CounterAutomaton.meaning f.automaton) f.rules.items };

    ghost lawful = { λ f. family_lawful (C.CounterAutomaton.meaning f.automaton) (C.CounterAutomaton.lawful f.automaton) f.rules.items f.few };

    fn rule_count(&self) -> usize {
        self.rules.len()
    }

    fn start_tally(&self, rule: usize) -> u64 {
        self.rules.get(rule).map_or(0, Rule::tally)
    }

    fn run(
        &self,
        rule: usize,
        cells: &mut [u16; 192],
        tally: &mut u64,
        workspace: &mut [u64],
    ) -> u32 {
        // (A closure given to `map_or` would borrow the cells, the tally and the workspace, and is harder to prove.)
        let Some(rule) = self.rules.get(rule) else {
            return 0;
        };
        runs::run(&self.automaton, rule, cells, tally, workspace).unwrap_or(0)
    }

    fn figures(&self, rule: usize, cells: &[u16; 192], workspace: &mut [u64]) -> Option<Figures> {
        let rule = self.rules.get(rule)?;
        row_figures(&self.automaton, rule.row(), cells, workspace)
    }
}

// How many rules a pair has. Where every rule of both families keeps only what a sequence uses, so does each of these.
pub fn paired_rules<F: Family, G: Family>(pair: &Pair<F, G>) -> usize
    ensures count { result ≡ min most_rules ((F.Family.meaning pair.now.first).rules + (G.Family.meaning pair.now.second).rules) }
    ensures keep_only_used { AllKeep (F.Family.meaning pair.now.first) → AllKeep (G.Family.meaning pair.now.second) → AllKeep (paired (F.Family.meaning pair.now.first) (G.Family.meaning pair.now.second)) }
{
    pair.rule_count()
}
