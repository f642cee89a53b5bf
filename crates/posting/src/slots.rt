// Slots: a place for the automaton of one kind, and the rules that count with it.
ghost use Rattle.std.specs.Prelude.{◌≡◌, true, [], is_some, Some, None, MatchResult};
ghost use Rattle.refusals.specs.declared.PostFault.TheVariants.{GivenBefore};
ghost use Rattle.posting.specs.Slots.{PostedIn, NotPostedIn};

use counting::Counting;
use refusals::{PostError, PostFault};
use rules::Rule;
use std::alloc::Global;

// The automaton, once it is given, and its rules, 24 at the most.
#[derive(Drop)]
pub struct Slot<A> {
    automaton: Option<A>,
    rules: Counting<()>,
}

impl<A> Slot<A> {
    // No automaton and no rule.
    pub fn new(heap: Global) -> Slot<A>
        ensures { (result.automaton ≡ None) × (result.rules.rules.items ≡ []) }
    {
        Slot {
            automaton: None,
            rules: Counting::new(heap, ()),
        }
    }

    // Takes the automaton, unless there is one.
    pub fn give(&mut self, automaton: A) -> Result<(), PostFault>
    where
        A: Drop,
        ensures rules { self.new.rules ≡ self.old.rules }
        ensures given { MatchResult result (λ _. (self.old.automaton ≡ None) × (self.new.automaton ≡ Some automaton)) (λ e. (e ≡ GivenBefore) × (is_some self.old.automaton ≡ true) × (self.new.automaton ≡ self.old.automaton)) }
    {
        if self.automaton.is_some() {
            return Err(PostFault::GivenBefore);
        }
        self.automaton = Some(automaton);
        Ok(())
    }

    // Posts one rule more, if there is an automaton to count with.
    pub fn post(&mut self, rule: Rule) -> Result<(), PostError>
        ensures automaton { self.new.automaton ≡ self.old.automaton }
        ensures posted { MatchResult result (λ _. PostedIn (is_some self.old.automaton) rule self.old.rules.rules.items self.new.rules.rules.items) (NotPostedIn (is_some self.old.automaton) self.old.rules.rules.items self.new.rules.rules.items) }
    {
        if self.automaton.is_none() {
            return Err(PostError::Fault(PostFault::NotGiven));
        }
        self.rules.post(rule)
    }

    // What was given and posted.
    pub fn finish(self) -> (Option<A>, Counting<()>)
        ensures { (result.0 ≡ self.automaton) × (result.1 ≡ self.rules) }
    {
        let Slot { automaton, rules } = self;
        (automaton, rules)
    }
}
