// Families: numbered lists of rules, known to everything above only by their meaning.
//
// `Family` is the interface; settling and plans are written once against it. `Pair` joins two
// families into one, so that families of different kinds serve one plan, and pairs can be paired.
//
// Each family proves the laws of its rules (specs/Laws.antt); a pair has them from its two parts. No
// call refuses: outside a family's numbers, or on a workspace that is too short, nothing is removed,
// there are no figures, and the workspace is left alone.
#![tactic(auto)]

ghost use Rattle.std.specs.Prelude.{◌≡◌, ◌+◌, ◌<◌, ◌≤◌, ◌⊎◌, length, MatchResult};
ghost use Rattle.masks.specs.Members.{lost};
ghost use Rattle.refusals.specs.declared.PostFault.TheVariants.{TooManyRules};
ghost use Rattle.families.specs.Masks.{values_lost};
ghost use Rattle.families.specs.Meaning.{Meaning, ran, figured, start_of, pair, workspace_needed, most_rules};
ghost use Rattle.families.specs.Laws.{Lawful};
ghost use Rattle.families.specs.Pairs.{pair_lawful};
ghost use Rattle.families.specs.Parts.{PartOf};

use measures::Figures;
use refusals::PostFault;

// How many numbers of workspace a run takes, and likewise figures.
pub const WORKSPACE: usize = 4160;

// How many rules a family has at most.
pub const MOST_RULES: usize = 72;

pub trait Family {
    ghost meaning: { Self → Meaning };

    // What each family proves of its rules.
    ghost lawful: { (x : Self) → Lawful (meaning x) };

    fn rule_count(&self) -> usize
        ensures { result ≡ (meaning self.now).rules };

    // The tally that a rule starts with; 0 outside the family's numbers.
    fn start_tally(&self, rule: usize) -> u64
        ensures { result ≡ start_of (meaning self.now) rule };

    // Runs one rule: removes what it removes, and answers how many values that were.
    fn run(
        &self,
        rule: usize,
        cells: &mut [u16; 192],
        tally: &mut u64,
        workspace: &mut [u64],
    ) -> u32
        ensures cells { cells.new ≡ (ran (meaning self.now) (length workspace.old) rule cells.old tally.old).cells }
        ensures tally { tally.new ≡ (ran (meaning self.now) (length workspace.old) rule cells.old tally.old).tally }
        ensures removed { result ≡ values_lost cells.old cells.new + length (lost 64 tally.old tally.new) }
        ensures left_alone { ((meaning self.now).rules ≤ rule) ⊎ (length workspace.old < workspace_needed) → workspace.new ≡ workspace.old };

    // The figures of one rule over the cells.
    fn figures(&self, rule: usize, cells: &[u16; 192], workspace: &mut [u64]) -> Option<Figures>
        ensures figures { result ≡ figured (meaning self.now) (length workspace.old) rule cells.now }
        ensures left_alone { ((meaning self.now).rules ≤ rule) ⊎ (length workspace.old < workspace_needed) → workspace.new ≡ workspace.old };
}

// Whether two families can be joined: together they may have as many rules as one family at most.
pub fn check_pair<F: Family, G: Family>(first: &F, second: &G) -> Result<(), PostFault>
    ensures { MatchResult result (λ _. (F.Family.meaning first.now).rules + (G.Family.meaning second.now).rules ≤ most_rules) (λ e. (e ≡ TooManyRules) × (most_rules < (F.Family.meaning first.now).rules + (G.Family.meaning second.now).rules)) }
{
    if first.rule_count() + second.rule_count() > MOST_RULES {
        return Err(PostFault::TooManyRules);
    }
    Ok(())
}

// Two families as one, the first's rules numbered first. Where they have more rules than `check_pair`
// allows, it has the first `MOST_RULES` of them.
#[derive(Drop)]
pub struct Pair<F, G> {
    first: F,
    second: G,
}

impl<F, G> Pair<F, G> {
    pub fn new(first: F, second: G) -> Pair<F, G>
        ensures { (result.first ≡ first) × (result.second ≡ second) }
    {
        Pair { first, second }
    }
}

// The part that is asked for a rule, and the rule's number there; neither, from `MOST_RULES` on. (Three
// answers to one question, and no `Option` around two of them.)
enum Part {
    First(usize),
    Second(usize),
    Neither,
}

impl<F: Family, G: Family> Pair<F, G> {
    // A number past both families' rules is told as the second's, which does nothing for it; from
    // `MOST_RULES` on as neither's.
    fn part(&self, rule: usize) -> Part
        ensures { PartOf (F.Family.meaning self.now.first) rule result }
    {
        let n = self.first.rule_count();
        if rule >= MOST_RULES {
            Part::Neither
        } else if rule < n {
            Part::First(rule)
        } else {
            Part::Second(rule - n)
        }
    }
}

impl<F: Family, G: Family> Family for Pair<F, G> {
    ghost meaning = { λ p. pair (F.Family.meaning p.first) (G.Family.meaning p.second) };

    ghost lawful = { λ p. pair_lawful (F.Family.meaning p.first) (G.Family.meaning p.second) (F.Family.lawful p.first) (G.Family.lawful p.second) };

    fn rule_count(&self) -> usize {
        (self.first.rule_count() + self.second.rule_count()).min(MOST_RULES)
    }

    fn start_tally(&self, rule: usize) -> u64 {
        match self.part(rule) {
            Part::First(n) => self.first.start_tally(n),
            Part::Second(n) => self.second.start_tally(n),
            Part::Neither => 0,
        }
    }

    fn run(
        &self,
        rule: usize,
        cells: &mut [u16; 192],
        tally: &mut u64,
        workspace: &mut [u64],
    ) -> u32 {
        match self.part(rule) {
            Part::First(n) => self.first.run(n, cells, tally, workspace),
            Part::Second(n) => self.second.run(n, cells, tally, workspace),
            Part::Neither => 0,
        }
    }

    fn figures(&self, rule: usize, cells: &[u16; 192], workspace: &mut [u64]) -> Option<Figures> {
        match self.part(rule) {
            Part::First(n) => self.first.figures(n, cells, workspace),
            Part::Second(n) => self.second.figures(n, cells, workspace),
            Part::Neither => None,
        }
    }
}
