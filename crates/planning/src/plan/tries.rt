// Tries: decisions on a cell or on a tally.
ghost use Rattle.std.specs.Prelude.{◌≡◌, ℕ, ◌<◌, ◌≤◌, false, List, length, Ok, Err, MatchResult, Some, None, nat_lt};
ghost use Rattle.refusals.specs.declared.PlanFault.{PlanFault};
ghost use Rattle.refusals.specs.declared.PlanFault.TheVariants.{Workspace, Void};
ghost use Rattle.families.specs.Meaning.{workspace_needed};
ghost use Rattle.settling.specs.Masks.{Masks, of};
ghost use Rattle.histories.specs.Decisions.{on_cell, on_tally};
ghost use Rattle.histories.specs.Calls.{try, else};
ghost use Rattle.histories.specs.Plans.{Free, Step, Called};
ghost use Rattle.planning.specs.Views.{shown, view, tried, Tried};

use super::drafts::check_workspace;
use super::{Held, Plan, Try};
use families::Family;
use refusals::PlanFault;
use settling::Snapshot;

impl<F: Family> Held<F> {
    // Whether a try may be made: on a workspace that is long enough, and not where the plan is void.
    fn check_try(&self, workspace: &[u64]) -> Result<(), PlanFault>
        ensures { MatchResult result (λ _. (workspace_needed ≤ length workspace.now) × (self.now.void ≡ false)) (λ e. else (nat_lt (length workspace.now) workspace_needed) Workspace (else self.now.void Void None) ≡ Some e) }
    {
        check_workspace(workspace)?;
        if self.void {
            return Err(PlanFault::Void);
        }
        Ok(())
    }

    // Settles the masks; where that fails they are as they were before.
    fn settle_or_restore(&mut self, before: &Snapshot, workspace: &mut [u64]) -> Try
        requires { workspace_needed ≤ length workspace.old }
        ensures family { self.new.family ≡ self.old.family }
        ensures void { self.new.void ≡ self.old.void }
        ensures tried { Tried (F.Family.meaning self.old.family) (of self.old.masks) (of before.now) (of self.new.masks) result }
    {
        match settling::settle(&self.family, &mut self.masks, workspace) {
            Ok(Ok(work)) => Try::Settled(work),
            Ok(Err(failure)) => {
                self.masks = *before;
                Try::Failed(failure)
            }
            Err(_) => Try::Own,
        }
    }

    // Narrows a cell to what it shares with a given mask, and settles.
    // Two functions: a cell's mask and a tally differ in width and in the decision that the law speaks of.
    fn try_cell(&mut self, cell: usize, mask: u16, workspace: &mut [u64]) -> Try
        requires cell { cell < 192 }
        requires workspace { workspace_needed ≤ length workspace.old }
        ensures family { self.new.family ≡ self.old.family }
        ensures step { (below : List Masks) (w : ℕ) → Free (F.Family.meaning self.old.family) (shown self.old below) (try (on_cell cell mask) w) → Step (F.Family.meaning self.old.family) (shown self.old below) (try (on_cell cell mask) w) (tried (Ok result)) (shown self.new below) }
    {
        let before = self.masks;
        let kept = before.cells[cell] & mask;
        if kept == 0 {
            return Try::Own;
        }
        self.masks.cells[cell] = kept;
        self.settle_or_restore(&before, workspace)
    }

    // Narrows a tally to what it shares with a given mask, and settles.
    fn try_tally(&mut self, rule: usize, tally: u64, workspace: &mut [u64]) -> Try
        requires rule { rule < 72 }
        requires workspace { workspace_needed ≤ length workspace.old }
        ensures family { self.new.family ≡ self.old.family }
        ensures step { (below : List Masks) (w : ℕ) → Free (F.Family.meaning self.old.family) (shown self.old below) (try (on_tally rule tally) w) → Step (F.Family.meaning self.old.family) (shown self.old below) (try (on_tally rule tally) w) (tried (Ok result)) (shown self.new below) }
    {
        let before = self.masks;
        let kept = before.tallies[rule] & tally;
        if kept == 0 {
            return Try::Own;
        }
        self.masks.tallies[rule] = kept;
        self.settle_or_restore(&before, workspace)
    }
}

impl<F: Family> Plan<F> {
    // Narrows a cell to what it shares with a given mask, and settles.
    pub fn decide(
        &mut self,
        cell: usize,
        mask: u16,
        workspace: &mut [u64],
    ) -> Result<Try, PlanFault>
        ensures family { self.new.held.family ≡ self.old.held.family }
        ensures called { Called (F.Family.meaning self.old.held.family) (try (on_cell cell mask) (length workspace.old)) (tried result) (view self.old) (view self.new) }
        ensures refused_leaves_workspace { (e : PlanFault) → result ≡ Err e → workspace.new ≡ workspace.old }
    {
        if cell >= 192 {
            return Err(PlanFault::Cell);
        }
        if mask == 0 {
            return Err(PlanFault::EmptyMask);
        }
        self.held.check_try(workspace)?;
        Ok(self.held.try_cell(cell, mask, workspace))
    }

    // Narrows a rule's tally to what it shares with a given mask, and settles.
    pub fn bound(
        &mut self,
        rule: usize,
        tally: u64,
        workspace: &mut [u64],
    ) -> Result<Try, PlanFault>
        ensures family { self.new.held.family ≡ self.old.held.family }
        ensures called { Called (F.Family.meaning self.old.held.family) (try (on_tally rule tally) (length workspace.old)) (tried result) (view self.old) (view self.new) }
        ensures refused_leaves_workspace { (e : PlanFault) → result ≡ Err e → workspace.new ≡ workspace.old }
    {
        if tally == 0 {
            return Err(PlanFault::EmptyTally);
        }
        if rule >= self.held.family.rule_count() {
            return Err(PlanFault::Rule);
        }
        self.held.check_try(workspace)?;
        Ok(self.held.try_tally(rule, tally, workspace))
    }
}
