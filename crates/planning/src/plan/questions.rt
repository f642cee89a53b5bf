// Questions, to a running plan and to a published roster.
ghost use Rattle.std.specs.Prelude.{◌≡◌, ℕ, List, length, Err};
ghost use Rattle.refusals.specs.declared.PlanFault.{PlanFault};
ghost use Rattle.settling.specs.Masks.{Masks};
ghost use Rattle.histories.specs.Calls.{ask, of_cell, of_tally, of_figures};
ghost use Rattle.histories.specs.Plans.{Called};
ghost use Rattle.planning.specs.Views.{shown, view, read, held, figured};

use super::drafts::check_workspace;
use super::{Held, Plan, Roster};
use families::Family;
use measures::Figures;
use refusals::PlanFault;

impl<F: Family> Held<F> {
    // The mask of a cell.
    fn cell(&self, cell: usize) -> Result<u16, PlanFault>
        ensures { (below : List Masks) (w : ℕ) → Called (F.Family.meaning self.now.family) (ask (of_cell cell) w) (held result) (shown self.now below) (shown self.now below) }
    {
        if cell < 192 {
            Ok(self.masks.cells[cell])
        } else {
            Err(PlanFault::Cell)
        }
    }

    // The tally of a rule.
    fn tally(&self, rule: usize) -> Result<u64, PlanFault>
        ensures { (below : List Masks) (w : ℕ) → Called (F.Family.meaning self.now.family) (ask (of_tally rule) w) (held result) (shown self.now below) (shown self.now below) }
    {
        if rule < self.family.rule_count() {
            Ok(self.masks.tallies[rule])
        } else {
            Err(PlanFault::Rule)
        }
    }

    // The figures of a rule over the cells; a void plan has none.
    fn figures(&self, rule: usize, workspace: &mut [u64]) -> Result<Option<Figures>, PlanFault>
        ensures called { (below : List Masks) → Called (F.Family.meaning self.now.family) (ask (of_figures rule) (length workspace.old)) (figured result) (shown self.now below) (shown self.now below) }
        ensures refused_leaves_workspace { (e : PlanFault) → result ≡ Err e → workspace.new ≡ workspace.old }
    {
        if rule >= self.family.rule_count() {
            return Err(PlanFault::Rule);
        }
        check_workspace(workspace)?;
        if self.void {
            return Ok(None);
        }
        Ok(self.family.figures(rule, &self.masks.cells, workspace))
    }
}

// (The questions of a plan and of a roster are two public names each, and one call.)
impl<F: Family> Plan<F> {
    pub fn cell(&self, cell: usize) -> Result<u16, PlanFault>
        ensures { (w : ℕ) → Called (F.Family.meaning self.now.held.family) (ask (of_cell cell) w) (held result) (view self.now) (view self.now) }
    {
        self.held.cell(cell)
    }

    pub fn tally(&self, rule: usize) -> Result<u64, PlanFault>
        ensures { (w : ℕ) → Called (F.Family.meaning self.now.held.family) (ask (of_tally rule) w) (held result) (view self.now) (view self.now) }
    {
        self.held.tally(rule)
    }

    pub fn figures(&self, rule: usize, workspace: &mut [u64]) -> Result<Option<Figures>, PlanFault>
        ensures called { Called (F.Family.meaning self.now.held.family) (ask (of_figures rule) (length workspace.old)) (figured result) (view self.now) (view self.now) }
        ensures refused_leaves_workspace { (e : PlanFault) → result ≡ Err e → workspace.new ≡ workspace.old }
    {
        self.held.figures(rule, workspace)
    }

    // Ends the plan and leaves a roster, which only answers questions.
    pub fn publish(self) -> Roster<F>
        ensures { result.held ≡ self.held }
    {
        let Plan { held, stack: _ } = self;
        Roster { held }
    }
}

impl<F: Family> Roster<F> {
    pub fn cell(&self, cell: usize) -> Result<u16, PlanFault>
        ensures { (w : ℕ) → Called (F.Family.meaning self.now.held.family) (ask (of_cell cell) w) (held result) (read self.now) (read self.now) }
    {
        self.held.cell(cell)
    }

    pub fn tally(&self, rule: usize) -> Result<u64, PlanFault>
        ensures { (w : ℕ) → Called (F.Family.meaning self.now.held.family) (ask (of_tally rule) w) (held result) (read self.now) (read self.now) }
    {
        self.held.tally(rule)
    }

    pub fn figures(&self, rule: usize, workspace: &mut [u64]) -> Result<Option<Figures>, PlanFault>
        ensures called { Called (F.Family.meaning self.now.held.family) (ask (of_figures rule) (length workspace.old)) (figured result) (read self.now) (read self.now) }
        ensures refused_leaves_workspace { (e : PlanFault) → result ≡ Err e → workspace.new ≡ workspace.old }
    {
        self.held.figures(rule, workspace)
    }
}
