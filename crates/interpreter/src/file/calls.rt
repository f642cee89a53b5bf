// The calls on a file's plan.
ghost use Rattle.std.specs.Prelude.{◌≡◌, true, length, Err, MatchResult};
ghost use Rattle.refusals.specs.declared.PlanFault.{PlanFault};
ghost use Rattle.planning.specs.Views.{view};
ghost use Rattle.posting.specs.Families.{rules_meaning};
ghost use Rattle.interpreter.specs.Calls.{Tells, Decides, NoCall, leaves_workspace};

use super::{FilePlan, Told};
use planning::plan::Try;
use refusals::{FrameFault, PlanFault};
use wire::frame::Frame;

impl<'a> FilePlan<'a> {
    // Decides on one of the file's own cells.
    fn decide(&mut self, cell: usize, mask: u16, workspace: &mut [u64]) -> Result<Try, PlanFault>
        ensures same { (self.new.size ≡ self.old.size) × (self.new.plan.held.family ≡ self.old.plan.held.family) }
        ensures refused_leaves_workspace { (e : PlanFault) → result ≡ Err e → workspace.new ≡ workspace.old }
        ensures decides { Decides (rules_meaning self.old.plan.held.family) self.old.size.cells (length workspace.old) (view self.old.plan) cell mask result (view self.new.plan) }
    {
        if cell >= self.size.count() {
            return Err(PlanFault::Cell);
        }
        self.plan.decide(cell, mask, workspace)
    }

    // Carries a frame out. One that is no call on a running plan is out of order.
    pub fn take(&mut self, frame: Frame, workspace: &mut [u64]) -> Result<Told, FrameFault>
        ensures same { (self.new.size ≡ self.old.size) × (self.new.plan.held.family ≡ self.old.plan.held.family) }
        ensures workspace { leaves_workspace result ≡ true → workspace.new ≡ workspace.old }
        ensures tells { MatchResult result (λ t. Tells (rules_meaning self.old.plan.held.family) self.old.size.cells (length workspace.old) (view self.old.plan) frame.entry t (view self.new.plan)) (λ e. NoCall frame.entry e × (view self.new.plan ≡ view self.old.plan)) }
    {
        match frame {
            Frame::Decide { cell, mask } => {
                let cell = cell as usize;
                let answer = self.decide(cell, mask, workspace);
                Ok(Told::Decided { cell, answer })
            }
            Frame::Bound { rule, tally } => {
                let rule = rule as usize;
                let answer = self.plan.bound(rule, tally, workspace);
                Ok(Told::Bounded { rule, answer })
            }
            Frame::Mark => Ok(Told::Marked(self.plan.mark())),
            Frame::Back => Ok(Told::Backed(self.plan.back())),
            Frame::Publish => Ok(Told::Publish),
            _ => Err(FrameFault::Order),
        }
    }
}
