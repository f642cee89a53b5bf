// Levels: marks, and going back to them.
ghost use Rattle.std.specs.Prelude.{◌≡◌, ℕ};
ghost use Rattle.histories.specs.Calls.{mark, back};
ghost use Rattle.histories.specs.Plans.{Called};
ghost use Rattle.planning.specs.Views.{view, leveled};

use super::Plan;
use families::Family;
use refusals::PlanFault;

impl<F: Family> Plan<F> {
    // Opens a level, and answers how many are open.
    pub fn mark(&mut self) -> Result<usize, PlanFault>
        ensures family { self.new.held.family ≡ self.old.held.family }
        ensures called { Called (F.Family.meaning self.old.held.family) mark (leveled result) (view self.old) (view self.new) }
    {
        if self.held.void {
            return Err(PlanFault::Void);
        }
        if self.stack.is_full() {
            return Err(PlanFault::LevelsFull);
        }
        self.stack.push(self.held.masks);
        Ok(self.stack.len())
    }

    // Closes the newest level, puts the masks back as at its mark, and answers how many levels are open.
    pub fn back(&mut self) -> Result<usize, PlanFault>
        ensures family { self.new.held.family ≡ self.old.held.family }
        ensures called { Called (F.Family.meaning self.old.held.family) back (leveled result) (view self.old) (view self.new) }
    {
        if self.held.void {
            return Err(PlanFault::Void);
        }
        // (The masks are copied from the level itself: `pop`, and what unwraps it, copy them once more.)
        let Some(masks) = self.stack.as_slice().last() else {
            return Err(PlanFault::NoLevel);
        };
        self.held.masks = *masks;
        self.stack.truncate(self.stack.len() - 1);
        Ok(self.stack.len())
    }
}
