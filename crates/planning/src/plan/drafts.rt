// Making a draft, and starting a plan from it.
ghost use Rattle.std.specs.Prelude.{◌≡◌, ℕ, ◌+◌, ◌<◌, ◌≤◌, true, false, [], length, replicate, MatchResult};
ghost use Rattle.refusals.specs.declared.PlanFault.TheVariants.{Workspace};
ghost use Rattle.families.specs.Meaning.{workspace_needed};
ghost use Rattle.settling.specs.Masks.{of};
ghost use Rattle.histories.specs.Log.{Starts};
ghost use Rattle.histories.specs.Plans.{voided, Begun};
ghost use Rattle.planning.specs.declared.plan.Start.TheVariants.{Short};
ghost use Rattle.planning.specs.Drafts.{GoodRange, RangeFault, RangeSet};
ghost use Rattle.planning.specs.Views.{view, started};

use super::{Draft, Held, Plan, Start};
use arrayvec::ArrayVec;
use families::{Family, WORKSPACE};
use refusals::{PlanFault, PostFault};
use settling::Snapshot;
use std::array;

// Sets the cells from one on to a mask.
fn fill(cells: &mut [u16; 192], first: usize, number: usize, mask: u16)
    requires { first + number ≤ 192 }
    ensures { RangeSet first number mask cells.old cells.new }
{
    cells[first..first + number].fill(mask);
}

// The masks that a plan starts from.
fn start_masks<F: Family>(cells: [u16; 192], family: &F) -> Snapshot
    ensures { Starts (F.Family.meaning family.now) cells (of result) }
{
    Snapshot {
        cells,
        tallies: array::from_fn(|rule| family.start_tally(rule)),
    }
}

// A plan with these masks and no open level.
fn begun<F: Family>(family: F, masks: Snapshot) -> Plan<F>
    ensures family { result.held.family ≡ family }
    ensures view { view result ≡ record { now = of masks; below = []; void = false } }
{
    Plan {
        held: Held {
            family,
            masks,
            void: false,
        },
        stack: ArrayVec::new(),
    }
}

// A void plan, with nothing open.
fn void_plan<F: Family>(family: F) -> Plan<F>
    ensures family { result.held.family ≡ family }
    ensures view { view result ≡ voided }
{
    Plan {
        held: Held {
            family,
            masks: Snapshot::default(),
            void: true,
        },
        stack: ArrayVec::new(),
    }
}

// Whether a workspace is long enough to start on. (The crates below have this comparison too: each answers it in its own way.)
pub fn check_workspace(workspace: &[u64]) -> Result<(), PlanFault>
    ensures { MatchResult result (λ _. workspace_needed ≤ length workspace.now) (λ e. (e ≡ Workspace) × (length workspace.now < workspace_needed)) }
{
    if workspace.len() < WORKSPACE {
        return Err(PlanFault::Workspace);
    }
    Ok(())
}

impl Draft {
    // Every duty is open in every cell.
    pub fn new() -> Draft
        ensures { result.cells ≡ replicate 192 65535 }
    {
        Draft {
            cells: [0xffff; 192],
        }
    }

    // Sets the masks of a range of cells: so many from the first on.
    pub fn set_range(&mut self, first: usize, number: usize, mask: u16) -> Result<(), PostFault>
        ensures { MatchResult result (λ _. GoodRange first number × (0 < mask) × RangeSet first number mask self.old.cells self.new.cells) (λ e. RangeFault first number mask e × (self.new.cells ≡ self.old.cells)) }
    {
        if number == 0 || first > 192 || number > 192 - first {
            return Err(PostFault::Range);
        }
        if mask == 0 {
            return Err(PostFault::EmptyMask);
        }
        fill(&mut self.cells, first, number, mask);
        Ok(())
    }

    // Starts a plan: settles the draft's masks and the family's start tallies. Where that fails, or the workspace is too short, the plan is void.
    pub fn start<F: Family>(self, family: F, workspace: &mut [u64]) -> (Plan<F>, Start)
        ensures family { result.0.held.family ≡ family }
        ensures begun { workspace_needed ≤ length workspace.old → Begun (F.Family.meaning family) self.cells (started result.1) (view result.0) }
        ensures short { length workspace.old < workspace_needed → (result.1 ≡ Short) × (view result.0 ≡ voided) × (workspace.new ≡ workspace.old) }
    {
        let Draft { cells } = self;
        let mut masks = start_masks(cells, &family);
        match settling::settle(&family, &mut masks, workspace) {
            Ok(Ok(work)) => (begun(family, masks), Start::Settled(work)),
            Ok(Err(failure)) => (void_plan(family), Start::Void(failure)),
            Err(_) => (void_plan(family), Start::Short),
        }
    }
}
