// The start of a file's plan, and its end.
ghost use Rattle.std.specs.Prelude.{◌≡◌, ◌<◌, ◌≤◌, length};
ghost use Rattle.families.specs.Meaning.{workspace_needed};
ghost use Rattle.histories.specs.Law.{DraftCells};
ghost use Rattle.histories.specs.Plans.{Begun, voided};
ghost use Rattle.planning.specs.declared.plan.Start.TheVariants.{Short};
ghost use Rattle.planning.specs.Views.{view, started};
ghost use Rattle.posting.specs.Families.{rules_meaning, meaning_of};
ghost use Rattle.posting.specs.Sheets.{sheet_of};

use super::{FilePlan, FileRoster};
use planning::plan::Start;
use posting::drafting::{FileDraft, Finished};
use posting::kept::KeptTable;

impl<'a> FilePlan<'a> {
    // Starts the plan that was drafted. The room that is lent keeps the table's bytes for it.
    pub fn start(
        draft: FileDraft,
        room: &'a mut KeptTable,
        workspace: &mut [u64],
    ) -> (FilePlan<'a>, Start)
        ensures rules { (result.0.size.cells ≡ (sheet_of draft).size) × (rules_meaning result.0.plan.held.family ≡ meaning_of (sheet_of draft)) }
        ensures cells { DraftCells (sheet_of draft).masks }
        ensures begun { workspace_needed ≤ length workspace.old → Begun (meaning_of (sheet_of draft)) (sheet_of draft).masks (started result.1) (view result.0.plan) }
        ensures short { length workspace.old < workspace_needed → (result.1 ≡ Short) × (view result.0.plan ≡ voided) × (workspace.new ≡ workspace.old) }
    {
        let Finished { size, draft, rules } = draft.finish(room);
        let (plan, start) = draft.start(rules, workspace);
        (FilePlan { size, plan }, start)
    }

    // Ends the plan and leaves the roster.
    pub fn publish(self) -> FileRoster<'a>
        ensures { (result.size ≡ self.entry.size) × (result.roster.held.family ≡ self.entry.plan.held.family) × (result.roster.held.masks ≡ self.entry.plan.held.masks) × (result.roster.held.void ≡ self.entry.plan.held.void) }
    {
        let FilePlan { size, plan } = self;
        FileRoster {
            size,
            roster: plan.publish(),
        }
    }
}
