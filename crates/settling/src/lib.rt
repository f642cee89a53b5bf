// Settling: runs the rules of a family, round after round, until nothing more goes or a mask is empty.
//
// `settle` is one text for every family, which it knows only by its meaning.
//
// Proved, for every family: the answer tells just the runs that the rounds make and the values that
// they take; where no mask at entry is empty, settling ends well with the largest masks from which
// no rule removes anything, and fails exactly where these have an empty one; and it makes at most
// rules * (1 + values) runs.
#![tactic(auto)]

ghost use Rattle.std.specs.Prelude.{◌≡◌, ℕ, ◌^◌, ◌<◌, ◌≤◌, true, length, MatchOption, MatchResult, slice_index};
ghost use Rattle.families.specs.Meaning.{workspace_needed};
ghost use Rattle.settling.specs.Masks.{of};
ghost use Rattle.settling.specs.Rounds.{Names, Full, run, taken};
ghost use Rattle.settling.specs.Told.{Told, NotSettled, place_of};

use families::{Family, MOST_RULES, WORKSPACE};
use refusals::PlanFault;

// The masks of all cells and of all tallies. Laid out as C has it, since the benchmark's exports lend it.
#[derive(Clone, Copy, Default)]
#[repr(C)]
pub struct Snapshot {
    pub cells: [u16; 192],
    pub tallies: [u64; MOST_RULES],
}

// How many runs were made, and how many values they took.
#[derive(Clone, Copy)]
pub struct Work {
    pub runs: u32,
    pub removed: u32,
}

// An empty mask: of a cell, or of the tally of the rule that ran. (A case with a name for each: an `Option`
// of a cell would not say what `None` is.)
#[derive(Clone, Copy)]
pub enum Spot {
    Cell(usize),
    Tally,
}

// The rule whose run left an empty mask, which mask, and the work until then.
#[derive(Clone, Copy)]
pub struct Failure {
    pub rule: usize,
    pub spot: Spot,
    pub work: Work,
}

// How settling ends: well, or at a rule.
pub type Settled = Result<Work, Failure>;

// The lowest empty cell.
fn empty_cell(cells: &[u16; 192]) -> Option<usize>
    ensures { MatchOption result ((j : ℕ) → j < 192 → 0 < slice_index cells.now j) (λ i. (i < 192) × (slice_index cells.now i ≡ 0) × ((j : ℕ) → j < i → 0 < slice_index cells.now j)) }
{
    cells.iter().position(|mask| *mask == 0)
}

// The rule's tally, if that has nothing left.
fn empty_tally(masks: &Snapshot, rule: usize) -> Option<Spot>
    requires { rule < 72 }
    ensures { MatchOption result (0 < slice_index masks.now.tallies rule) (λ p. (p ≡ Spot.Tally) × (slice_index masks.now.tallies rule ≡ 0)) }
{
    (masks.tallies[rule] == 0).then_some(Spot::Tally)
}

// The first cell with nothing left; where every cell has something, the rule's tally if that has not.
fn empty_spot(masks: &Snapshot, rule: usize) -> Option<Spot>
    requires { rule < 72 }
    ensures { MatchOption result (Full (of masks.now) rule) (λ p. Names (of masks.now) rule (place_of p)) }
{
    empty_cell(&masks.cells)
        .map(Spot::Cell)
        .or(empty_tally(masks, rule))
}

// Runs nothing: a proof knows the widths of what a lent slice holds, but not of the arrays of a lent struct.
fn note_widths(cells: &[u16], tallies: &[u64])
    ensures cells { (i : ℕ) → slice_index cells.now i < 2 ^ 16 }
    ensures tallies { (r : ℕ) → slice_index tallies.now r < 2 ^ 64 }
{}

// Runs one rule on the cells and its own tally, and answers how many values went.
// (The workspace stays a slice, as callers lend it, so its length stands in the clauses of what is private here.)
fn run_rule<F: Family>(family: &F, rule: usize, masks: &mut Snapshot, workspace: &mut [u64]) -> u32
    requires rule { rule < (F.Family.meaning family.now).rules }
    requires workspace { workspace_needed ≤ length workspace.old }
    ensures after { of masks.new ≡ run (F.Family.meaning family.now) rule (of masks.old) }
    ensures removed { result ≡ taken (F.Family.meaning family.now) rule (of masks.old) }
{
    family.run(rule, &mut masks.cells, &mut masks.tallies[rule], workspace)
}

// Runs round after round. (The loop has a name, so that a run inside a round can end it.)
pub fn settle<F: Family>(
    family: &F,
    masks: &mut Snapshot,
    workspace: &mut [u64],
) -> Result<Settled, PlanFault>
    ensures { MatchResult result (λ x. (workspace_needed ≤ length workspace.old) × Told (F.Family.meaning family.now) (of masks.old) (of masks.new) x) (NotSettled masks.old masks.new workspace.old workspace.new) }
{
    if workspace.len() < WORKSPACE {
        return Err(PlanFault::Workspace);
    }
    note_widths(&masks.cells, &masks.tallies);
    let count = family.rule_count();
    let mut runs: u32 = 0;
    let mut removed: u32 = 0;
    let settled = 'rounds: loop {
        let before = removed;
        for rule in 0..count {
            let taken = run_rule(family, rule, masks, workspace);
            runs += 1;
            removed += taken;
            let emptied = if runs > 1 && taken == 0 {
                empty_tally(masks, rule)
            } else {
                empty_spot(masks, rule)
            };
            if let Some(spot) = emptied {
                let work = Work { runs, removed };
                break 'rounds Err(Failure { rule, spot, work });
            }
        }
        if removed == before {
            break 'rounds Ok(Work { runs, removed });
        }
    };
    Ok(settled)
}
