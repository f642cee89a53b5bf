// Reading a file's roster.
ghost use Rattle.std.specs.Prelude.{◌≡◌, ◌<◌, ◌≤◌, ◌⊎◌, length, if◌then◌else◌, None, MatchOption, slice_index};
ghost use Rattle.families.specs.Meaning.{workspace_needed};
ghost use Rattle.posting.specs.Families.{rules_meaning};

use super::{CellLine, FileRoster, RuleLine};

impl<'a> FileRoster<'a> {
    // One of the file's cells and its mask; none past the last.
    pub fn cell(&self, cell: usize) -> Option<CellLine>
        ensures { MatchOption result (self.now.size.cells ≤ cell) (λ t. (cell < self.now.size.cells) × (t.cell ≡ cell) × (t.mask ≡ slice_index self.now.roster.held.masks.cells cell)) }
    {
        if cell >= self.size.count() {
            return None;
        }
        let mask = self.roster.cell(cell).unwrap();
        Some(CellLine { cell, mask })
    }

    // One of the rules, its tally and its figures; none past the last, or on a short workspace.
    pub fn rule(&self, rule: usize, workspace: &mut [u64]) -> Option<RuleLine>
        ensures left_alone { result ≡ None → workspace.new ≡ workspace.old }
        ensures told { MatchOption result (((rules_meaning self.now.roster.held.family).rules ≤ rule) ⊎ (length workspace.old < workspace_needed)) (λ t. (rule < (rules_meaning self.now.roster.held.family).rules) × (t.rule ≡ rule) × (t.tally ≡ slice_index self.now.roster.held.masks.tallies rule) × (t.figures ≡ (if self.now.roster.held.void then None else ((rules_meaning self.now.roster.held.family).rule rule).figures self.now.roster.held.masks.cells))) }
    {
        let tally = self.roster.tally(rule).ok()?;
        let figures = self.roster.figures(rule, workspace).ok()?;
        Some(RuleLine {
            rule,
            tally,
            figures,
        })
    }
}
