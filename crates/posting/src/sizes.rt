// How many cells a plan has.
ghost use Rattle.std.specs.Prelude.{◌≡◌, ◌≤◌, ◌⊎◌, MatchResult};
ghost use Rattle.refusals.specs.declared.FrameFault.TheVariants.{Cells};

use refusals::FrameFault;

// A number of cells that a plan may have: 1 to 192.
#[derive(Clone, Copy)]
pub struct PlanSize {
    cells: u8,
    ghost some: { 1 ≤ cells },
    ghost within: { cells ≤ 192 },
}

impl PlanSize {
    // How many cells that is.
    pub fn count(self) -> usize
        ensures { result ≡ self.cells }
    {
        usize::from(self.cells)
    }
}

impl TryFrom<u8> for PlanSize {
    type Error = FrameFault;

    ghost try_from_gives = { λ number r. MatchResult r (λ s. s.cells ≡ number) (λ e. (e ≡ Cells) × ((number ≡ 0) ⊎ (193 ≤ number))) };

    fn try_from(cells: u8) -> Result<PlanSize, FrameFault> {
        if cells < 1 || cells > 192 {
            return Err(FrameFault::Cells);
        }
        Ok(PlanSize { cells })
    }
}
