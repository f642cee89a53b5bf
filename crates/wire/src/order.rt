// The order of frames: what may come after what.
//
// Proved: `next` gives the phase that the order has after a phase and a kind, and refuses a frame
// exactly where the order has none.
ghost use Rattle.std.specs.Prelude.{◌≡◌, Some, None, MatchResult};
ghost use Rattle.refusals.specs.declared.FrameFault.TheVariants.{Order};
ghost use Rattle.wire.specs.Order.{phase_after};

use crate::kind::Kind;
use refusals::FrameFault;

// How far a file has come.
#[derive(Clone, Copy, PartialEq, Eq, Debug)]
pub enum Phase {
    // Nothing is read yet.
    Fresh,
    // The number of cells is known, and masks, automata and rules are posted.
    Draft,
    // The plan is started.
    Running,
    // The plan is published.
    Published,
}

// The phase after a frame of this kind.
pub fn next(phase: Phase, kind: Kind) -> Result<Phase, FrameFault>
    ensures { MatchResult result (λ p. phase_after phase kind ≡ Some p) (λ e. (phase_after phase kind ≡ None) × (e ≡ Order)) }
{
    match (phase, kind) {
        (Phase::Fresh, Kind::Size) => Ok(Phase::Draft),
        (
            Phase::Draft,
            Kind::Masks | Kind::Among | Kind::Word | Kind::Table | Kind::Map | Kind::Rule,
        ) => Ok(Phase::Draft),
        (Phase::Draft, Kind::Start) => Ok(Phase::Running),
        (Phase::Running, Kind::Decide | Kind::Bound | Kind::Mark | Kind::Back) => Ok(
            Phase::Running,
        ),
        (Phase::Running, Kind::Publish) => Ok(Phase::Published),
        _ => Err(FrameFault::Order),
    }
}
