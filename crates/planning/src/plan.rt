// Drafts, running plans and published rosters.
ghost use Rattle.std.specs.Prelude.{ℕ, ◌<◌, slice_index};

use arrayvec::ArrayVec;
use families::Family;
pub use settling::Snapshot;
use settling::{Failure, Work};

pub mod drafts;
pub mod levels;
pub mod questions;
pub mod tries;

// Cells whose masks are being set, none of them empty.
#[derive(Drop)]
pub struct Draft {
    cells: [u16; 192],
    ghost some: { (i : ℕ) → i < 192 → 0 < slice_index cells i },
}

// What plans and rosters both hold: the family, the present masks, and whether settling failed. A void plan still answers: every mask reads as empty.
#[derive(Drop)]
struct Held<F: Family> {
    family: F,
    masks: Snapshot,
    void: bool,
}

// A plan under way: what it holds, and the masks at the mark of each open level. Fixed memory: a plan does not allocate once it has started.
#[derive(Drop)]
pub struct Plan<F: Family> {
    held: Held<F>,
    stack: ArrayVec<Snapshot, 16>,
}

// A plan that is only read: a type of its own, so that deciding after publishing does not compile.
#[derive(Drop)]
pub struct Roster<F: Family> {
    held: Held<F>,
}

// (Enums with names, and no `Result`: a plan is answered either way.)

// How a start went: settled; void, since settling failed; or void, since the workspace was too short.
#[derive(Clone, Copy)]
pub enum Start {
    Settled(Work),
    Void(Failure),
    Short,
}

// How a try went: settled; failed at a rule; or failed as its own, since it left nothing of the mask that it names.
#[derive(Clone, Copy)]
pub enum Try {
    Settled(Work),
    Failed(Failure),
    Own,
}
