// The draft of a file: masks, automata and rules, as they are posted.
use crate::kept::KeptTable;
use crate::sizes::PlanSize;
use crate::slots::Slot;
use automata::{Among, Map, Table};
use counting::Counting;
use families::Pair;
use planning::plan::Draft;
use words::Word;

pub mod finish;
pub mod given;
pub mod posts;

// What a file has posted so far, for a plan of so many cells.
#[derive(Drop)]
pub struct FileDraft {
    size: PlanSize,
    draft: Draft,
    among: Slot<Among>,
    word: Slot<Word>,
    table: Slot<KeptTable>,
    classes: Option<[u8; 16]>,
}

// What came of a frame: it was posted, or it asks for the start.
#[derive(Clone, Copy, PartialEq, Eq, Debug)]
pub enum Drafted {
    Posted,
    Start,
}

// The rules of a file: those of the set, then those of the word under its map, then those of the table.
pub type Rules<'a> = Pair<Pair<Counting<Among>, Counting<Map<Word>>>, Counting<Table<'a>>>;

// What a plan starts from.
#[derive(Drop)]
pub struct Finished<'a> {
    pub size: PlanSize,
    pub draft: Draft,
    pub rules: Rules<'a>,
}
