// What crosses over, as plain numbers, and what is made of it. A number stands for a kind only where
// it comes from C or goes to C.
use automata::{Among, Map, Table};
use counting::Counting;
use families::Pair;
use rules::{Row, Rule, Sense};
use std::alloc::Global;
use words::Word;

// A rule: the family that it belongs to (0 set, 1 word, 2 table), its sense by number, its row and its tally.
#[repr(C)]
#[derive(Clone, Copy)]
pub struct RuleFields {
    pub family: u8,
    pub sense: u8,
    // A fixed array and how much of it is used: the C interface.
    pub len: u8,
    pub row: [u8; 64],
    pub tally: u64,
}

// The rules of a plan: at first those of the set, then those of the word read by classes, then those of the table.
// (A file's rules have the same type, but the exports stand below what reads files.)
pub type Families<'a> = Pair<Pair<Counting<Among>, Counting<Map<Word>>>, Counting<Table<'a>>>;

pub fn rule_of(heap: Global, fields: &RuleFields) -> Option<Rule> {
    let len = (fields.len as usize).min(64);
    let row = Row::new(heap, &fields.row[0..len], 192).ok()?;
    let sense = Sense::try_from(fields.sense).ok()?;
    Rule::new(row, sense, fields.tally).ok()
}

// A family with the rules of its number.
fn family_of<C: Drop>(
    heap: Global,
    automaton: C,
    number: u8,
    rules: &[RuleFields],
) -> Option<Counting<C>> {
    let mut family = Counting::new(heap, automaton);
    for fields in rules {
        if fields.family == number {
            family.post(rule_of(heap, fields)?).ok()?;
        }
    }
    Some(family)
}

// A word read by classes: sixteen classes, and then the word's duties.
pub fn mapped_word(fields: &[u8]) -> Option<Map<Word>> {
    let (classes, duties) = fields.split_first_chunk::<16>()?;
    let word = Word::new(duties).ok()?;
    Some(Map::new(*classes, word))
}

// A table: its number of states, and then its bytes.
pub fn table<'a>(fields: &'a [u8]) -> Option<Table<'a>> {
    let (states, steps) = fields.split_first()?;
    Table::new(*states, steps).ok()
}

// The families of a plan, with their rules.
pub fn families_of<'a>(
    heap: Global,
    set: u16,
    word: &[u8],
    steps: &'a [u8],
    rules: &[RuleFields],
) -> Option<Families<'a>> {
    let first = family_of(heap, Among::new(set), 0, rules)?;
    let second = family_of(heap, mapped_word(word)?, 1, rules)?;
    let third = family_of(heap, table(steps)?, 2, rules)?;
    Some(Pair::new(Pair::new(first, second), third))
}
