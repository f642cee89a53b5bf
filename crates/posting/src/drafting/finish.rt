// The end of the draft: what a plan starts from.
//
// Proved: the family has the meaning of what was posted.
ghost use Rattle.std.specs.Prelude.{◌≡◌, [], ◌∷◌};
ghost use Rattle.std.specs.Option.{unwrap_or};
ghost use Rattle.posting.specs.Sheets.{sheet_of, duties_of, steps_of, of_given};
ghost use Rattle.posting.specs.Families.{own_classes, blank_steps, rules_meaning, meaning_of};

use super::{FileDraft, Finished};
use crate::kept::KeptTable;
use crate::slots::Slot;
use automata::{Among, Map};
use counting::Counting;
use families::Pair;
use words::Word;

// Where no map is given, each duty is its own class.
const OWN_CLASSES: [u8; 16] = [0, 1, 2, 3, 4, 5, 6, 7, 8, 9, 10, 11, 12, 13, 14, 15];

// Stands in for a word that was not given, and so has no rules.
fn any_word() -> Word
    ensures { duties_of result ≡ 0 ∷ [] }
{
    Word::new(&[0]).unwrap()
}

// The set's rules.
fn set_rules(slot: Slot<Among>) -> Counting<Among>
    ensures set { result.automaton.set ≡ unwrap_or (of_given (λ a. a.set) slot.automaton) 0 }
    ensures rules { result.rules.items ≡ slot.rules.rules.items }
{
    let (set, rules) = slot.finish();
    rules.over(set.unwrap_or(Among::new(0)))
}

// The word's rules, under its map.
fn word_rules(slot: Slot<Word>, classes: Option<[u8; 16]>) -> Counting<Map<Word>>
    ensures classes { result.automaton.classes ≡ unwrap_or classes own_classes }
    ensures word { duties_of result.automaton.below ≡ unwrap_or (of_given duties_of slot.automaton) (0 ∷ []) }
    ensures rules { result.rules.items ≡ slot.rules.rules.items }
{
    let (word, rules) = slot.finish();
    let classes = classes.unwrap_or(OWN_CLASSES);
    rules.over(Map::new(classes, word.unwrap_or_else(any_word)))
}

// The table, or one that stands in for it, and its rules.
fn table_rules(slot: Slot<KeptTable>) -> (KeptTable, Counting<()>)
    ensures table { steps_of result.0 ≡ unwrap_or (of_given steps_of slot.automaton) blank_steps }
    ensures rules { result.1 ≡ slot.rules }
{
    let (table, rules) = slot.finish();
    (table.unwrap_or_else(KeptTable::blank), rules)
}

impl FileDraft {
    // The masks and the family of rules that were posted. The table's bytes are put into the room that
    // the caller lends, whatever it held, and read from there.
    pub fn finish<'a>(self, room: &'a mut KeptTable) -> Finished<'a>
        ensures masks { (result.size ≡ self.size) × (result.draft.cells ≡ self.draft.cells) }
        ensures rules { rules_meaning result.rules ≡ meaning_of (sheet_of self) }
    {
        let FileDraft {
            size,
            draft,
            among,
            word,
            table,
            classes,
        } = self;
        let first = set_rules(among);
        let second = word_rules(word, classes);
        let (table, rules) = table_rules(table);
        *room = table;
        let third = rules.over(room.table());
        let rules = Pair::new(Pair::new(first, second), third);
        Finished { size, draft, rules }
    }
}
