// Words: patterns of duties, whose occurrences are counted.
//
// `Word::new` searches out the step of each state and duty once; a step is then one comparison and
// one look-up. Occurrences do not overlap: after one, reading resumes at state 0.
//
// Proved: the state always is the length of the longest proper prefix of the word that is a suffix of
// what came after the latest occurrence, and the total is the number of occurrences.
#![tactic(auto)]

ghost use Rattle.std.specs.Prelude.{◌≡◌, ℕ, ◌+◌, ◌-◌, ◌*◌, ◌<◌, ◌≤◌, length, IfOk, MatchResult, slice_index, refl};
ghost use Rattle.arrayvec.specs.ArrayVec.{array_vec_len};
ghost use Rattle.words.specs.Faults.{GoodWord, WordFault};
ghost use Rattle.words.specs.Laws.{counting_lawful};
ghost use Rattle.words.specs.Occurrences.{Counts};
ghost use Rattle.words.specs.Search.{counting, ends_with, longest_of, state_after, text_at};

use arrayvec::ArrayVec;
use automata::CounterAutomaton;
use refusals::PostFault;

// A pattern of 1 to 16 duties. State q stands for its first q duties; `next` has the state after
// each state and duty, at entry 16 * state + duty.
#[derive(Drop)]
pub struct Word {
    duties: ArrayVec<u8, 16>,
    next: [u8; 256],
    ghost some: { 1 ≤ array_vec_len duties },
    ghost few: { array_vec_len duties ≤ 16 },
    ghost searched: { (q d : ℕ) → (q < array_vec_len duties) × (d < 16) → slice_index next (16 * q + d) ≡ (counting duties.items).next q d },
}

// Whether the duties are a word: else what is wrong with them.
fn check(duties: &[u8]) -> Result<(), PostFault>
    ensures { MatchResult result (λ _. GoodWord duties.now) (WordFault duties.now) }
{
    if duties.len() < 1 || duties.len() > 16 {
        return Err(PostFault::Length {
            place: duties.len().min(16),
        });
    }
    // (The same test as automata's `check_classes`, of a length that is not fixed.)
    match duties.iter().position(|duty| *duty > 15) {
        Some(place) => Err(PostFault::Duty { place }),
        None => Ok(()),
    }
}

// Whether the text ends in p.
fn ends(text: &[u8], p: &[u8]) -> bool
    ensures { result ≡ ends_with p.now text.now }
{
    text.ends_with(p)
}

// The length of the longest proper prefix of the word that is a suffix of the text.
// (A loop: with `rev().find(..)` the proof did not close.)
fn longest(word: &[u8], text: &[u8]) -> usize
    requires { 1 ≤ length word.now }
    ensures is { result ≡ longest_of word.now text.now (length word.now - 1) }
    ensures below { result < length word.now }
{
    for j in (1..word.len()).rev() {
        if ends(text, &word[..j]) {
            return j;
        }
    }
    0
}

// The state after a duty is read at a state.
fn next_state(word: &[u8], state: usize, duty: u8) -> usize
    requires few { length word.now ≤ 16 }
    requires state { state < length word.now }
    ensures after { result ≡ state_after word.now (text_at word.now state duty) }
    ensures below { result < length word.now }
{
    let mut text = ArrayVec::<u8, 16>::new();
    text.try_extend_from_slice(&word[..state]).unwrap();
    text.push(duty);
    if ends(text.as_slice(), word) {
        0
    } else {
        longest(word, text.as_slice())
    }
}

// The next state of each state and duty, at entry 16 * state + duty.
fn search(word: &[u8]) -> [u8; 256]
    requires { length word.now ≤ 16 }
    ensures { (q d : ℕ) → (q < length word.now) × (d < 16) → slice_index result (16 * q + d) ≡ (counting word.now).next q d }
{
    let mut next = [0; 256];
    // (One loop over the entries: a loop over a state's 16 within one over the states is two to prove, and no plainer.)
    for (k, after) in next[..16 * word.len()].iter_mut().enumerate() {
        *after = next_state(word, k / 16, (k % 16) as u8) as u8;
    }
    next
}

impl Word {
    pub fn new(duties: &[u8]) -> Result<Word, PostFault>
        ensures made { MatchResult result (λ w. GoodWord duties.now × Counts duties.now (counting w.duties.items)) (WordFault duties.now) }
        ensures holds { IfOk result (λ w. w.duties.items ≡ duties.now) }
    {
        check(duties)?;
        let next = search(duties);
        let duties = ArrayVec::try_from(duties).unwrap();
        Ok(Word { duties, next })
    }
}

impl CounterAutomaton for Word {
    ghost meaning = { λ w. counting w.duties.items };

    ghost lawful = { λ w. counting_lawful w.duties.items (array_vec_len w.duties) refl w.some w.few };

    fn states(&self) -> usize {
        self.duties.len()
    }

    fn step(&self, state: usize, duty: usize) -> (usize, u64) {
        let word = self.duties.as_slice();
        if state >= word.len() || duty >= 16 {
            return (0, 0);
        }
        let occurs = state + 1 == word.len() && duty == word[state] as usize;
        (self.next[16 * state + duty] as usize, u64::from(occurs))
    }
}
