// Digits: a line's characters turned to bytes.
//
// `decode` takes a line and gives the bytes that its digits spell, two digits to a byte.
//
// Proved: it refuses a line exactly where the line is empty, too long or has no newline, or else
// where a character is no digit or a digit is left over, and says which character is the first.
ghost use Rattle.std.specs.Prelude.{◌≡◌, ◌<◌, ◌≤◌, true, false, [], length, take, MatchOption, MatchResult};
ghost use Rattle.refusals.specs.First.{First};
ghost use Rattle.wire.specs.Digits.{is_digit, worth, bytes_of, NoDigit, AllDigits, Spelt, TextFault};

use crate::lines::{LONGEST, Line};
use refusals::LineFault;

// As many bytes as the longest line spells.
const ROOM: usize = 258;

// The bytes of one frame. (An array and its length: an `ArrayVec` is not `Copy`, and this is.)
#[derive(Clone, Copy)]
pub struct FrameBytes {
    bytes: [u8; ROOM],
    len: usize,
    ghost within: { len ≤ 258 },
}

// What a character is worth, if it is a digit.
fn value(character: u8) -> Option<u8>
    ensures { MatchOption result (is_digit character ≡ false) (λ v. (is_digit character ≡ true) × (v ≡ worth character) × (v < 16)) }
{
    match character {
        b'0'..=b'9' => Some(character - b'0'),
        b'a'..=b'f' => Some(character - b'a' + 10),
        _ => None,
    }
}

// The first character that is no digit.
fn first_wrong(text: &[u8]) -> Option<usize>
    ensures { MatchOption result (AllDigits text.now) (First NoDigit text.now) }
{
    text.iter()
        .position(|character| value(*character).is_none())
}

impl FrameBytes {
    // No bytes yet.
    pub fn new() -> FrameBytes
        ensures { take result.len result.bytes ≡ [] }
    {
        FrameBytes {
            bytes: [0; ROOM],
            len: 0,
        }
    }

    // The bytes that were decoded.
    pub fn bytes(&self) -> &[u8]
        ensures { result.now ≡ take self.now.len self.now.bytes }
    {
        &self.bytes[0..self.len]
    }

    // Puts the bytes that digits spell in place of what was there.
    fn spell(&mut self, text: &[u8])
        requires few { length text.now ≤ 516 }
        requires digits { AllDigits text.now }
        ensures { take self.new.len self.new.bytes ≡ bytes_of text.now }
    {
        let (pairs, _left_over) = text.as_chunks::<2>();
        for (i, [high, low]) in pairs.iter().enumerate() {
            let high = value(*high).unwrap_or(0);
            let low = value(*low).unwrap_or(0);
            self.bytes[i] = 16 * high + low;
        }
        self.len = pairs.len();
    }

    // Puts the bytes that a line spells in place of what was there.
    pub fn decode(&mut self, line: Line) -> Result<(), LineFault>
        ensures { MatchResult result (λ _. Spelt line.entry.text.now line.entry.ended × (take self.new.len self.new.bytes ≡ bytes_of line.entry.text.now)) (TextFault line.entry.text.now line.entry.ended) }
    {
        let text = line.text;
        if !line.ended || text.is_empty() || text.len() > LONGEST {
            return Err(LineFault::Line);
        }
        if let Some(place) = first_wrong(text) {
            return Err(LineFault::Digit { place });
        }
        if text.len() % 2 == 1 {
            return Err(LineFault::Digit { place: text.len() });
        }
        self.spell(text);
        Ok(())
    }
}

// The bytes that a line spells.
pub fn decode(line: Line) -> Result<FrameBytes, LineFault>
    ensures { MatchResult result (λ b. Spelt line.entry.text.now line.entry.ended × (take b.len b.bytes ≡ bytes_of line.entry.text.now)) (TextFault line.entry.text.now line.entry.ended) }
{
    let mut bytes = FrameBytes::new();
    bytes.decode(line)?;
    Ok(bytes)
}
