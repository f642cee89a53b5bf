// Lines: the characters of one line, gathered in memory of a fixed size.
//
// Extend it by what was read, up to the newline, take the line, and clear the buffer for the next. However
// long a line is, only its first 517 characters are kept: one more than a line may have, so that a
// line which is too long still shows that it is.
//
// Proved: in whatever chunks a line is read, the buffer holds its first 517 characters.
ghost use Rattle.std.specs.Prelude.{◌≡◌, ◌≤◌, [], ◌++◌, length, take, MatchOption, ◌==◌};
ghost use Rattle.refusals.specs.First.{First};
ghost use Rattle.wire.specs.Lines.{pushed, newline, Without, Grown};

// The most characters that a line may have before its newline.
pub const LONGEST: usize = 516;

// One more than that.
const KEPT: usize = 517;

// A line: what stands before its newline, and whether it has one. (Both, and no `Option`: of several things
// wrong with a line the first is told, whether or not it has its newline.)
#[derive(Clone, Copy)]
pub struct Line<'a> {
    pub text: &'a [u8],
    pub ended: bool,
}

// The first newline of a chunk.
fn first_newline(chunk: &[u8]) -> Option<usize>
    ensures { MatchOption result (Without chunk.now) (First (λ c. c ≡ newline) chunk.now) }
{
    chunk.iter().position(|character| *character == b'\n')
}

// The beginning of the line that is being read. (An array and its length: to clear an `ArrayVec` is to write
// over all that it held, and to push a character onto one took three times as long.)
#[derive(Drop)]
pub struct LineBuffer {
    text: [u8; KEPT],
    len: usize,
    ghost within: { len ≤ 517 },
}

impl LineBuffer {
    // An empty buffer.
    pub fn new() -> LineBuffer
        ensures { take result.len result.text ≡ [] }
    {
        LineBuffer {
            text: [0; KEPT],
            len: 0,
        }
    }

    // One character more.
    pub fn push(&mut self, character: u8)
        ensures { take self.new.len self.new.text ≡ pushed (take self.old.len self.old.text) character }
    {
        if self.len < KEPT {
            self.text[self.len] = character;
            self.len += 1;
        }
    }

    // What fits of a part of the line.
    fn keep(&mut self, part: &[u8])
        ensures { take self.new.len self.new.text ≡ take 517 (take self.old.len self.old.text ++ part.now) }
    {
        let room = (KEPT - self.len).min(part.len());
        self.text[self.len..self.len + room].copy_from_slice(&part[..room]);
        self.len += room;
    }

    // The characters of a chunk up to its first newline. Answers where that newline is.
    pub fn extend(&mut self, chunk: &[u8]) -> Option<usize>
        ensures { MatchOption result (Without chunk.now × Grown (take self.old.len self.old.text) (take self.new.len self.new.text) chunk.now) (λ k. First (λ c. c ≡ newline) chunk.now k × Grown (take self.old.len self.old.text) (take self.new.len self.new.text) (take k chunk.now)) }
    {
        let end = first_newline(chunk);
        self.keep(&chunk[..end.unwrap_or(chunk.len())]);
        end
    }

    // Empties the buffer for the next line.
    pub fn clear(&mut self)
        ensures { take self.new.len self.new.text ≡ [] }
    {
        self.len = 0;
    }

    // Whether the line has no character so far.
    pub fn is_empty(&self) -> bool
        ensures { result ≡ (length (take self.now.len self.now.text) == 0) }
    {
        self.len == 0
    }

    // The line so far, with or without its newline.
    pub fn line(&self, ended: bool) -> Line<'_>
        ensures text { result.text.now ≡ take self.now.len self.now.text }
        ensures ended { result.ended ≡ ended }
    {
        Line {
            text: &self.text[0..self.len],
            ended,
        }
    }
}
