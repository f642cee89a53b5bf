// Masks: numbers read as sets. A cell's mask is the set of the duties still open there (16 bits), a
// tally the set of the counts still open (64 bits). Every function takes the 64-bit width; a cell's
// mask is widened by `u64::from`, which changes no member.
//
// Each function answers for every input: a number past the width is no member.
#![tactic(auto)]

ghost use Rattle.std.specs.Prelude.{◌≡◌, [], ◌∷◌, length, Decides, MatchOption};
ghost use Rattle.masks.specs.Bit.{has, Within};
ghost use Rattle.masks.specs.Members.{members, lost};
ghost use Rattle.std.specs.Iterator.{at_most};

// Whether a number is a member.
pub fn contains(mask: u64, member: usize) -> bool
    ensures { result ≡ has mask member }
{
    member < 64 && (mask >> member) & 1 == 1
}

// Whether each member of `part` is one of `whole`.
pub fn is_subset(part: u64, whole: u64) -> bool
    ensures { Decides result (Within part whole) }
{
    part & whole == part
}

// How many members of `before` are not in `after`.
pub fn removed(before: u64, after: u64) -> u32
    ensures { result ≡ length (lost 64 before after) }
{
    (before & !after).count_ones()
}

// The members in ascending order, each once: `for duty in masks::each(mask)` visits the open duties and no other.
#[derive(Clone, Copy)]
pub struct Members {
    rest: u64,
}

pub fn each(mask: u64) -> Members
    ensures { result.rest ≡ mask }
{
    Members { rest: mask }
}

impl Iterator for Members {
    type Item = usize;

    ghost next_gives = { λ s r t. MatchOption r (members 64 s.rest ≡ []) (λ k. members 64 s.rest ≡ k ∷ members 64 t.rest) };

    ghost remaining = { λ s. at_most (length (members 64 s.rest)) };

    fn next(&mut self) -> Option<usize> {
        let rest = self.rest;
        if rest == 0 {
            return None;
        }
        self.rest = rest & (rest - 1);
        Some(rest.trailing_zeros() as usize)
    }
}
