// The kinds of automaton that a rule of a file may count with.
ghost use Rattle.std.specs.Prelude.{◌≡◌, MatchResult};
ghost use Rattle.posting.specs.Counters.{counter_number, CounterFault};

use refusals::PostFault;

#[derive(Clone, Copy, PartialEq, Eq, Debug)]
pub enum Counter {
    Among,
    Word,
    Table,
}

// The kind that a number stands for: that of the frame which gives such an automaton.
impl TryFrom<u8> for Counter {
    type Error = PostFault;

    ghost try_from_gives = { λ number r. MatchResult r (λ k. counter_number k ≡ number) (CounterFault number) };

    fn try_from(number: u8) -> Result<Counter, PostFault> {
        match number {
            0x03 => Ok(Counter::Among),
            0x04 => Ok(Counter::Word),
            0x05 => Ok(Counter::Table),
            _ => Err(PostFault::Automaton),
        }
    }
}
