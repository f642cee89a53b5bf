// Random numbers from a seed: the same seed gives the same numbers, so that a case can be run again.

#[derive(Drop)]
pub struct Dice {
    state: u64,
}

impl Dice {
    // The dice of one case, which do not depend on the cases before it.
    pub fn new(seed: u64, case: u64) -> Dice {
        let mut dice = Dice { state: seed };
        dice.state = dice.roll() ^ case;
        dice
    }

    // Any number: a step of a counter, well mixed.
    pub fn roll(&mut self) -> u64 {
        self.state = self.state.wrapping_add(0x9e37_79b9_7f4a_7c15);
        let mut x = self.state;
        x = (x ^ (x >> 30)).wrapping_mul(0xbf58_476d_1ce4_e5b9);
        x = (x ^ (x >> 27)).wrapping_mul(0x94d0_49bb_1331_11eb);
        x ^ (x >> 31)
    }

    // A number below a limit; 0 where the limit is 0.
    pub fn below(&mut self, limit: u64) -> u64 {
        self.roll().checked_rem(limit).unwrap_or(0)
    }

    // A number from one to another.
    pub fn between(&mut self, low: u64, high: u64) -> u64 {
        let width = high.saturating_sub(low).saturating_add(1);
        low.saturating_add(self.below(width))
    }

    // True once in so many times.
    pub fn one_in(&mut self, times: u64) -> bool {
        self.below(times) == 0
    }

    // A set of numbers below a limit, into which each comes with even chance.
    pub fn set(&mut self, limit: u64) -> u64 {
        let mut set = 0;
        for member in 0..limit.min(64) {
            if self.one_in(2) {
                set |= 1 << member;
            }
        }
        set
    }

    // The same, but not empty: where it would be, it has one number.
    pub fn some(&mut self, limit: u64) -> u64 {
        let set = self.set(limit);
        if set != 0 {
            return set;
        }
        1 << (self.below(limit) % 64)
    }
}
