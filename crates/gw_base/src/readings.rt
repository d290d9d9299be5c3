// The moments and the random words that the outside gives.
ghost use Rattle.std.specs.Prelude.{◌≡◌, ◌^◌, ◌<◌, ℕ, Option, Some, None, IfSome};
ghost use Rattle.gw_base.specs.Random.{next_state, word_of};

/// Milliseconds since the beginning of 1970, in UTC. A reading can't fail.
pub trait Clock {
    /// The value of every reading, where all are equal.
    ghost fixed: { Self → Option ℕ };

    /// The moment.
    fn now(&mut self) -> u64
        ensures reading { IfSome (fixed self.old) (λ moment. result ≡ moment) }
        ensures same { fixed self.new ≡ fixed self.old };
}

/// Words that a caller can't foresee. A reading can't fail.
pub trait Words {
    /// The value of every reading, where all are equal.
    ghost fixed: { Self → Option ℕ };

    /// The next word.
    fn next(&mut self) -> u64
        ensures reading { IfSome (fixed self.old) (λ word. result ≡ word) }
        ensures same { fixed self.new ≡ fixed self.old };
}

/// A clock that stands still.
#[derive(Clone, Copy, Debug, Drop, PartialEq, Eq)]
pub struct FixedClock {
    /// Every reading.
    pub moment: u64,
}

impl Clock for FixedClock {
    ghost fixed = { λ c. Some c.moment };

    fn now(&mut self) -> u64 {
        self.moment
    }
}

/// The words of SplitMix64 (Steele, Lea and Flood, 2014).
#[derive(Clone, Copy, Debug, Drop, PartialEq, Eq)]
pub struct SplitMix {
    /// The seed, and after each word the state behind it.
    pub state: u64,
}

impl Words for SplitMix {
    ghost fixed = { λ _. None };

    fn next(&mut self) -> u64
        ensures word { result ≡ word_of (next_state self.old.state) }
        ensures state { self.new.state ≡ next_state self.old.state }
    {
        self.state = self.state.wrapping_add(0x9E37_79B9_7F4A_7C15);
        let z = (self.state ^ (self.state >> 30)).wrapping_mul(0xBF58_476D_1CE4_E5B9);
        let z = (z ^ (z >> 27)).wrapping_mul(0x94D0_49BB_1331_11EB);
        z ^ (z >> 31)
    }
}
