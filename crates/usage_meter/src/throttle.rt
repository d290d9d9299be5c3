// How fast calls are admitted: a token bucket fills with time, and each admission takes from it.
ghost use Rattle.std.specs.Prelude.{◌≡◌, ◌<◌, ◌≤◌, IsTrue, ◌↔◌};
ghost use Rattle.std.specs.Bool.{OnTrue, OnFalse};
ghost use Rattle.usage_meter.specs.Levels.{IsThrottle, capacity, level_at, bucket_after_admission, bucket_after_attempt};

use crate::period::YEAR_2100;

/// What an admission takes from a bucket, in thousandths of an admission.
const ADMISSION: u64 = 1_000;

/// How fast a bucket fills, and how much it holds.
#[derive(Clone, Copy, Debug, PartialEq, Eq)]
pub struct Throttle {
    /// Thousandths of an admission a millisecond, which is admissions a second: 1 to 1,000,000.
    pub rate: u32,
    /// The admissions that a full bucket holds: 1 to 1,000,000.
    pub burst: u32,
}

/// One level, and the moment at which it was true. A new bucket is full: its level is `1000 * burst`.
#[derive(Clone, Copy, Debug, PartialEq, Eq)]
pub struct Bucket {
    /// Thousandths of an admission.
    pub level: u64,
    /// Milliseconds since 1970.
    pub at: u64,
}

impl Bucket {
    /// The level at a moment that isn't before the bucket's own: it rises by the rate each millisecond, and stops
    /// where the bucket is full.
    pub fn level(&self, throttle: Throttle, t: u64) -> u64
        requires throttle { IsThrottle throttle }
        requires later { self.now.at ≤ t }
        requires early { t < YEAR_2100 }
        requires filled { self.now.level ≤ capacity throttle }
        ensures value { result ≡ level_at throttle self.now t }
        ensures filled { result ≤ capacity throttle }
    {
        let full = ADMISSION * u64::from(throttle.burst);
        let risen = u64::from(throttle.rate) * (t - self.at);
        full.min(self.level + risen)
    }

    /// Whether a call is admitted at a moment that isn't before the bucket's own: where the level is 1,000 or more,
    /// of which the admission takes 1,000. A refusal changes nothing, not even the bucket's moment.
    pub fn take(&mut self, throttle: Throttle, t: u64) -> bool
        requires throttle { IsThrottle throttle }
        requires later { self.old.at ≤ t }
        requires early { t < YEAR_2100 }
        requires filled { self.old.level ≤ capacity throttle }
        ensures enough { IsTrue result ↔ (1000 ≤ level_at throttle self.old t) }
        ensures taken { OnTrue result (self.new ≡ bucket_after_admission throttle self.old t) }
        ensures unchanged_on_refusal { OnFalse result (self.new ≡ self.old) }
        ensures attempt { self.new ≡ bucket_after_attempt throttle self.old t }

        // The conditions of the next call, at a later moment.
        ensures filled { self.new.level ≤ capacity throttle }
        ensures later { self.new.at ≤ t }
    {
        let level = self.level(throttle, t);
        if level < ADMISSION {
            return false;
        }
        self.level = level - ADMISSION;
        self.at = t;
        true
    }
}
