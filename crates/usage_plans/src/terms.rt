// The terms of a plan.

use usage_meter::{Quota, Throttle};

/// The most calls that a period may allow.
pub const MOST_UNITS: u64 = 1_000_000_000_000;

/// What a plan allows each key that joined it.
#[derive(Clone, Copy, Debug, PartialEq, Eq)]
pub struct Terms {
    /// How fast its calls are admitted; without one, at any speed.
    pub throttle: Option<Throttle>,
    /// The version of the throttle, which each change raises.
    pub version: u64,
    /// How many calls a period allows; without one, any number.
    pub quota: Option<Quota>,
}
