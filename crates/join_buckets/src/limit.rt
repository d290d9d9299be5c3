// What limits the calls of a key, and which limit a call has met.
use usage_meter::Throttle;

/// A throttle of a bucket, with whether it applies to the call.
#[derive(Clone, Copy, Debug, PartialEq, Eq)]
pub struct Limit {
    pub throttle: Throttle,
    pub applies: bool,
}

/// A bucket that is spent.
#[derive(Clone, Copy, Debug, PartialEq, Eq)]
pub struct Spent {
    /// Its number.
    pub bucket: u32,
    /// Its level, in thousandths of an admission: below 1,000.
    pub level: u64,
}
