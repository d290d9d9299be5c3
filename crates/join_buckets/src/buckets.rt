// The levels of the buckets of a key, all of one moment.
ghost use Rattle.std.specs.Prelude.{◌≡◌, ◌<◌, ◌≤◌, ◌+◌, ◌^◌, length, None};
ghost use Rattle.join_buckets.specs.Buckets.{AreLevels, first_spent_from, level_behind as level_behind_of, level_by as level_by_of, levels_behind, levels_by};
ghost use Rattle.usage_meter.specs.Levels.{IsThrottle, capacity};

use crate::limit::{Limit, Spent};
use usage_meter::{Bucket, YEAR_2100};

/// What an admission takes from a bucket, in thousandths of an admission.
const ADMISSION: u64 = 1_000;

// The level of a bucket at t, brought up to date from the moment `at`.
fn level_by(limit: &Limit, level: u64, at: u64, t: u64) -> u64
    requires throttle { IsThrottle limit.now.throttle }
    requires filled { level ≤ capacity limit.now.throttle }
    requires later { at ≤ t }
    requires early { t < YEAR_2100 }
    ensures value { result ≡ level_by_of limit.now level at t }
    ensures filled { result ≤ capacity limit.now.throttle }
{
    Bucket { level, at }.level(limit.throttle, t)
}

// The level of a bucket behind an admission at t.
fn level_behind(limit: &Limit, level: u64, at: u64, t: u64) -> u64
    requires throttle { IsThrottle limit.now.throttle }
    requires filled { level ≤ capacity limit.now.throttle }
    requires later { at ≤ t }
    requires early { t < YEAR_2100 }
    ensures value { result ≡ level_behind_of limit.now level at t }
    ensures filled { result ≤ capacity limit.now.throttle }
{
    let now = level_by(limit, level, at, t);
    if limit.applies {
        now.saturating_sub(ADMISSION)
    } else {
        now
    }
}

/// The least bucket that applies to the call and has less than an admission at t, with its level there. The levels are those of the
/// moment `at`, one for each limit.
pub fn first_spent(limits: &[Limit], levels: &[u64], at: u64, t: u64) -> Option<Spent>
    requires levels { AreLevels limits.now levels.now }
    requires few { length limits.now < 2 ^ 32 }
    requires later { at ≤ t }
    requires early { t < YEAR_2100 }
    ensures { result ≡ first_spent_from 0 limits.now levels.now at t }
{
    let mut i = 0;
    while i < limits.len() {
        let level = level_by(&limits[i], levels[i], at, t);
        if limits[i].applies && level < ADMISSION {
            return Some(Spent {
                bucket: i as u32,
                level,
            });
        }
        i += 1;
    }
    None
}

/// Takes an admission at t from each bucket that applies to the call, and brings the others up to date.
pub fn admit(limits: &[Limit], levels: &mut [u64], at: u64, t: u64)
    requires levels { AreLevels limits.now levels.old }
    requires later { at ≤ t }
    requires early { t < YEAR_2100 }
    ensures taken { levels.new ≡ levels_behind limits.now levels.old at t }
    ensures levels { AreLevels limits.now levels.new }
{
    let mut i = 0;
    while i < limits.len() {
        levels[i] = level_behind(&limits[i], levels[i], at, t);
        i += 1;
    }
}

/// Brings each bucket up to date.
pub fn bring_up(limits: &[Limit], levels: &mut [u64], at: u64, t: u64)
    requires levels { AreLevels limits.now levels.old }
    requires later { at ≤ t }
    requires early { t < YEAR_2100 }
    ensures brought { levels.new ≡ levels_by limits.now levels.old at t }
    ensures levels { AreLevels limits.now levels.new }
{
    let mut i = 0;
    while i < limits.len() {
        levels[i] = level_by(&limits[i], levels[i], at, t);
        i += 1;
    }
}
