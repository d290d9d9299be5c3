//! Usage arithmetic of a plan: how fast a key may call, and how often in a day, a week or a month.
//!
//! A [`Bucket`] is one level and the moment at which it was true; a [`Throttle`] says how fast it fills and how much
//! it holds. An [`Allowance`] is one count and the period in which it counts; a [`Quota`] says how many calls a
//! period allows. Moments are milliseconds since 1970 in UTC, below [`YEAR_2100`]. Levels are thousandths of an
//! admission. No call takes memory, and none fails.
//!
//! ```text
//! let throttle = Throttle { rate: 1, burst: 2 };
//! let mut bucket = Bucket { level: 2_000, at: 0 };
//! let admitted = bucket.take(throttle, 0);
//! ```
//!
//! | Full at 0, calls at | 0 | 0 | 0 | 999 | 1000 |
//! |---|---|---|---|---|---|
//! | `rate: 1, burst: 2` | admitted | admitted | refused | refused | admitted |
//!
//! | Moment | Day | Week | Month |
//! |---|---|---|---|
//! | Sunday 4 January 1970, its last millisecond | 3 | 0 | 0 |
//! | Monday 5 January 1970 | 4 | 1 | 0 |
//! | 29 February 2000 | 11016 | 1574 | 361 |
//! | the last millisecond of 2099 | 47481 | 6783 | 1559 |
//!
//! | The row's period | The quota now | [`Allowance::at`] |
//! |---|---|---|
//! | still lasts | another one, or none | the row as it is |
//! | is over | 100 calls, offset 10 | 100 allowed, 0 used |
//! | none yet | 100 calls, offset 10 | 90 allowed, 0 used, the first |
//! | is over, or none yet | none | `None` |
//!
//! # What is proved
//! - [`Bucket::level`] is the kept level, raised by the rate for each millisecond since, and at most full.
//!   [`Bucket::take`] is false exactly where that is below 1,000, and then changes nothing; else it keeps that less
//!   1,000 at the moment of the call.
//! - [`Period::of`] is the period that holds the moment, by the calendar.
//! - [`Allowance::at`] is exactly as the table says, at every moment.
//! - [`laws`]: the one kept level is the least over all windows of admissions since the bucket began, every moment
//!   before the year 2100 lies in exactly one period of a kind, and more about the definitions alone.
#![tactic(auto)]

mod allowance;
pub mod laws;
mod period;
mod throttle;

pub use allowance::{Allowance, Quota};
pub use period::{Period, PeriodKind, YEAR_2100};
pub use throttle::{Bucket, Throttle};
