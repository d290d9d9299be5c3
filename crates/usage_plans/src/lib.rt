//! What a usage plan allows a key that joined it: one row of numbers, and what a call, a grant and a changed plan make of it.
//!
//! * [`Terms`] are those of a plan: its throttle with the version that each change raises, and its quota.
//! * A [`Tally`] is the row of one plan and key: the level of its bucket, and what is allowed and used in its period.
//! * [`Tally::admit`], [`Tally::grant`] and [`Tally::usage`] answer at a moment; [`Admission`] and [`GrantRefusal`] say what came.
//!
//! ```text
//! let terms = Terms { throttle: Some(Throttle { rate: 1, burst: 2 }), version: 0, quota: None };
//! let tally = Tally::joined(terms, 0);           // a full bucket, and no period
//! let Admission::Admitted(tally) = tally.admit(terms, 0) else { .. };
//! let Admission::Admitted(tally) = tally.admit(terms, 0) else { .. };
//! tally.admit(terms, 999)                        // Throttled { level: 999 }
//! ```
//!
//! | Five calls a day, the first day one less; at | A call | The row behind it |
//! |---|---|---|
//! | day 0, four times | `Admitted` | 4 allowed, 1 to 4 used, the first period |
//! | day 0, once more | `QuotaExceeded { allowance: 4, used: 4 }` | as before |
//! | day 0, behind a grant of 2 | `Admitted` | 6 allowed, 5 used |
//! | day 1 | `Admitted` | 5 allowed, 1 used, not the first |
//!
//! What is promised: each call is just what `specs/Tallies.antt` says of the row, the terms and the moment, and takes no memory. [`laws`]
//! say of every row and of all that ever befell it that the level is the least over all windows of admissions, that the counts are those
//! of what was charged to the period, that none is overused, and that each refusal comes exactly by these. [`terms_of`], [`tally_of`] and
//! [`numbers_of`] read and make the columns of the tables' rows.
//!
//! Left out: who may call, which is a matter of keys and stages; and where the rows stand.
#![tactic(auto)]

pub mod laws;
mod rows;
mod tally;
mod terms;

pub use rows::{numbers_of, tally_of, terms_of};
pub use tally::{Admission, GrantRefusal, Tally};
pub use terms::{MOST_UNITS, Terms};
pub use usage_meter::{Allowance, Bucket, Period, PeriodKind, Quota, Throttle, YEAR_2100};
