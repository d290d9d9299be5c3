//! Several token buckets of one key, of which some apply to a call: that of its plan, and those of single methods.
//!
//! All levels of a key are of one moment. [`first_spent`] tells whether the call is throttled, [`admit`] takes an admission from each bucket
//! that applies and brings the others up to date, and [`bring_up`] brings all up to date.
//!
//! ```text
//! let limits = [Limit { throttle: plan, applies: true }, Limit { throttle: method, applies: false }];
//! first_spent(&limits, &levels, at, t)      // Some(Spent { bucket: 0, level: 250 }), or None where each that applies has 1,000
//! admit(&limits, &mut levels, at, t);       // 1,000 less in bucket 0, and bucket 1 as it stands at t
//! ```
//!
//! What is promised: the spent bucket is the first one that applies and has less than an admission, with its level; an admission takes
//! just 1,000 from each that applies, and a bucket that does not apply rises with time alone. As a law ([`laws`]), the level that is kept
//! through all admissions of the key is the least over all windows of those to which its bucket applies. A call that is throttled changes
//! nothing, since [`first_spent`] takes no level.
//!
//! Left out: which bucket applies to which method; that is for the caller.
#![tactic(auto)]

mod buckets;
pub mod laws;
mod limit;

pub use buckets::{admit, bring_up, first_spent};
pub use limit::{Limit, Spent};
