//! The fields of a plan: how fast its keys may call, how often, and under which stages.
//!
//! ```text
//! throttle_in(b"10:20")                 // Some(Some(Throttle { rate: 10, burst: 20 }))
//! quota_in(b"1000:0:MONTH")             // Some(Some(Quota { limit: 1000, offset: 0, kind: PeriodKind::Month }))
//! plan_stages_in(alloc, &fields)?       // of `shop/prod`: Some: shop and prod
//! ```
//!
//! | Field | As | Stands for |
//! |---|---|---|
//! | `-` | a throttle, a quota | none |
//! | `1:2` | a throttle | 1 a second, 2 at once |
//! | `0:2`, `1:4294967295` | a throttle | these numbers: the book refuses them |
//! | `1`, `1:2:3`, `1:`, `:2`, `~`, `1:4294967296` | a throttle | nothing: it has not its form |
//! | `3:1:DAY` | a quota | 3 a day, the first day one less |
//! | `1:3:WEEK` | a quota | an offset above its limit: the book refuses it |
//! | `3:1`, `3:1:YEAR`, `3:1:day`, `3:1:DAY:` | a quota | nothing |
//! | `shop/prod` | a stage | `prod` of `shop` |
//! | `shop/a/b` | a stage | `a/b` of `shop`: the first slash parts it |
//! | `shop` | a stage | nothing |
//!
//! A field is one as `record_fields` reads it, with its `%` decoded. The parts of a stage are texts, which need not be names.
//!
//! What the contracts promise: each answer is that of the definition of its name, in both directions (`specs/Fields.antt`); want of
//! memory alone has no cause. Left out: which numbers and stages a plan may have, which is a matter of the book.
#![tactic(auto)]

mod parting;
mod quotas;
mod stages;
mod throttles;

pub use quotas::quota_in;
pub use stages::plan_stages_in;
pub use throttles::throttle_in;
