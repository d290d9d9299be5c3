//! Quotas and throttles over whole sessions: definitions and laws.
//!
//! The lanes of a session serve connections over one book, and make one history, however their threads run: `Session` of [`gate_session`].
//! Here its quotas are told by ledgers ([`book_ledgers`]): what befell each key under each plan, by the history alone.
//!
//! What is promised, as laws over every `Session` of any number of lanes, over tables that a book starts from (`bad_row` is `None`):
//!
//! - [`laws::quotas_are_conserved`]: at each point of the history, and for each plan and key with an account in the tables there, there is
//!   a ledger of them. At each moment from the latest on, before the year 2100, the level that the row shows is the least over all windows
//!   of the ledger's admissions, and what it shows as allowed and used is what the ledger comes to. No period is used beyond what the
//!   ledger allows.
//! - [`laws::refusals_are_exact_in_every_session`]: each step that a lane took stands in the history, as an entry of the lane, and its
//!   reply is the book's at its place. Where it asked for an admission, the reply is by the ledger of the plan and the key that it calls
//!   by, as it stands there:
//!
//! | In the ledger, at the moment of the call | the reply |
//! |---|---|
//! | the plan has a throttle, and the level is below 1,000 | `Throttled` with the level |
//! | else, a period stands, and as many calls are used as are allowed | `QuotaExceeded` with both numbers |
//! | else, and the entry was kept | `Admitted` with the key and the plan |
//! | else, and it was not kept | `Store` |
//! | it calls by no plan and key | `InvalidKey` |
//!
//! - [`laws::calls_are_exact`]: the same of each entry of any history, with the reply that it has there.
//! - [`laws::usage_is_exact`]: where a key joined a plan, the reply to `Usage` of them is what stands of the period in their ledger.
//!
//! A call is by a plan and a key where the value is that of a key that is enabled, and the plan is the first in the tables that has the
//! stage and that the key joined.
//!
//! Left out: nothing is computed here. That what is served is a `Session` is the contract of `serve_session`, and that a book starts only
//! from such tables is that of its opening.
#![tactic(auto)]

pub mod laws;
