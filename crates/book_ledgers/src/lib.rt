//! What befell each key under each plan, by a session's history alone: definitions, with laws that the rows of the tables show the same.
//!
//! A key that joined a plan has an account there: the plan's terms, and the tally of the row ([`usage_plans`] says what a call, a grant
//! and a plan that is put anew make of it). A ledger is the account as it stood when the session opened, or when the key joined, and
//! what befell it since: each call that asked by this key and this plan, each grant, and each time that the plan was put.
//!
//! | Event, after a history | In the ledger of plan `p` and key `k` |
//! |---|---|
//! | `Admit` with the value of `k`, at a stage of `p` | a call at its moment, and whether it was kept |
//! | the same with a key that is off | nothing |
//! | `Grant` to `k` under `p` | a grant |
//! | `PutPlan` of `p`, which is not refused | a plan that is put anew |
//! | `JoinKey` of `k` to `p`, which had not joined and is kept | the ledger begins: a full bucket, and no period |
//! | any other | nothing |
//!
//! The definition of a ledger reads the tables before each event: which key a value is, by which plan it calls, whether a plan that is put
//! is refused, whether a key joins, and the plan's terms where it does. Of rows of joins it reads no level and no count, but those that
//! the session opened with.
//!
//! What is promised, as laws over every history from tables that a book starts from, for each plan and key. Moments are any from the
//! latest of the history on, before the year 2100.
//!
//! - [`laws::rows_follow_their_ledgers`]: the terms and the tally in the tables are what the ledger's events make of the account that it
//!   began with.
//! - [`laws::ledgers_are_in_order`]: that account may open (full at most, its period begun and not overused), and time never falls in the
//!   ledger. So the laws of [`usage_plans`] apply, and the next ones are theirs, of the book's rows. [`laws::latest_is_early`]: the latest
//!   moment is before the year 2100.
//! - [`laws::levels_are_least`]: the level that the row shows is the least over all windows of the ledger's admissions.
//! - [`laws::counts_are_conserved`]: what the row shows as allowed and used in the period that stands is what the ledger began with, or
//!   what the period was opened with, and what was charged to it since.
//! - [`laws::no_period_is_overused`]: by the ledger no period is used beyond what it allows.
//! - [`laws::refusals_are_exact`], [`laws::grants_are_exact`]: a call and a grant are refused exactly by these numbers.
//!
//! Which calls of a ledger are admissions, and what is charged to which period, is by [`usage_plans`] of the ledger alone.
//!
//! Left out: nothing is computed here. Whether a book keeps its tables so is its own contract.
#![tactic(auto)]

pub mod laws;
