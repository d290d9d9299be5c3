//! Laws of the definitions. Each is a function whose clause is the law; its body names the laws of ledgers that it follows from.
ghost use Rattle.session_quotas.specs.Quotas.{CallsAreExact, QuotasAreConserved, RefusalsAreExactInEverySession, UsageIsExact};

use book_ledgers::laws::{
    counts_are_conserved, latest_is_early, levels_are_least, no_period_is_overused,
    rows_follow_their_ledgers,
};

/// At each point of a session's history each account in the tables shows its ledger, and no period is overused.
#[tactic(auto, using(crate::proofs::Showing::quotas_conserved))]
pub fn quotas_are_conserved()
    ensures { QuotasAreConserved }
{
    rows_follow_their_ledgers();
    levels_are_least();
    counts_are_conserved();
    no_period_is_overused();
}

/// The reply to an entry that asks for an admission is by the ledger of the plan and key that it calls by.
#[tactic(auto, using(crate::proofs::Calling::calls_exact))]
pub fn calls_are_exact()
    ensures { CallsAreExact }
{
    rows_follow_their_ledgers();
    levels_are_least();
    counts_are_conserved();
    no_period_is_overused();
    latest_is_early();
}

/// Each step of each lane stands in the one history, and where it asks for an admission its reply is by the ledgers there.
#[tactic(auto, using(crate::proofs::Standing::refusals_exact))]
pub fn refusals_are_exact_in_every_session()
    ensures { RefusalsAreExactInEverySession }
{
    calls_are_exact();
}

/// The reply to a command that asks for usage shows what the ledger of the plan and the key comes to.
pub fn usage_is_exact()
    ensures { UsageIsExact }
{
    rows_follow_their_ledgers();
    counts_are_conserved();
    latest_is_early();
}
