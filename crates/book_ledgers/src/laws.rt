//! Laws of the definitions. Each is a function without a body, whose clause is the law.
ghost use Rattle.book_ledgers.specs.Ledgers.{RowsFollowTheirLedgers};
ghost use Rattle.book_ledgers.specs.Laws.{CountsAreConserved, GrantsAreExact, LatestIsEarly, LedgersAreInOrder, LevelsAreLeast, NoPeriodIsOverused, RefusalsAreExact};

/// The terms of a plan and the tally of a key that joined it are what the ledger's events make of the account that it began with.
#[tactic(auto, using(crate::proofs::Following::rows_follow))]
pub fn rows_follow_their_ledgers()
    ensures { RowsFollowTheirLedgers }
{}

/// The latest moment of a history is before the year 2100.
#[tactic(auto, using(crate::proofs::Ordering::latest_early))]
pub fn latest_is_early()
    ensures { LatestIsEarly }
{}

/// Each ledger begins with an account that a session may open with, and time never falls in it, up to the latest moment and any later
/// one before the year 2100.
#[tactic(auto, using(crate::proofs::Ordering::in_order))]
pub fn ledgers_are_in_order()
    ensures { LedgersAreInOrder }
{}

/// The level that a row shows is the least over all windows of the admissions of its ledger since the bucket began.
#[tactic(auto, using(crate::proofs::Showing::levels_least))]
pub fn levels_are_least()
    ensures { LevelsAreLeast }
{}

/// What a row shows as allowed and used in the period that stands is what its ledger began with, or what the period was opened with, and
/// the grants and admissions that were charged to it.
#[tactic(auto, using(crate::proofs::Showing::counts_conserved))]
pub fn counts_are_conserved()
    ensures { CountsAreConserved }
{}

/// By its ledger no more is used of any period than it allows, at any point of a history.
#[tactic(auto, using(crate::proofs::Showing::none_overused))]
pub fn no_period_is_overused()
    ensures { NoPeriodIsOverused }
{}

/// A call under a row is refused for its bucket exactly where the least over all windows of its ledger is below 1,000, and for its quota
/// exactly where it is not and the admissions of the period that stands are as many as it allows.
#[tactic(auto, using(crate::proofs::Showing::refusals_exact))]
pub fn refusals_are_exact()
    ensures { RefusalsAreExact }
{}

/// A grant to a row is refused exactly where by its ledger no period stands, or where the period would allow more than 1,000,000,000,000
/// calls.
#[tactic(auto, using(crate::proofs::Showing::grants_exact))]
pub fn grants_are_exact()
    ensures { GrantsAreExact }
{}
