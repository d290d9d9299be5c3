//! Laws of the rows. Each is a function without a body, whose clause is the law.
ghost use Rattle.fit_rows.specs.Laws.{NoneIsOverused, RowsMayStand};

/// After every history over tables that a book starts from, the rows of keys, plans and joins may stand: each level is full at most, no
/// period is used beyond what it allows, and none begins behind the latest moment.
#[tactic(auto, using(crate::proofs::Holding::rows_stand))]
pub fn rows_may_stand()
    ensures { RowsMayStand }
{}

/// At no point of a history has a join used more of its period than the period allows.
#[tactic(auto, using(crate::proofs::Holding::none_overused))]
pub fn no_quota_is_overused()
    ensures { NoneIsOverused }
{}
