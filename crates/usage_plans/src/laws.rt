//! Laws of the definitions. Each is a function without a body, whose clause is the law.
ghost use Rattle.usage_plans.specs.Rows.{WrittenIsRead};
ghost use Rattle.usage_plans.specs.Laws.{LevelIsLeast, CountsAreConserved, NoneIsOverused, RefusalsAreExact, GrantsAreExact, RowsOutlastPlans, RowsStandOn};

/// The level that is kept is the least over all windows of admissions since the bucket began.
pub fn the_kept_level_is_the_least()
    ensures { LevelIsLeast }
{}

/// What is allowed and used in the period that stands is the opening row's, or what the period was opened with, and the grants
/// and admissions that were charged to it.
pub fn counts_are_conserved()
    ensures { CountsAreConserved }
{}

/// No more is used of a period than it allows.
pub fn no_period_is_overused()
    ensures { NoneIsOverused }
{}

/// A call is refused for its bucket exactly where the least over all windows is below 1,000, and for its quota exactly where it is not
/// and the admissions of the period that stands are as many as it allows.
pub fn refusals_are_exact()
    ensures { RefusalsAreExact }
{}

/// A grant is refused exactly where no period stands, or where the period would allow more than 1,000,000,000,000 calls.
pub fn grants_are_exact()
    ensures { GrantsAreExact }
{}

/// A row that may stand at a moment may stand at any later one.
pub fn rows_stand_on()
    ensures { RowsStandOn }
{}

/// A row may stand under its plan also once that was put anew.
pub fn rows_outlast_plans()
    ensures { RowsOutlastPlans }
{}

/// A tally that is written into a row is read of it again.
pub fn what_is_written_is_read()
    ensures { WrittenIsRead }
{}
