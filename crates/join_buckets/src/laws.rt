//! What holds of each of several buckets: a function without a body, whose clause is the law.
ghost use Rattle.join_buckets.specs.Laws.{EachLevelIsLeast};

/// One level, kept through all admissions of its key, is the least over all windows of those to which its bucket applies.
pub fn each_level_is_least_over_its_own_admissions()
    ensures { EachLevelIsLeast }
{}
