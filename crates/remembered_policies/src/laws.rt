//! Laws of the definitions. Each is a function without a body, whose clause is the law.
ghost use Rattle.remembered_policies.specs.Laws.{RemembersNothingElse, RemembersTheLastLesson};

/// A Recall is replied the policy that was learned last under its name, where no flush forgot it, fewer than 1,024 other names were
/// learned since, and its seconds are not over.
pub fn the_last_lesson_is_remembered()
    ensures { RemembersTheLastLesson }
{}

/// A Recall is replied a policy only where such a lesson stands in the history.
pub fn nothing_else_is_remembered()
    ensures { RemembersNothingElse }
{}
