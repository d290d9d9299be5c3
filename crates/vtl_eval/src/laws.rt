// What holds of calls that are passed over.
ghost use Rattle.vtl_eval.specs.Laws.{PassingOverChangesNothing};

/// A call that does nothing may be passed over: what stands for it runs to its end and leaves all as it was.
pub fn passing_over_changes_nothing()
    ensures { PassingOverChangesNothing }
{}
