//! What holds of the rule that a status selects.
ghost use Rattle.integration_flow.specs.Laws.{ChoosesTheFirst, FallsToTheDefault};

/// Of all rules that take a status, the first is chosen, whether or not one without a pattern stands before it.
pub fn the_first_that_matches_is_chosen()
    ensures { ChoosesTheFirst }
{}

/// The rule without a pattern is chosen where no rule takes the status.
pub fn the_default_is_chosen_where_none_matches()
    ensures { FallsToTheDefault }
{}
