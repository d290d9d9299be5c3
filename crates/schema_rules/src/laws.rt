//! Laws of the definitions: each function's contract is a law, and its body is empty.
ghost use Rattle.schema_rules.specs.Laws.{FailsByAKeyword, UnfoldsEverywhere};

/// The verdict of a schema on a value is `valid` exactly where each of its keywords says so.
pub fn a_value_is_valid_where_no_keyword_fails()
    ensures { FailsByAKeyword }
{}

/// What a schema says of a value is what its keywords say in turn, whatever chain of references stands behind them.
pub fn a_verdict_is_that_of_its_keywords()
    ensures { UnfoldsEverywhere }
{}
