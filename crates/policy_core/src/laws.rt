//! What holds of policies and replies: each function's contract is a law, and its body is empty.
ghost use Rattle.policy_core.specs.Laws.{TestsWhatIsCovered, DecidesByTheFirst, FaultsAreOfTheForm};

/// The test of a pattern finds just the texts that it covers.
pub fn a_pattern_is_tested_as_it_covers()
    ensures { TestsWhatIsCovered }
{}

/// A policy decides just what its first covering statements say: the first Deny, else the first Allow.
pub fn the_first_covering_statement_decides()
    ensures { DecidesByTheFirst }
{}

/// A reply has no fault just where each of its values has its form.
pub fn a_reply_without_a_fault_has_its_form()
    ensures { FaultsAreOfTheForm }
{}
