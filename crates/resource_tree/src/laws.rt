// What holds of paths, of their faults, and of the best.
ghost use Rattle.resource_tree.specs.Laws.{ReadsAsSpelled, FindsEachClash, MatchesAsTaken, TellsEachCause, HasOneFirstFault, DifferInRanks, HasOneBest};
ghost use Rattle.resource_tree.specs.Parameters.{GivesEachValue};

/// A path is read as just the parts that it is written with.
pub fn a_path_is_read_as_it_is_written()
    ensures { ReadsAsSpelled }
{}

/// The test of two paths finds just those that clash.
pub fn each_clash_is_found()
    ensures { FindsEachClash }
{}

/// A path matches just the segments that its parts take, with just these parameters.
pub fn a_path_matches_what_its_parts_take()
    ensures { MatchesAsTaken }
{}

/// A path has each fault just where its cause stands.
pub fn each_fault_has_its_cause()
    ensures { TellsEachCause }
{}

/// A list of paths has one first fault at most, and none where no path has one.
pub fn a_list_has_one_first_fault()
    ensures { HasOneFirstFault }
{}

/// Two paths of a list that is built never have the same ranks for the same segments.
pub fn two_paths_differ_in_their_ranks()
    ensures { DifferInRanks }
{}

/// One path of a list that is built is best.
pub fn one_path_is_best()
    ensures { HasOneBest }
{}

/// Each parameter of a path has a value, where the path matches.
#[tactic(auto, using(crate::proofs::Values::gives_each))]
pub fn each_parameter_has_a_value()
    ensures { GivesEachValue }
{}
