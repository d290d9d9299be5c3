//! What holds of paths and of what they select: each function's contract is a law, and its body is empty.
ghost use Rattle.jsonpath_core.specs.Laws.{ReadsAsSpelled, RefusesAtTheFirst, HasOneReading, SelectsOneAtMost, SelectsInTurn, SelectsInOrder};

/// A text is read as just the steps that it is spelled with.
pub fn a_path_is_read_as_it_is_spelled()
    ensures { ReadsAsSpelled }
{}

/// A text is refused at just the first byte that cannot go on, or at its length where more would
/// have to follow.
pub fn a_refusal_is_at_the_first_fault()
    ensures { RefusesAtTheFirst }
{}

/// A text is the path of one list of steps at most.
pub fn a_path_has_one_reading()
    ensures { HasOneReading }
{}

/// A path without a star selects one node at most.
pub fn without_a_star_one_node_is_selected()
    ensures { SelectsOneAtMost }
{}

/// Further steps select, of each node that the steps before them select, in the order of these.
pub fn further_steps_select_in_turn()
    ensures { SelectsInTurn }
{}

/// The nodes that a path selects of a document come in its order: each ends before the next begins,
/// so no two are the same.
pub fn nodes_are_selected_in_the_order_of_the_document()
    ensures { SelectsInOrder }
{}
