// What holds of all rows, for crates above to cite.
ghost use Rattle.keeper_core.specs.Lists.{ListsStayInOrder};

/// No rows are in the order of their keys, and a row that is put keeps that order, so that rows that are put one after
/// another stand in it, whatever their order was.
pub fn lists_stay_in_order()
    ensures { ListsStayInOrder }
{}
