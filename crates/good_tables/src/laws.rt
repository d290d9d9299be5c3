//! The law of the tables: a function without a body, whose clause it is.
ghost use Rattle.good_tables.specs.Laws.{GoodTablesStayGood};

/// After every history, whose definitions are stated, over tables without a bad row, no table has a bad row: a book starts from them.
pub fn good_tables_stay_good()
    ensures { GoodTablesStayGood }
{}
