//! Laws of the definitions. Each is a function without a body, whose clause is the law.
ghost use Rattle.key_index.specs.Indexes.{IndexFollowsRows};

/// An index that has just the values of a table's keys has them too once a key's row is put into both.
pub fn an_index_follows_the_rows()
    ensures { IndexFollowsRows }
{}
