//! The laws of the rows in the file: functions without a body, whose clauses they are.
ghost use Rattle.kept_rows.specs.Laws.{ColumnsTellTheRow, SchemaIsMade, WrittenRowsAreReadBack};

use sqlite::Alter;

/// The columns of a row are those of no other row of its table.
pub fn columns_tell_the_row()
    ensures { ColumnsTellTheRow }
{}

/// The texts that make the tables of a store define them, and make the schema that the next law speaks of.
pub fn schema_is_made()
    ensures { SchemaIsMade }
{}

/// Where the statement that writes a row ran over a connection to a store, what the row's key finds there is that row alone.
pub fn written_rows_are_read_back<S: Alter>()
    ensures { WrittenRowsAreReadBack S.Store }
{}
