//! What holds of columns: each function's contract is a law, and its body is empty.
ghost use Rattle.record_fields.specs.Columns.{ColumnsAreReadBack, ColumnsHaveOneForm};

/// The column of pairs of texts, whose names have no `=`, is read as just these pairs.
pub fn columns_are_read_back()
    ensures { ColumnsAreReadBack }
{}

/// What is read as some pairs is spelled just as their column is.
pub fn a_column_has_one_form()
    ensures { ColumnsHaveOneForm }
{}
