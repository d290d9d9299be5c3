//! What the statements of a store keep: a row that was written is read back.
//!
//! A store has seven tables. `keeper_sqlite` writes a row by the upsert of its table, and looks for a row by its key. Its contracts name the
//! texts of the statements that ran. This crate says what those texts do to the rows of the file.
//!
//! | Law | What it says |
//! |---|---|
//! | [`laws::columns_tell_the_row`] | what is read from the columns of a row is that row; no two rows of a table have the same columns |
//! | [`laws::schema_is_made`] | the texts that make the seven tables define them, and together make the schema of a store |
//! | [`laws::written_rows_are_read_back`] | where the upsert of a row ran, its key finds that row alone, with all its columns |
//!
//! What is promised, as a law over each kind of row and every connection whose schema is that of a store: the row is found whether its key
//! was new or taken, and no second row has the key. Of the connection it asks only what each `Connection` keeps true of itself.
//! It would fail for an upsert that forgets a column, for a key that is not unique, and for a search by another column.
//!
//! Left out: that the other rows stay as they were; what the upsert does where it fails; deletions; and that the file of a store has this
//! schema, for which no contract of `keeper_sqlite` vouches.
#![tactic(auto)]

pub mod laws;
