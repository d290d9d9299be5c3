//! A keeper of the tables in a file of SQLite, so that they outlive the program.
//!
//! * [`SqliteKeeper`] is a [`Keeper`](keeper_core::Keeper) over one file. [`SqliteKeeper::start`] opens the file, or makes it; where the
//!   keeper is dropped, the file is closed.
//! * [`StoreFile`] opens the file, and opens it again after a failure of the disk. A program says there where its files are, and what it
//!   supposes of those that exist.
//! * [`Undo`] is what undoes the change of one row. [`StartFault`] says why no keeper was started.
//!
//! ```text
//! let mut keeper = SqliteKeeper::start(alloc, file)?;              // made with its tables, or as it was left
//! let row = Row::Key(KeyRow { key, value, enabled: 1 });
//! keep(&mut keeper, alloc, &row)?;                                 // one transaction
//! drop(keeper);                                                    // and another start finds the row
//! ```
//!
//! | A start over | answers |
//! |---|---|
//! | no file, or an empty one | `Ok`: the tables and the row of `meta` are made in one transaction |
//! | a store of version 1 | `Ok` |
//! | a store whose first row of `meta` is not id 0 and version 1 | `BadStore(Meta, 0)` |
//! | a store with a further row of `meta` | `BadStore(Meta, 1)` |
//! | a database with tables and no `meta`, or no row in it | `StoreFault`, and nothing is written |
//! | a file that is no database, or can't be opened, or is open elsewhere | `StoreFault` |
//!
//! | A call | does | and fails, by count, where |
//! |---|---|---|
//! | `put_row` | holds the row in memory | a number of the row is above 9,223,372,036,854,775,807, and nowhere else |
//! | `commit` | writes the rows that are held in one transaction, the first one first; reads before each what undoes it | a statement is refused: a value that another key has, a full disk |
//! | `rewrite` | writes one join row so | the same, or a number as above |
//! | `load` | reads the rows of all tables in the order of their keys | a row doesn't fit its table (`BadRow`), or a statement is refused |
//! | the call after a failure that shut the connection | opens the file anew, undoes the refused change, then goes on | the file can't be opened, or the change can't be undone: then the next call tries again |
//!
//! What is promised: what `keeper_core` promises of every keeper that reports neither its tables nor which calls fail: what is staged
//! after each call, and that a fault comes only where its count rose. That `put_row` fails exactly where a number can't be written, by
//! [`SqliteKeeper::stage`]. And, where the disk has returned what was written (`specs/Steps.antt`, `specs/Links.antt`):
//!
//! * A change that is answered `Ok` ran the statement of each row's table with the columns of the row, in one transaction. What that
//!   made of the file is what is committed. A crash at any moment leaves what one before it could leave, or just that.
//! * Before each of these statements the earlier row of the key was read, in the same transaction. It is what undoes the change; where
//!   there was none, the deletion of the new row is.
//! * After a refusal the connection is open and what was committed stays; or it is shut, and what undoes the change is owed.
//! * A call over a shut connection goes on only after the file was opened anew and all that is owed was undone in one transaction, the
//!   last change first. Where it can't be, it stays owed.
//!
//! What is not: what a statement's text makes of the tables, since the compiler of SQL is not evaluated in a contract. That a row which
//! was written is read again is shown by tests, and `docs/STORE.md` describes the file. What a column may hold beside its form, as a
//! rate without a burst, is for the crates above to say.
#![tactic(auto)]

mod changes;
mod database;
mod fault;
mod keeper;
mod link;
mod loading;
mod reading;
mod source;
mod statements;
mod undo;
mod version;
mod writing;

pub use fault::StartFault;
pub use keeper::SqliteKeeper;
pub use source::StoreFile;
pub use undo::Undo;
