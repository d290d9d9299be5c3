//! The rows of the store, the tables in memory that hold them, and who keeps the tables.
//!
//! * [`Row`] is a row of one of the seven tables; each has a key, and [`Table`] names its table.
//! * [`Tables`] holds the rows in memory, each table in the order of its keys. [`Tables::put`] is the only way in for a new
//!   row, so rows that are put in any order come to stand in that order. Each search costs a logarithm.
//! * [`Place`] says where a key stands in its table, for lists that go beside one.
//! * [`Keeper`] is who keeps the tables: rows are staged, and a commit keeps all of them at once or none. [`keep`] keeps one.
//! * [`MemKeeper`] is a keeper in memory. The calls that are named by number fail, and no others.
//!
//! ```text
//! let mut keeper = MemKeeper::new(Tables::new(alloc), fails);      // fails holds 1
//! let row = Row::Key(KeyRow { key, value, enabled: 1 });
//! keep(&mut keeper, alloc, &row);                                  // Err(Failed): call 0 stages the row, call 1 fails
//! keep(&mut keeper, alloc, &row)?;                                 // calls 2 and 3
//! keeper.tables().key("reader");                                   // the row
//! ```
//!
//! | The table `keys` has rows of | a row is put under | and the table has rows of | in |
//! |---|---|---|---|
//! | nothing | `b` | `b` | |
//! | `b` | `a` | `a` `b` | a new place, before the first of a greater key |
//! | `a` `b` | `b` | `a` `b` | the place of the row of its key |
//!
//! | A call of a keeper that answers | leaves the tables | leaves staged | its counts |
//! |---|---|---|---|
//! | `put_row`: `Ok` | as they were | one row more | stay |
//! | `commit`: `Ok` | with the staged rows put in, the first one first | nothing | stay |
//! | `rewrite`: `Ok` | with this row in the place of its key's | nothing | stay |
//! | one of the three: `Err(Failed)` | as they were | nothing | `faults` rose |
//! | one of the three: `Err(Memory)` | as they were | nothing | stay |
//! | `load`: `Err(Failed)`, `Err(BadRow)` | as they were | as it was | `faults` and `loads` rose |
//!
//! What is promised: what the tables hold after each call, as lists of rows; that a row is found exactly where it stands;
//! when a put wants no memory; that a keeper's refusal has a cause and changes no table; and that the calls of a
//! [`MemKeeper`] fail exactly where their numbers are listed. [`lists_stay_in_order`] is the law of the order.
//!
//! What is left out: what the columns of a row may hold, and which rows go together, is for the crates above to say.
#![tactic(auto)]

mod copies;
mod keeper;
mod keeping;
mod laws;
mod memory;
mod numbers;
mod place;
mod puts;
mod rows;
mod searches;
mod table;
mod tables;

pub use keeper::{KeepFault, Keeper, LoadFault};
pub use keeping::{keep, rewrite_at};
pub use laws::lists_stay_in_order;
pub use memory::MemKeeper;
pub use numbers::JoinNumbers;
pub use place::Place;
pub use rows::{ApiRow, DeploymentRow, JoinRow, KeyRow, MetaRow, PlanRow, Row, StageRow};
pub use table::Table;
pub use tables::Tables;
