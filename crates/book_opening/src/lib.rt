//! The tables that a book starts from: they are tested row by row, and what their columns hold is read once.
//!
//! ```text
//! match open(alloc, &tables) {
//!     Ok(ready) => ready.definitions,               // of the APIs; beside them the deployments', the stages', the plans', and the keys by their values
//!     Err(OpenFault::BadRow(table, row)) => ..,     // the first row that is refused
//!     Err(OpenFault::Memory) => ..,
//! }
//! ```
//!
//! | Tables | Answer |
//! |---|---|
//! | no rows | `Ok`, three empty lists |
//! | a row of `meta` with version 2 | `BadRow(Table::Meta, 0)` |
//! | one API, whose first deployment has the number 2 | `BadRow(Table::Deployments, 0)` |
//! | a stage that points to a deployment that does not stand, behind one that is sound | `BadRow(Table::Stages, 1)` |
//! | two keys with one value | `BadRow(Table::Keys, 1)` |
//! | the same, and a plan of a stage that does not stand | `BadRow(Table::Keys, 1)`: the keys come before the plans |
//! | a key that joined two plans that share a stage | `BadRow(Table::Joins, ..)`, the row of the later plan |
//!
//! What the contracts promise: [`open`] answers `Ok` only where no row is refused, and then each list of [`Ready`] is what
//! the rows of its table hold, in their order (`specs/Ready.antt`). `BadRow` names just the first row that is refused, by
//! table in the store's order and by key, counted from 0 (`specs/Faults.antt`, `bad_row` of the rules). `Memory` alone has
//! no cause.
//!
//! What they leave out: what it costs. A row is found in another table by a binary search, and values of keys are kept in
//! order, but each join is compared with each before it, and the plans of those of its key are read once more.
#![tactic(auto)]

mod definitions;
mod deployments;
mod fault;
mod joins;
mod keys;
mod metas;
mod opening;
mod plan_stages;
mod plans;
mod ready;
mod stages;

pub use fault::OpenFault;
pub use keys::is_key_value;
pub use opening::open;
pub use plan_stages::{is_among, share_a_stage, stages_of};
pub use ready::{Canary, Ready, Standing};
pub use stages::read_standing;
