//! The stores of the program: files of SQLite.
//!
//! [`FileStores`] opens a store by its path, as [`Stores`](gateway_machine::Stores) of a machine:
//!
//! ```text
//! let mut outside = MachineOutside::new(&rt, alloc, FileStores::new(&rt), rt.stderr());
//! let keeper = outside.keeper(alloc, "orders.store")?;     // over the file, which is made where there is none
//! ```
//!
//! | A store of this name | is opened as |
//! |---|---|
//! | no file, or an empty one | an empty store, which is made |
//! | a store | it was left |
//! | a file that is no store, or can't be opened, or is open elsewhere | `StoreFault` |
//! | a store of another version | `BadStore(Meta, 0)` |
//!
//! What is promised: that nothing is staged in a keeper that was opened and no call of it has failed; that want of memory, a bad
//! row and a fault are told as `keeper_sqlite` tells them; and that a keeper tells exactly whether a load of it has failed. As a
//! law ([`laws`]), a keeper may go to another thread.
#![tactic(auto)]

mod keeper;
pub mod laws;
mod path;
mod stores;

pub use keeper::FileKeeper;
pub use path::StorePath;
pub use stores::{FileStores, start_of};
