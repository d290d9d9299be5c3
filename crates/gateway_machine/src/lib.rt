//! The machine as the program meets it: its input and its output, its files, and the lanes that it serves.
//!
//! * [`MachineOutside`] is the machine as an [`Outside`](outside_core::Outside): files by their paths, lanes over sockets of
//!   the loopback, their backends too, and the keepers of its stores. It says on one line where it listens.
//! * [`Stores`] is what opens a store by its name. [`CountedPort`] is a port of a lane, whose failed looks can be counted.
//! * [`ReaderSource`] and [`WriterSink`] are an input and an output over any reader and writer of std.
//!
//! ```text
//! let mut outside = MachineOutside::new(&rt, alloc, stores, rt.stderr());
//! let keeper = outside.keeper(alloc, "orders.store")?;     // as the stores open it
//! let lanes = outside.lanes(alloc, 8080, 4)?;              // listening on 127.0.0.1:8080 with 4 lanes
//! outside.lanes_back(lanes);                               // and nothing is listened to
//! outside.keeper_back("orders.store", keeper);             // and the store is closed
//! ```
//!
//! | A call of a `MachineOutside` | answers | its faults |
//! |---|---|---|
//! | `file` of a path that can't be opened or read | `Err(Fault)` | one more |
//! | `keeper` of a store that can't be opened | `Err(StoreFault)` | one more |
//! | `keeper` of a store with a row that can't be | `Err(BadStore)` | one more |
//! | `keeper_back` of one of which a load failed | | one more |
//! | `lanes` at a port that another program has | `Err(Failed)` | one more |
//! | `lanes` at port 0 | lanes at a free port, which it says | stay |
//! | `lanes_back` of lanes at whose ports a look failed | | one more |
//! | `closed` | `Ok`, and the history is let go | stay |
//!
//! What is promised: what `outside_core` promises of every outside, and `gw_base` of every source and sink. A machine tells
//! nothing of its files, its stores and its lanes: so of what it gives no clause speaks but that lanes come in the number that
//! was asked for, unused, that a keeper comes with nothing staged, and that a fault comes only where its count rose.
//!
//! Left out: the line that says where it listens may be lost, where it can't be written; the lanes are lent all the same.
#![tactic(auto)]

mod adapters;
mod machine;
mod port;
mod stores;

pub use adapters::{ReaderSource, WriterSink};
pub use machine::MachineOutside;
pub use port::CountedPort;
pub use stores::Stores;
