//! What the program asks of the machine around it: files, the keepers of its stores, and the lanes that it serves; and the
//! same in memory.
//!
//! * [`Outside`] gives files by name, lends the keeper of a store and lanes, and takes each back. It is an
//!   [`Archive`](gate_ports::Archive) too: it takes the history of a session that was closed.
//! * [`KeeperStart`] and [`OutsideFault`] say why a keeper or lanes were not lent.
//! * [`MemOutside`] is an outside in memory, over any backend and any gate, and [`MemStore`] a store of it. The calls that
//!   are named by number fail, and no others but those that ask for what is not there.
//!
//! ```text
//! let mut outside = MemOutside::new(files, stores, lanes, fails);  // the store `a`, two lanes, and fails holds 2
//! let keeper = outside.keeper(alloc, "a")?;                        // call 0: a keeper of the tables of `a`
//! let lanes = outside.lanes(alloc, 8080, 1)?;                      // call 1: the first of the two
//! outside.lanes(alloc, 8080, 1);                                   // call 2: Err(Failed)
//! outside.lanes_back(lanes);                                       // outside.lanes_returned().len() is 1
//! outside.keeper_back("a", keeper);                                // outside.tables("a") are the keeper's
//! ```
//!
//! | A call of a `MemOutside` | answers | its faults |
//! |---|---|---|
//! | whose number is listed | `Err(Fault)`, `Err(StoreFault)` or `Err(Failed)` | one more |
//! | `file` of a name that no file has | `Err(Fault)` | one more |
//! | `file` of more bytes than the limit | `Err(TooLong)` | stay |
//! | `keeper` of a name that no store has | `Ok`, a keeper without rows | stay |
//! | `lanes`, more than wait | `Err(Failed)` | one more |
//! | `keeper_back` of a keeper whose load failed | | one more |
//! | `lanes_back` of lanes at whose ports looks failed | | one more for each of these lanes |
//! | that wants memory | `Err(Memory)`, and nothing changed | stay |
//!
//! What is promised, of every outside: a call fails only where its count of faults rose, and leaves what it doesn't name. A
//! keeper is lent with nothing staged and no failed call, and where the stores are told it has the tables of the first of its
//! name. Lanes are lent so many as were asked for, of none of which the port was shut, has a connection out or has failed, and
//! where those that wait are told they are the first of these. A keeper that is given back puts its tables into the store of its
//! name, lanes that are given back stand behind those that were before, and neither takes memory: so the last keeper that was
//! lent is given back first, and no more lanes than are lent. A `MemOutside` tells all of this, and a call changes of it what
//! `LendsKeeper`, `LendsLanes` and their neighbours of `specs/Held.antt` say and nothing else.
//!
//! Left out: what is done with a keeper and with lanes while they are lent; that an outside which tells nothing ever lends
//! any. Two keepers of one store may be lent at once; the one that is given back last then stands.
#![tactic(auto)]

mod files;
mod lent;
mod memory;
mod outside;
mod stores;

pub use memory::MemOutside;
pub use outside::{KeeperStart, Outside, OutsideFault};
pub use stores::MemStore;
