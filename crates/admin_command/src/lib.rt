//! The command `admin`: lines of commands, carried out one by one over the tables of a store.
//!
//! [`administer`] takes the lines and the name of a store of an outside. It opens a book over the store, carries out each line's
//! command, prints the line of each reply, and gives the store's keeper back.
//!
//! ```text
//! text 0 hello Hi%20$input.body!       done
//! deploy 0 hello                       deployed 1
//! stage 0 hello v1 1                   done
//! ```
//!
//! | line | prints |
//! |---|---|
//! | empty, or begins with `#` | nothing |
//! | `deploy 0 nope` | `refused NoApi`, and the next line is carried out |
//! | `plan 0 p 1:2 - hello/v1`, `key 0 k v on`, `join 0 p k` | `done` |
//! | `usage 0 p k` of a plan without a quota | `refused NoQuota` |
//! | `flush 0 hello v1` | `done` where the stage stands, else `refused NoStage`: no store keeps policies, so there is none here to forget |
//! | a command whose change the store did not keep | `store`, and the next line is carried out |
//! | `post 0 0 hello v1 Ann`, `bogus 1` | `refused line 1 BadRecord at ~`, status 1, and no further line is carried out |
//! | a command where the session is full | `full` with the numbers of the session, status 4 |
//!
//! | store | prints |
//! |---|---|
//! | whose first row of plans is none that can be | `refused BadStore(plans,0)`, status 1 |
//! | that can't be opened | nothing, and [`administer`] answers `Err(Keeper)` |
//!
//! What is promised, over every outside (`specs/Ends.antt`): what is written is what the lines come to (`Administers`) over the
//! tables of the store, to the byte; the keeper is given back with the tables of the history that they made, so that the store has
//! them, and no more changes were lost than it counted faults. Where it is cut short by want of memory or a write that fails, some
//! of the lines, from the first on, were carried out, and a front of what they print was written. As a law ([`laws`]), lines come
//! to one thing over the same tables, where the same changes are lost.
#![tactic(auto)]

mod carrying;
mod command;
mod giving;
pub mod laws;
mod lines;
mod orders;

pub use command::administer;
