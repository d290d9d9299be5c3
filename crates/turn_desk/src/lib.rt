//! A machine behind a turn: many threads call it, one at a time, and their calls make one history.
//!
//! A [`Machine`] takes or refuses events, and keeps an entry of each that it took. A [`Desk`] has the machine, and each
//! thread calls it through a [`Seat`] of its own, which knows the beginning of the history that it has seen (`seen`) and
//! its own entries in it (`mine`).
//!
//! ```text
//! let (desk, seat) = Desk::start(alloc, machine, 3)?;      // number 0, with 1 and 2 to spare
//! let (seat, one) = desk.split(seat);
//! let (seat, two) = desk.split(seat);
//! // in one thread: let (one, reply) = desk.call(rt, alloc, one, event);   in another one: the same with `two`
//! let seat = desk.join(seat, one);
//! let seat = desk.join(seat, two);
//! let machine = desk.close(seat);
//! ```
//!
//! | Call | What it gives |
//! |---|---|
//! | `start` with 1 seat | number 0 with nothing to spare, which is whole |
//! | `start` with 9 seats | number 0 with 1 to 8 to spare, which is whole |
//! | `call`, where the machine takes the event | its reply, and one entry more at the end of `seen` and of `mine` |
//! | `call`, where the machine refuses it | its fault; `seen` is the history as it stood, and `mine` is as it was |
//! | `join` of a seat with number 2 | the first seat, with 2 and its entries in `ended` |
//! | `OneSeat::call` | the machine's next step: nothing comes between two calls |
//!
//! | What does not compile | Why |
//! |---|---|
//! | `start` with 0 or 10 seats, or with a machine that has entries | it takes 1 to 9, and an empty history |
//! | `split` of a seat with nothing to spare | `spare()` has to be above 0 |
//! | `close` while another seat is out | `whole()` has to be true |
//! | a call with a seat of another desk | the `desk` of the two has to be the same |
//! | a desk that is dropped | only `close` ends it |
//!
//! # What is proved
//!
//! For every `Machine`, whatever the threads do, there is one history, and:
//!
//! - a call that ends `Ok` adds one entry, of its seat and event, at one place behind all that the seat had seen, and its
//!   reply is the machine's at that place; one that ends `Err` adds none, and its fault is the machine's at the history
//!   as it stood;
//! - after each call the seat's `mine` has just the entries of its number in its `seen`;
//! - after a join the `seen` of each of the two seats is a beginning of the joined seat's;
//! - no number that the desk does not have makes an entry, so where there is one seat ([`OneSeat`]) each call goes on right
//!   behind the one before it;
//! - `close` gives back the machine with the base that the seat knows and a history that begins with the seat's `seen`.
//!   What the seat and those joined into it list is exactly what the history has of their numbers, and no other number
//!   has an entry.
//!
//! So between `start` and `close` no entry is lost, made twice, or made for another seat. Nothing is said of how long a
//! caller waits, or of the order of calls of seats that never met.
//!
//! # One call
//!
//! The table of a desk has three words and one slot. The rule between any two of these steps is `Ruled` in
//! `specs/Rule.antt`.
//!
//! | Step | Where | What the seat is then |
//! |---|---|---|
//! | draw a ticket | adds 1 to word 0 | waiting, with the number found |
//! | look | reads word 1; where another ticket is served it sleeps on that word and looks again | the one with the turn, and so with the slot |
//! | take | the slot | |
//! | step | the machine alone | |
//! | give back | the slot | |
//! | commit | adds 1 to word 2 after `Ok`, 0 after `Err` | one that has seen the machine's history |
//! | serve next | adds 1 to word 1, and wakes the sleepers where word 0 shows another ticket; the slot is home | at rest |
//!
//! The machine lies in the slot again before the commit. No other thread can tell: the slot is the seat's own until it
//! serves the next ticket. At the commit the seat then sees the history of the machine that lies there.
//!
//! # What cannot be written
//!
//! A turn that is held over other work: `call` alone takes it, the machine's `step` is all that runs under it, and each
//! seat that a program has is at rest. A `step` is handed no desk, no seat and no handle, so it can neither call nor wait.
//! An event that is stepped twice, or a reply from anywhere but its own step: the desk is generic, and can make neither
//! an event nor a reply.
#![tactic(auto)]

mod desk;
mod machine;
mod one_seat;
mod rule;
mod seat;
mod turn;
mod view;

pub use desk::Desk;
pub use machine::Machine;
pub use one_seat::OneSeat;
pub use seat::Seat;
