//! An order and a session of two lanes, each as a test that takes what may come where memory is refused: all of it, or want of memory
//! behind a front of it.
//!
//! `bench/refused-memory` runs each of these tests once for every allocation that it makes, and refuses that one. A test prints what came:
//!
//! | It prints | That is |
//! |---|---|
//! | `came: whole` | what comes where nothing is refused |
//! | `came: memory behind 7 entries` | want of memory: no answer, an end of a connection or of a lane, or the status 5 of the program, behind so many entries |
//! | `came: memory behind 7 lines` | the status 5 of the program, behind so many lines of its output |
//! | `came: nothing` | memory was refused to the test itself, and nothing was begun |
//!
//! and where anything else came it fails. That nothing at all is refused without a cause, other tests show.
//!
//! | Module | Shows |
//! |---|---|
//! | `orders` | the records of an order, one by one over a session: behind them the history is a front of the whole one, and the tables are that front's |
//! | `programs` | the same records as the input of the command `play`: what is printed is a front of the whole output |
//! | `lanes` | the command `serve` over two lanes with a call each: each lane made a front of its entries, and the store has its tables |
//! | `came` | what may come |
#![tactic(auto)]

#[cfg(test)]
mod came;
#[cfg(test)]
mod lanes;
#[cfg(test)]
mod orders;
#[cfg(test)]
mod programs;
