//! Tests of the commands `serve` and `admin` through `run`, over an outside in memory: two lanes, each with one connection, and the
//! store `a`; and of the sessions that `serve` holds one after another.
//!
//! | Module | Shows |
//! |---|---|
//! | `administering` | lines of commands, what is printed of them, and what the store has behind them |
//! | `sessions` | what is answered on the lanes, and what the outside has behind the session |
//! | `endings` | a table of outsides with the lines that are printed and the statuses |
//! | `chains` | sessions that follow each other over one lane, with a few entries each |
//! | `wording` | words that ask for nothing that can be served |
//! | `stores`, `outsides` | what the tests stand on |
#![tactic(auto)]

#[cfg(test)]
mod administering;
#[cfg(test)]
mod chains;
#[cfg(test)]
mod endings;
#[cfg(test)]
mod outsides;
#[cfg(test)]
mod sessions;
#[cfg(test)]
mod stores;
#[cfg(test)]
mod wording;
