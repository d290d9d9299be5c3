//! The command `load`: calls that a seed makes up, played as those of a script, and a summary of what they came to.
//!
//! [`load_within`] takes a seed, a number of calls and an output. It plays some lines that make an API, a stage with a canary, eight
//! keys and a plan that all of them joined, and then a line for each call, of which it lets go what is printed. Behind the last it
//! prints a summary of the history.
//!
//! ```text
//! load_within(rt, alloc, limits, 0, 1, &mut output)?    // 0, and the output is
//! calls=1 admitted=1 throttled=0 quota=0 canary=1
//! k0 none
//! ..
//! k7 used=1 remaining=999
//! ```
//!
//! | calls by a seed | prints |
//! |---|---|
//! | 20,000 by 7 | nine lines, in the first of which admitted, throttled and quota add up to 20,000 |
//! | the same once more | the same bytes |
//! | in a session that is full before the last call | `full` with the numbers of the session, status 4 |
//!
//! What is promised: the lines are `load_lines` of `specs/Lines.antt`, which are records as a script has them; each does what the same
//! line of a script does (`IsTurn` of `play_script`), so each call is served as every connection is; and what is printed is
//! `LoadedWithin` of `specs/Loading.antt` to the byte, or a front of it where a write is refused or memory is wanting. What the
//! summary counts is told by the history alone (`specs/Summary.antt`): `calls` is what was asked for, `admitted`, `throttled` and
//! `quota` are the replies as the line of a session counts them, `canary` the calls whose word the canary's share takes, and a key's line
//! shows the period that stands of its plan.
//!
//! The words are those of SplitMix64 behind the seed; a word gives its call's moment, its word of chance and its key.
//!
//! Left out: what the answers are, of which the contract of a line tells; a play of the same lines prints them.
#![tactic(auto)]

mod lines;
mod loading;
mod summary;

pub use loading::load_within;
