//! Tests of connections and lanes over one book in memory, through `serve_connection` and `serve_lane`: what no clause says, as
//! that calls succeed with ample memory, and that the definitions are what was meant.
//!
//! Each session opens with the API `hello`, whose template is `Hi $input.body!`, deployed as 1, and its stage `v1`.
//!
//! | Module | Shows |
//! |---|---|
//! | `connections` | tables of bytes with the answers that are written, how the connection ends and the entries, at 1 and 4,096 bytes a read |
//! | `documents` | an API that is a document: what is answered to requests that fail by its routes, its checks or the size of their body, by its rules |
//! | `keys` | methods that ask for a key: what is answered by each admission, and two lanes that share what one key's plan allows |
//! | `failing_calls` | each read and each write failing once |
//! | `gates` | a gate that is passed before each exchange alone, and what a backend is asked |
//! | `limits` | sessions that get full at an Enter or a Leave |
//! | `closing` | a session that is closing |
//! | `lanes` | the connections of a port, looks that fail, and ports that are shut |
//! | `two_lanes` | two lanes of one session, one after another, and the history that both made |
//! | `sessions`, `said` | what the tests stand on |
#![tactic(auto)]

#[cfg(test)]
mod closing;
#[cfg(test)]
mod connections;
#[cfg(test)]
mod documents;
#[cfg(test)]
mod failing_calls;
#[cfg(test)]
mod gates;
#[cfg(test)]
mod keys;
#[cfg(test)]
mod lanes;
#[cfg(test)]
mod limits;
#[cfg(test)]
mod said;
#[cfg(test)]
mod sessions;
#[cfg(test)]
mod two_lanes;
