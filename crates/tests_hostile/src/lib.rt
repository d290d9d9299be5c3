//! Tests of hostile use: input that is cut, calls of connections, backends and keepers that fail, and texts that eat a budget.
//!
//! What is broken is mostly one order of `tests_orders`: by these modules, or by the crate of tests that has what it calls.
//!
//! | What happens | What comes | Stands in |
//! |---|---|---|
//! | an order is cut anywhere | `Cut` with the length of what came; nothing is entered, sent or answered | `cuts` |
//! | a chunk's line has 1,025 bytes, or `g` as its size; no line feed stands behind the data; trailers have 10,241 bytes | `BadChunk` each, and `HeadTooLong` | `messages` of `tests_wire` |
//! | a head has no `host` or two, both lengths, or 101 fields | `BadHead` each, and `HeadTooLong` | `messages` of `tests_wire` |
//! | a read or a write of an order's connection fails | `ReadFault` behind whole answers, `WriteFault` within one | `failing_calls` |
//! | a read of a script, or a write of what it prints, fails | `fault input`, `fault output` | `failing` of `tests_cli` |
//! | an exchange of an order fails or lapses | `AUTHORIZER_FAILURE`, `INTEGRATION_FAILURE`, `INTEGRATION_TIMEOUT` | `exchanges` |
//! | a call of the keeper fails, each in turn | `fault keeper`; `store`, `STORE_FAILURE`, and what follows from a change that was not kept | `keepers` |
//! | a template joins a text to itself 21 times, or 22 | the empty text, or `stop Bytes` | `tests/cases/render/documented.table.jsonl` |
//! | a template has 1,000,000 steps, or one more | all its dots, or `stop Steps` | `tests/cases/render/documented.table.jsonl`; within an integration `tests/cases/play/documents-in-scripts.table.jsonl` |
//! | loops stand 64 deep, or 65 | they are read, or `TooDeep` | `tests/cases/render/limits.table.jsonl` |
//! | a document has 1,048,576 opening brackets, a body 10,485,760 | `Depth(64)`; no document | `tests/cases/check/json.table.jsonl`, `tests/cases/render/json.table.jsonl` |
//! | memory is refused | a front of what comes else | `tests_refused`, run by `bench/refused-memory` |
//!
//! `orders` and `played` are what the tests stand on.
#![tactic(auto)]

#[cfg(test)]
mod cuts;
#[cfg(test)]
mod exchanges;
#[cfg(test)]
mod failing_calls;
#[cfg(test)]
mod keepers;
#[cfg(test)]
mod orders;
#[cfg(test)]
mod played;
