//! Tests of where an integration sends a request and how long it waits for the reply, which no run of the built program prints. What is sent, and what a
//! client is answered, is in `tests/cases/play`.
//!
//! ```text
//! (r#""type":"HTTP_PROXY","method":"GET","uri":"http://localhost:80/""#, "localhost 80 29000")   // an integration; its host, port and milliseconds
//! ```
#![tactic(auto)]

#[cfg(test)]
mod requests;
