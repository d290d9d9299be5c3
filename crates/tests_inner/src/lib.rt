//! Tests of public functions of the crates that read JSON documents, paths, policies, models and templates, where the program does
//! not print what they answer. What it prints is under `tests/cases`.
//!
//! | Module | What it tests |
//! |---|---|
//! | `json` | the kinds of numbers, and the places of values |
//! | `paths` | where a text is no path |
//! | `trees` | paths that stand twice |
//! | `schemas` | the keyword by which a value fails |
//! | `policies` | where a reply is no policy, and which statement decides |
//! | `templates` | what a template says of itself |
//! | `gateway` | the roots of the gateway's own answers |
//!
//! Each loop over a table is one small function, so a case more costs nothing to prove.
#![tactic(auto)]

#[cfg(test)]
mod gateway;
#[cfg(test)]
mod json;
#[cfg(test)]
mod paths;
#[cfg(test)]
mod policies;
#[cfg(test)]
mod schemas;
#[cfg(test)]
mod templates;
#[cfg(test)]
mod trees;
