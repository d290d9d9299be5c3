//! The words of the program's command line, read by `clap`.
//!
//! [`read_words`] tells which command the words behind the program's name ask for, with its arguments, or that they ask for none.
//!
//! ```text
//! read_words(alloc, ["render", "page.vtl", "body.json"])?    // Some(Render { template: page.vtl, body: body.json })
//! read_words(alloc, ["render", "page.vtl"])?                 // None
//! ```
//!
//! | Words | Command |
//! |---|---|
//! | `help` | `Help` |
//! | `version` | `Version` |
//! | `play` | `Play` |
//! | `render TEMPLATE BODY` | `Render { template, body }` |
//! | `check FILE` | `Check { name }` |
//! | `serve STORE PORT LANES`, with a port of 1 to 65535 and 1 to 8 lanes | `Serve { store, port, lanes }` |
//! | `admin STORE` | `Admin { store }` |
//! | `load SEED N`, a seed of 64 bits and 1 to 300000 calls | `Load { seed, calls }` |
//! | `play -v`, `check --help`, `check ""`, `serve s 0 1`, `serve s 80 +1`, `load 0 0`, `help play`, no word | none |
//!
//! A word that is empty or begins with `-` is no argument: there are no flags. A number is decimal digits.
//!
//! What is promised: the answer is `command_of` of the words, in `specs/`, where each command's words stand by themselves. Want of
//! memory alone has no cause: no error of `clap` is told as such. As a law ([`laws`]), no words ask for two commands.
//!
//! How it is built, not promised: a first look tells whether the words stand in the table, which takes no memory. Only such words go
//! to `clap`, which knows the same table as a command with subcommands, and gives each word by its name.
#![tactic(auto)]

mod commands;
mod grammar;
pub mod laws;
mod numbers;
mod read;
mod table;

pub use commands::Command;
pub use read::read_words;
