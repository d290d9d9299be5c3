//! The lines of a script, and the records that they are.
//!
//! A script is lines, each ended by a line feed. A line is fields with one space between them, and its first field names the
//! record. `play` reads all records, `admin` those that are commands.
//!
//! ```text
//! first_line(b"deploy 0 hello\n# end")      // the line `deploy 0 hello`, and what is left: `# end`
//! record_in(alloc, b"deploy 0 hello")?      // Ok(Record::Ask { moment: 0, command: Command::Deploy { .. } })
//! record_in(alloc, b"bogus 1")?             // Err(LineFault::BadRecord)
//! ```
//!
//! | line | record |
//! |---|---|
//! | empty, or begins with `#` | none: it is passed over |
//! | `text 0 hello Hi%20$input.body!` | `PutText` |
//! | `stage 0 hello v1 1 env=x` | `Ask`, the command that puts a stage with one variable |
//! | `plan 0 p 5:10 1000:0:DAY hello/v1` | `Ask`, the command that puts a plan of one stage |
//! | `plan 0 p - - hello` | `BadRecord`: a stage has its API before a slash |
//! | `post 0 0 hello v1 Ann` | `Post`, a connection with one message |
//! | `keepfails 1` | `BadRecord`: it is read by [`fails_in`] alone, where it is the first line |
//!
//! What is promised: [`first_line`] parts a script into the lines of `specs/Coding.antt`. [`record_in`] answers the record
//! of `specs/Records.antt`, or `BadRecord` where the line has none, for every line; [`fails_in`] likewise. A definition is
//! taken if and only if it is stated ([`take_document`], [`take_text`], `specs/Definitions.antt`); otherwise its first fault is
//! answered. Running out of memory is an error of its own.
#![tactic(auto)]

mod definitions;
mod fields;
mod plain;
mod plans;
mod reading;
mod records;
mod stages;

pub use definitions::{take_document, take_text};
pub use fields::{first_line, is_passed_over};
pub use reading::{fails_in, record_in};
pub use records::{LineFault, Record};
