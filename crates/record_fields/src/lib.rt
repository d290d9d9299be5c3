//! Fields of a record: how they are parted, coded and read, and how they are written.
//!
//! ```text
//! let fields = fields_in(alloc, b"stage 0 hello v1 1 env=a%20b")?;    // Some: six fields
//! number(b"1024")                       // Some(1024)
//! pairs_in(alloc, &fields[5..])?        // Some: env and `a b`
//! encode_field(alloc, b"a b")?          // a%20b
//! write_column(alloc, &pairs)?          // env=a%20b
//! read_column(alloc, "env=a%20b")?      // Some: env and `a b`
//! ```
//!
//! | Field | Stands for |
//! |---|---|
//! | `a%20b`, `%64eploy` | `a b`, `deploy` |
//! | `~`, `%7E` | nothing; `~` |
//! | an empty one, `a%2`, one with a tab | nothing: it has not its form |
//! | `env=a=b`, as a pair | `env` and `a=b` |
//! | `007`, as a number | 7 |
//! | `18446744073709551616`, `1x`, one of 21 digits, as a number | no number of 64 bits |
//! | the empty text; `env=a%20b log=`, as a column | no pairs; env and `a b`, log and nothing |
//! | `env=%0a`, `env=%41`, one with two spaces, as a column | nothing: a column has one form |
//!
//! What the contracts promise: each answer is that of the definition of its name, in both directions (`specs/Coding.antt`,
//! `specs/Numbers.antt`, `specs/Pairs.antt`, `specs/Writing.antt`, `specs/Columns.antt`); want of memory alone has no cause. The
//! column of pairs of texts, whose names have no `=`, is read as just these pairs, and what is read as pairs is their column ([`laws`]).
#![tactic(auto)]

mod coding;
mod columns;
mod fields;
pub mod laws;
mod numbers;
mod pairs;
mod writing;

pub use columns::{read_column, write_column};
pub use fields::{fields_in, text_of};
pub use numbers::{number, small_number};
pub use pairs::pairs_in;
pub use writing::{append_coded, encode, encode_field};
