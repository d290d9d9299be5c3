//! The small types, and the traits of the outside, on which every crate of the gateway stands.
//!
//! * [`Text`], [`Bytes`] and [`Seq`] wrap `String`, `Vec<u8>` and `Vec<T>`; [`Shared`] wraps `Arc<T>`. A contract
//!   sees each as what it holds, so that two of them are equal where their contents are. [`Name`] holds up to 64 bytes
//!   of ASCII in place.
//! * [`Source`] and [`Sink`] are where bytes come from and go to. Each counts its faults, and a call fails only where
//!   that count rose. [`Clock`] and [`Words`] give moments and random words, and never fail.
//! * [`MemSource`], [`MemSink`], [`FixedClock`] and [`SplitMix`] are these in memory. The calls of a `MemSource` and of
//!   a `MemSink` that are named by number fail, and no others.
//! * [`read_all`] and [`write_all`] move whole inputs and outputs.
//! * [`is_name`], [`is_token`], [`same_name`] and [`lower`] are the tests and the forms of names that several crates share.
//!
//! ```text
//! let mut input = MemSource::new(bytes, 2, fails);         // two bytes a read
//! let mut output = MemSink::new(alloc, no_fails);
//! let all = read_all(alloc, &mut input, 4096)?;            // Err(TooLong) where more than 4,096 bytes stand
//! write_all(&mut output, &all)?;
//! ```
//!
//! | `read_all` with limit 3 over | answers |
//! |---|---|
//! | no bytes | `Ok`, empty |
//! | `abc` | `Ok`, these three bytes |
//! | `abcd` | `Err(TooLong)` |
//! | `abcd`, where the first read fails | `Err(Fault)` |
#![tactic(auto)]

mod lists;
mod memory;
mod name;
mod naming;
mod outside;
mod readings;
mod texts;
mod whole;

pub use lists::{Seq, Shared};
pub use memory::{MemSink, MemSource};
pub use name::Name;
pub use naming::{is_name, is_token, lower, same_name};
pub use outside::{Failed, Memory, Sink, Source, WriteStop};
pub use readings::{Clock, FixedClock, SplitMix, Words};
pub use texts::{Bytes, Text};
pub use whole::{ReadAll, read_all, write_all};
