//! API keys by their values: which key a request gives, found without a walk over all keys.
//!
//! ```text
//! let mut index = KeyIndex::new(alloc);
//! index.put(alloc, None, "0123456789abcdef0123", "k1")?;
//! index.find("0123456789abcdef0123")                      // Some("k1")
//! index.put(alloc, Some("0123456789abcdef0123"), "new", "k1")?;
//! index.find("0123456789abcdef0123")                      // None
//! ```
//!
//! | Behind `put(before, value, key)` | is found |
//! |---|---|
//! | `value` | `key` |
//! | `before`, where it is another value | nothing |
//! | any other value | as before |
//!
//! What is promised: that table, for every value. As a law, an index that has just the values of a table's keys has just those of the table in
//! which a key's row is put, where no other key has the row's value; so each value leads to at most one key, and each key to its one value.
//!
//! A look takes the logarithm of the number of keys, and no memory. Left out: whether a key is enabled, and what its value may be.
#![tactic(auto)]

mod index;
pub mod laws;

pub use index::KeyIndex;
