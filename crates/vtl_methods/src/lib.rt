//! The methods that templates call on values: `$text.substring(1)`, `$list.size()`, `$map.entrySet()`.
//!
//! ```text
//! // 'a,b,,c' has three parts that are not empty, and one that is
//! let (parts, bytes) = call(alloc, &text, "split", &[comma], room)?;     // [a, b, , c], 3 bytes
//! let (found, bytes) = call(alloc, &parts, "contains", &[letter], room)?; // true, the bytes that were compared
//! ```
//!
//! | On | Methods |
//! |---|---|
//! | any value | `toString()`, of null null |
//! | a text | `length()` `equals(s)` `contains(s)` `startsWith(s)` `endsWith(s)` `indexOf(s)` `substring(i)` `substring(i, j)` `toUpperCase()` `toLowerCase()` `trim()` `replace(s, t)` `replaceAll(p, t)` `split(p)` `isEmpty()` |
//! | a list, a range | `size()` `get(n)` `isEmpty()` `contains(v)` |
//! | a map | `size()` `get(k)` `containsKey(k)` `keySet()` `entrySet()` `isEmpty()` |
//!
//! All else is null: another name, another kind of value, another number of arguments, an argument of another kind.
//!
//! | call | gives |
//! |---|---|
//! | `'a'.equals(null)`; `'a'.contains(1)` | `false`; null |
//! | `'abc'.indexOf('d')`; `'abc'.substring(3, 2)` | `-1`; null |
//! | `'a.b'.replaceAll('.', '-')`; `'a.b'.replaceAll('\.', '-')` | null; `a-b` |
//! | `[5..1].get(1)`; `[1, 'b'].contains('1')` | `4`; `true` |
//! | `{'k': 1}.get(1)`; `{'k': 1}.entrySet()` | null; `[{key=k, value=1}]` |
//!
//! [`call`] answers for every name, value and list of arguments what the table `method_of` of `specs/Methods.antt` says,
//! and counts the bytes of the texts that are made for it: the strings of what it gives, keys among them, and the
//! printed texts that `contains` compares, up to the first equal item. It answers [`Lack::Room`] exactly where these
//! have no room. [`Lack::Memory`] is answered where memory is wanting, and where there is room for 2^64 - 1 bytes and a
//! value takes as many.
//!
//! How it is built, not promised: a range is never spread out, a whole number is compared with its ends alone.
//!
//! [`Lack::Room`]: vtl_values::Lack
#![tactic(auto)]

mod answers;
mod calls;
mod lists;
mod maps;
mod names;
mod texts;

pub use calls::call;
