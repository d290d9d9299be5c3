//! The values of a JSON document in a form of their own: numbered, parts before wholes, each object with its names in
//! order for a look-up, and each number measured once. A document may be let go; its values stay.
//!
//! ```text
//! let k = read_part(alloc, &doc, &mut values, doc.root())?;
//! same_value(&values, k, &values, k)                       // true
//! ```
//!
//! | Values | The same |
//! |---|---|
//! | `1` and `1.0` | no: a number with a fraction is compared by its source text |
//! | `0` and `-0` | yes: whole numbers are compared by value |
//! | `{"a":1,"b":2}` and `{"b":2,"a":1}` | yes |
//!
//! What the contracts promise: the values of a part are that part, each number's amount is that of its source, a name is
//! found where the first of its members stands, and `same_value` answers the definition in `specs/Same.antt`.
#![tactic(auto)]

mod amount;
mod compare;
mod lookup;
mod number;
mod read;
mod value;

pub use amount::Amount;
pub use compare::{same_value, value_at};
pub use lookup::named;
pub use number::{at_least, at_most, is_multiple};
pub use read::{push_member, read_part};
pub use value::{Form, Members, Number, Value};
