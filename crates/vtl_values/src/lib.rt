//! The values of template expressions: what they are, how they print, and what operators and indexes give.
//!
//! * [`Value`] is null, a boolean, a whole number, another number by its source text, a text, a list, a range or a map. It
//!   nests at most 64 deep. Lists and maps are shared, so a value may stand in itself sixty times over.
//! * [`print`] writes a value as text, within a number of bytes. What doesn't fit leaves a front of it.
//! * [`add`], [`subtract`], [`less`] and the others are the operators, and [`equal`] compares.
//! * [`ListMaker`], [`MapMaker`] and [`ranged`] make lists, maps and ranges.
//! * [`member`], [`has_key`], [`item_at`], [`loop_length`] and [`loop_item`] give the parts of a value, [`list_item`], [`entry_key`] and
//!   [`entry_value`] lend them. [`Value::view`] lends all of a value, to be matched on as a [`View`].
//!
//! ```text
//! let mut items = ListMaker::new(alloc);
//! items.push(Value::whole(1))?;
//! items.push(Value::range(3, 1))?;
//! let list = items.close(alloc)?;
//! let mut text = String::new(alloc);
//! print(&list, &mut text, 100)?;                         // [1, [3, 2, 1]]
//! let (sum, made) = add(alloc, &list, &colon, 100)?;     // [1, [3, 2, 1]]: where colon is the text `:`, and 15 bytes
//! ```
//!
//! | expression | value |
//! |---|---|
//! | `7 / -2`, `-7 % 2` | `-3`, `-1` |
//! | `1 / 0`, `9223372036854775807 + 1`, `1 + true`, `1 < 'x'` | null |
//! | `true + 'a'`, `[1] + 'a'` | `truea`, `[1]a` |
//! | `null + 'a'` | null |
//! | `2.50 == '2.50'`, `[1] == '[1]'` | true |
//! | `2.50 == 2.5`, `null == ''` | false |
//! | `{'a': 1, 'b': 2, 'a': 3}` | `{a=3, b=2}` |
//! | `{null: 1}` | null |
//!
//! What is promised: a contract sees a [`Value`] as the tree that it stands for, and each call gives exactly what the
//! definitions of printing, operators and parts say of that tree. A call that takes room answers [`Lack::Room`] exactly
//! where the texts that it would make are longer than that. A refused [`print`] leaves the old text with some front of the
//! printed form behind it. Want of memory is the one answer without a cause.
//!
//! How it is built, not promised: a value's depth and the bytes of its strings are kept beside it, and no call walks a
//! value to find them. A map of more than 16 keys has their places beside it, so that a key is found in the logarithm of
//! their number; it is printed and looped over in the order of its entries, as any other.
#![tactic(auto)]

mod arithmetic;
mod equality;
mod lack;
mod makers;
mod parts;
mod places;
mod printing;
mod value;
mod view;

pub use arithmetic::{
    add, at_least, at_most, divide, greater, less, multiply, remainder, subtract,
};
pub use equality::equal;
pub use lack::Lack;
pub use makers::{ListMaker, MapMaker, ranged};
pub use parts::{
    entry_count, entry_key, entry_value, has_key, item_at, list_item, list_length, loop_item,
    loop_length, member, size,
};
pub use printing::print;
pub use value::Value;
pub use view::View;
