// The values of keys, while one is put.
ghost use Rattle.std.specs.Prelude.{◌≡◌, ℕ, List, [], None, Some, is_some, OnErr, IfOk, if◌then◌else◌};
ghost use Rattle.std.specs.Map.{update};
ghost use Rattle.std.specs.Str.{bytes_eq};
ghost use Rattle.key_index.specs.Indexes.{key_in, value_of};
ghost use Rattle.book_core.specs.Naming.{left_by, name_in, value_in};

use gw_base::Memory;
use keeper_core::{Row, Tables};
use key_index::KeyIndex;
use std::alloc::Global;

/// The key and the value of a key's row; those of another row are empty.
pub fn named_in(row: &Row) -> (&str, &str)
    ensures name { result.0.now ≡ name_in row.now }
    ensures value { result.1.now ≡ value_in row.now }
{
    match row {
        Row::Key(row) => (row.key.as_str(), row.value.as_str()),
        _ => ("", ""),
    }
}

/// Gives the value to the key, beside the value that the key has, unless a key has it already: that is told.
pub fn enter_value(
    keys: &mut KeyIndex,
    alloc: Global,
    key: &str,
    value: &str,
) -> Result<bool, Memory>
    ensures own { IfOk result (λ is_own. is_own ≡ is_some (key_in keys.old value.now)) }
    ensures entered { (v : List ℕ) → IfOk result (λ is_own. key_in keys.new v ≡ (if is_own then key_in keys.old v else update bytes_eq (key_in keys.old) value.now (Some key.now) v)) }
    ensures err { (v : List ℕ) → OnErr result (key_in keys.new v ≡ key_in keys.old v) }
{
    if keys.find(value).is_some() {
        return Ok(true);
    }
    keys.enter(alloc, value, key)?;
    Ok(false)
}

/// Takes the value from the key again that it was given to, unless a key had it before.
pub fn leave_value(keys: &mut KeyIndex, value: &str, is_own: bool)
    ensures { (v : List ℕ) → key_in keys.new v ≡ (if is_own then key_in keys.old v else update bytes_eq (key_in keys.old) value.now None v) }
{
    if !is_own {
        keys.leave(value);
    }
}

/// Takes the value that the key has in the tables, where it is another one than this.
pub fn leave_old(tables: &Tables, keys: &mut KeyIndex, key: &str, value: &str)
    ensures { (v : List ℕ) → key_in keys.new v ≡ left_by (value_of tables.now.lists.keys key.now) value.now (key_in keys.old) v }
{
    if let Some(old) = tables.key(key) {
        if old.value.as_str() != value {
            keys.leave(old.value.as_str());
        }
    }
}
