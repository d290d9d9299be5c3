// Lists, maps and ranges that are made.
ghost use Rattle.std.specs.Prelude.{◌≡◌, ◌++◌, ◌+◌, ◌-◌, ◌^◌, ◌≤◌, ◌<◌, [], ◌∷◌, List, ℕ, min, IfOk, OnOk, OnErr, Some, if◌then◌else◌};
ghost use Rattle.std.specs.Rc.{rc_str_bytes};
ghost use Rattle.std.specs.String.{string_bytes as bytes_in};
ghost use Rattle.vtl_values.specs.Val.{no_entries, vals_of, vals_depth, vals_bytes, entries_depth, entries_bytes, list, map};
ghost use Rattle.vtl_values.specs.Vals.{rows_of};
ghost use Rattle.vtl_values.specs.Printed.{printed};
ghost use Rattle.vtl_values.specs.Making.{listed, mapped, ranged as ranged_of, shallow, entered, gathered, has_null_key};
ghost use Rattle.vtl_values.specs.Places.{ArePlaced};

use crate::lack::Lack;
use crate::places::{Places, keep, note, place_of_key};
use crate::printing::print;
use crate::value::{Entries, Items, Shape, Size, Value};
use gw_base::Memory;
use std::alloc::Global;
use std::collections::BTreeMap;
use std::marker::Model;
use std::rc::{Rc, RcStr};

/// The most bytes of a printed key.
const LONGEST_KEY: u64 = 268_435_456;

/// The values of a list that is made.
#[derive(Drop)]
pub struct ListMaker {
    items: Vec<Value>,
}

impl Model for ListMaker {
    ghost use Rattle.std.specs.Prelude.{List};
    ghost use Rattle.std.specs.Coded.{coded_list};
    ghost use Rattle.vtl_values.specs.Val.{Val};
    ghost use Rattle.vtl_values.specs.Coded.{val_code};

    ghost Value = { List Val };

    ghost coded = { coded_list val_code };

    ghost view = { λ m. m.items.items };
}

impl ListMaker {
    /// No values.
    pub fn new(alloc: Global) -> Self
        ensures { result ≡ [] }
    {
        ListMaker {
            items: Vec::new(alloc),
        }
    }

    /// Adds a value at the end. Where memory is wanting nothing changes.
    pub fn push(&mut self, value: Value) -> Result<(), Memory>
        ensures ok { OnOk result (self.new ≡ self.old ++ value ∷ []) }
        ensures err { OnErr result (self.new ≡ self.old) }
    {
        self.items.push(value)?;
        Ok(())
    }

    /// The list of these values, or null where it would be deeper than 64.
    pub fn close(self, alloc: Global) -> Result<Value, Memory>
        ensures { IfOk result (λ v. v ≡ listed self) }
    {
        let ListMaker { items } = self;
        close_list(alloc, items)
    }
}

#[tactic(auto, unfolding(crate::specs::Making::listed))]
fn close_list(alloc: Global, values: Vec<Value>) -> Result<Value, Memory>
    ensures { IfOk result (λ v. v ≡ listed values.items) }
{
    let size = measure_items(&values);
    if size.depth < 64 {
        let size = deeper(size);
        let items = Rc::new(alloc, Items { values, size })?;
        Ok(Value {
            shape: Shape::List(items),
        })
    } else {
        Ok(Value::null())
    }
}

fn deeper(size: Size) -> Size
    requires { size.depth < 64 }
    ensures depth { result.depth ≡ size.depth + 1 }
    ensures bytes { result.bytes ≡ size.bytes }
{
    Size {
        depth: size.depth + 1,
        bytes: size.bytes,
    }
}

// How deep the deepest item is, and the bytes of all.
fn measure_items(items: &[Value]) -> Size
    ensures depth { result.depth ≡ vals_depth (vals_of items.now) }
    ensures bytes { result.bytes ≡ min (vals_bytes (vals_of items.now)) (2 ^ 64 - 1) }
    ensures shallow { result.depth ≤ 64 }
{
    let mut size = Size { depth: 0, bytes: 0 };
    for item in items {
        size.depth = size.depth.max(item.depth());
        size.bytes = size.bytes.saturating_add(item.bytes());
    }
    size
}

/// The pairs of a map that is made.
#[derive(Drop)]
pub struct MapMaker {
    pairs: Vec<(Value, Value)>,
}

impl Model for MapMaker {
    ghost use Rattle.std.specs.Prelude.{List};
    ghost use Rattle.std.specs.Coded.{coded_list, coded×};
    ghost use Rattle.vtl_values.specs.Val.{Val};
    ghost use Rattle.vtl_values.specs.Coded.{val_code};

    ghost Value = { List (Val × Val) };

    ghost coded = { coded_list (coded× val_code val_code) };

    ghost view = { λ m. m.pairs.items };
}

impl MapMaker {
    /// No pairs.
    pub fn new(alloc: Global) -> Self
        ensures { result ≡ [] }
    {
        MapMaker {
            pairs: Vec::new(alloc),
        }
    }

    /// Adds a key and a value at the end. Where memory is wanting nothing changes.
    pub fn put(&mut self, key: &Value, value: Value) -> Result<(), Memory>
        ensures ok { OnOk result (self.new ≡ self.old ++ (key.now, value) ∷ []) }
        ensures err { OnErr result (self.new ≡ self.old) }
    {
        let key = key.copied()?;
        self.pairs.push((key, value))?;
        Ok(())
    }

    /// The map of these pairs, with the keys printed, or null where a key is null or it would be deeper than 64. A key
    /// that repeats keeps its first place and its last value. A key of more than 268,435,456 bytes is want of memory,
    /// and is not made.
    #[tactic(auto, unfolding(crate::specs::Making::mapped))]
    pub fn close(self, alloc: Global) -> Result<Value, Memory>
        ensures { IfOk result (λ v. v ≡ mapped self) }
    {
        let MapMaker { pairs } = self;
        if some_key_is_null(&pairs) {
            return Ok(Value::null());
        }
        let (entries, places) = gather(alloc, &pairs)?;
        close_map(alloc, entries, places)
    }
}

fn some_key_is_null(pairs: &[(Value, Value)]) -> bool
    ensures { result ≡ has_null_key pairs.now }
{
    for pair in pairs {
        if pair.0.is_null() {
            return true;
        }
    }
    false
}

// The entries of these pairs, and the places of their keys.
fn gather(alloc: Global, pairs: &[(Value, Value)]) -> Result<(Vec<(RcStr, Value)>, Places), Memory>
    ensures entries { IfOk result (λ g. rows_of g.0.items ≡ gathered no_entries pairs.now) }
    ensures places { IfOk result (λ g. ArePlaced (rows_of g.0.items) g.1) }
{
    let mut entries = Vec::new(alloc);
    let mut places = BTreeMap::new(alloc);
    for pair in pairs {
        let key = key_text(alloc, &pair.0)?;
        let value = pair.1.copied()?;
        enter(alloc, &mut entries, &mut places, key, value)?;
    }
    Ok((entries, places))
}

fn key_text(alloc: Global, key: &Value) -> Result<RcStr, Memory>
    ensures { IfOk result (λ t. rc_str_bytes t ≡ printed key.now) }
{
    let mut text = String::new(alloc);
    match print(key, &mut text, LONGEST_KEY) {
        Ok(()) => {
            let text = RcStr::from_string(text)?;
            Ok(text)
        }
        Err(_) => Err(Memory),
    }
}

// Sets the value of a key in its place, or at the end.
fn enter(
    alloc: Global,
    entries: &mut Vec<(RcStr, Value)>,
    places: &mut Places,
    key: RcStr,
    value: Value,
) -> Result<(), Memory>
    requires { ArePlaced (rows_of entries.old.items) places.old }
    ensures entries { OnOk result (rows_of entries.new.items ≡ entered (rows_of entries.old.items) (rc_str_bytes key) value) }
    ensures places { OnOk result (ArePlaced (rows_of entries.new.items) places.new) }
{
    match place_of_key(places, key.as_str()) {
        Some(n) => {
            entries[n] = (key, value);
            Ok(())
        }
        None => {
            note(alloc, places, key.as_str(), entries.len())?;
            entries.push((key, value))?;
            Ok(())
        }
    }
}

fn close_map(alloc: Global, rows: Vec<(RcStr, Value)>, places: Places) -> Result<Value, Memory>
    requires { ArePlaced (rows_of rows.items) places }
    ensures { IfOk result (λ v. v ≡ shallow (map (rows_of rows.items))) }
{
    let size = measure_entries(&rows);
    if size.depth < 64 {
        let size = deeper(size);
        let places = keep(&rows, places);
        let entries = Rc::new(alloc, Entries { rows, size, places })?;
        Ok(Value {
            shape: Shape::Map(entries),
        })
    } else {
        Ok(Value::null())
    }
}

// How deep the deepest value is, and the bytes of all keys and values.
fn measure_entries(entries: &[(RcStr, Value)]) -> Size
    ensures depth { result.depth ≡ entries_depth (rows_of entries.now) }
    ensures bytes { result.bytes ≡ min (entries_bytes (rows_of entries.now)) (2 ^ 64 - 1) }
    ensures shallow { result.depth ≤ 64 }
{
    let mut size = Size { depth: 0, bytes: 0 };
    for entry in entries {
        size.depth = size.depth.max(entry.1.depth());
        let bytes = (entry.0.len() as u64).saturating_add(entry.1.bytes());
        size.bytes = size.bytes.saturating_add(bytes);
    }
    size
}

/// The range of two whole numbers; of anything else null.
#[tactic(auto, unfolding(crate::specs::Making::ranged))]
pub fn ranged(first: &Value, last: &Value) -> Value
    ensures { result ≡ ranged_of first.now last.now }
{
    match (&first.shape, &last.shape) {
        (Shape::Whole(a), Shape::Whole(b)) => Value::range(*a, *b),
        _ => Value::null(),
    }
}
