// Parts of a value.
ghost use Rattle.std.specs.Prelude.{◌≡◌, ◌<◌, ◌≤◌, ℕ, suc, min, map, length, slice_get, take, option_map, IfOk, Some, None};
ghost use Rattle.std.specs.List.{list_any};
ghost use Rattle.std.specs.Rc.{rc_str_bytes};
ghost use Rattle.std.specs.Str.{bytes_eq};
ghost use Rattle.vtl_values.specs.Val.{whole, list, range, vals_of, vals_list};
ghost use Rattle.vtl_values.specs.Val as tree;
ghost use Rattle.vtl_values.specs.Places.{IsIndexed};
ghost use Rattle.vtl_values.specs.Vals.{rows_of};
ghost use Rattle.vtl_values.specs.Ranges.{span, distance};
ghost use Rattle.vtl_values.specs.Parts.{found, member_of, item_at as item_at_of, items_in, all_items, placed, or_null, loop_items, list_items, map_keys, map_values, size_of, within_i64, entry_keys, entry_values};

use crate::places::{Places, place};
use crate::printing::number_at;
use crate::value::{Shape, Value};
use gw_base::Memory;
use std::rc::RcStr;

/// The most turns of a loop.
const MOST_TURNS: usize = 1000;

/// The value of this key of a map; of anything else null. Among many keys it takes their logarithm.
#[tactic(auto, unfolding(crate::specs::Parts::member_of))]
pub fn member(value: &Value, name: &str) -> Result<Value, Memory>
    ensures { IfOk result (λ v. v ≡ member_of name.now value.now) }
{
    match &value.shape {
        Shape::Map(entries) => find(&entries.rows, &entries.places, name),
        _ => Ok(Value::null()),
    }
}

fn find(entries: &[(RcStr, Value)], places: &Option<Places>, name: &str) -> Result<Value, Memory>
    requires { IsIndexed (rows_of entries.now) places.now }
    ensures { IfOk result (λ v. v ≡ found name.now (rows_of entries.now)) }
{
    match place(entries, places, name) {
        Some(n) => entries[n].1.copied(),
        None => Ok(Value::null()),
    }
}

/// Whether a map has this key; anything else has none. Among many keys it takes their logarithm.
pub fn has_key(value: &Value, name: &str) -> bool
    ensures { result ≡ list_any (λ k. bytes_eq k name.now) (map_keys value.now) }
{
    match &value.shape {
        Shape::Map(entries) => is_key(&entries.rows, &entries.places, name),
        _ => false,
    }
}

#[tactic(auto, using(crate::proofs::Rows::key_placed))]
fn is_key(entries: &[(RcStr, Value)], places: &Option<Places>, name: &str) -> bool
    requires { IsIndexed (rows_of entries.now) places.now }
    ensures { result ≡ list_any (λ k. bytes_eq k name.now) (entry_keys (rows_of entries.now)) }
{
    place(entries, places, name).is_some()
}

/// The item of a list or range at a whole index, counted from 0, or the value of a map at a text; else null.
#[tactic(auto, unfolding(crate::specs::Parts::item_at))]
pub fn item_at(index: &Value, value: &Value) -> Result<Value, Memory>
    ensures { IfOk result (λ v. v ≡ item_at_of index.now value.now) }
{
    match &index.shape {
        Shape::Whole(n) => item_placed(*n, value),
        Shape::Str(key) => member(value, key.as_str()),
        _ => Ok(Value::null()),
    }
}

#[tactic(auto, using(crate::proofs::Items::list_get, crate::proofs::Items::list_count))]
fn item_placed(n: i64, value: &Value) -> Result<Value, Memory>
    ensures { IfOk result (λ v. v ≡ placed n (items_in value.now)) }
{
    if n < 0 {
        return Ok(Value::null());
    }
    let n = n as u64;
    match &value.shape {
        Shape::List(items) => in_list(&items.values, n),
        Shape::Range(first, last) => Ok(in_range(*first, *last, n)),
        _ => Ok(Value::null()),
    }
}

fn in_list(items: &[Value], n: u64) -> Result<Value, Memory>
    ensures { IfOk result (λ v. v ≡ or_null (slice_get items.now n)) }
{
    if n < items.len() as u64 {
        items[n as usize].copied()
    } else {
        Ok(Value::null())
    }
}

#[tactic(auto, using(crate::proofs::Items::span_item, crate::proofs::Items::span_past))]
fn in_range(first: i64, last: i64, n: u64) -> Value
    ensures { result ≡ or_null (slice_get (map whole (span first last)) n) }
{
    if n <= first.abs_diff(last) {
        Value::whole(number_at(first, last, n))
    } else {
        Value::null()
    }
}

/// How many turns a loop over this value has.
#[tactic(auto, using(crate::proofs::Items::turns, crate::proofs::Items::list_count, crate::proofs::Items::span_length, crate::proofs::Items::value_count))]
pub fn loop_length(value: &Value) -> usize
    ensures value { result ≡ length (loop_items value.now) }
    ensures few { result ≤ 1000 }
{
    match &value.shape {
        Shape::List(items) => items.values.len().min(MOST_TURNS),
        Shape::Range(first, last) => {
            let behind = first.abs_diff(*last);
            if behind < MOST_TURNS as u64 {
                behind as usize + 1
            } else {
                MOST_TURNS
            }
        }
        Shape::Map(entries) => entries.rows.len().min(MOST_TURNS),
        _ => 0,
    }
}

/// The value of this turn of a loop, counted from 0.
#[tactic(auto, using(crate::proofs::Items::turn_within))]
pub fn loop_item(value: &Value, n: usize) -> Result<Value, Memory>
    requires { n < length (loop_items value.now) }
    ensures { IfOk result (λ v. slice_get (loop_items value.now) n ≡ Some v) }
{
    match &value.shape {
        Shape::List(items) => list_turn(&items.values, n),
        Shape::Range(first, last) => Ok(range_turn(*first, *last, n)),
        Shape::Map(entries) => map_turn(&entries.rows, n),
        _ => Ok(Value::null()),
    }
}

#[tactic(auto, using(crate::proofs::Items::list_turn_get, crate::proofs::Items::list_turn_within))]
fn list_turn(items: &[Value], n: usize) -> Result<Value, Memory>
    requires { n < length (loop_items (list (vals_of items.now))) }
    ensures { IfOk result (λ v. slice_get (loop_items (list (vals_of items.now))) n ≡ Some v) }
{
    item_copied(items, n)
}

fn item_copied(items: &[Value], n: usize) -> Result<Value, Memory>
    requires { n < length items.now }
    ensures { IfOk result (λ v. slice_get items.now n ≡ Some v) }
{
    items[n].copied()
}

#[tactic(auto, using(crate::proofs::Items::range_turn_get, crate::proofs::Items::range_turn_within))]
fn range_turn(first: i64, last: i64, n: usize) -> Value
    requires { n < length (loop_items (range first last)) }
    ensures { slice_get (loop_items (range first last)) n ≡ Some result }
{
    Value::whole(number_at(first, last, n as u64))
}

#[tactic(auto, using(crate::proofs::Items::map_turn_get, crate::proofs::Items::map_turn_within))]
fn map_turn(entries: &[(RcStr, Value)], n: usize) -> Result<Value, Memory>
    requires { n < length (loop_items (tree.map (rows_of entries.now))) }
    ensures { IfOk result (λ v. slice_get (loop_items (tree.map (rows_of entries.now))) n ≡ Some v) }
{
    value_copied(entries, n)
}

#[tactic(auto, using(crate::proofs::Items::value_read))]
fn value_copied(entries: &[(RcStr, Value)], n: usize) -> Result<Value, Memory>
    requires { n < length entries.now }
    ensures { IfOk result (λ v. slice_get (entry_values (rows_of entries.now)) n ≡ Some v) }
{
    entries[n].1.copied()
}

/// How many items a list or range has, or entries a map; none of anything else, or where that is out of range.
#[tactic(auto, using(crate::proofs::Items::list_count, crate::proofs::Items::key_count), unfolding(crate::specs::Parts::size_of))]
pub fn size(value: &Value) -> Option<i64>
    ensures { result ≡ size_of value.now }
{
    match &value.shape {
        Shape::List(items) => to_i64(items.values.len() as u64),
        Shape::Range(first, last) => range_size(*first, *last),
        Shape::Map(entries) => to_i64(entries.rows.len() as u64),
        _ => None,
    }
}

fn to_i64(n: u64) -> Option<i64>
    ensures { result ≡ within_i64 n }
{
    if n <= i64::MAX as u64 {
        Some(n as i64)
    } else {
        None
    }
}

fn range_size(first: i64, last: i64) -> Option<i64>
    ensures { result ≡ within_i64 (suc (distance first last)) }
{
    let behind = first.abs_diff(last);
    if behind < i64::MAX as u64 {
        Some(behind as i64 + 1)
    } else {
        None
    }
}

/// How many items a list has; 0 of anything else.
#[tactic(auto, using(crate::proofs::Items::list_count))]
pub fn list_length(value: &Value) -> usize
    ensures { result ≡ length (list_items value.now) }
{
    match &value.shape {
        Shape::List(items) => items.values.len(),
        _ => 0,
    }
}

/// The item of a list at this place, counted from 0.
pub fn list_item(value: &Value, n: usize) -> &Value
    requires { n < length (list_items value.now) }
    ensures { slice_get (list_items value.now) n ≡ Some result.now }
{
    match &value.shape {
        Shape::List(items) => item_of(&items.values, n),
        _ => value,
    }
}

#[tactic(auto, using(crate::proofs::Items::list_read, crate::proofs::Items::list_count))]
fn item_of(items: &[Value], n: usize) -> &Value
    requires { n < length (vals_list (vals_of items.now)) }
    ensures { slice_get (vals_list (vals_of items.now)) n ≡ Some result.now }
{
    &items[n]
}

/// How many entries a map has; 0 of anything else.
#[tactic(auto, using(crate::proofs::Items::key_count, crate::proofs::Items::value_count))]
pub fn entry_count(value: &Value) -> usize
    ensures keys { result ≡ length (map_keys value.now) }
    ensures values { result ≡ length (map_values value.now) }
{
    match &value.shape {
        Shape::Map(entries) => entries.rows.len(),
        _ => 0,
    }
}

/// The key of a map's entry at this place, counted from 0.
pub fn entry_key(value: &Value, n: usize) -> Option<&RcStr>
    ensures { option_map (λ k. rc_str_bytes k.now) result ≡ slice_get (map_keys value.now) n }
{
    match &value.shape {
        Shape::Map(entries) => key_at(&entries.rows, n),
        _ => None,
    }
}

#[tactic(auto, using(crate::proofs::Items::key_read, crate::proofs::Items::key_past))]
fn key_at(entries: &[(RcStr, Value)], n: usize) -> Option<&RcStr>
    ensures { option_map (λ k. rc_str_bytes k.now) result ≡ slice_get (entry_keys (rows_of entries.now)) n }
{
    if n < entries.len() {
        Some(&entries[n].0)
    } else {
        None
    }
}

/// The value of a map's entry at this place, counted from 0.
pub fn entry_value(value: &Value, n: usize) -> Option<&Value>
    ensures { option_map (λ v. v.now) result ≡ slice_get (map_values value.now) n }
{
    match &value.shape {
        Shape::Map(entries) => value_at(&entries.rows, n),
        _ => None,
    }
}

#[tactic(auto, using(crate::proofs::Items::value_read, crate::proofs::Items::value_past))]
fn value_at(entries: &[(RcStr, Value)], n: usize) -> Option<&Value>
    ensures { option_map (λ v. v.now) result ≡ slice_get (entry_values (rows_of entries.now)) n }
{
    if n < entries.len() {
        Some(&entries[n].1)
    } else {
        None
    }
}
