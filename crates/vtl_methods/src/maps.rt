// The methods of a map.
ghost use Rattle.std.specs.Prelude.{◌≡◌, codes, map, IfOk};
ghost use Rattle.std.specs.Rc.{rc_str_bytes};
ghost use Rattle.vtl_values.specs.Val.{map as map_val, text as text_val};
ghost use Rattle.vtl_values.specs.Vals.{rows_of};
ghost use Rattle.vtl_values.specs.Parts.{entry_keys};
ghost use Rattle.vtl_values.specs.Making.{listed};
ghost use Rattle.vtl_methods.specs.Methods.{map_method as given, pair as pair_of, pairs};

use crate::answers::{alone, only, only_text, part_value};
use crate::names::MapMethod;
use gw_base::Memory;
use std::alloc::Global;
use std::rc::RcStr;
use vtl_values::{ListMaker, MapMaker, Value, has_key, item_at, size};

/// What a method of this map gives; `whole` is the map with these entries.
pub(crate) fn on_map(
    alloc: Global,
    method: MapMethod,
    whole: &Value,
    entries: &[(RcStr, Value)],
    arguments: &[Value],
) -> Result<Value, Memory>
    requires { whole.now ≡ map_val (rows_of entries.now) }
    ensures { IfOk result (λ v. v ≡ given method (rows_of entries.now) arguments.now) }
{
    match method {
        MapMethod::Size => Ok(size_of(whole, entries, arguments)),
        MapMethod::Get => get(whole, entries, arguments),
        MapMethod::ContainsKey => Ok(contains_key(whole, entries, arguments)),
        MapMethod::KeySet => key_set(alloc, entries, arguments),
        MapMethod::EntrySet => entry_set(alloc, entries, arguments),
        MapMethod::IsEmpty => Ok(is_empty(entries, arguments)),
    }
}

#[tactic(auto, unfolding(crate::specs::Methods::map_method))]
fn size_of(whole: &Value, entries: &[(RcStr, Value)], arguments: &[Value]) -> Value
    requires { whole.now ≡ map_val (rows_of entries.now) }
    ensures { result ≡ given MapMethod.Size (rows_of entries.now) arguments.now }
{
    match size(whole) {
        Some(n) => alone(Value::whole(n), arguments),
        None => Value::null(),
    }
}

#[tactic(auto, unfolding(crate::specs::Methods::map_method))]
fn get(whole: &Value, entries: &[(RcStr, Value)], arguments: &[Value]) -> Result<Value, Memory>
    requires { whole.now ≡ map_val (rows_of entries.now) }
    ensures { IfOk result (λ v. v ≡ given MapMethod.Get (rows_of entries.now) arguments.now) }
{
    match only(arguments) {
        Some(key) => item_at(key, whole),
        None => Ok(Value::null()),
    }
}

#[tactic(auto, unfolding(crate::specs::Methods::map_method))]
fn contains_key(whole: &Value, entries: &[(RcStr, Value)], arguments: &[Value]) -> Value
    requires { whole.now ≡ map_val (rows_of entries.now) }
    ensures { result ≡ given MapMethod.ContainsKey (rows_of entries.now) arguments.now }
{
    match only_text(arguments) {
        Some(key) => Value::boolean(has_key(whole, key.as_str())),
        None => Value::null(),
    }
}

#[tactic(auto, unfolding(crate::specs::Methods::map_method))]
fn is_empty(entries: &[(RcStr, Value)], arguments: &[Value]) -> Value
    ensures { result ≡ given MapMethod.IsEmpty (rows_of entries.now) arguments.now }
{
    alone(Value::boolean(entries.is_empty()), arguments)
}

#[tactic(auto, unfolding(crate::specs::Methods::map_method))]
fn key_set(alloc: Global, entries: &[(RcStr, Value)], arguments: &[Value]) -> Result<Value, Memory>
    ensures { IfOk result (λ v. v ≡ given MapMethod.KeySet (rows_of entries.now) arguments.now) }
{
    if !arguments.is_empty() {
        return Ok(Value::null());
    }
    list_of_keys(alloc, entries)
}

fn list_of_keys(alloc: Global, entries: &[(RcStr, Value)]) -> Result<Value, Memory>
    ensures { IfOk result (λ v. v ≡ listed (map text_val (entry_keys (rows_of entries.now)))) }
{
    let mut made = ListMaker::new(alloc);
    for entry in entries {
        made.push(Value::text(entry.0.clone()?))?;
    }
    made.close(alloc)
}

#[tactic(auto, unfolding(crate::specs::Methods::map_method))]
fn entry_set(
    alloc: Global,
    entries: &[(RcStr, Value)],
    arguments: &[Value],
) -> Result<Value, Memory>
    ensures { IfOk result (λ v. v ≡ given MapMethod.EntrySet (rows_of entries.now) arguments.now) }
{
    if !arguments.is_empty() {
        return Ok(Value::null());
    }
    list_of_pairs(alloc, entries)
}

fn list_of_pairs(alloc: Global, entries: &[(RcStr, Value)]) -> Result<Value, Memory>
    ensures { IfOk result (λ v. v ≡ listed (pairs (rows_of entries.now))) }
{
    let key = part_value(alloc, "key")?;
    let value = part_value(alloc, "value")?;
    let mut made = ListMaker::new(alloc);
    for entry in entries {
        made.push(pair(alloc, &key, &value, &entry.0, &entry.1)?)?;
    }
    made.close(alloc)
}

/// A map with `key` and `value`, which are handed in as values.
fn pair(
    alloc: Global,
    key: &Value,
    value: &Value,
    name: &RcStr,
    held: &Value,
) -> Result<Value, Memory>
    requires key_word { key.now ≡ text_val (codes "key") }
    requires value_word { value.now ≡ text_val (codes "value") }
    ensures { IfOk result (λ v. v ≡ pair_of (rc_str_bytes name.now) held.now) }
{
    let mut made = MapMaker::new(alloc);
    made.put(key, Value::text(name.clone()?))?;
    made.put(value, held.copied()?)?;
    made.close(alloc)
}
