// Where the keys of a map stand.
ghost use Rattle.std.specs.Prelude.{◌≡◌, ℕ, List, OnOk, Some, if◌then◌else◌};
ghost use Rattle.std.specs.BTreeMap.{get_by_text};
ghost use Rattle.std.specs.Rc.{rc_str_bytes};
ghost use Rattle.std.specs.Str.{bytes_eq};
ghost use Rattle.vtl_values.specs.Places.{ArePlaced, IsIndexed, place_of};
ghost use Rattle.vtl_values.specs.Vals.{rows_of};

use crate::value::Value;
use gw_base::Memory;
use std::alloc::Global;
use std::collections::BTreeMap;
use std::rc::RcStr;

/// The most keys that are looked through one by one. More have their places beside them.
const FEW: usize = 16;

/// The keys of a map, each with its place, counted from 0.
pub type Places = BTreeMap<String, usize>;

/// The place of a key.
pub(crate) fn place_of_key(places: &Places, key: &str) -> Option<usize>
    ensures { result ≡ get_by_text places.now key.now }
{
    places.get(key).copied()
}

/// Sets the place of a key.
pub(crate) fn note(alloc: Global, places: &mut Places, key: &str, n: usize) -> Result<(), Memory>
    ensures { OnOk result ((q : List ℕ) → get_by_text places.new q ≡ (if bytes_eq key.now q then Some n else get_by_text places.old q)) }
{
    let name = String::from_str(alloc, key)?;
    places.insert(name, n)?;
    Ok(())
}

/// The places that are kept beside these entries: none where they are few.
pub(crate) fn keep(entries: &[(RcStr, Value)], places: Places) -> Option<Places>
    requires { ArePlaced (rows_of entries.now) places }
    ensures { IsIndexed (rows_of entries.now) result }
{
    if entries.len() <= FEW {
        None
    } else {
        Some(places)
    }
}

/// The place of the first entry of a key.
pub(crate) fn place(entries: &[(RcStr, Value)], places: &Option<Places>, key: &str) -> Option<usize>
    requires { IsIndexed (rows_of entries.now) places.now }
    ensures { result ≡ place_of key.now (rows_of entries.now) }
{
    match places {
        Some(places) => place_of_key(places, key),
        None => first_place(entries, key),
    }
}

#[tactic(auto, using(crate::proofs::Rows::place_first, crate::proofs::Rows::place_here, crate::proofs::Rows::place_behind))]
fn first_place(entries: &[(RcStr, Value)], key: &str) -> Option<usize>
    ensures { result ≡ place_of key.now (rows_of entries.now) }
{
    let mut n = 0;
    for entry in entries {
        if entry.0.as_str() == key {
            return Some(n);
        }
        n += 1;
    }
    None
}
