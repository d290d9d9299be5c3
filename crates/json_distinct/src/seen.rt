// The values that were looked at, by their codes.
ghost use Rattle.std.specs.Prelude.{◌≡◌, ◌<◌, [], ◌∷◌, ℕ, List, length, map, OnOk};
ghost use Rattle.std.specs.BTreeMap.{get};
ghost use Rattle.std.specs.Ordering.{nat_cmp};
ghost use Rattle.json_subset.specs.Tree.{Tree, trees_of};
ghost use Rattle.json_values.specs.Values.{AreSound, plain_of};
ghost use Rattle.json_distinct.specs.Codes.{code as code_of};
ghost use Rattle.json_distinct.specs.Distinct.{is_in as is_in_trees, IsOnceNamed};
ghost use Rattle.json_distinct.specs.Seeing.{AreSeen, AreSeenBelow, is_same_as};

use crate::pairs::is_in;
use gw_base::Memory;
use json_values::{Value, same_value};
use std::alloc::Global;
use std::collections::BTreeMap;

/// The values that were looked at: one of each code, and the others, which hardly ever are.
#[derive(Drop)]
pub struct Seen {
    pub by_code: BTreeMap<u64, usize>,
    pub others: Vec<usize>,
}

/// None.
pub fn none_seen(alloc: Global) -> Seen
    ensures seen { (f : ℕ → Tree) → AreSeen f result.by_code result.others.items [] }
    ensures below { (n : ℕ) → AreSeenBelow n result.by_code result.others.items }
{
    Seen {
        by_code: BTreeMap::new(alloc),
        others: Vec::new(alloc),
    }
}

// Whether a value is the same as the one of its code.
fn is_coded(values: &[Value], k: usize, code: u64, seen: &Seen) -> bool
    requires sound { AreSound values.now }
    requires stands { k < length values.now }
    requires below { AreSeenBelow (length values.now) seen.now.by_code seen.now.others.items }
    ensures { result ≡ is_same_as (plain_of values.now) (plain_of values.now k) (get nat_cmp seen.now.by_code code) }
{
    match seen.by_code.get(&code) {
        Some(m) => same_value(values, k, values, *m),
        None => false,
    }
}

/// Whether a value that repeats no name is the same as one that was looked at.
pub fn is_seen(values: &[Value], k: usize, code: u64, seen: &Seen) -> bool
    requires sound { AreSound values.now }
    requires stands { k < length values.now }
    requires code { code ≡ code_of (plain_of values.now k) }
    requires once { IsOnceNamed (plain_of values.now k) }
    requires below { AreSeenBelow (length values.now) seen.now.by_code seen.now.others.items }
    ensures { (ids : List ℕ) → AreSeen (plain_of values.now) seen.now.by_code seen.now.others.items ids → result ≡ is_in_trees (plain_of values.now k) (trees_of (map (plain_of values.now) ids)) }
{
    is_coded(values, k, code, seen) || is_in(values, k, &seen.others)
}

/// One more value that was looked at.
pub fn see(values: &[Value], k: usize, code: u64, seen: &mut Seen) -> Result<(), Memory>
    requires stands { k < length values.now }
    requires code { code ≡ code_of (plain_of values.now k) }
    requires below { AreSeenBelow (length values.now) seen.old.by_code seen.old.others.items }
    ensures seen { OnOk result ((ids : List ℕ) → AreSeen (plain_of values.now) seen.old.by_code seen.old.others.items ids → AreSeen (plain_of values.now) seen.new.by_code seen.new.others.items (k ∷ ids)) }
    ensures below { OnOk result (AreSeenBelow (length values.now) seen.new.by_code seen.new.others.items) }
{
    if seen.by_code.contains_key(&code) {
        seen.others.push(k)?;
    } else {
        seen.by_code.insert(code, k)?;
    }
    Ok(())
}
