// The table `keys`.
ghost use Rattle.std.specs.Prelude.{◌≡◌, ◌&&◌, nat_le, List, length, not, None, OnOk, IfOk, IfErr};
ghost use Rattle.std.specs.List.{list_any, list_all};
ghost use Rattle.std.specs.Str.{bytes_eq};
ghost use Rattle.keeper_core.specs.declared.rows.KeyRow.{KeyRow as KeyRowOf};
ghost use Rattle.book_rules.specs.Good.{refused_by, takes_key as takes_key_of};
ghost use Rattle.book_rules.specs.Names.{is_key_value as is_key_value_of};
ghost use Rattle.keeper_core.specs.Lists.{Ascends, key_behind};
ghost use Rattle.key_index.specs.Indexes.{Indexes, key_in};
ghost use Rattle.book_opening.specs.Faults.{IsFirstIn};

use crate::fault::OpenFault;
use gw_base::is_name;
use keeper_core::{KeyRow, Table};
use key_index::KeyIndex;
use std::alloc::Global;
use std::collections::BTreeSet;

/// The most keys.
const MOST_KEYS: usize = 10_000;

/// The most bytes of a key's value.
const MOST_VALUE: usize = 128;

fn are_printed(bytes: &[u8]) -> bool
    ensures { result ≡ list_all (λ b. nat_le 33 b && nat_le b 126) bytes.now }
{
    bytes.iter().all(|b| 33 <= *b && *b <= 126)
}

/// Whether a text is a key's value: 1 to 128 bytes of 33 to 126.
pub fn is_key_value(value: &str) -> bool
    ensures { result ≡ is_key_value_of value.now }
{
    !value.is_empty() && value.len() <= MOST_VALUE && are_printed(value.as_bytes())
}

// Whether a row with so many before it is taken, of which none has its value where it is new.
#[tactic(auto, unfolding(book_rules::specs::Limits::most_keys))]
fn takes_key(place: usize, row: &KeyRow, is_new: bool) -> bool
    ensures { (before : List KeyRowOf) → length before ≡ place → is_new ≡ not (list_any (λ other. bytes_eq other.value row.now.value) before) → result ≡ takes_key_of before row.now }
{
    place < MOST_KEYS
        && is_name(row.key.as_str())
        && is_key_value(row.value.as_str())
        && row.enabled <= 1
        && is_new
}

/// Tests the keys, and makes an index of their values.
pub(crate) fn open_keys(alloc: Global, rows: &[KeyRow]) -> Result<KeyIndex, OpenFault>
    requires order { Ascends (λ row. key_behind row.key) rows.now }
    ensures taken { OnOk result (refused_by takes_key_of rows.now ≡ None) }
    ensures index { IfOk result (λ index. Indexes rows.now (key_in index)) }
    ensures refused { IfErr result (IsFirstIn Table.Keys (refused_by takes_key_of rows.now)) }
{
    let mut values = BTreeSet::new(alloc);
    let mut index = KeyIndex::new(alloc);
    for (i, row) in rows.iter().enumerate() {
        let is_new = values.insert(row.value.as_str())?;
        if !takes_key(i, row, is_new) {
            return Err(OpenFault::BadRow(Table::Keys, i as u64));
        }
        index.enter(alloc, row.value.as_str(), row.key.as_str())?;
    }
    Ok(index)
}
