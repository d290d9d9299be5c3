// Whether no two values of a list are the same.
ghost use Rattle.std.specs.Prelude.{◌≡◌, ◌≤◌, length, map, IfOk};
ghost use Rattle.json_subset.specs.Tree.{trees_of};
ghost use Rattle.json_subset.specs.Nodes.{AllBelow};
ghost use Rattle.json_values.specs.Values.{AreSound, plain_of};
ghost use Rattle.json_distinct.specs.Distinct as says;

use crate::codes::code_of;
use crate::once::are_once_named;
use crate::pairs::are_distinct_by_pairs;
use crate::seen::{is_seen, none_seen, see};
use gw_base::Memory;
use json_values::Value;
use std::alloc::Global;

/// The most values that are compared pair by pair where they might be looked up.
const FEW: usize = 16;

/// Whether no two of these are the same. Linear in the values, times the logarithm of how many there are; quadratic
/// where some object among them repeats a name, which none of a document does.
///
/// # Errors
///
/// [`Memory`] where memory is wanting.
pub fn are_distinct(alloc: Global, values: &[Value], ids: &[usize]) -> Result<bool, Memory>
    requires sound { AreSound values.now }
    requires below { AllBelow (length values.now) ids.now }
    ensures { IfOk result (λ b. b ≡ says.are_distinct (trees_of (map (plain_of values.now) ids.now))) }
{
    if ids.len() <= FEW || !are_once_named(values, values.len(), ids) {
        Ok(are_distinct_by_pairs(values, ids))
    } else {
        are_distinct_by_codes(alloc, values, ids)
    }
}

// From the last value on, each is looked up among those behind it.
fn are_distinct_by_codes(alloc: Global, values: &[Value], ids: &[usize]) -> Result<bool, Memory>
    requires sound { AreSound values.now }
    requires below { AllBelow (length values.now) ids.now }
    requires once { says.AreOnceNamed (trees_of (map (plain_of values.now) ids.now)) }
    ensures { IfOk result (λ b. b ≡ says.are_distinct (trees_of (map (plain_of values.now) ids.now))) }
{
    let mut seen = none_seen(alloc);
    let mut left = ids.len();
    while left > 0 {
        left -= 1;
        let k = ids[left];
        let code = code_of(values, k);
        if is_seen(values, k, code, &seen) {
            return Ok(false);
        }
        see(values, k, code, &mut seen)?;
    }
    Ok(true)
}
