// Comparing pair by pair.
ghost use Rattle.std.specs.Prelude.{◌≡◌, ◌<◌, length, map};
ghost use Rattle.json_subset.specs.Tree.{trees_of};
ghost use Rattle.json_subset.specs.Nodes.{AllBelow};
ghost use Rattle.json_values.specs.Values.{AreSound, plain_of};
ghost use Rattle.json_distinct.specs.Distinct as says;

use json_values::{Value, same_value};

/// Whether a value is the same as one of these.
pub fn is_in(values: &[Value], k: usize, ids: &[usize]) -> bool
    requires sound { AreSound values.now }
    requires stands { k < length values.now }
    requires below { AllBelow (length values.now) ids.now }
    ensures { result ≡ says.is_in (plain_of values.now k) (trees_of (map (plain_of values.now) ids.now)) }
{
    for id in ids {
        if same_value(values, k, values, *id) {
            return true;
        }
    }
    false
}

/// Whether no two of these are the same; each is compared with all behind it.
pub fn are_distinct_by_pairs(values: &[Value], ids: &[usize]) -> bool
    requires sound { AreSound values.now }
    requires below { AllBelow (length values.now) ids.now }
    ensures { result ≡ says.are_distinct (trees_of (map (plain_of values.now) ids.now)) }
{
    let mut ids = ids;
    loop {
        match ids {
            [] => return true,
            [id, more @ ..] => {
                if is_in(values, *id, more) {
                    return false;
                }
                ids = more;
            }
        }
    }
}
