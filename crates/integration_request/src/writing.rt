// What may be written into a request.
ghost use Rattle.std.specs.Prelude.{◌≡◌};
ghost use Rattle.integration_request.specs.Writing.{are_pairs_writable as are_pairs_writable_of, are_values_writable as are_values_writable_of, may_be_mapped as may_be_mapped_of, may_be_over as may_be_over_of};

use crate::mapping::Mapped;
use gateway_vars::Overrides;
use gw_base::Text;
use integration_flow::{are_value_bytes, are_writable};
use wire_text::PathValue;

fn are_pairs_writable(pairs: &[(Text, Text)]) -> bool
    ensures { result ≡ are_pairs_writable_of pairs.now }
{
    pairs
        .iter()
        .all(|pair| are_value_bytes(pair.1.as_str().as_bytes()))
}

fn are_values_writable(values: &[PathValue]) -> bool
    ensures { result ≡ are_values_writable_of values.now }
{
    values
        .iter()
        .all(|value| are_value_bytes(value.value.as_str().as_bytes()))
}

/// Whether what is mapped may be written.
pub fn may_be_mapped(mapped: &Mapped) -> bool
    ensures { result ≡ may_be_mapped_of mapped.now }
{
    are_writable(mapped.headers.as_slice())
        && are_pairs_writable(mapped.query.as_slice())
        && are_values_writable(mapped.path.as_slice())
}

/// Whether what a template writes over may be written.
pub fn may_be_over(overrides: &Overrides) -> bool
    ensures { result ≡ may_be_over_of overrides.now }
{
    are_writable(overrides.headers.as_slice())
        && are_pairs_writable(overrides.query.as_slice())
        && are_pairs_writable(overrides.path.as_slice())
}
