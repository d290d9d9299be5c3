// How fast a plan's keys may call.
ghost use Rattle.std.specs.Prelude.{◌≡◌, option_map};
ghost use Rattle.std.specs.Option.{option_and_then};
ghost use Rattle.plan_fields.specs.Fields.{parted_at as parted_at_of, rate_and_burst as rate_and_burst_of, throttle_of};

use crate::parting::parted_at;
use record_fields::small_number;
use usage_plans::Throttle;

// `RATE:BURST`.
fn rate_and_burst(field: &[u8]) -> Option<Throttle>
    ensures { result ≡ option_and_then rate_and_burst_of (parted_at_of 58 field.now) }
{
    let (rate, burst) = parted_at(field, b':')?;
    Some(Throttle {
        rate: small_number(rate)?,
        burst: small_number(burst)?,
    })
}

/// The throttle of a field: `-`, which is none, or `RATE:BURST`, numbers of 1 to 20 digits that fit 32 bits. `None` where the field
/// has not this form.
#[tactic(auto, unfolding(crate::specs::Fields::throttle_of))]
pub fn throttle_in(field: &[u8]) -> Option<Option<Throttle>>
    ensures { result ≡ throttle_of field.now }
{
    if field == b"-".as_slice() {
        return Some(None);
    }
    match rate_and_burst(field) {
        Some(throttle) => Some(Some(throttle)),
        None => None,
    }
}
