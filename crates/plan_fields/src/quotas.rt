// How often a plan's keys may call.
ghost use Rattle.std.specs.Prelude.{◌≡◌};
ghost use Rattle.std.specs.Option.{option_and_then};
ghost use Rattle.plan_fields.specs.Fields.{kind_of as kind_of_name, limit_and_more, offset_and_kind as offset_and_kind_of, parted_at as parted_at_of, quota_of};

use crate::parting::parted_at;
use record_fields::number;
use usage_plans::{PeriodKind, Quota};

#[tactic(auto, unfolding(crate::specs::Fields::kind_of))]
fn kind_of(name: &[u8]) -> Option<PeriodKind>
    ensures { result ≡ kind_of_name name.now }
{
    if name == b"DAY".as_slice() {
        return Some(PeriodKind::Day);
    }
    if name == b"WEEK".as_slice() {
        return Some(PeriodKind::Week);
    }
    if name == b"MONTH".as_slice() {
        return Some(PeriodKind::Month);
    }
    None
}

// `OFFSET:KIND` behind a limit.
fn offset_and_kind(limit: u64, field: &[u8]) -> Option<Quota>
    ensures { result ≡ option_and_then (offset_and_kind_of limit) (parted_at_of 58 field.now) }
{
    let (offset, kind) = parted_at(field, b':')?;
    Some(Quota {
        limit,
        offset: number(offset)?,
        kind: kind_of(kind)?,
    })
}

// `LIMIT:OFFSET:KIND`.
fn limit_offset_and_kind(field: &[u8]) -> Option<Quota>
    ensures { result ≡ option_and_then limit_and_more (parted_at_of 58 field.now) }
{
    let (limit, more) = parted_at(field, b':')?;
    offset_and_kind(number(limit)?, more)
}

/// The quota of a field: `-`, which is none, or `LIMIT:OFFSET:KIND`, numbers of 1 to 20 digits that fit 64 bits and DAY, WEEK or MONTH.
/// `None` where the field has not this form.
#[tactic(auto, unfolding(crate::specs::Fields::quota_of))]
pub fn quota_in(field: &[u8]) -> Option<Option<Quota>>
    ensures { result ≡ quota_of field.now }
{
    if field == b"-".as_slice() {
        return Some(None);
    }
    match limit_offset_and_kind(field) {
        Some(quota) => Some(Some(quota)),
        None => None,
    }
}
