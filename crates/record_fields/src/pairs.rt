// Fields `name=value`.
ghost use Rattle.std.specs.Prelude.{◌≡◌, ◌==◌, ◌<◌, length, position, IfOk, IfSome};
ghost use Rattle.std.specs.Option.{option_map};
ghost use Rattle.record_fields.specs.Pairs.{parted as parted_of, pair_of, pairs_of};

use crate::fields::text_of;
use gw_base::{Bytes, Memory, Text};
use std::alloc::Global;

fn equals_at(field: &[u8]) -> Option<usize>
    ensures value { result ≡ position (λ b. b == 61) field.now }
    ensures bound { IfSome result (λ at. at < length field.now) }
{
    field.iter().position(|b| *b == b'=')
}

// What stands before the first `=` and behind it.
fn part(field: &[u8]) -> Option<(&[u8], &[u8])>
    ensures { option_map (λ p. (p.0.now, p.1.now)) result ≡ parted_of field.now }
{
    match equals_at(field) {
        Some(at) => Some((&field[..at], &field[at + 1..])),
        None => None,
    }
}

// A field `name=value`, both of which are texts.
fn pair_in(alloc: Global, field: &[u8]) -> Result<Option<(Text, Text)>, Memory>
    ensures { IfOk result (λ pair. pair ≡ pair_of field.now) }
{
    let Some((name, value)) = part(field) else {
        return Ok(None);
    };
    let Some(name) = text_of(alloc, name)? else {
        return Ok(None);
    };
    let Some(value) = text_of(alloc, value)? else {
        return Ok(None);
    };
    Ok(Some((name, value)))
}

/// The names and values of fields `name=value`, where each has its form.
pub fn pairs_in(alloc: Global, fields: &[Bytes]) -> Result<Option<Vec<(Text, Text)>>, Memory>
    ensures { IfOk result (λ pairs. option_map (λ v. v.items) pairs ≡ pairs_of fields.now) }
{
    let mut pairs = Vec::new(alloc);
    for field in fields {
        let Some(pair) = pair_in(alloc, field.as_slice())? else {
            return Ok(None);
        };
        pairs.push(pair)?;
    }
    Ok(Some(pairs))
}
