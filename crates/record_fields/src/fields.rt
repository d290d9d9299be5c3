// Fields, and what they stand for.
ghost use Rattle.std.specs.Prelude.{◌≡◌, IfOk};
ghost use Rattle.std.specs.List.{list_all};
ghost use Rattle.std.specs.Char.{is_digit as is_digit_of};
ghost use Rattle.std.specs.Option.{option_map};
ghost use Rattle.record_fields.specs.Coding.{is_graphic as is_graphic_of, begins_hex as begins_hex_of, are_escapes as are_escapes_of, decoded as decoded_of, fields_of, text_of as text_of_field};

use gw_base::{Bytes, Text};
use percent_encoding::percent_decode;
use std::alloc::{AllocError, Global};

/// As many fields as most lines have; where a line has more, their vector grows.
const FEW_FIELDS: usize = 8;

fn is_hex(b: u8) -> bool
    ensures { result ≡ is_digit_of b 16 }
{
    b.is_ascii_hexdigit()
}

fn are_graphic(field: &[u8]) -> bool
    ensures { result ≡ list_all is_graphic_of field.now }
{
    field.iter().all(|b| 33 <= *b && *b <= 126)
}

fn begins_hex(bytes: &[u8]) -> bool
    ensures { result ≡ begins_hex_of bytes.now }
{
    match bytes {
        [high, low, ..] => is_hex(*high) && is_hex(*low),
        _ => false,
    }
}

fn are_escapes(field: &[u8]) -> bool
    ensures { result ≡ are_escapes_of field.now }
{
    let mut rest = field;
    while let [b, after @ ..] = rest {
        if *b == b'%' && !begins_hex(after) {
            return false;
        }
        rest = after;
    }
    true
}

// What a field stands for, where it has its form.
#[tactic(auto, unfolding(crate::specs::Coding::decoded))]
fn decode(alloc: Global, field: &[u8]) -> Result<Option<Bytes>, AllocError>
    ensures { IfOk result (λ bytes. bytes ≡ decoded_of field.now) }
{
    if field == b"~".as_slice() {
        return Ok(Some(Bytes::of(Vec::new(alloc))));
    }
    if field.is_empty() || !are_graphic(field) || !are_escapes(field) {
        return Ok(None);
    }
    let mut bytes = Vec::with_capacity(alloc, field.len())?;
    percent_decode(field).append_to(&mut bytes)?;
    Ok(Some(Bytes::of(bytes)))
}

/// What the fields of a line stand for, where each has its form.
pub fn fields_in(alloc: Global, line: &[u8]) -> Result<Option<Vec<Bytes>>, AllocError>
    ensures { IfOk result (λ fields. option_map (λ v. v.items) fields ≡ fields_of line.now) }
{
    let mut fields = Vec::with_capacity(alloc, FEW_FIELDS)?;
    for part in line.split(|b| *b == b' ') {
        let Some(field) = decode(alloc, part)? else {
            return Ok(None);
        };
        fields.push(field)?;
    }
    Ok(Some(fields))
}

/// The text of a field, where it is UTF-8.
pub fn text_of(alloc: Global, field: &[u8]) -> Result<Option<Text>, AllocError>
    ensures { IfOk result (λ text. text ≡ text_of_field field.now) }
{
    match str::from_utf8(field) {
        Ok(text) => Ok(Some(Text::of(String::from_str(alloc, text)?))),
        Err(_) => Ok(None),
    }
}
