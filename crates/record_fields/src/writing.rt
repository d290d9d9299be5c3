// How fields are written.
ghost use Rattle.std.specs.Prelude.{◌≡◌, ◌++◌, IfOk, OnOk};
ghost use Rattle.std.specs.String.{string_bytes};
ghost use Rattle.record_fields.specs.Writing.{coded as coded_of, field as field_of};

use crate::coding::CODED;
use gw_base::{Memory, Text};
use percent_encoding::percent_encode;
use std::alloc::Global;

/// Appends bytes to a line: each outside 33 to 126, and `%`, is coded.
pub fn append_coded(text: &mut String, bytes: &[u8]) -> Result<(), Memory>
    ensures { OnOk result (string_bytes text.new ≡ string_bytes text.old ++ coded_of bytes.now) }
{
    percent_encode(bytes, CODED).append_to(text)?;
    Ok(())
}

/// Bytes in a line: each outside 33 to 126, and `%`, is coded.
pub fn encode(alloc: Global, bytes: &[u8]) -> Result<Text, Memory>
    ensures { IfOk result (λ text. text ≡ coded_of bytes.now) }
{
    let mut text = String::with_capacity(alloc, bytes.len())?;
    append_coded(&mut text, bytes)?;
    Ok(Text::of(text))
}

/// Bytes as a field of a line; of no bytes it is `~`.
pub fn encode_field(alloc: Global, bytes: &[u8]) -> Result<Text, Memory>
    ensures { IfOk result (λ text. text ≡ field_of bytes.now) }
{
    match bytes {
        [] => Ok(Text::of(String::from_str(alloc, "~")?)),
        [_, ..] => encode(alloc, bytes),
    }
}
