// The texts of a head's parts.
ghost use Rattle.std.specs.Prelude.{◌≡◌, length, map, All, IfOk};
ghost use Rattle.std.specs.Str.Lossy.{utf8_lossy};
ghost use Rattle.httparse.specs.Spans.{IsHeaderWithin, header_bytes};
ghost use Rattle.http_edge.specs.Texts.{header_texts};

use gw_base::{Memory, Seq, Text};
use httparse::spans::HeaderSpan;
use std::alloc::Global;

/// The text of bytes, with U+FFFD for what is no UTF-8.
pub fn lossy(alloc: Global, bytes: &[u8]) -> Result<Text, Memory>
    ensures { IfOk result (λ t. t ≡ utf8_lossy bytes.now) }
{
    match String::from_utf8_lossy(alloc, bytes) {
        Ok(text) => Ok(Text::of(text)),
        Err(_) => Err(Memory),
    }
}

/// The texts of the fields' names and values. The spans are those of the fields in `buf`.
pub fn headers(
    alloc: Global,
    buf: &[u8],
    fields: &[HeaderSpan],
) -> Result<Seq<(Text, Text)>, Memory>
    requires { All (IsHeaderWithin (length buf.now)) fields.now }
    ensures { IfOk result (λ s. s ≡ map header_texts (map (header_bytes buf.now) fields.now)) }
{
    let mut out = Vec::new(alloc);
    for field in fields {
        let name = lossy(alloc, field.name.of(buf))?;
        let value = lossy(alloc, field.value.of(buf))?;
        out.push((name, value))?;
    }
    Ok(Seq::of(out))
}
