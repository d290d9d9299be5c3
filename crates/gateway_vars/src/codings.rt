// The codings of `$util`.
ghost use Rattle.std.specs.Prelude.{◌≡◌, IfOk};
ghost use Rattle.std.specs.Option.{option_map};
ghost use Rattle.std.specs.String.{string_bytes};
ghost use Rattle.gateway_vars.specs.Codings.{url_encoded, url_decoded, base64_encoded, base64_decoded, text_in};

use base64::DecodeAllocError;
use base64::engine::general_purpose::STANDARD;
use call_facts::decode_form;
use gw_base::Memory;
use std::alloc::Global;

/// `$util.urlEncode` of a text: letters, digits and `*-._` stay, a space becomes `+`, any other byte `%` and two digits.
pub fn url_encode(alloc: Global, text: &str) -> Result<String, Memory>
    ensures { IfOk result (λ made. string_bytes made ≡ url_encoded text.now) }
{
    let mut made = String::new(alloc);
    for piece in form_urlencoded::byte_serialize(text.as_bytes()) {
        made.push_str(piece)?;
    }
    Ok(made)
}

/// `$util.urlDecode` of a text: `+` is a space, and bytes that are no UTF-8 become U+FFFD.
pub fn url_decode(alloc: Global, text: &str) -> Result<String, Memory>
    ensures { IfOk result (λ made. string_bytes made ≡ url_decoded text.now) }
{
    decode_form(alloc, text.as_bytes())
}

/// `$util.base64Encode` of a text, with padding.
pub fn base64_encode(alloc: Global, text: &str) -> Result<String, Memory>
    ensures { IfOk result (λ made. string_bytes made ≡ base64_encoded text.now) }
{
    Ok(STANDARD.encode(alloc, text.as_bytes())?)
}

// The text that these bytes are.
fn text_in(bytes: Vec<u8>) -> Option<String>
    ensures { option_map string_bytes result ≡ text_in bytes.items }
{
    match String::from_utf8(bytes) {
        Ok(text) => Some(text),
        Err(_) => None,
    }
}

/// `$util.base64Decode` of a text; none where it isn't the base64 of a text in UTF-8, padding and all.
pub fn base64_decode(alloc: Global, text: &str) -> Result<Option<String>, Memory>
    ensures { IfOk result (λ found. option_map string_bytes found ≡ base64_decoded text.now) }
{
    match STANDARD.decode(alloc, text.as_bytes()) {
        Ok(bytes) => Ok(text_in(bytes)),
        Err(DecodeAllocError::DecodeError(_)) => Ok(None),
        Err(DecodeAllocError::OutOfMemory) => Err(Memory),
    }
}
