// Values of texts.
ghost use Rattle.std.specs.Prelude.{◌≡◌, IfOk};
ghost use Rattle.std.specs.Option.{option_map};
ghost use Rattle.std.specs.Str.Lossy.{utf8_lossy};
ghost use Rattle.std.specs.String.{string_bytes};
ghost use Rattle.vtl_values.specs.Val.{text as text_val};
ghost use Rattle.gateway_vars.specs.Values.{text_or_null, name_or_null};

use gw_base::{Memory, Name, Text};
use std::alloc::Global;
use std::rc::RcStr;
use vtl_values::Value;

/// The value of a text.
pub(crate) fn text_value(alloc: Global, text: &str) -> Result<Value, Memory>
    ensures { IfOk result (λ v. v ≡ text_val text.now) }
{
    Ok(Value::text(RcStr::from_str(alloc, text)?))
}

/// The value of a text that was made.
pub(crate) fn made_value(made: String) -> Result<Value, Memory>
    ensures { IfOk result (λ v. v ≡ text_val (string_bytes made)) }
{
    Ok(Value::text(RcStr::from_string(made)?))
}

/// The value of a text that may be wanting, which is null then.
pub(crate) fn found_value(alloc: Global, found: Option<&Text>) -> Result<Value, Memory>
    ensures { IfOk result (λ v. v ≡ text_or_null (option_map (λ t. t.now) found.entry)) }
{
    match found {
        Some(text) => text_value(alloc, text.as_str()),
        None => Ok(Value::null()),
    }
}

/// The value of a short name that may be wanting, which is null then.
pub(crate) fn name_value(alloc: Global, found: Option<&Name>) -> Result<Value, Memory>
    ensures { IfOk result (λ v. v ≡ name_or_null (option_map (λ n. n.now) found.entry)) }
{
    match found {
        Some(name) => made_value(lossy(alloc, name.as_bytes())?),
        None => Ok(Value::null()),
    }
}

/// Bytes as a text, with U+FFFD for what is no UTF-8.
pub(crate) fn lossy(alloc: Global, bytes: &[u8]) -> Result<String, Memory>
    ensures { IfOk result (λ made. string_bytes made ≡ utf8_lossy bytes.now) }
{
    Ok(String::from_utf8_lossy(alloc, bytes)?)
}
