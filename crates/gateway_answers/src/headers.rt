// The headers of a gateway response.
ghost use Rattle.std.specs.Prelude.{◌≡◌, ◌++◌, IfOk, OnOk};
ghost use Rattle.std.specs.List.{list_all};
ghost use Rattle.gateway_answers.specs.Headers.{content_type as content_type_of, given as given_of, given_header as given_header_of, headers_of as headers_of_kind, if_written as if_written_of, is_content_type as is_content_type_of, is_value_byte as is_value_byte_of, may_be_written as may_be_written_of, others as others_of};

use crate::values::value_of;
use api_mappings::gateway_target;
use api_model::Origin;
use call_facts::{Kind, header_value};
use gateway_vars::FailureRoots;
use gw_base::{Memory, Seq, Text, same_name};
use std::alloc::Global;

#[tactic(auto, unfolding(crate::specs::Headers::is_value_byte))]
fn is_value_byte(b: u8) -> bool
    ensures { result ≡ is_value_byte_of b }
{
    (b >= 32 && b != 127) || b == 9
}

fn are_value_bytes(bytes: &[u8]) -> bool
    ensures { result ≡ list_all is_value_byte_of bytes.now }
{
    bytes.iter().all(|b| is_value_byte(*b))
}

#[tactic(auto, unfolding(crate::specs::Headers::may_be_written))]
fn may_be_written(name: &str, value: &str) -> bool
    ensures { result ≡ may_be_written_of (name.now, value.now) }
{
    gateway_target(name).is_some() && are_value_bytes(value.as_bytes())
}

fn text(alloc: Global, from: &str) -> Result<Text, Memory>
    ensures { IfOk result (λ made. made ≡ from.now) }
{
    Ok(Text::of(String::from_str(alloc, from)?))
}

// A header of this name, where there is a value that may be written.
fn if_written(
    alloc: Global,
    name: &str,
    value: Option<Text>,
) -> Result<Option<(Text, Text)>, Memory>
    ensures { IfOk result (λ header. header ≡ if_written_of name.now value) }
{
    let Some(value) = value else {
        return Ok(None);
    };
    if may_be_written(name, value.as_str()) {
        Ok(Some((text(alloc, name)?, value)))
    } else {
        Ok(None)
    }
}

fn given_header(
    alloc: Global,
    roots: &FailureRoots,
    header: &(Text, Origin),
) -> Result<Option<(Text, Text)>, Memory>
    ensures { IfOk result (λ given. given ≡ given_header_of roots.now header.now) }
{
    let value = value_of(alloc, roots, &header.1)?;
    if_written(alloc, header.0.as_str(), value)
}

/// The headers of a rule that have a value and may be written.
pub(crate) fn given(
    alloc: Global,
    roots: &FailureRoots,
    headers: &[(Text, Origin)],
) -> Result<Vec<(Text, Text)>, Memory>
    ensures { IfOk result (λ made. made.items ≡ given_of roots.now headers.now) }
{
    let mut made = Vec::new(alloc);
    for header in headers {
        if let Some(header) = given_header(alloc, roots, header)? {
            made.push(header)?;
        }
    }
    Ok(made)
}

fn is_content_type(header: &(Text, Text)) -> bool
    ensures { result ≡ is_content_type_of header.now }
{
    same_name(header.0.as_str(), "content-type")
}

fn content_type(alloc: Global, headers: &[(Text, Text)]) -> Result<Text, Memory>
    ensures { IfOk result (λ value. value ≡ content_type_of headers.now) }
{
    match header_value(headers, "content-type") {
        Some(value) => value.copy(alloc),
        None => text(alloc, "application/json"),
    }
}

// Adds the headers, but for each content type.
fn push_others(
    alloc: Global,
    made: &mut Vec<(Text, Text)>,
    headers: &[(Text, Text)],
) -> Result<(), Memory>
    ensures { OnOk result (made.new.items ≡ made.old.items ++ others_of headers.now) }
{
    for header in headers {
        if !is_content_type(header) {
            made.push((header.0.copy(alloc)?, header.1.copy(alloc)?))?;
        }
    }
    Ok(())
}

/// The headers of a gateway response of this kind, where these are given.
pub(crate) fn headers_of(
    alloc: Global,
    kind: Kind,
    given: &[(Text, Text)],
) -> Result<Seq<(Text, Text)>, Memory>
    ensures { IfOk result (λ made. made ≡ headers_of_kind kind given.now) }
{
    let mut made = Vec::new(alloc);
    made.push((text(alloc, "content-type")?, content_type(alloc, given)?))?;
    push_others(alloc, &mut made, given)?;
    let cause = Text::of(kind.to_string(alloc)?);
    made.push((text(alloc, "x-gateway-cause")?, cause))?;
    Ok(Seq::of(made))
}
