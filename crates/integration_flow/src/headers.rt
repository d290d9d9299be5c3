// The headers of an answer.
ghost use Rattle.std.specs.Prelude.{◌≡◌, ◌++◌, IfOk, OnOk};
ghost use Rattle.std.specs.List.{list_all};
ghost use Rattle.std.specs.Option.{option_map};
ghost use Rattle.gateway_answers.specs.Headers.{is_content_type as is_content_type_of, is_value_byte as is_value_byte_of, may_be_written as may_be_written_of};
ghost use Rattle.gateway_vars.specs.Meanings.{response_held};
ghost use Rattle.integration_flow.specs.Answers.{are_writable as are_writable_of};
ghost use Rattle.integration_flow.specs.Headers.{content_type as content_type_of, mapped as mapped_of, mapped_header as mapped_header_of, replaced as replaced_of, typed as typed_of, without_first as without_first_of, written_over as written_over_of};

use crate::replies::ReadReply;
use crate::values::value_of;
use api_mappings::gateway_target;
use api_model::Mapping;
use call_facts::{WireReply, header_value};
use gateway_vars::ResponseRoots;
use gw_base::{Memory, Seq, Text, same_name};
use std::alloc::Global;

#[tactic(auto, unfolding(gateway_answers::specs::Headers::is_value_byte))]
fn is_value_byte(b: u8) -> bool
    ensures { result ≡ is_value_byte_of b }
{
    (b >= 32 && b != 127) || b == 9
}

/// Whether these bytes may be a field's value: no control character but the tab is among them (RFC 9110, section 5.5).
pub fn are_value_bytes(bytes: &[u8]) -> bool
    ensures { result ≡ list_all is_value_byte_of bytes.now }
{
    bytes.iter().all(|b| is_value_byte(*b))
}

#[tactic(auto, unfolding(gateway_answers::specs::Headers::may_be_written))]
fn may_be_written(header: &(Text, Text)) -> bool
    ensures { result ≡ may_be_written_of header.now }
{
    gateway_target(header.0.as_str()).is_some() && are_value_bytes(header.1.as_str().as_bytes())
}

/// Whether each of these headers may be written.
pub fn are_writable(headers: &[(Text, Text)]) -> bool
    ensures { result ≡ are_writable_of headers.now }
{
    headers.iter().all(|header| may_be_written(header))
}

fn text(alloc: Global, from: &str) -> Result<Text, Memory>
    ensures { IfOk result (λ made. made ≡ from.now) }
{
    Ok(Text::of(String::from_str(alloc, from)?))
}

fn copy(alloc: Global, header: &(Text, Text)) -> Result<(Text, Text), Memory>
    ensures { IfOk result (λ made. made ≡ header.now) }
{
    Ok((header.0.copy(alloc)?, header.1.copy(alloc)?))
}

fn mapped_header(
    alloc: Global,
    roots: &ResponseRoots,
    reply: &ReadReply,
    mapping: &Mapping,
) -> Result<Option<(Text, Text)>, Memory>
    ensures { IfOk result (λ header. header ≡ mapped_header_of (response_held roots.now) reply.now mapping.now) }
{
    match value_of(alloc, roots, reply, &mapping.origin)? {
        Some(value) => Ok(Some((mapping.name.copy(alloc)?, value))),
        None => Ok(None),
    }
}

/// The mapped headers that have a value.
pub fn mapped(
    alloc: Global,
    roots: &ResponseRoots,
    reply: &ReadReply,
    mappings: &[Mapping],
) -> Result<Vec<(Text, Text)>, Memory>
    ensures { IfOk result (λ made. made.items ≡ mapped_of (response_held roots.now) reply.now mappings.now) }
{
    let mut made = Vec::new(alloc);
    for mapping in mappings {
        if let Some(header) = mapped_header(alloc, roots, reply, mapping)? {
            made.push(header)?;
        }
    }
    Ok(made)
}

fn is_content_type(header: &(Text, Text)) -> bool
    ensures { result ≡ is_content_type_of header.now }
{
    same_name(header.0.as_str(), "content-type")
}

fn content_type(
    alloc: Global,
    mapped: &[(Text, Text)],
    media: Option<&str>,
    reply: &WireReply,
) -> Result<Text, Memory>
    ensures { IfOk result (λ value. value ≡ content_type_of mapped.now (option_map (λ m. m.now) media.entry) reply.now) }
{
    if let Some(value) = header_value(mapped, "content-type") {
        return value.copy(alloc);
    }
    if let Some(media) = media {
        return text(alloc, media);
    }
    match header_value(reply.headers.as_slice(), "content-type") {
        Some(value) => value.copy(alloc),
        None => text(alloc, "application/json"),
    }
}

// Adds the headers, but for the first content type.
fn push_others(
    alloc: Global,
    made: &mut Vec<(Text, Text)>,
    headers: &[(Text, Text)],
) -> Result<(), Memory>
    ensures { OnOk result (made.new.items ≡ made.old.items ++ without_first_of headers.now) }
{
    let mut passed = false;
    for header in headers {
        if !passed && is_content_type(header) {
            passed = true;
        } else {
            made.push(copy(alloc, header)?)?;
        }
    }
    Ok(())
}

/// The content type, then the other mapped headers.
pub fn typed(
    alloc: Global,
    mapped: &[(Text, Text)],
    media: Option<&str>,
    reply: &WireReply,
) -> Result<Vec<(Text, Text)>, Memory>
    ensures { IfOk result (λ made. made.items ≡ typed_of mapped.now (option_map (λ m. m.now) media.entry) reply.now) }
{
    let mut made = Vec::new(alloc);
    made.push((
        text(alloc, "content-type")?,
        content_type(alloc, mapped, media, reply)?,
    ))?;
    push_others(alloc, &mut made, mapped)?;
    Ok(made)
}

// The headers, with one in the place of those of its name.
fn replaced(
    alloc: Global,
    headers: &[(Text, Text)],
    over: &(Text, Text),
) -> Result<Vec<(Text, Text)>, Memory>
    ensures { IfOk result (λ made. made.items ≡ replaced_of headers.now over.now) }
{
    let mut made = Vec::new(alloc);
    let mut stands = false;
    for header in headers {
        if !same_name(header.0.as_str(), over.0.as_str()) {
            made.push(copy(alloc, header)?)?;
        } else if !stands {
            made.push(copy(alloc, over)?)?;
            stands = true;
        }
    }
    if !stands {
        made.push(copy(alloc, over)?)?;
    }
    Ok(made)
}

/// The headers, over which these are written one after another.
pub fn written_over(
    alloc: Global,
    headers: Vec<(Text, Text)>,
    overs: &[(Text, Text)],
) -> Result<Seq<(Text, Text)>, Memory>
    ensures { IfOk result (λ made. made ≡ written_over_of headers.items overs.now) }
{
    let mut made = headers;
    for over in overs {
        made = replaced(alloc, &made, over)?;
    }
    Ok(Seq::of(made))
}
