// The headers of a request.
ghost use Rattle.std.specs.Prelude.{◌≡◌, ◌++◌, [], ◌∷◌, IfOk, OnOk, length};
ghost use Rattle.std.specs.Fmt.{decimal};
ghost use Rattle.gateway_answers.specs.Headers.{content_type as content_type_of};
ghost use Rattle.integration_request.specs.Headers.{framed as framed_of, has_type as has_type_of, host_text as host_text_of, with_type as with_type_of};

use crate::copies::{push_all, text};
use call_facts::header_value;
use gw_base::{Memory, Seq, Text};
use std::alloc::Global;
use wire_text::Destination;

#[tactic(auto, unfolding(crate::specs::Headers::has_type))]
fn has_type(headers: &[(Text, Text)]) -> bool
    ensures { result ≡ has_type_of headers.now }
{
    header_value(headers, "content-type").is_some()
}

fn content_type(alloc: Global, headers: &[(Text, Text)]) -> Result<Text, Memory>
    ensures { IfOk result (λ value. value ≡ content_type_of headers.now) }
{
    match header_value(headers, "content-type") {
        Some(value) => value.copy(alloc),
        None => text(alloc, "application/json"),
    }
}

fn push_pair(
    alloc: Global,
    made: &mut Vec<(Text, Text)>,
    name: &str,
    value: Text,
) -> Result<(), Memory>
    ensures { OnOk result (made.new.items ≡ made.old.items ++ (name.now, value) ∷ []) }
{
    made.push((text(alloc, name)?, value))?;
    Ok(())
}

/// The headers, with a content type: where none stands among them, that of the request, else JSON.
pub fn with_type(
    alloc: Global,
    asked: &[(Text, Text)],
    headers: Seq<(Text, Text)>,
) -> Result<Seq<(Text, Text)>, Memory>
    ensures { IfOk result (λ made. made ≡ with_type_of asked.now headers) }
{
    if has_type(headers.as_slice()) {
        return Ok(headers);
    }
    let mut made = headers.into_inner();
    push_pair(
        alloc,
        &mut made,
        "content-type",
        content_type(alloc, asked)?,
    )?;
    Ok(Seq::of(made))
}

fn host_text(alloc: Global, to: &Destination) -> Result<Text, Memory>
    ensures { IfOk result (λ made. made ≡ host_text_of to.now) }
{
    let mut made = String::from_str(alloc, to.host.as_str())?;
    made.push_str(":")?;
    made.push_str(to.port_text.as_str())?;
    Ok(Text::of(made))
}

fn length_text(alloc: Global, body: &[u8]) -> Result<Text, Memory>
    ensures { IfOk result (λ made. made ≡ decimal (length body.now)) }
{
    Ok(Text::of(body.len().to_string(alloc)?))
}

/// The headers between those that frame a request with this body.
pub fn framed(
    alloc: Global,
    to: &Destination,
    headers: &[(Text, Text)],
    body: &[u8],
) -> Result<Vec<(Text, Text)>, Memory>
    ensures { IfOk result (λ made. made.items ≡ framed_of to.now headers.now body.now) }
{
    let mut made = Vec::new(alloc);
    push_pair(alloc, &mut made, "host", host_text(alloc, to)?)?;
    push_all(alloc, &mut made, headers)?;
    push_pair(alloc, &mut made, "connection", text(alloc, "close")?)?;
    push_pair(
        alloc,
        &mut made,
        "content-length",
        length_text(alloc, body)?,
    )?;
    Ok(made)
}
