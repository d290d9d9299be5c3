// What is passed on.
ghost use Rattle.std.specs.Prelude.{◌≡◌, ◌++◌, IfOk, OnOk, map};
ghost use Rattle.wire_text.specs.Passing.{content_type as content_type_of, held_back, is_among as is_among_of, is_content_type as is_content_type_of, passed as passed_of, passed_on_of, proxied, typed as typed_of, without_first as without_first_of};

use call_facts::{Answer, WireReply, header_value};
use gw_base::{Memory, Seq, Text, lower, same_name};
use std::alloc::Global;

/// The names of headers that concern one connection (RFC 9110, section 7.6.1), and the gateway's own.
const HELD_BACK: [&str; 11] = [
    "host",
    "connection",
    "keep-alive",
    "proxy-connection",
    "transfer-encoding",
    "te",
    "trailer",
    "upgrade",
    "expect",
    "content-length",
    "x-gateway-cause",
];

fn is_among(names: &[&str], name: &str) -> bool
    ensures { result ≡ is_among_of (map (λ n. n.now) names.now) name.now }
{
    for other in names {
        if same_name(name, other) {
            return true;
        }
    }
    false
}

fn is_held_back(name: &str) -> bool
    ensures { result ≡ is_among_of held_back name.now }
{
    is_among(&HELD_BACK, name)
}

fn passed(alloc: Global, header: &(Text, Text)) -> Result<Option<(Text, Text)>, Memory>
    ensures { IfOk result (λ made. made ≡ passed_of header.now) }
{
    if is_held_back(header.0.as_str()) {
        return Ok(None);
    }
    let name = Text::of(lower(alloc, header.0.as_str())?);
    Ok(Some((name, header.1.copy(alloc)?)))
}

/// The headers that go on, in their order and with their names in lower case; those that concern one connection (RFC 9110,
/// section 7.6.1) or are the gateway's own stay behind.
pub fn passed_on(alloc: Global, headers: &[(Text, Text)]) -> Result<Vec<(Text, Text)>, Memory>
    ensures { IfOk result (λ made. made.items ≡ passed_on_of headers.now) }
{
    let mut made = Vec::new(alloc);
    for header in headers {
        if let Some(header) = passed(alloc, header)? {
            made.push(header)?;
        }
    }
    Ok(made)
}

fn text(alloc: Global, from: &str) -> Result<Text, Memory>
    ensures { IfOk result (λ made. made ≡ from.now) }
{
    Ok(Text::of(String::from_str(alloc, from)?))
}

fn copy(alloc: Global, header: &(Text, Text)) -> Result<(Text, Text), Memory>
    ensures { IfOk result (λ made. made ≡ header.now) }
{
    Ok((header.0.copy(alloc)?, header.1.copy(alloc)?))
}

fn is_content_type(header: &(Text, Text)) -> bool
    ensures { result ≡ is_content_type_of header.now }
{
    same_name(header.0.as_str(), "content-type")
}

fn content_type(alloc: Global, headers: &[(Text, Text)]) -> Result<Text, Memory>
    ensures { IfOk result (λ made. made ≡ content_type_of headers.now) }
{
    match header_value(headers, "content-type") {
        Some(value) => value.copy(alloc),
        None => text(alloc, "application/json"),
    }
}

// Adds the headers, but for the first content type.
fn push_others(
    alloc: Global,
    made: &mut Vec<(Text, Text)>,
    headers: &[(Text, Text)],
) -> Result<(), Memory>
    ensures { OnOk result (made.new.items ≡ made.old.items ++ without_first_of headers.now) }
{
    let mut passed = false;
    for header in headers {
        if !passed && is_content_type(header) {
            passed = true;
        } else {
            made.push(copy(alloc, header)?)?;
        }
    }
    Ok(())
}

// The content type, then the others.
fn typed(alloc: Global, headers: &[(Text, Text)]) -> Result<Vec<(Text, Text)>, Memory>
    ensures { IfOk result (λ made. made.items ≡ typed_of headers.now) }
{
    let mut made = Vec::new(alloc);
    made.push((text(alloc, "content-type")?, content_type(alloc, headers)?))?;
    push_others(alloc, &mut made, headers)?;
    Ok(made)
}

/// The answer that passes a backend's reply on: its status, its headers that go on with the first content type in front (JSON
/// where it has none), and its body.
pub fn proxy_answer(alloc: Global, reply: &WireReply) -> Result<Answer, Memory>
    ensures { IfOk result (λ answer. answer ≡ proxied reply.now) }
{
    let headers = passed_on(alloc, reply.headers.as_slice())?;
    Ok(Answer {
        status: reply.status,
        headers: Seq::of(typed(alloc, &headers)?),
        body: reply.body.copy(alloc)?,
    })
}
