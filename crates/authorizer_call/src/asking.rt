// The request that asks an authorizer.
ghost use Rattle.std.specs.Prelude.{◌≡◌, ◌++◌, [], ◌∷◌, length, IfOk, OnOk};
ghost use Rattle.std.specs.Fmt.{decimal};
ghost use Rattle.authorizer_call.specs.Requests.{authorizer_request_of, headers_of, host_text as host_text_of, place_of, question_of, sent_to as sent_to_of};

use api_mappings::read_uri;
use api_parts::Authorizer;
use backend_core::WireRequest;
use gateway_vars::json_string;
use gw_base::{Memory, Text};
use std::alloc::Global;
use wire_text::{Destination, destination, message};

// The body: the token and the name of the call, each as a JSON string.
#[tactic(auto, unfolding(crate::specs::Requests::question_of))]
fn question(alloc: Global, token: &str, arn: &str) -> Result<Text, Memory>
    ensures { IfOk result (λ body. body ≡ question_of token.now arn.now) }
{
    let mut body = String::from_str(alloc, "{\"type\":\"TOKEN\",\"authorizationToken\":")?;
    let token = json_string(alloc, token)?;
    body.push_str(token.as_str())?;
    body.push_str(",\"methodArn\":")?;
    let name = json_string(alloc, arn)?;
    body.push_str(name.as_str())?;
    body.push_str("}")?;
    Ok(Text::of(body))
}

fn host_text(alloc: Global, to: &Destination) -> Result<Text, Memory>
    ensures { IfOk result (λ made. made ≡ host_text_of to.now) }
{
    let mut made = String::from_str(alloc, to.host.as_str())?;
    made.push_str(":")?;
    made.push_str(to.port_text.as_str())?;
    Ok(Text::of(made))
}

fn text(alloc: Global, from: &str) -> Result<Text, Memory>
    ensures { IfOk result (λ made. made ≡ from.now) }
{
    Ok(Text::of(String::from_str(alloc, from)?))
}

fn length_text(alloc: Global, body: &str) -> Result<Text, Memory>
    ensures { IfOk result (λ made. made ≡ decimal (length body.now)) }
{
    Ok(Text::of(body.len().to_string(alloc)?))
}

fn push_header(
    alloc: Global,
    made: &mut Vec<(Text, Text)>,
    name: &str,
    value: Text,
) -> Result<(), Memory>
    ensures { OnOk result (made.new.items ≡ made.old.items ++ (name.now, value) ∷ []) }
{
    made.push((text(alloc, name)?, value))?;
    Ok(())
}

fn headers(alloc: Global, to: &Destination, body: &str) -> Result<Vec<(Text, Text)>, Memory>
    ensures { IfOk result (λ made. made.items ≡ headers_of to.now body.now) }
{
    let mut made = Vec::new(alloc);
    push_header(alloc, &mut made, "host", host_text(alloc, to)?)?;
    push_header(
        alloc,
        &mut made,
        "content-type",
        text(alloc, "application/json")?,
    )?;
    push_header(alloc, &mut made, "connection", text(alloc, "close")?)?;
    push_header(
        alloc,
        &mut made,
        "content-length",
        length_text(alloc, body)?,
    )?;
    Ok(made)
}

// Where the authorizer of this uri is asked.
#[tactic(auto, unfolding(crate::specs::Requests::place_of))]
fn place(alloc: Global, uri: &str) -> Result<Option<Destination>, Memory>
    ensures { IfOk result (λ to. to ≡ place_of uri.now) }
{
    match read_uri(alloc, uri)? {
        Some(uri) => destination(alloc, &uri, &[], &[]),
        None => Ok(None),
    }
}

// A POST there.
fn sent_to(
    alloc: Global,
    timeout: u32,
    to: Destination,
    headers: &[(Text, Text)],
    body: &str,
) -> Result<WireRequest, Memory>
    ensures { IfOk result (λ sent. sent ≡ sent_to_of timeout to headers.now body.now) }
{
    let bytes = message(alloc, "POST", to.path.as_str(), headers, body.as_bytes())?;
    let Destination {
        host,
        port,
        port_text: _,
        path: _,
    } = to;
    Ok(WireRequest {
        host,
        port,
        timeout,
        bytes,
    })
}

/// The request that asks an authorizer about a token (API Gateway Developer Guide, "Input to an API Gateway Lambda authorizer"):
/// a POST to its uri, which is awaited for the authorizer's time, with the token and the name of the call as JSON strings. Nothing
/// else of the call goes on. `None` just where the uri leads nowhere: it is no `http://HOST:PORT/PATH`, or has stage variables or
/// placeholders. A definition is refused whose authorizer has such a uri.
#[tactic(auto, unfolding(crate::specs::Requests::authorizer_request_of))]
pub fn authorizer_request(
    alloc: Global,
    authorizer: &Authorizer,
    token: &str,
    arn: &str,
) -> Result<Option<WireRequest>, Memory>
    ensures { IfOk result (λ sent. sent ≡ authorizer_request_of authorizer.now token.now arn.now) }
{
    let Some(to) = place(alloc, authorizer.uri.as_str())? else {
        return Ok(None);
    };
    let body = question(alloc, token, arn)?;
    let headers = headers(alloc, &to, body.as_str())?;
    let sent = sent_to(alloc, authorizer.timeout, to, &headers, body.as_str())?;
    Ok(Some(sent))
}
