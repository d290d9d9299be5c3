// The bytes of an answer.
ghost use Rattle.std.specs.Prelude.{◌≡◌, ◌++◌, [], length, map, IfOk, OnOk, unwrap_or};
ghost use Rattle.std.specs.List.{flat_map};
ghost use Rattle.std.specs.Char.{to_ascii_lowercase};
ghost use Rattle.std.specs.Fmt.{decimal};
ghost use Rattle.http.specs.StatusCode.{reason_phrase};
ghost use Rattle.http_edge.specs.Answers.{status_line, header_line, closing_line, length_line, body_written, spelled};

use crate::status::is_bare;
use call_facts::Answer;
use gw_base::{Memory, Text};
use http::StatusCode;
use std::alloc::Global;

// The phrase of a status, empty where it has none.
fn phrase_of(status: u16) -> &'static str
    ensures { result.now ≡ unwrap_or (reason_phrase status) [] }
{
    match StatusCode::from_u16(status) {
        Ok(code) => code.canonical_reason().unwrap_or(""),
        Err(_) => "",
    }
}

fn put(out: &mut Vec<u8>, bytes: &[u8]) -> Result<(), Memory>
    ensures { OnOk result (out.new.items ≡ out.old.items ++ bytes.now) }
{
    match out.extend_from_slice(bytes) {
        Ok(()) => Ok(()),
        Err(_) => Err(Memory),
    }
}

fn put_number(alloc: Global, out: &mut Vec<u8>, n: u64) -> Result<(), Memory>
    ensures { OnOk result (out.new.items ≡ out.old.items ++ decimal n) }
{
    match n.to_string(alloc) {
        Ok(digits) => put(out, digits.as_bytes()),
        Err(_) => Err(Memory),
    }
}

fn put_lower(out: &mut Vec<u8>, name: &[u8]) -> Result<(), Memory>
    ensures { OnOk result (out.new.items ≡ out.old.items ++ map to_ascii_lowercase name.now) }
{
    for b in name {
        if out.push(b.to_ascii_lowercase()).is_err() {
            return Err(Memory);
        }
    }
    Ok(())
}

fn put_status(alloc: Global, out: &mut Vec<u8>, status: u16) -> Result<(), Memory>
    ensures { OnOk result (out.new.items ≡ out.old.items ++ status_line status) }
{
    put(out, b"HTTP/1.1 ")?;
    put_number(alloc, out, status as u64)?;
    put(out, b" ")?;
    put(out, phrase_of(status).as_bytes())?;
    put(out, b"\r\n")
}

fn put_header(out: &mut Vec<u8>, header: &(Text, Text)) -> Result<(), Memory>
    ensures { OnOk result (out.new.items ≡ out.old.items ++ header_line header.now) }
{
    put_lower(out, header.0.as_str().as_bytes())?;
    put(out, b": ")?;
    put(out, header.1.as_str().as_bytes())?;
    put(out, b"\r\n")
}

fn put_headers(out: &mut Vec<u8>, headers: &[(Text, Text)]) -> Result<(), Memory>
    ensures { OnOk result (out.new.items ≡ out.old.items ++ flat_map header_line headers.now) }
{
    for header in headers {
        put_header(out, header)?;
    }
    Ok(())
}

fn put_closing(out: &mut Vec<u8>, closing: bool) -> Result<(), Memory>
    ensures { OnOk result (out.new.items ≡ out.old.items ++ closing_line closing) }
{
    if closing {
        return put(out, b"connection: close\r\n");
    }
    Ok(())
}

fn put_length(alloc: Global, out: &mut Vec<u8>, status: u16, n: u64) -> Result<(), Memory>
    ensures { OnOk result (out.new.items ≡ out.old.items ++ length_line status n) }
{
    if is_bare(status) {
        return Ok(());
    }
    put(out, b"content-length: ")?;
    put_number(alloc, out, n)?;
    put(out, b"\r\n")
}

fn put_body(out: &mut Vec<u8>, head_only: bool, status: u16, body: &[u8]) -> Result<(), Memory>
    ensures { OnOk result (out.new.items ≡ out.old.items ++ body_written head_only status body.now) }
{
    if head_only || is_bare(status) {
        return Ok(());
    }
    put(out, body)
}

/// The bytes of an answer: `HTTP/1.1 STATUS PHRASE`, its headers in their order with names in lower case,
/// `connection: close` where the connection closes, `content-length`, an empty line, the body. The answer to a HEAD
/// request is its head alone, with the length that the body has; one of status 204 or 304 has no length and no body (RFC
/// 9110, sections 8.6 and 9.3.2; RFC 9112, section 6.3). An unknown status has an empty phrase.
pub fn spell_answer(
    alloc: Global,
    answer: &Answer,
    head_only: bool,
    closing: bool,
) -> Result<Vec<u8>, Memory>
    ensures { IfOk result (λ bytes. bytes.items ≡ spelled answer.now head_only closing) }
{
    let mut out = Vec::new(alloc);
    put_status(alloc, &mut out, answer.status)?;
    put_headers(&mut out, answer.headers.as_slice())?;
    put_closing(&mut out, closing)?;
    let body = answer.body.as_slice();
    put_length(alloc, &mut out, answer.status, body.len() as u64)?;
    put(&mut out, b"\r\n")?;
    put_body(&mut out, head_only, answer.status, body)?;
    Ok(out)
}
