// Whether a connection closes behind a message.
ghost use Rattle.std.specs.Prelude.{◌≡◌, ◌==◌, ℕ, List, map, IfOk};
ghost use Rattle.std.specs.Borrow.{Bor};
ghost use Rattle.std.specs.List.{slice_split, list_all, list_any};
ghost use Rattle.gate_walk.specs.Closing.{is_blank as is_blank_of, without_front_blanks, is_close as is_close_of, asks_close as asks_close_of, closes as closes_of};

use call_facts::{Request, header_value};
use gw_base::Memory;
use std::alloc::{AllocError, Global};

/// The most messages of a connection.
const MOST_MESSAGES: u32 = 1000;

fn is_blank(b: u8) -> bool
    ensures { result ≡ is_blank_of b }
{
    b == b' ' || b == b'\t'
}

fn are_blank(bytes: &[u8]) -> bool
    ensures { result ≡ list_all is_blank_of bytes.now }
{
    bytes.iter().all(|b| is_blank(*b))
}

fn trim_front(bytes: &[u8]) -> &[u8]
    ensures { result.now ≡ without_front_blanks bytes.now }
{
    let mut rest = bytes;
    while let [b, more @ ..] = rest {
        if !is_blank(*b) {
            return rest;
        }
        rest = more;
    }
    rest
}

// Whether an option is `close`, in any case, between blanks.
fn is_close(element: &[u8]) -> bool
    ensures { result ≡ is_close_of element.now }
{
    let rest = trim_front(element);
    if rest.len() < 5 {
        return false;
    }
    rest[..5].eq_ignore_ascii_case(b"close") && are_blank(&rest[5..])
}

fn elements<'a>(alloc: Global, value: &'a [u8]) -> Result<Vec<&'a [u8]>, AllocError>
    ensures { IfOk result (λ parts. map (λ (part : Bor (List ℕ)). part.now) parts.items ≡ slice_split (λ b. b == 44) value.now) }
{
    value.split(|b| *b == b',').collect(alloc)
}

fn any_close(elements: &[&[u8]]) -> bool
    ensures { result ≡ list_any is_close_of (map (λ (part : Bor (List ℕ)). part.now) elements.now) }
{
    let mut rest = elements;
    while let [element, more @ ..] = rest {
        if is_close(element) {
            return true;
        }
        rest = more;
    }
    false
}

// Whether the first field `connection` of a request asks that the connection closes.
#[tactic(auto, unfolding(crate::specs::Closing::asks_close))]
fn asks_close(alloc: Global, request: &Request) -> Result<bool, Memory>
    ensures { IfOk result (λ asks. asks ≡ asks_close_of request.now) }
{
    match header_value(request.headers.as_slice(), "connection") {
        Some(value) => {
            let elements = elements(alloc, value.as_str().as_bytes())?;
            Ok(any_close(&elements))
        }
        None => Ok(false),
    }
}

/// Whether the connection closes behind the message of this number, counted from 1.
#[tactic(auto, unfolding(crate::specs::Closing::most_messages))]
pub fn closes(
    alloc: Global,
    number: u32,
    too_large: bool,
    request: &Request,
) -> Result<bool, Memory>
    ensures { IfOk result (λ closing. closing ≡ closes_of number too_large request.now) }
{
    let asks = asks_close(alloc, request)?;
    Ok(too_large || request.http10 || asks || number == MOST_MESSAGES)
}
