// The bytes of a request.
ghost use Rattle.std.specs.Prelude.{◌≡◌, ◌++◌, IfOk, OnOk};
ghost use Rattle.wire_text.specs.Messages.{header_line, header_lines, message_of, request_line};

use gw_base::{Bytes, Memory, Text};
use std::alloc::Global;

fn push_request_line(made: &mut Vec<u8>, method: &str, target: &str) -> Result<(), Memory>
    ensures { OnOk result (made.new.items ≡ made.old.items ++ request_line method.now target.now) }
{
    made.extend_from_slice(method.as_bytes())?;
    made.extend_from_slice(b" ")?;
    made.extend_from_slice(target.as_bytes())?;
    made.extend_from_slice(b" HTTP/1.1\r\n")?;
    Ok(())
}

fn push_header(made: &mut Vec<u8>, header: &(Text, Text)) -> Result<(), Memory>
    ensures { OnOk result (made.new.items ≡ made.old.items ++ header_line header.now) }
{
    made.extend_from_slice(header.0.as_str().as_bytes())?;
    made.extend_from_slice(b": ")?;
    made.extend_from_slice(header.1.as_str().as_bytes())?;
    made.extend_from_slice(b"\r\n")?;
    Ok(())
}

fn push_headers(made: &mut Vec<u8>, headers: &[(Text, Text)]) -> Result<(), Memory>
    ensures { OnOk result (made.new.items ≡ made.old.items ++ header_lines headers.now) }
{
    for header in headers {
        push_header(made, header)?;
    }
    Ok(())
}

/// The bytes of a request (RFC 9112, section 3): `METHOD TARGET HTTP/1.1`, the headers as `name: value`, an empty line, and the
/// body. What is handed in is written as it is.
pub fn message(
    alloc: Global,
    method: &str,
    target: &str,
    headers: &[(Text, Text)],
    body: &[u8],
) -> Result<Bytes, Memory>
    ensures { IfOk result (λ made. made ≡ message_of method.now target.now headers.now body.now) }
{
    let mut made = Vec::new(alloc);
    push_request_line(&mut made, method, target)?;
    push_headers(&mut made, headers)?;
    made.extend_from_slice(b"\r\n")?;
    made.extend_from_slice(body)?;
    Ok(Bytes::of(made))
}
