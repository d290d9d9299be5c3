// Answers where no request could be read, or where a request could not be carried through.
ghost use Rattle.std.specs.Prelude.{◌≡◌, Some, None};
ghost use Rattle.std.specs.Option.{option_map};
ghost use Rattle.http_edge.specs.Answers.{edge_bytes, edge_status, spelled};

use http_framing::EdgeFault;

// The answer of status 400.
fn bad_request() -> &'static [u8]
    ensures { result.now ≡ edge_bytes 400 }
{
    b"HTTP/1.1 400 Bad Request\r\nconnection: close\r\ncontent-length: 0\r\n\r\n"
}

// The answer of status 431.
fn head_too_large() -> &'static [u8]
    ensures { result.now ≡ edge_bytes 431 }
{
    b"HTTP/1.1 431 Request Header Fields Too Large\r\nconnection: close\r\ncontent-length: 0\r\n\r\n"
}

/// The bytes of the answer to a connection on which no request could be read, behind which it closes: 400 for `BadHead`
/// and `BadChunk`, 431 for `HeadTooLong`. Other faults are not answered. Takes no memory.
pub fn edge_answer(fault: EdgeFault) -> Option<&'static [u8]>
    ensures { option_map (λ bytes. bytes.now) result ≡ option_map edge_bytes (edge_status fault) }
{
    match fault {
        EdgeFault::BadHead => Some(bad_request()),
        EdgeFault::BadChunk => Some(bad_request()),
        EdgeFault::HeadTooLong => Some(head_too_large()),
        _ => None,
    }
}

/// The bytes of the answer of status 503, behind which the connection closes: for a request that is refused since the
/// session is full. Takes no memory.
pub fn busy_answer() -> &'static [u8]
    ensures { result.now ≡ edge_bytes 503 }
{
    b"HTTP/1.1 503 Service Unavailable\r\nconnection: close\r\ncontent-length: 0\r\n\r\n"
}
