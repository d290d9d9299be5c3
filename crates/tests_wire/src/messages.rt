use crate::message_tables::{CHUNKED, CHUNKS, HEADS, LIMITS, REPLIES, WRITTEN};
use call_facts::Answer;
use gw_base::{Bytes, MemSource, Seq, Text};
use http_edge::{
    Buffer, EdgeFault, Incoming, busy_answer, edge_answer, next_message, next_reply, spell_answer,
};
use std::alloc::Global;
use std::test::Fail;

const NO_FAULT: u32 = u32::MAX;

fn source(alloc: Global, bytes: &[u8], step: usize, failing: u32) -> Result<MemSource, Fail> {
    let bytes = Vec::from_slice(alloc, bytes)?;
    let fails = Vec::from_slice(alloc, &[failing])?;
    Ok(MemSource::new(bytes, step.max(1), fails))
}

// What a message is, in a word: its body, `too large`, `end` or the fault.
fn told(alloc: Global, incoming: Result<Incoming, EdgeFault>) -> Result<String, Fail> {
    match incoming {
        Ok(Incoming::Whole(request)) => {
            Ok(String::from_utf8_lossy(alloc, request.body.as_slice())?)
        }
        Ok(Incoming::TooLarge(_request)) => Ok(String::from_str(alloc, "too large")?),
        Ok(Incoming::End) => Ok(String::from_str(alloc, "end")?),
        Err(fault) => Ok(format!(in alloc; "{fault:?}")?),
    }
}

fn first(alloc: Global, bytes: &[u8], step: usize) -> Result<String, Fail> {
    let mut input = source(alloc, bytes, step, NO_FAULT)?;
    let mut rest = Buffer::new(alloc);
    told(alloc, next_message(alloc, &mut input, &mut rest))
}

// What the reply is: its status and its body, or the fault.
fn reply(alloc: Global, bytes: &[u8], step: usize, bodiless: bool) -> Result<String, Fail> {
    let mut input = source(alloc, bytes, step, NO_FAULT)?;
    let mut rest = Buffer::new(alloc);
    match next_reply(alloc, &mut input, &mut rest, bodiless) {
        Ok(reply) => {
            let body = String::from_utf8_lossy(alloc, reply.body.as_slice())?;
            Ok(format!(in alloc; "{} {body}", reply.status)?)
        }
        Err(fault) => Ok(format!(in alloc; "{fault:?}")?),
    }
}

fn repeated(
    alloc: Global,
    front: &[u8],
    piece: &[u8],
    times: usize,
    back: &[u8],
) -> Result<Vec<u8>, Fail> {
    let mut made = Vec::from_slice(alloc, front)?;
    for _ in 0..times {
        made.extend_from_slice(piece)?;
    }
    made.extend_from_slice(back)?;
    Ok(made)
}

#[test]
fn heads_and_lengths_are_told(rt: HostRuntime) -> Result<(), Fail> {
    let alloc = rt.alloc();
    for (bytes, word) in HEADS {
        assert_eq!(rt; first(alloc, bytes, 1)?.as_str(), *word);
        assert_eq!(rt; first(alloc, bytes, 4096)?.as_str(), *word);
    }
    Ok(())
}

#[test]
fn chunks_are_told(rt: HostRuntime) -> Result<(), Fail> {
    let alloc = rt.alloc();
    for (behind, word) in CHUNKS {
        let bytes = repeated(alloc, CHUNKED, b"", 0, behind)?;
        assert_eq!(rt; first(alloc, &bytes, 1)?.as_str(), *word);
        assert_eq!(rt; first(alloc, &bytes, 4096)?.as_str(), *word);
    }
    Ok(())
}

#[test]
fn limits_are_kept(rt: HostRuntime) -> Result<(), Fail> {
    let alloc = rt.alloc();
    for (front, piece, times, back, step, word) in LIMITS {
        let bytes = repeated(alloc, front, piece, times, back)?;
        assert_eq!(rt; first(alloc, &bytes, step)?.as_str(), word);
        assert_eq!(rt; first(alloc, &bytes, 4096)?.as_str(), word);
    }
    Ok(())
}

const TWO: &[u8] =
    b"POST /p HTTP/1.0\r\nX-A: \xff1\r\ncontent-length: 3\r\n\r\nAnnGET /q HTTP/1.0\r\n\r\n";

#[test]
fn messages_stand_in_a_row(rt: HostRuntime) -> Result<(), Fail> {
    let alloc = rt.alloc();
    let bytes = repeated(alloc, b"", TWO, 2, b"")?;
    for step in [1, 4096] {
        let mut input = source(alloc, &bytes, step, NO_FAULT)?;
        let mut rest = Buffer::new(alloc);
        for word in ["Ann", "", "Ann", "", "end", "end"] {
            let found = told(alloc, next_message(alloc, &mut input, &mut rest))?;
            assert_eq!(rt; found.as_str(), word);
        }
    }
    Ok(())
}

#[test]
fn a_request_has_its_parts(rt: HostRuntime) -> Result<(), Fail> {
    let alloc = rt.alloc();
    let mut input = source(alloc, TWO, 4096, NO_FAULT)?;
    let mut rest = Buffer::new(alloc);
    let incoming = next_message(alloc, &mut input, &mut rest);
    let Ok(Incoming::Whole(request)) = incoming else {
        assert!(rt; false, "a request is read");
        return Ok(());
    };
    assert_eq!(rt; request.method.as_str(), "POST");
    assert_eq!(rt; request.target.as_str(), "/p");
    assert!(rt; request.http10);
    for (name, value) in request.headers.as_slice() {
        let wanted = if name.as_str() == "X-A" {
            "\u{fffd}1"
        } else {
            "3"
        };
        assert_eq!(rt; value.as_str(), wanted);
    }
    assert_eq!(rt; request.headers.as_slice().len(), 2);
    Ok(())
}

// The second read fails. A fault is answered again, though the source would go on.
#[test]
fn a_failed_read_is_told_again(rt: HostRuntime) -> Result<(), Fail> {
    let alloc = rt.alloc();
    let one = b"GET / HTTP/1.0\r\n\r\n".as_slice();
    let bytes = repeated(alloc, b"", one, 2, b"")?;
    let mut input = source(alloc, &bytes, one.len(), 1)?;
    let mut rest = Buffer::new(alloc);
    for word in ["", "ReadFault", "ReadFault"] {
        let found = told(alloc, next_message(alloc, &mut input, &mut rest))?;
        assert_eq!(rt; found.as_str(), word);
    }
    Ok(())
}

#[test]
fn replies_are_told(rt: HostRuntime) -> Result<(), Fail> {
    let alloc = rt.alloc();
    for (bytes, bodiless, word) in REPLIES {
        assert_eq!(rt; reply(alloc, bytes, 1, *bodiless)?.as_str(), *word);
        assert_eq!(rt; reply(alloc, bytes, 4096, *bodiless)?.as_str(), *word);
    }
    Ok(())
}

// The heads of 408 interim replies have 10,200 bytes.
#[test]
fn heads_of_replies_share_their_limit(rt: HostRuntime) -> Result<(), Fail> {
    let alloc = rt.alloc();
    let interim = b"HTTP/1.1 100 Continue\r\n\r\n".as_slice();
    let fits = b"HTTP/1.1 200 OK\r\na:aaaaaaaaaaaaaaaaa\r\n\r\n".as_slice();
    let passes = b"HTTP/1.1 200 OK\r\na:aaaaaaaaaaaaaaaaaa\r\n\r\n".as_slice();
    let short = repeated(alloc, b"", interim, 408, fits)?;
    assert_eq!(rt; reply(alloc, &short, 1, false)?.as_str(), "200 ");
    assert_eq!(rt; reply(alloc, &short, 4096, false)?.as_str(), "200 ");
    let longer = repeated(alloc, b"", interim, 408, passes)?;
    assert_eq!(rt; reply(alloc, &longer, 1, false)?.as_str(), "HeadTooLong");
    assert_eq!(rt; reply(alloc, &longer, 4096, false)?.as_str(), "HeadTooLong");
    Ok(())
}

#[test]
fn fields_of_replies_are_counted(rt: HostRuntime) -> Result<(), Fail> {
    let alloc = rt.alloc();
    for (times, word) in [(100, "200 "), (101, "HeadTooLong"), (3_000, "HeadTooLong")] {
        let bytes = repeated(alloc, b"HTTP/1.1 200 OK\r\n", b"a:\n", times, b"\r\n")?;
        assert_eq!(rt; reply(alloc, &bytes, 64, false)?.as_str(), word);
        assert_eq!(rt; reply(alloc, &bytes, 4096, false)?.as_str(), word);
    }
    Ok(())
}

fn answer(alloc: Global, status: u16) -> Result<Answer, Fail> {
    let mut headers = Seq::new(alloc);
    let name = Text::of(String::from_str(alloc, "Content-Type")?);
    let value = Text::of(String::from_str(alloc, "text/plain")?);
    headers.push((name, value))?;
    Ok(Answer {
        status,
        headers,
        body: Bytes::of(Vec::from_slice(alloc, b"Ann")?),
    })
}

#[test]
fn answers_are_written(rt: HostRuntime) -> Result<(), Fail> {
    let alloc = rt.alloc();
    for (status, head_only, closing, wanted) in WRITTEN {
        let made = answer(alloc, *status)?;
        let bytes = spell_answer(alloc, &made, *head_only, *closing)?;
        assert_eq!(rt; bytes.as_slice(), *wanted);
    }
    Ok(())
}

const BAD_REQUEST: &[u8] =
    b"HTTP/1.1 400 Bad Request\r\nconnection: close\r\ncontent-length: 0\r\n\r\n";

const HEAD_TOO_LARGE: &[u8] =
    b"HTTP/1.1 431 Request Header Fields Too Large\r\nconnection: close\r\ncontent-length: 0\r\n\r\n";

const BUSY: &[u8] =
    b"HTTP/1.1 503 Service Unavailable\r\nconnection: close\r\ncontent-length: 0\r\n\r\n";

#[test]
fn faults_are_answered(rt: HostRuntime) {
    assert_eq!(rt; edge_answer(EdgeFault::BadHead), Some(BAD_REQUEST));
    assert_eq!(rt; edge_answer(EdgeFault::BadChunk), Some(BAD_REQUEST));
    assert_eq!(rt; edge_answer(EdgeFault::HeadTooLong), Some(HEAD_TOO_LARGE));
    assert_eq!(rt; edge_answer(EdgeFault::Cut(1)), None);
    assert_eq!(rt; busy_answer(), BUSY);
}
