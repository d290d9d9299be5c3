// Connections, to the byte.
use crate::said::{
    ANN, BAD_REQUEST, BOB, HEAD_TOO_LARGE, HI, HI_ANN, HI_ANN_CLOSING, HI_BOB, HI_CLOSING, HI_HEAD,
    NO_HEAD, TOO_LARGE, UNKNOWN_STAGE,
};
use crate::sessions::{OPEN, Plan, conn, entries, is_served_so, joined, serve};
use book_rules::Limits;
use gate_walk::Ended;
use std::alloc::Global;
use std::sync::Wait;
use std::test::Fail;

#[test]
fn a_message_is_answered(rt: HostRuntime) -> Result<(), Fail> {
    let alloc = rt.alloc();
    let mut conn = conn(alloc, ANN, 4096, &[], &[])?;
    let served = serve(&rt, alloc, &OPEN, &mut conn)?;
    assert_eq!(rt; conn.written(), HI_ANN);
    assert_eq!(rt; served.ended, Ended::Closed);
    assert!(rt; !served.closing);
    assert_eq!(rt; served.history.len(), 5);
    assert_eq!(rt;
        entries(alloc, &served.history, 0)?.as_str(),
        "enter leave "
    );
    Ok(())
}

// A session with room for more than a thousand messages.
const LONG: Plan = Plan {
    limits: Limits {
        entries: 3000,
        bytes: 10_000,
    },
    shuts: false,
};

/// A connection: the bytes that come and that are written, how it ends, and the entries behind the commands.
#[derive(Clone, Copy)]
struct Row {
    comes: &'static [&'static [u8]],
    written: &'static [&'static [u8]],
    ended: Ended,
    entries: &'static str,
}

const ROWS: &'static [Row] = &[
    Row {
        comes: &[],
        written: &[],
        ended: Ended::Closed,
        entries: "",
    },
    Row {
        comes: &[ANN, BOB],
        written: &[HI_ANN, HI_BOB],
        ended: Ended::Closed,
        entries: "enter leave enter leave ",
    },
    Row {
        comes: &[b"POST /hello/v1 HTTP/1.1\r\nhost: localhost\r\ncontent-length: 5\r\n\r\nAb"],
        written: &[],
        ended: Ended::Cut(65),
        entries: "",
    },
    Row {
        comes: &[ANN, b"POST /hello"],
        written: &[HI_ANN],
        ended: Ended::Cut(11),
        entries: "enter leave ",
    },
    Row {
        comes: &[NO_HEAD],
        written: &[BAD_REQUEST],
        ended: Ended::BadHead,
        entries: "",
    },
    Row {
        comes: &[ANN, NO_HEAD],
        written: &[HI_ANN, BAD_REQUEST],
        ended: Ended::BadHead,
        entries: "enter leave ",
    },
    Row {
        comes: &[
            b"POST /hello/v1 HTTP/1.0\r\ncontent-length: 3\r\n\r\nAnn",
            BOB,
        ],
        written: &[HI_ANN_CLOSING],
        ended: Ended::Closed,
        entries: "enter leave ",
    },
    Row {
        comes: &[
            b"POST /hello/v1 HTTP/1.1\r\nhost: a\r\nconnection: x, Close \r\ncontent-length: 3\r\n\r\nAnn",
            NO_HEAD,
        ],
        written: &[HI_ANN_CLOSING],
        ended: Ended::Closed,
        entries: "enter leave ",
    },
    Row {
        comes: &[b"GET /hello/v2 HTTP/1.1\r\nhost: a\r\n\r\n", BOB],
        written: &[UNKNOWN_STAGE, HI_BOB],
        ended: Ended::Closed,
        entries: "enter leave enter leave ",
    },
    Row {
        comes: &[
            b"HEAD /hello/v1 HTTP/1.1\r\nhost: a\r\n\r\n",
            b"GET /hello/v1/x?y HTTP/1.1\r\nhost: a\r\n\r\n",
        ],
        written: &[HI_HEAD, HI],
        ended: Ended::Closed,
        entries: "enter leave enter leave ",
    },
    Row {
        comes: &[
            b"POST /hello/v1 HTTP/1.1\r\nhost: a\r\ntransfer-encoding: chunked\r\n\r\n3\r\nAnn\r\n0\r\n\r\n",
        ],
        written: &[HI_ANN],
        ended: Ended::Closed,
        entries: "enter leave ",
    },
    Row {
        comes: &[b"POST /hello/v1 HTTP/1.1\r\nhost: a\r\ntransfer-encoding: chunked\r\n\r\ng\r\n"],
        written: &[BAD_REQUEST],
        ended: Ended::BadChunk,
        entries: "",
    },
    Row {
        comes: &[
            b"POST /hello/v1 HTTP/1.1\r\nhost: a\r\ncontent-length: 10485761\r\n\r\n",
            ANN,
        ],
        written: &[TOO_LARGE],
        ended: Ended::Closed,
        entries: "enter leave ",
    },
];

// Whether a connection is served as its row says, at so many bytes a read.
fn is_served<R: Wait>(rt: &R, alloc: Global, row: &Row, step: usize) -> Result<bool, Fail> {
    let bytes = joined(alloc, row.comes)?;
    let mut conn = conn(alloc, &bytes, step, &[], &[])?;
    let served = serve(rt, alloc, &OPEN, &mut conn)?;
    is_served_so(alloc, &served, &conn, row.written, row.ended, row.entries)
}

#[test]
fn connections_are_served_to_the_byte(rt: HostRuntime) -> Result<(), Fail> {
    let alloc = rt.alloc();
    for (number, row) in ROWS.iter().enumerate() {
        assert!(rt;
            is_served(&rt, alloc, row, 1)?,
            "row {number}, byte by byte"
        );
        assert!(rt; is_served(&rt, alloc, row, 4096)?, "row {number}");
    }
    Ok(())
}

fn repeated(alloc: Global, piece: &[u8], times: usize) -> Result<Vec<u8>, Fail> {
    let mut all = Vec::new(alloc);
    for _ in 0..times {
        all.extend_from_slice(piece)?;
    }
    Ok(all)
}

// A message of version 1.0 whose head has 32 bytes and so many more.
fn padded(alloc: Global, more: usize) -> Result<Vec<u8>, Fail> {
    let mut bytes = Vec::from_slice(alloc, b"POST /hello/v1 HTTP/1.0\r\nx: ")?;
    bytes.extend_from_slice(&repeated(alloc, b"a", more)?)?;
    bytes.extend_from_slice(b"\r\n\r\n")?;
    Ok(bytes)
}

// A head has at most 10,240 bytes.
#[test]
fn a_head_that_is_too_long_is_answered_at_the_edge(rt: HostRuntime) -> Result<(), Fail> {
    let alloc = rt.alloc();
    for (more, written, ended) in [
        (10_208, HI_CLOSING, Ended::Closed),
        (10_209, HEAD_TOO_LARGE, Ended::HeadTooLong),
    ] {
        let bytes = padded(alloc, more)?;
        for step in [1, 4096] {
            let mut conn = conn(alloc, &bytes, step, &[], &[])?;
            let served = serve(&rt, alloc, &OPEN, &mut conn)?;
            assert_eq!(rt; conn.written(), written);
            assert_eq!(rt; served.ended, ended);
        }
    }
    Ok(())
}

// A connection has at most 1,000 messages.
#[test]
fn the_thousandth_message_is_the_last(rt: HostRuntime) -> Result<(), Fail> {
    let alloc = rt.alloc();
    let bytes = repeated(alloc, ANN, 1001)?;
    let mut wanted = repeated(alloc, HI_ANN, 999)?;
    wanted.extend_from_slice(HI_ANN_CLOSING)?;
    let mut conn = conn(alloc, &bytes, 4096, &[], &[])?;
    let served = serve(&rt, alloc, &LONG, &mut conn)?;
    assert!(rt; conn.written() == wanted.as_slice());
    assert_eq!(rt; served.ended, Ended::Closed);
    assert_eq!(rt; served.history.len(), 2003);
    Ok(())
}
