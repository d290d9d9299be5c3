// Bytes, and what is told of them.

// By RFC 9112, sections 2.2, 3, 3.2, 5.1, 5.2 and 6, and the gateway's own rules.
pub const HEADS: &'static [(&'static [u8], &'static str)] = &[
    (b"", "end"),
    (b"\r\n", "Cut(2)"),
    (b"GET\n", "BadHead"),
    (b"GET / HTTP/1.1\r\nhost: a\r\n\r\n", ""),
    (b"\r\n\nGET / HTTP/1.1\nHost: a\n\n", ""),
    (b"GET / HTTP/1.1\r\n\r\n", "BadHead"),
    (b"GET / HTTP/1.1\r\nhost: a\r\nHOST: a\r\n\r\n", "BadHead"),
    (b"GET / HTTP/1.1\r\nhost:\r\n\r\n", ""),
    (b"GET / HTTP/1.0\r\n\r\n", ""),
    (b"GET / HTTP/1.0\r\nhost: a\r\nhost: b\r\n\r\n", ""),
    (b"GET / HTTP/2.0\r\nhost: a\r\n\r\n", "BadHead"),
    (b"GET / HTTP/1.1\r\nhost : a\r\n\r\n", "BadHead"),
    (b"GET / HTTP/1.1\r\nhost: a\r\n b: c\r\n\r\n", "BadHead"),
    (b"GET /\xff HTTP/1.1\r\nhost: a\r\n\r\n", "BadHead"),
    (b"GET /\xff", "Cut(6)"),
    (
        b"POST /hello/v1 HTTP/1.1\r\nhost: localhost\r\ncontent-length: 5\r\n\r\nAb",
        "Cut(65)",
    ),
    (b"POST / HTTP/1.0\r\ncontent-length: 3\r\n\r\nAnn", "Ann"),
    (
        b"POST / HTTP/1.0\r\nContent-Length: 0000000000000000003\r\n\r\nAnn",
        "Ann",
    ),
    (
        b"POST / HTTP/1.0\r\ncontent-length: 00000000000000000003\r\n\r\nAnn",
        "BadHead",
    ),
    (
        b"POST / HTTP/1.0\r\ncontent-length: 9999999999999999999\r\n\r\nAnn",
        "too large",
    ),
    (
        b"POST / HTTP/1.0\r\ncontent-length: +3\r\n\r\nAnn",
        "BadHead",
    ),
    (
        b"POST / HTTP/1.0\r\ncontent-length: 3, 3\r\n\r\nAnn",
        "BadHead",
    ),
    (b"POST / HTTP/1.0\r\ncontent-length:\r\n\r\nAnn", "BadHead"),
    (
        b"POST / HTTP/1.0\r\ncontent-length: 3\r\ncontent-length: 3\r\n\r\nAnn",
        "BadHead",
    ),
    (
        b"POST / HTTP/1.0\r\ncontent-length: 10485760\r\n\r\n",
        "Cut(45)",
    ),
    (
        b"POST / HTTP/1.0\r\ncontent-length: 10485761\r\n\r\n",
        "too large",
    ),
    (
        b"POST / HTTP/1.0\r\ntransfer-encoding: chunked\r\n\r\n0\r\n\r\n",
        "BadHead",
    ),
    (
        b"POST / HTTP/1.1\r\nhost: a\r\ntransfer-encoding: Chunked\r\n\r\n0\r\n\r\n",
        "BadHead",
    ),
    (
        b"POST / HTTP/1.1\r\nhost: a\r\ntransfer-encoding: gzip, chunked\r\n\r\n0\r\n\r\n",
        "BadHead",
    ),
    (
        b"POST / HTTP/1.1\r\nhost: a\r\ncontent-length: 5\r\ntransfer-encoding: chunked\r\n\r\n0\r\n\r\n",
        "BadHead",
    ),
    (
        b"POST / HTTP/1.1\r\nhost: a\r\ntransfer-encoding: chunked\r\ncontent-length: 5\r\n\r\n0\r\n\r\n",
        "BadHead",
    ),
];

// The head of a chunked request, of 56 bytes.
pub const CHUNKED: &'static [u8] =
    b"POST / HTTP/1.1\r\nhost: a\r\ntransfer-encoding: chunked\r\n\r\n";

// Behind that head, by RFC 9112, section 7.1.
pub const CHUNKS: &'static [(&'static [u8], &'static str)] = &[
    (b"3\r\nAnn\r\n0\r\n\r\n", "Ann"),
    (b"3;x=1\r\nAnn\r\n2 \r\nie\r\n00\r\nt: 1\n\n", "Annie"),
    (b"C\r\n0123456789ab\r\n0\r\n\r\n", "0123456789ab"),
    (b"", "Cut(56)"),
    (b"3\r\nAnn", "Cut(62)"),
    (b"3\r\nAnn\r\n0\r\nx", "Cut(68)"),
    (b"g\r\n", "BadChunk"),
    (b"\r\n", "BadChunk"),
    (b"3\nAnn\r\n0\r\n\r\n", "BadChunk"),
    (b"3\r\nAnn\n0\r\n\r\n", "BadChunk"),
    (b"3\r\nAnn0\r\n\r\n", "BadChunk"),
    (b"3\r\nAnn\r0\r\n\r\n", "BadChunk"),
    (b"11111111111111111\r\n", "BadChunk"),
    (b"A00001\r\n", "too large"),
    (b"3\r\nAnn\r\n9ffffd\r\n", "Cut(72)"),
    (b"3\r\nAnn\r\n9ffffe\r\n", "too large"),
];

// Bytes, others so many times, and then bytes; the little step at which they are read; and what is told.
pub const LIMITS: [(
    &'static [u8],
    &'static [u8],
    usize,
    &'static [u8],
    usize,
    &'static str,
); 17] = [
    (b"GET / HTTP/1.0\r\n", b"a:\r\n", 100, b"\r\n", 1, ""),
    (
        b"GET / HTTP/1.0\r\n",
        b"a:\r\n",
        101,
        b"\r\n",
        1,
        "HeadTooLong",
    ),
    (
        b"GET / HTTP/1.1\r\n",
        b"a:\r\n",
        101,
        b"\r\n",
        1,
        "HeadTooLong",
    ),
    (
        b"GET / HTTP/1.0\r\n",
        b"a:\n",
        3_000,
        b"\r\n",
        64,
        "HeadTooLong",
    ),
    (
        b"GET / HTTP/1.0\r\n",
        b"a:\n",
        3_000,
        b"\x00\n",
        64,
        "BadHead",
    ),
    (b"GET / HTTP/1.0\r\n", b"a:\n", 3_000, b"", 64, "Cut(9016)"),
    (b"GET / HTTP/1.0\r\na:", b"a", 10_218, b"\r\n\r\n", 1, ""),
    (
        b"GET / HTTP/1.0\r\na:",
        b"a",
        10_219,
        b"\r\n\r\n",
        1,
        "HeadTooLong",
    ),
    (b"\nGET / HTTP/1.0\r\na:", b"a", 10_217, b"\r\n\r\n", 1, ""),
    (
        b"\nGET / HTTP/1.0\r\na:",
        b"a",
        10_218,
        b"\r\n\r\n",
        1,
        "HeadTooLong",
    ),
    (b"", b"\n", 10_239, b"", 64, "Cut(10239)"),
    (b"", b"\n", 10_240, b"", 64, "HeadTooLong"),
    (b"", b"\n", 10_238, b"\x00\n", 64, "BadHead"),
    (
        b"POST / HTTP/1.1\r\nhost: a\r\ntransfer-encoding: chunked\r\n\r\n0;",
        b"a",
        1_020,
        b"\r\n\r\n",
        1,
        "",
    ),
    (
        b"POST / HTTP/1.1\r\nhost: a\r\ntransfer-encoding: chunked\r\n\r\n0;",
        b"a",
        1_021,
        b"\r\n\r\n",
        1,
        "BadChunk",
    ),
    (
        b"POST / HTTP/1.1\r\nhost: a\r\ntransfer-encoding: chunked\r\n\r\n0\r\n",
        b"a",
        10_236,
        b"\r\n\r\n",
        1,
        "",
    ),
    (
        b"POST / HTTP/1.1\r\nhost: a\r\ntransfer-encoding: chunked\r\n\r\n0\r\n",
        b"a",
        10_237,
        b"\r\n\r\n",
        1,
        "HeadTooLong",
    ),
];

// By RFC 9110, section 15.2, and RFC 9112, sections 4 and 6.3.
pub const REPLIES: &'static [(&'static [u8], bool, &'static str)] = &[
    (
        b"HTTP/1.1 200 OK\r\ncontent-length: 3\r\n\r\nAnn",
        false,
        "200 Ann",
    ),
    (
        b"HTTP/1.1 200\r\ncontent-length: 3\r\n\r\nAnnie",
        false,
        "200 Ann",
    ),
    (b"HTTP/1.0 200 OK\r\n\r\nAnn", false, "200 Ann"),
    (
        b"HTTP/1.1 200 OK\r\ntransfer-encoding: chunked\r\n\r\n3\r\nAnn\r\n0\r\n\r\n",
        false,
        "200 Ann",
    ),
    (
        b"HTTP/1.1 100 Continue\r\n\r\nHTTP/1.1 103 Early Hints\r\nlink: a\r\n\r\nHTTP/1.1 299 \r\n\r\nAnn",
        false,
        "299 Ann",
    ),
    (
        b"HTTP/1.1 204 No Content\r\ncontent-length: 3\r\n\r\nAnn",
        false,
        "204 ",
    ),
    (
        b"HTTP/1.1 304 Not Modified\r\ncontent-length: 3\r\n\r\n",
        false,
        "304 ",
    ),
    (
        b"HTTP/1.1 200 OK\r\ncontent-length: 3\r\n\r\n",
        true,
        "200 ",
    ),
    (
        b"HTTP/1.1 200 OK\r\ncontent-length: 3\r\n\r\n",
        false,
        "Cut(38)",
    ),
    (b"", false, "Cut(0)"),
    (b"HTTP/1.1 200 OK\r\n", false, "Cut(17)"),
    (b"HTTP/1.1 100 Continue\r\n\r\n", false, "Cut(25)"),
    (
        b"HTTP/1.1 100 Continue\r\n\r\nHTTP/1.1 200 OK\r\ncontent-length: 3\r\n\r\nAn",
        false,
        "Cut(65)",
    ),
    (b"HTTP/1.1 099 No\r\n\r\n", true, "BadHead"),
    (
        b"HTTP/1.1 100 No\r\ncontent-length: x\r\n\r\n",
        false,
        "BadHead",
    ),
    (
        b"HTTP/1.1 200 OK\r\ncontent-length: 3\r\ncontent-length: 3\r\n\r\nAnn",
        false,
        "BadHead",
    ),
    (
        b"HTTP/1.0 200 OK\r\ntransfer-encoding: chunked\r\n\r\n0\r\n\r\n",
        false,
        "BadHead",
    ),
    (b"GET / HTTP/1.1\r\nhost: a\r\n\r\n", false, "BadHead"),
    (
        b"HTTP/1.1 200 OK\r\ncontent-length: 10485761\r\n\r\n",
        false,
        "BadChunk",
    ),
    (
        b"HTTP/1.1 200 OK\r\ntransfer-encoding: chunked\r\n\r\ng\r\n",
        false,
        "BadChunk",
    ),
];

// By RFC 9112, sections 2.1, 4 and 6.3, and RFC 9110, sections 8.6 and 9.3.2: answers with `Content-Type: text/plain` and
// the body `Ann`.
pub const WRITTEN: &'static [(u16, bool, bool, &'static [u8])] = &[
    (
        200,
        false,
        false,
        b"HTTP/1.1 200 OK\r\ncontent-type: text/plain\r\ncontent-length: 3\r\n\r\nAnn",
    ),
    (
        413,
        false,
        true,
        b"HTTP/1.1 413 Payload Too Large\r\ncontent-type: text/plain\r\nconnection: close\r\ncontent-length: 3\r\n\r\nAnn",
    ),
    (
        200,
        true,
        false,
        b"HTTP/1.1 200 OK\r\ncontent-type: text/plain\r\ncontent-length: 3\r\n\r\n",
    ),
    (
        204,
        false,
        false,
        b"HTTP/1.1 204 No Content\r\ncontent-type: text/plain\r\n\r\n",
    ),
    (
        304,
        true,
        true,
        b"HTTP/1.1 304 Not Modified\r\ncontent-type: text/plain\r\nconnection: close\r\n\r\n",
    ),
    (
        299,
        false,
        false,
        b"HTTP/1.1 299 \r\ncontent-type: text/plain\r\ncontent-length: 3\r\n\r\nAnn",
    ),
    (
        7,
        false,
        false,
        b"HTTP/1.1 7 \r\ncontent-type: text/plain\r\ncontent-length: 3\r\n\r\nAnn",
    ),
    (
        1000,
        false,
        false,
        b"HTTP/1.1 1000 \r\ncontent-type: text/plain\r\ncontent-length: 3\r\n\r\nAnn",
    ),
];
