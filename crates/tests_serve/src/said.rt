// Messages, and the bytes of their answers.

/// A message of 66 bytes.
pub(crate) const ANN: &'static [u8] =
    b"POST /hello/v1 HTTP/1.1\r\nhost: localhost\r\ncontent-length: 3\r\n\r\nAnn";

pub(crate) const BOB: &'static [u8] =
    b"POST /hello/v1 HTTP/1.1\r\nhost: localhost\r\ncontent-length: 3\r\n\r\nBob";

/// What no head begins with.
pub(crate) const NO_HEAD: &'static [u8] = b"GET\n";

pub(crate) const HI_ANN: &'static [u8] =
    b"HTTP/1.1 200 OK\r\ncontent-type: text/plain\r\ncontent-length: 7\r\n\r\nHi Ann!";

pub(crate) const HI_BOB: &'static [u8] =
    b"HTTP/1.1 200 OK\r\ncontent-type: text/plain\r\ncontent-length: 7\r\n\r\nHi Bob!";

pub(crate) const HI_ANN_CLOSING: &'static [u8] =
    b"HTTP/1.1 200 OK\r\ncontent-type: text/plain\r\nconnection: close\r\ncontent-length: 7\r\n\r\nHi Ann!";

/// To a message without a body.
pub(crate) const HI: &'static [u8] =
    b"HTTP/1.1 200 OK\r\ncontent-type: text/plain\r\ncontent-length: 4\r\n\r\nHi !";

pub(crate) const HI_CLOSING: &'static [u8] =
    b"HTTP/1.1 200 OK\r\ncontent-type: text/plain\r\nconnection: close\r\ncontent-length: 4\r\n\r\nHi !";

/// The answer to a HEAD request.
pub(crate) const HI_HEAD: &'static [u8] =
    b"HTTP/1.1 200 OK\r\ncontent-type: text/plain\r\ncontent-length: 4\r\n\r\n";

pub(crate) const UNKNOWN_STAGE: &'static [u8] =
    b"HTTP/1.1 403 Forbidden\r\ncontent-type: application/json\r\nx-gateway-cause: UNKNOWN_STAGE\r\ncontent-length: 27\r\n\r\n{\"message\":\"Unknown stage\"}";

pub(crate) const TOO_LARGE: &'static [u8] =
    b"HTTP/1.1 413 Payload Too Large\r\ncontent-type: application/json\r\nx-gateway-cause: REQUEST_TOO_LARGE\r\nconnection: close\r\ncontent-length: 38\r\n\r\n{\"message\":\"Request Entity Too Large\"}";

pub(crate) const BAD_REQUEST: &'static [u8] =
    b"HTTP/1.1 400 Bad Request\r\nconnection: close\r\ncontent-length: 0\r\n\r\n";

pub(crate) const HEAD_TOO_LARGE: &'static [u8] =
    b"HTTP/1.1 431 Request Header Fields Too Large\r\nconnection: close\r\ncontent-length: 0\r\n\r\n";

pub(crate) const BUSY: &'static [u8] =
    b"HTTP/1.1 503 Service Unavailable\r\nconnection: close\r\ncontent-length: 0\r\n\r\n";
