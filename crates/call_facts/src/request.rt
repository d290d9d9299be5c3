// A request, and a reply.
use gw_base::{Bytes, Seq, Text};

/// A request as it was read (RFC 9112, section 3).
#[derive(Drop)]
pub struct Request {
    /// Its method, as it is written.
    pub method: Text,
    /// Its target, as it is written.
    pub target: Text,
    /// Whether its version is HTTP/1.0.
    pub http10: bool,
    /// The names and values of its header fields, in their order.
    pub headers: Seq<(Text, Text)>,
    /// Its body.
    pub body: Bytes,
}

/// What a backend replied (RFC 9112, section 4).
#[derive(Drop)]
pub struct WireReply {
    /// Its status.
    pub status: u16,
    /// The names and values of its header fields, in their order.
    pub headers: Seq<(Text, Text)>,
    /// Its body.
    pub body: Bytes,
}
