// What is answered to a request.
use gw_base::{Bytes, Seq, Text};

/// An answer to a request (RFC 9110, sections 6 and 15), whatever the connection adds when it writes it.
#[derive(Drop)]
pub struct Answer {
    /// Its status.
    pub status: u16,
    /// The names and values of its header fields, in the order in which they are written: `content-type` first.
    pub headers: Seq<(Text, Text)>,
    /// Its body.
    pub body: Bytes,
}
