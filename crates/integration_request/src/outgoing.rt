// What a request carries to its destination.
use gw_base::{Bytes, Seq, Text};
use wire_text::PathValue;

/// What a request carries: the values of its uri's placeholders, its query, its headers but for those that frame it, and its body.
#[derive(Drop)]
pub struct Outgoing {
    pub path: Seq<PathValue>,
    pub query: Text,
    pub headers: Seq<(Text, Text)>,
    pub body: Bytes,
}
