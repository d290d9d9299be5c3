// A message on its way.
use call_facts::Request;

/// A message that was read from a connection.
#[derive(Drop)]
pub struct Message {
    /// Its number on the connection, from 1.
    pub number: u32,
    /// Whether its body is too large, so that it was not read.
    pub too_large: bool,
    /// What it asks for.
    pub request: Request,
    /// The moment at which it came, in milliseconds since 1970.
    pub moment: u64,
    /// Its word of chance.
    pub word: u64,
}
