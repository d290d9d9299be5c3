// What comes in on a connection.
use call_facts::Request;

/// What stands next on a connection.
#[derive(Drop)]
pub enum Incoming {
    /// A request with its whole body.
    Whole(Request),
    /// A request, without its body, whose body passes 10,485,760 bytes. The body is not read further.
    TooLarge(Request),
    /// The input ended where a message might begin.
    End,
}
