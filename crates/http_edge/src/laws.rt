//! What holds of messages and replies: each function's contract is a law, and its body is empty.
ghost use Rattle.http_edge.specs.Laws.{OneStandsNext, HasOneRun, HasOneReply};

/// What stands next in the bytes that are left of a stream is one thing, a message, the end or a fault, and what is left
/// behind it is one. So a stream's messages do not depend on the pieces in which its bytes come.
pub fn one_thing_stands_next()
    ensures { OneStandsNext }
{}

/// The messages of a stream are one list, and its end is one.
pub fn a_stream_has_one_list_of_messages()
    ensures { HasOneRun }
{}

/// What the bytes of a backend come to is one reply or one fault, and what is left behind it is one.
pub fn bytes_have_one_reply()
    ensures { HasOneReply }
{}
