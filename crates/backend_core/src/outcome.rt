// What an exchange comes to.
use call_facts::WireReply;

/// What an exchange with a backend comes to.
#[derive(Drop)]
pub enum Outcome {
    /// The backend replied, with a status from 200 to 999.
    Reply(WireReply),
    /// No reply could be had: the count of failures rose.
    Failed,
    /// No reply came in the time of the request: the count of lapses rose.
    TimedOut,
    /// Memory is wanting.
    Memory,
}
