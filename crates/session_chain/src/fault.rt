// Why no further session is served.
use book_core::StartFault;

/// Why no further session is served.
#[derive(Clone, Copy, Debug, PartialEq, Eq)]
pub enum AllFault {
    /// The next book did not start over the keeper.
    Start(StartFault),
    /// A write of a session's line failed.
    Output,
    /// Memory is wanting.
    Memory,
}
