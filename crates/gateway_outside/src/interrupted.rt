// Calls of the system that a signal interrupted.
use std::io::{self, ErrorKind};

/// How often a call is made that signals interrupt.
pub const ATTEMPTS: u32 = 10_000;

/// Whether a call did nothing since a signal came, as behind a stop and a continue: it is to be made again.
pub fn is_interrupted(fault: &io::Error) -> bool {
    fault.kind() == ErrorKind::Interrupted
}

/// The fault of a call that was interrupted each time.
pub fn given_up() -> io::Error {
    io::Error::from(ErrorKind::Interrupted)
}
