// How connections and lanes end.
use std::fmt;

/// The history is full: it has this many entries, and its events' texts this many bytes.
#[derive(Clone, Copy, Debug, PartialEq, Eq)]
pub struct SessionFull {
    pub entries: u32,
    pub bytes: u64,
}

/// How a connection ended.
#[derive(Clone, Copy, Debug, PartialEq, Eq)]
pub enum Ended {
    /// The input ended at a message's end, or the last message that was answered closes the connection.
    Closed,
    /// The input ended so many bytes behind the beginning of a message.
    Cut(u64),
    /// What stands next is no head (RFC 9112, section 2).
    BadHead,
    /// A chunk is not written as one (RFC 9112, section 7.1).
    BadChunk,
    /// A head, or the trailers of a body, passes its limit.
    HeadTooLong,
    /// A read failed: the connection's count of failed reads rose.
    ReadFault,
    /// A write failed: the connection's count of failed writes rose.
    WriteFault,
    /// A step of the message in hand was refused, since the session is full: it has this many entries, and its events' texts
    /// this many bytes.
    SessionFull { entries: u32, bytes: u64 },
    /// Memory is wanting.
    Memory,
}

/// Prints its name, with its numbers in brackets, as `Cut(65)`.
impl fmt::Display for Ended {
    ghost use Rattle.std.specs.Prelude.{Some};
    ghost use Rattle.gate_walk.specs.Printed.{ended_name};

    ghost output = { λ ended. Some (ended_name ended) };

    fn fmt<W: fmt::Write>(&self, f: &mut fmt::Formatter<W>) -> fmt::Result {
        match self {
            Ended::Closed => f.write_str("Closed"),
            Ended::Cut(n) => write!(f, "Cut({n})"),
            Ended::BadHead => f.write_str("BadHead"),
            Ended::BadChunk => f.write_str("BadChunk"),
            Ended::HeadTooLong => f.write_str("HeadTooLong"),
            Ended::ReadFault => f.write_str("ReadFault"),
            Ended::WriteFault => f.write_str("WriteFault"),
            Ended::SessionFull { entries, bytes } => write!(f, "SessionFull({entries},{bytes})"),
            Ended::Memory => f.write_str("Memory"),
        }
    }
}

/// How a lane ended.
#[derive(Clone, Copy, Debug, PartialEq, Eq)]
pub enum LaneEnd {
    /// Its port ended: no connection is to come.
    Ended,
    /// A Leave of it was replied that the session is closing; its port is shut.
    Closing,
    /// A look for a connection failed: the port's count of faults rose.
    PortFault,
    /// Its last connection ended since the session is full, with these numbers.
    Full { entries: u32, bytes: u64 },
    /// Its last connection ended since memory was wanting.
    Memory,
}
