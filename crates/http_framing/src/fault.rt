// Why nothing more is read of a stream.
ghost use Rattle.std.specs.Prelude.{◌≡◌, ◌≤◌, ◌<◌, ◌+◌, ◌^◌};
ghost use Rattle.http_framing.specs.Faults.{CutBelow, shifted};

/// Why no message is read, and nothing more behind it.
#[derive(Clone, Copy, Debug, PartialEq, Eq)]
pub enum EdgeFault {
    /// What stands is no head of HTTP/1.0 or HTTP/1.1 (RFC 9112, sections 2 to 5), or a head that breaks the rules on
    /// `host` and on lengths (sections 3.2 and 6).
    BadHead,
    /// A head or trailers of more than 10,240 bytes, or a head of more than 100 fields (RFC 9110, section 5.4).
    HeadTooLong,
    /// What stands is no chunk (RFC 9112, section 7.1), or a chunk line of more than 1,024 bytes. Of a reply also a body
    /// of more than 10,485,760 bytes.
    BadChunk,
    /// The input ended so many bytes after the message's start (RFC 9112, section 8).
    Cut(u64),
    /// A read failed: the count of the source's faults rose.
    ReadFault,
    /// Memory is wanting.
    Memory,
}

impl EdgeFault {
    /// The same fault behind so many bytes: a cut counts them too.
    pub fn shifted(self, len: u64) -> EdgeFault
        requires few { CutBelow (2 ^ 63 + 2 ^ 40) self }
        requires short { len ≤ 2 ^ 40 }
        ensures { result ≡ shifted len self }
    {
        match self {
            EdgeFault::Cut(k) => EdgeFault::Cut(len + k),
            other => other,
        }
    }
}
