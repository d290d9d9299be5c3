// What is kept between two messages.
ghost use Rattle.std.specs.Prelude.{◌≡◌, ◌≢◌, [], None};
ghost use Rattle.std.specs.Bool.{MatchBool};
ghost use Rattle.http_edge.specs.Buffers.{emptied};

use http_framing::{EdgeFault, ReadAhead};
use httparse::spans::HeaderSpan;
use std::alloc::Global;
use std::marker::Model;

/// The bytes of a connection that were taken and are not yet used, and the fault that is answered again. One buffer
/// serves one connection.
#[derive(Drop)]
pub struct Buffer {
    pub(crate) held: ReadAhead,
    pub(crate) room: Vec<HeaderSpan>,
    pub(crate) fault: Option<EdgeFault>,
}

impl Model for Buffer {
    ghost use Rattle.http_edge.specs.Buffers.{Pending};

    ghost Value = { Pending };

    ghost view = { λ b. record { bytes = b.held; fault = b.fault } };
}

impl Buffer {
    /// A buffer that holds nothing, without memory.
    pub fn new(alloc: Global) -> Self
        ensures { result ≡ record { bytes = []; fault = None } }
    {
        Buffer {
            held: ReadAhead::new(alloc),
            room: Vec::new(alloc),
            fault: None,
        }
    }

    /// Whether no byte is held.
    pub fn is_empty(&self) -> bool
        ensures { MatchBool result (self.now.bytes ≡ []) (self.now.bytes ≢ []) }
    {
        self.held.as_slice().is_empty()
    }

    /// The bytes that are held, lent.
    pub fn held(&self) -> &[u8]
        ensures { result.now ≡ self.now.bytes }
    {
        self.held.as_slice()
    }

    // Keeps this fault, and nothing else.
    pub(crate) fn stop(&mut self, alloc: Global, fault: EdgeFault)
        ensures { self.new ≡ emptied fault }
    {
        self.held = ReadAhead::new(alloc);
        self.room = Vec::new(alloc);
        self.fault = Some(fault);
    }
}
