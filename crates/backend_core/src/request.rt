// What is sent to a backend.
ghost use Rattle.std.specs.Prelude.{◌≡◌, IfOk};

use gw_base::{Bytes, Memory, Text};
use std::alloc::Global;

/// A request to a backend.
#[derive(Drop)]
pub struct WireRequest {
    /// The host: a name or an address.
    pub host: Text,
    /// The port.
    pub port: u16,
    /// For how long an answer is awaited, in milliseconds.
    pub timeout: u32,
    /// The message as it is written (RFC 9112, section 3).
    pub bytes: Bytes,
}

impl WireRequest {
    /// The same request once more.
    pub fn copy(&self, alloc: Global) -> Result<Self, Memory>
        ensures { IfOk result (λ other. other ≡ self.now) }
    {
        Ok(WireRequest {
            host: self.host.copy(alloc)?,
            port: self.port,
            timeout: self.timeout,
            bytes: self.bytes.copy(alloc)?,
        })
    }
}
