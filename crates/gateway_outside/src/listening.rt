// Ports over one listener.
ghost use Rattle.std.specs.Prelude.{◌≡◌, IfOk, length, All};
ghost use Rattle.gateway_outside.specs.Stands.{IsFresh};

use crate::door::Door;
use crate::port::SocketPort;
use gw_base::{Memory, Shared};
use std::alloc::{AllocError, Global};
use std::io;
use std::net::{Net, TcpListener, TcpStream};
use std::time::Clock;

/// Why nothing is listened to.
#[derive(Clone, Copy, Debug, PartialEq, Eq)]
pub enum ListenFault {
    /// The port can't be bound, as where another program has it.
    Port,
    /// Memory is wanting.
    Memory,
}

impl From<Memory> for ListenFault {
    fn from(_: Memory) -> Self {
        ListenFault::Memory
    }
}

impl From<AllocError> for ListenFault {
    fn from(_: AllocError) -> Self {
        ListenFault::Memory
    }
}

impl From<io::Error> for ListenFault {
    fn from(_: io::Error) -> Self {
        ListenFault::Port
    }
}

// So many ports over one listener.
fn share_out<'r, R: Clock>(
    rt: &'r R,
    alloc: Global,
    door: Shared<Door>,
    lanes: usize,
) -> Result<Vec<SocketPort<'r, R>>, Memory>
    ensures number { IfOk result (λ ports. length ports.items ≡ lanes) }
    ensures fresh { IfOk result (λ ports. All IsFresh ports.items) }
{
    let mut ports = Vec::new(alloc);
    for _ in 0..lanes {
        ports.push(SocketPort::new(rt, door.share()?))?;
    }
    Ok(ports)
}

/// Listens at this port of 127.0.0.1, or at a free one where it is 0: a port for each lane, all over one listener.
pub fn listen<'r, R: Net<Listener = TcpListener, Stream = TcpStream> + Clock>(
    rt: &'r R,
    alloc: Global,
    port: u16,
    lanes: usize,
) -> Result<Vec<SocketPort<'r, R>>, ListenFault>
    ensures number { IfOk result (λ ports. length ports.items ≡ lanes) }
    ensures fresh { IfOk result (λ ports. All IsFresh ports.items) }
{
    let door = Shared::new(alloc, Door::open(rt, alloc, port)?)?;
    Ok(share_out(rt, alloc, door, lanes)?)
}
