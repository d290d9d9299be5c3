// The next message of a connection.
ghost use Rattle.std.specs.Prelude.{◌≡◌, ◌≤◌, None, Err, IfSome, IsErrOf};
ghost use Rattle.gw_base.specs.Outside.{Rose};
ghost use Rattle.http_edge.specs.Buffers.{KeepsFault};
ghost use Rattle.http_edge.specs.Messages.{Comes};
ghost use Rattle.http_framing.specs.Stream.{Over, Takes};

use gate_ports::Conn;
use http_edge::{Buffer, EdgeFault, Incoming, next_message};
use std::alloc::Global;

/// Reads the next message of a connection. Where nothing of it is held, the connection is first told that a message begins.
pub(crate) fn await_message<C: Conn>(
    alloc: Global,
    conn: &mut C,
    rest: &mut Buffer,
) -> Result<Incoming, EdgeFault>
    ensures next { rest.old.fault ≡ None → Over Comes rest.old.bytes (C.left conn.old) rest.new.bytes (C.left conn.new) result }
    ensures again { IfSome rest.old.fault (λ f. (result ≡ Err f) × (rest.new ≡ rest.old)) }
    ensures kept { rest.old.fault ≡ None → KeepsFault rest.new result }
    ensures taken { Takes (C.left conn.old) (C.left conn.new) }
    ensures fault { rest.old.fault ≡ None → IsErrOf result EdgeFault.ReadFault → Rose (C.Source.faults conn.old) (C.Source.faults conn.new) }
    ensures later { C.Source.faults conn.old ≤ C.Source.faults conn.new }
    ensures beside { C.Source.beside conn.new ≡ C.Source.beside conn.old }
{
    if rest.is_empty() {
        conn.begin_message(rest.held());
    }
    next_message(alloc, conn, rest)
}
