// What is printed of a bad store, and the status behind the last session.
ghost use Rattle.std.specs.Prelude.{◌≡◌, ◌≢◌, ◌⊎◌, true, false, Err, IfOk, IsErrOf};
ghost use Rattle.std.specs.Io.KnownBytes.{Appends};
ghost use Rattle.std.specs.List.{list_any};
ghost use Rattle.gw_base.specs.Outside.{Rose};
ghost use Rattle.gw_base.specs.Whole.{AppendsFront};
ghost use Rattle.serve_command.specs.Opening.{IfBadStore};
ghost use Rattle.serve_command.specs.Ends.{IfServed, IfStopped, stopped_by, stop_by_all, stop_by_next};
ghost use Rattle.session_chain.specs.Ends.{wants_memory, has_port_fault};

use crate::lines::bad_store_line;
use crate::open::OpenStop;
use crate::stop::ServeStop;
use book_core::StartFault;
use gate_walk::LaneEnd;
use gw_base::{Sink, WriteStop, write_all};
use session_chain::{AllFault, any_port_fault, any_wants_memory};
use std::alloc::Global;

fn stop_of(stop: WriteStop) -> ServeStop
    ensures { result ≡ stopped_by stop }
{
    match stop {
        WriteStop::Failed => ServeStop::Output,
        WriteStop::Memory => ServeStop::Memory,
    }
}

/// Writes why no book opened.
pub fn tell_unopened<W: Sink>(
    alloc: Global,
    output: &mut W,
    stop: OpenStop,
) -> Result<u8, ServeStop>
    ensures told { IfOk result (λ status. (status ≡ 1) × IfBadStore stop (λ line. Appends (W.written output.old) (W.written output.new) line)) }
    ensures keeper { IsErrOf result ServeStop.Keeper → (stop ≡ OpenStop.Keeper) × (W.written output.new ≡ W.written output.old) }
    ensures port { result ≢ Err ServeStop.Port }
    ensures output { IsErrOf result ServeStop.Output → Rose (W.faults output.old) (W.faults output.new) × IfBadStore stop (λ line. AppendsFront (W.written output.old) (W.written output.new) line) }

    // Where memory is wanting a front of the line is written, or nothing is.
    ensures memory { IsErrOf result ServeStop.Memory → IfBadStore stop (λ line. AppendsFront (W.written output.old) (W.written output.new) line) ⊎ (W.written output.new ≡ W.written output.old) }
{
    let (table, row) = match stop {
        OpenStop::BadStore(table, row) => (table, row),
        OpenStop::Keeper => return Err(ServeStop::Keeper),
        OpenStop::Memory => return Err(ServeStop::Memory),
    };
    let line = bad_store_line(alloc, table, row)?;
    match write_all(output, line.as_str().as_bytes()) {
        Ok(()) => Ok(1),
        Err(stop) => Err(stop_of(stop)),
    }
}

// The status behind the last session, by how its lanes ended. Want of memory on a lane comes first, then a failed look.
fn status_of(ends: &[LaneEnd]) -> Result<u8, ServeStop>
    ensures told { IfOk result (λ status. (status ≡ 0) × (list_any wants_memory ends.now ≡ false) × (list_any has_port_fault ends.now ≡ false)) }
    ensures port { IsErrOf result ServeStop.Port → (list_any wants_memory ends.now ≡ false) × (list_any has_port_fault ends.now ≡ true) }
    ensures keeper { result ≢ Err ServeStop.Keeper }
    ensures output { result ≢ Err ServeStop.Output }
{
    if any_wants_memory(ends) {
        return Err(ServeStop::Memory);
    }
    if any_port_fault(ends) {
        return Err(ServeStop::Port);
    }
    Ok(0)
}

fn stop_of_next(fault: StartFault) -> ServeStop
    ensures { result ≡ stop_by_next fault }
{
    match fault {
        StartFault::BadStore(_, _) | StartFault::StoreFault => ServeStop::Keeper,
        StartFault::Memory => ServeStop::Memory,
    }
}

// Why serving stops where no further session is served.
fn stop_of_all(fault: AllFault) -> ServeStop
    ensures { result ≡ stop_by_all fault }
{
    match fault {
        AllFault::Start(fault) => stop_of_next(fault),
        AllFault::Output => ServeStop::Output,
        AllFault::Memory => ServeStop::Memory,
    }
}

/// The status behind the last session, or why serving stops there.
pub(crate) fn answer(outcome: Result<Vec<LaneEnd>, AllFault>) -> Result<u8, ServeStop>
    ensures told { IfOk result (λ status. (status ≡ 0) × IfServed outcome (λ ends. (list_any wants_memory ends.items ≡ false) × (list_any has_port_fault ends.items ≡ false))) }
    ensures port { IsErrOf result ServeStop.Port → IfServed outcome (λ ends. (list_any wants_memory ends.items ≡ false) × (list_any has_port_fault ends.items ≡ true)) }
    ensures keeper { IsErrOf result ServeStop.Keeper → IfStopped outcome (λ fault. stop_by_all fault ≡ ServeStop.Keeper) }
    ensures output { IsErrOf result ServeStop.Output → IfStopped outcome (λ fault. fault ≡ AllFault.Output) }
{
    match outcome {
        Ok(ends) => status_of(&ends),
        Err(fault) => Err(stop_of_all(fault)),
    }
}
