// The command `serve`.
ghost use Rattle.std.specs.Prelude.{◌≡◌, ◌≢◌, ◌≤◌};
ghost use Rattle.gateway_cli.specs.Top.{ServeFaulted};
ghost use Rattle.play_script.specs.Play.{session_limits};
ghost use Rattle.serve_command.specs.Serving.{Ends};
ghost use Rattle.serve_command.specs.Shelves.{Shelves, AllIsBack};

use crate::limits::SESSION_LIMITS;
use crate::say::say_fault;
use book_rules::Entry;
use gate_ports::Port;
use gw_base::Sink;
use outside_core::Outside;
use serve_command::{Asked, ServeStop};
use std::alloc::Global;
use std::sync::Wait;
use std::thread::Threads;

/// Serves what is asked for, says why it stops where it does, and answers the status.
pub fn serve<R: Threads + Wait + Sync, W: Sink, O: Outside<Entry>>(
    rt: &R,
    alloc: Global,
    asked: &Asked,
    output: &mut W,
    outside: &mut O,
) -> u8
where
    <O::Door as Port>::Link: Send,
    requires lanes { (1 ≤ asked.now.lanes) × (asked.now.lanes ≤ 8) }
    ensures ends { result ≢ 3 → result ≢ 5 → Ends session_limits asked.now.store.now asked.now.lanes (record { stores = O.stores outside.old; waiting = O.waiting outside.old; kept_back = O.kept_back outside.old; returned = O.returned outside.old; sessions = O.Archive.sessions outside.old; faults = O.faults outside.old; keepers_out = O.keepers_out outside.old; lanes_out = O.lanes_out outside.old }) (record { stores = O.stores outside.new; waiting = O.waiting outside.new; kept_back = O.kept_back outside.new; returned = O.returned outside.new; sessions = O.Archive.sessions outside.new; faults = O.faults outside.new; keepers_out = O.keepers_out outside.new; lanes_out = O.lanes_out outside.new }) (W.written output.old) (W.written output.new) result }
    ensures fault { result ≡ 3 → ServeFaulted session_limits asked.now.store.now asked.now.lanes (record { stores = O.stores outside.old; waiting = O.waiting outside.old; kept_back = O.kept_back outside.old; returned = O.returned outside.old; sessions = O.Archive.sessions outside.old; faults = O.faults outside.old; keepers_out = O.keepers_out outside.old; lanes_out = O.lanes_out outside.old }) (record { stores = O.stores outside.new; waiting = O.waiting outside.new; kept_back = O.kept_back outside.new; returned = O.returned outside.new; sessions = O.Archive.sessions outside.new; faults = O.faults outside.new; keepers_out = O.keepers_out outside.new; lanes_out = O.lanes_out outside.new }) (record { before = W.faults output.old; now = W.faults output.new }) (W.written output.old) (W.written output.new) }
    ensures known { (result ≤ 5) × (result ≢ 2) }
    ensures back { AllIsBack (record { stores = O.stores outside.old; waiting = O.waiting outside.old; kept_back = O.kept_back outside.old; returned = O.returned outside.old; sessions = O.Archive.sessions outside.old; faults = O.faults outside.old; keepers_out = O.keepers_out outside.old; lanes_out = O.lanes_out outside.old }) (record { stores = O.stores outside.new; waiting = O.waiting outside.new; kept_back = O.kept_back outside.new; returned = O.returned outside.new; sessions = O.Archive.sessions outside.new; faults = O.faults outside.new; keepers_out = O.keepers_out outside.new; lanes_out = O.lanes_out outside.new }) }
{
    match serve_command::serve(rt, alloc, SESSION_LIMITS, asked, output, outside) {
        Ok(status) => status,
        Err(ServeStop::Memory) => 5,
        Err(ServeStop::Keeper) => {
            say_fault(output, b"fault keeper\n");
            3
        }
        Err(ServeStop::Port) => {
            say_fault(output, b"fault port\n");
            3
        }
        Err(ServeStop::Output) => {
            say_fault(output, b"fault output\n");
            3
        }
    }
}
