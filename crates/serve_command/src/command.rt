// The command.
ghost use Rattle.std.specs.Prelude.{◌≡◌, ◌≤◌, IfOk, IsErrOf};
ghost use Rattle.gw_base.specs.Outside.{Rose};
ghost use Rattle.serve_command.specs.Serving.{Ends, KeeperFails, OutputFails, PortFails};
ghost use Rattle.serve_command.specs.Ends.{stop_by_lending};
ghost use Rattle.serve_command.specs.Shelves.{Shelves, AllIsBack};

use crate::hold::{give_back, give_up};
use crate::open::open_book;
use crate::stop::ServeStop;
use crate::tell::{answer, tell_unopened};
use book_rules::{Entry, Limits};
use gate_ports::Port;
use gw_base::Sink;
use outside_core::{Outside, OutsideFault};
use session_chain::serve_all;
use std::alloc::Global;
use std::sync::Wait;
use std::thread::Threads;

/// What is to be served: which store, at which port of the loopback, over how many lanes.
#[derive(Clone, Copy)]
pub struct Asked<'a> {
    pub store: &'a str,
    pub port: u16,
    pub lanes: usize,
}

fn stop_of(fault: OutsideFault) -> ServeStop
    ensures { result ≡ stop_by_lending fault }
{
    match fault {
        OutsideFault::Failed => ServeStop::Port,
        OutsideFault::Memory => ServeStop::Memory,
    }
}

/// Serves sessions over the lanes of an outside and the tables of a store of it, one after another where each is full, and prints the line
/// of each. All that was lent is given back.
///
/// # Errors
///
/// Says why it stops where the keeper or the lanes can't be had, a look for a connection fails, a next session does not start over the
/// keeper, the output fails or memory is wanting.
pub fn serve<R: Threads + Wait + Sync, W: Sink, O: Outside<Entry>>(
    rt: &R,
    alloc: Global,
    limits: Limits,
    asked: &Asked,
    output: &mut W,
    outside: &mut O,
) -> Result<u8, ServeStop>
where
    <O::Door as Port>::Link: Send,
    requires lanes { (1 ≤ asked.now.lanes) × (asked.now.lanes ≤ 8) }

    // It ends with a status behind a last session, or by a bad row of the store.
    ensures ends { IfOk result (Ends limits asked.now.store.now asked.now.lanes (record { stores = O.stores outside.old; waiting = O.waiting outside.old; kept_back = O.kept_back outside.old; returned = O.returned outside.old; sessions = O.Archive.sessions outside.old; faults = O.faults outside.old; keepers_out = O.keepers_out outside.old; lanes_out = O.lanes_out outside.old }) (record { stores = O.stores outside.new; waiting = O.waiting outside.new; kept_back = O.kept_back outside.new; returned = O.returned outside.new; sessions = O.Archive.sessions outside.new; faults = O.faults outside.new; keepers_out = O.keepers_out outside.new; lanes_out = O.lanes_out outside.new }) (W.written output.old) (W.written output.new)) }

    // A fault has its count or its cause, and says what was written before.
    ensures keeper { IsErrOf result ServeStop.Keeper → KeeperFails limits asked.now.store.now asked.now.lanes (record { stores = O.stores outside.old; waiting = O.waiting outside.old; kept_back = O.kept_back outside.old; returned = O.returned outside.old; sessions = O.Archive.sessions outside.old; faults = O.faults outside.old; keepers_out = O.keepers_out outside.old; lanes_out = O.lanes_out outside.old }) (record { stores = O.stores outside.new; waiting = O.waiting outside.new; kept_back = O.kept_back outside.new; returned = O.returned outside.new; sessions = O.Archive.sessions outside.new; faults = O.faults outside.new; keepers_out = O.keepers_out outside.new; lanes_out = O.lanes_out outside.new }) (W.written output.old) (W.written output.new) }
    ensures port { IsErrOf result ServeStop.Port → PortFails limits asked.now.store.now asked.now.lanes (record { stores = O.stores outside.old; waiting = O.waiting outside.old; kept_back = O.kept_back outside.old; returned = O.returned outside.old; sessions = O.Archive.sessions outside.old; faults = O.faults outside.old; keepers_out = O.keepers_out outside.old; lanes_out = O.lanes_out outside.old }) (record { stores = O.stores outside.new; waiting = O.waiting outside.new; kept_back = O.kept_back outside.new; returned = O.returned outside.new; sessions = O.Archive.sessions outside.new; faults = O.faults outside.new; keepers_out = O.keepers_out outside.new; lanes_out = O.lanes_out outside.new }) (W.written output.old) (W.written output.new) }
    ensures output { IsErrOf result ServeStop.Output → Rose (W.faults output.old) (W.faults output.new) × OutputFails limits asked.now.store.now asked.now.lanes (record { stores = O.stores outside.old; waiting = O.waiting outside.old; kept_back = O.kept_back outside.old; returned = O.returned outside.old; sessions = O.Archive.sessions outside.old; faults = O.faults outside.old; keepers_out = O.keepers_out outside.old; lanes_out = O.lanes_out outside.old }) (record { stores = O.stores outside.new; waiting = O.waiting outside.new; kept_back = O.kept_back outside.new; returned = O.returned outside.new; sessions = O.Archive.sessions outside.new; faults = O.faults outside.new; keepers_out = O.keepers_out outside.new; lanes_out = O.lanes_out outside.new }) (W.written output.old) (W.written output.new) }
    ensures back { AllIsBack (record { stores = O.stores outside.old; waiting = O.waiting outside.old; kept_back = O.kept_back outside.old; returned = O.returned outside.old; sessions = O.Archive.sessions outside.old; faults = O.faults outside.old; keepers_out = O.keepers_out outside.old; lanes_out = O.lanes_out outside.old }) (record { stores = O.stores outside.new; waiting = O.waiting outside.new; kept_back = O.kept_back outside.new; returned = O.returned outside.new; sessions = O.Archive.sessions outside.new; faults = O.faults outside.new; keepers_out = O.keepers_out outside.new; lanes_out = O.lanes_out outside.new }) }
{
    let book = match open_book(alloc, outside, asked.store, limits) {
        Ok(book) => book,
        Err(stop) => return tell_unopened(alloc, output, stop),
    };
    let lanes = match outside.lanes(alloc, asked.port, asked.lanes) {
        Ok(lanes) => lanes,
        Err(fault) => {
            give_up(outside, asked.store, book);
            return Err(stop_of(fault));
        }
    };
    let mut lanes = lanes;
    let (keeper, outcome) = serve_all(rt, alloc, book, &mut lanes, limits, output, outside);
    give_back(outside, asked.store, keeper, lanes);
    answer(outcome)
}
