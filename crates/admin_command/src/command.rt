// The command.
ghost use Rattle.std.specs.Prelude.{◌≡◌, ◌≢◌, ◌<◌, ◌^◌, Err, IfOk, IsErrOf, length, true};
ghost use Rattle.gw_base.specs.Outside.{Rose};
ghost use Rattle.script_records.specs.Coding.{lines_of};
ghost use Rattle.play_script.specs.Play.{is_command_status};
ghost use Rattle.serve_command.specs.Serving.{NotHeld};
ghost use Rattle.serve_command.specs.Shelves.{Shelves, AllIsBack};
ghost use Rattle.admin_command.specs.Ends.{AdminEnds, IsCutShort, WantsMemory};

use crate::carrying::carry_out_lines;
use crate::giving::give_back;
use book_rules::{Entry, Limits};
use gw_base::{Sink, WriteStop};
use outside_core::Outside;
use serve_command::{ServeStop, open_book, tell_unopened};
use std::alloc::Global;

/// Carries out lines of commands over the tables of a store of an outside, and prints what they say: answers 0 at their end, 1 at a
/// line that is refused or a bad row of the store, 4 where the session is full.
///
/// # Errors
///
/// Says why it stops where the keeper can't be had, a write fails or memory is wanting. What the lines did so far is kept.
pub fn administer<W: Sink, O: Outside<Entry>>(
    alloc: Global,
    limits: Limits,
    store: &str,
    lines: &[u8],
    output: &mut W,
    outside: &mut O,
) -> Result<u8, ServeStop>
    requires { length lines.now < 2 ^ 63 }

    // It ends with a status by what the lines print, or by a bad row of the store.
    ensures ends { IfOk result (AdminEnds limits store.now (lines_of lines.now) (record { stores = O.stores outside.old; waiting = O.waiting outside.old; kept_back = O.kept_back outside.old; returned = O.returned outside.old; sessions = O.Archive.sessions outside.old; faults = O.faults outside.old; keepers_out = O.keepers_out outside.old; lanes_out = O.lanes_out outside.old }) (record { stores = O.stores outside.new; waiting = O.waiting outside.new; kept_back = O.kept_back outside.new; returned = O.returned outside.new; sessions = O.Archive.sessions outside.new; faults = O.faults outside.new; keepers_out = O.keepers_out outside.new; lanes_out = O.lanes_out outside.new }) (W.written output.old) (W.written output.new)) }
    ensures known { IfOk result (λ status. is_command_status status ≡ true) }

    // The keeper fails only where a count of the outside rose; then nothing was carried out and nothing written.
    ensures keeper { IsErrOf result ServeStop.Keeper → Rose (O.faults outside.old) (O.faults outside.new) × NotHeld (record { stores = O.stores outside.old; waiting = O.waiting outside.old; kept_back = O.kept_back outside.old; returned = O.returned outside.old; sessions = O.Archive.sessions outside.old; faults = O.faults outside.old; keepers_out = O.keepers_out outside.old; lanes_out = O.lanes_out outside.old }) (record { stores = O.stores outside.new; waiting = O.waiting outside.new; kept_back = O.kept_back outside.new; returned = O.returned outside.new; sessions = O.Archive.sessions outside.new; faults = O.faults outside.new; keepers_out = O.keepers_out outside.new; lanes_out = O.lanes_out outside.new }) × (W.written output.new ≡ W.written output.old) }

    // Where it is cut short, some of the lines were carried out, and a front of what they print was written.
    ensures output { IsErrOf result ServeStop.Output → Rose (W.faults output.old) (W.faults output.new) }
    ensures cut { IsErrOf result ServeStop.Output → IsCutShort limits store.now (lines_of lines.now) (record { stores = O.stores outside.old; waiting = O.waiting outside.old; kept_back = O.kept_back outside.old; returned = O.returned outside.old; sessions = O.Archive.sessions outside.old; faults = O.faults outside.old; keepers_out = O.keepers_out outside.old; lanes_out = O.lanes_out outside.old }) (record { stores = O.stores outside.new; waiting = O.waiting outside.new; kept_back = O.kept_back outside.new; returned = O.returned outside.new; sessions = O.Archive.sessions outside.new; faults = O.faults outside.new; keepers_out = O.keepers_out outside.new; lanes_out = O.lanes_out outside.new }) (W.written output.old) (W.written output.new) }
    ensures memory { IsErrOf result ServeStop.Memory → WantsMemory limits store.now (lines_of lines.now) (record { stores = O.stores outside.old; waiting = O.waiting outside.old; kept_back = O.kept_back outside.old; returned = O.returned outside.old; sessions = O.Archive.sessions outside.old; faults = O.faults outside.old; keepers_out = O.keepers_out outside.old; lanes_out = O.lanes_out outside.old }) (record { stores = O.stores outside.new; waiting = O.waiting outside.new; kept_back = O.kept_back outside.new; returned = O.returned outside.new; sessions = O.Archive.sessions outside.new; faults = O.faults outside.new; keepers_out = O.keepers_out outside.new; lanes_out = O.lanes_out outside.new }) (W.written output.old) (W.written output.new) }
    ensures port { result ≢ Err ServeStop.Port }
    ensures back { AllIsBack (record { stores = O.stores outside.old; waiting = O.waiting outside.old; kept_back = O.kept_back outside.old; returned = O.returned outside.old; sessions = O.Archive.sessions outside.old; faults = O.faults outside.old; keepers_out = O.keepers_out outside.old; lanes_out = O.lanes_out outside.old }) (record { stores = O.stores outside.new; waiting = O.waiting outside.new; kept_back = O.kept_back outside.new; returned = O.returned outside.new; sessions = O.Archive.sessions outside.new; faults = O.faults outside.new; keepers_out = O.keepers_out outside.new; lanes_out = O.lanes_out outside.new }) }
{
    let mut book = match open_book(alloc, outside, store, limits) {
        Ok(book) => book,
        Err(stop) => return tell_unopened(alloc, output, stop),
    };
    let carried = carry_out_lines(&mut book, alloc, output, lines);
    give_back(outside, store, book);
    match carried {
        Ok(status) => Ok(status),
        Err(WriteStop::Failed) => Err(ServeStop::Output),
        Err(WriteStop::Memory) => Err(ServeStop::Memory),
    }
}
