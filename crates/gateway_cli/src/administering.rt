// The command `admin`.
ghost use Rattle.std.specs.Prelude.{◌≡◌, ◌≢◌, ◌≤◌, ◌<◌, ℕ, List, Err, IfOk, IsErrOf, OnErr, length, true};
ghost use Rattle.std.specs.Io.KnownBytes.{IsAtEnd};
ghost use Rattle.gw_base.specs.Outside.{Rose};
ghost use Rattle.gw_base.specs.Whole.{AppendsFront};
ghost use Rattle.play_script.specs.Play.{is_command_status};
ghost use Rattle.serve_command.specs.Serving.{NotHeld};
ghost use Rattle.serve_command.specs.Shelves.{Shelves, AllIsBack};
ghost use Rattle.gateway_cli.specs.Admin.{Administered, AdminCut, AdminWantsMemory, AdminFaulted};
ghost use Rattle.gateway_cli.specs.Top.{Count, OfTold};

use crate::limits::{SCRIPT_LIMIT, SESSION_LIMITS};
use crate::say::{say, say_fault};
use crate::stopped::Stopped;
use admin_command::administer;
use book_rules::Entry;
use gw_base::{ReadAll, Sink, Source, read_all};
use outside_core::Outside;
use serve_command::ServeStop;
use std::alloc::Global;

// Why the program stops where administering does, which looks at no port.
fn stop_of(stop: ServeStop) -> Stopped
    requires { stop ≢ ServeStop.Port }
    ensures keeper { result ≡ Stopped.Keeper → stop ≡ ServeStop.Keeper }
    ensures output { result ≡ Stopped.Output → stop ≡ ServeStop.Output }
    ensures memory { result ≡ Stopped.Memory → stop ≡ ServeStop.Memory }
    ensures input { result ≢ Stopped.Input }
    ensures file { result ≢ Stopped.File }
{
    match stop {
        ServeStop::Keeper => Stopped::Keeper,
        ServeStop::Output => Stopped::Output,
        ServeStop::Memory => Stopped::Memory,
        ServeStop::Port => unreachable!(),
    }
}

// Carries out lines that were read.
fn carry_out<W: Sink, O: Outside<Entry>>(
    alloc: Global,
    store: &str,
    lines: &[u8],
    output: &mut W,
    outside: &mut O,
) -> Result<u8, Stopped>
    requires { length lines.now ≤ 67108864 }
    ensures ends { IfOk result (Administered store.now lines.now (record { stores = O.stores outside.old; waiting = O.waiting outside.old; kept_back = O.kept_back outside.old; returned = O.returned outside.old; sessions = O.Archive.sessions outside.old; faults = O.faults outside.old; keepers_out = O.keepers_out outside.old; lanes_out = O.lanes_out outside.old }) (record { stores = O.stores outside.new; waiting = O.waiting outside.new; kept_back = O.kept_back outside.new; returned = O.returned outside.new; sessions = O.Archive.sessions outside.new; faults = O.faults outside.new; keepers_out = O.keepers_out outside.new; lanes_out = O.lanes_out outside.new }) (W.written output.old) (W.written output.new)) }
    ensures known { IfOk result (λ status. is_command_status status ≡ true) }
    ensures input { result ≢ Err Stopped.Input }
    ensures file { result ≢ Err Stopped.File }
    ensures keeper { IsErrOf result Stopped.Keeper → Rose (O.faults outside.old) (O.faults outside.new) × NotHeld (record { stores = O.stores outside.old; waiting = O.waiting outside.old; kept_back = O.kept_back outside.old; returned = O.returned outside.old; sessions = O.Archive.sessions outside.old; faults = O.faults outside.old; keepers_out = O.keepers_out outside.old; lanes_out = O.lanes_out outside.old }) (record { stores = O.stores outside.new; waiting = O.waiting outside.new; kept_back = O.kept_back outside.new; returned = O.returned outside.new; sessions = O.Archive.sessions outside.new; faults = O.faults outside.new; keepers_out = O.keepers_out outside.new; lanes_out = O.lanes_out outside.new }) × (W.written output.new ≡ W.written output.old) }
    ensures output { IsErrOf result Stopped.Output → Rose (W.faults output.old) (W.faults output.new) × AdminCut store.now lines.now (record { stores = O.stores outside.old; waiting = O.waiting outside.old; kept_back = O.kept_back outside.old; returned = O.returned outside.old; sessions = O.Archive.sessions outside.old; faults = O.faults outside.old; keepers_out = O.keepers_out outside.old; lanes_out = O.lanes_out outside.old }) (record { stores = O.stores outside.new; waiting = O.waiting outside.new; kept_back = O.kept_back outside.new; returned = O.returned outside.new; sessions = O.Archive.sessions outside.new; faults = O.faults outside.new; keepers_out = O.keepers_out outside.new; lanes_out = O.lanes_out outside.new }) (W.written output.old) (W.written output.new) }
    ensures memory { IsErrOf result Stopped.Memory → AdminWantsMemory store.now lines.now (record { stores = O.stores outside.old; waiting = O.waiting outside.old; kept_back = O.kept_back outside.old; returned = O.returned outside.old; sessions = O.Archive.sessions outside.old; faults = O.faults outside.old; keepers_out = O.keepers_out outside.old; lanes_out = O.lanes_out outside.old }) (record { stores = O.stores outside.new; waiting = O.waiting outside.new; kept_back = O.kept_back outside.new; returned = O.returned outside.new; sessions = O.Archive.sessions outside.new; faults = O.faults outside.new; keepers_out = O.keepers_out outside.new; lanes_out = O.lanes_out outside.new }) (W.written output.old) (W.written output.new) }
    ensures back { AllIsBack (record { stores = O.stores outside.old; waiting = O.waiting outside.old; kept_back = O.kept_back outside.old; returned = O.returned outside.old; sessions = O.Archive.sessions outside.old; faults = O.faults outside.old; keepers_out = O.keepers_out outside.old; lanes_out = O.lanes_out outside.old }) (record { stores = O.stores outside.new; waiting = O.waiting outside.new; kept_back = O.kept_back outside.new; returned = O.returned outside.new; sessions = O.Archive.sessions outside.new; faults = O.faults outside.new; keepers_out = O.keepers_out outside.new; lanes_out = O.lanes_out outside.new }) }
{
    match administer(alloc, SESSION_LIMITS, store, lines, output, outside) {
        Ok(status) => Ok(status),
        Err(stop) => Err(stop_of(stop)),
    }
}

// Says that the lines are together longer than a script may be.
fn refuse<W: Sink, O: Outside<Entry>>(
    store: &str,
    output: &mut W,
    outside: &mut O,
) -> Result<u8, Stopped>
    ensures ends { (lines : List ℕ) → 67108864 < length lines → IfOk result (Administered store.now lines (record { stores = O.stores outside.old; waiting = O.waiting outside.old; kept_back = O.kept_back outside.old; returned = O.returned outside.old; sessions = O.Archive.sessions outside.old; faults = O.faults outside.old; keepers_out = O.keepers_out outside.old; lanes_out = O.lanes_out outside.old }) (record { stores = O.stores outside.new; waiting = O.waiting outside.new; kept_back = O.kept_back outside.new; returned = O.returned outside.new; sessions = O.Archive.sessions outside.new; faults = O.faults outside.new; keepers_out = O.keepers_out outside.new; lanes_out = O.lanes_out outside.new }) (W.written output.old) (W.written output.new)) }
    ensures cut { (lines : List ℕ) → 67108864 < length lines → AdminCut store.now lines (record { stores = O.stores outside.old; waiting = O.waiting outside.old; kept_back = O.kept_back outside.old; returned = O.returned outside.old; sessions = O.Archive.sessions outside.old; faults = O.faults outside.old; keepers_out = O.keepers_out outside.old; lanes_out = O.lanes_out outside.old }) (record { stores = O.stores outside.new; waiting = O.waiting outside.new; kept_back = O.kept_back outside.new; returned = O.returned outside.new; sessions = O.Archive.sessions outside.new; faults = O.faults outside.new; keepers_out = O.keepers_out outside.new; lanes_out = O.lanes_out outside.new }) (W.written output.old) (W.written output.new) }
    ensures known { IfOk result (λ status. status ≡ 1) }
    ensures input { result ≢ Err Stopped.Input }
    ensures file { result ≢ Err Stopped.File }
    ensures keeper { result ≢ Err Stopped.Keeper }
    ensures output { IsErrOf result Stopped.Output → Rose (W.faults output.old) (W.faults output.new) }
    ensures back { AllIsBack (record { stores = O.stores outside.old; waiting = O.waiting outside.old; kept_back = O.kept_back outside.old; returned = O.returned outside.old; sessions = O.Archive.sessions outside.old; faults = O.faults outside.old; keepers_out = O.keepers_out outside.old; lanes_out = O.lanes_out outside.old }) (record { stores = O.stores outside.new; waiting = O.waiting outside.new; kept_back = O.kept_back outside.new; returned = O.returned outside.new; sessions = O.Archive.sessions outside.new; faults = O.faults outside.new; keepers_out = O.keepers_out outside.new; lanes_out = O.lanes_out outside.new }) }
{
    let _ = &outside;
    let _ = store;
    say(output, b"refused TooLong\n", 1)
}

// Reads lines to their end and carries them out.
fn carry_out_input<I: Source, W: Sink, O: Outside<Entry>>(
    alloc: Global,
    store: &str,
    input: &mut I,
    output: &mut W,
    outside: &mut O,
) -> Result<u8, Stopped>
    ensures ends { IfOk result (λ status. OfTold (I.left input.old) (λ lines. Administered store.now lines (record { stores = O.stores outside.old; waiting = O.waiting outside.old; kept_back = O.kept_back outside.old; returned = O.returned outside.old; sessions = O.Archive.sessions outside.old; faults = O.faults outside.old; keepers_out = O.keepers_out outside.old; lanes_out = O.lanes_out outside.old }) (record { stores = O.stores outside.new; waiting = O.waiting outside.new; kept_back = O.kept_back outside.new; returned = O.returned outside.new; sessions = O.Archive.sessions outside.new; faults = O.faults outside.new; keepers_out = O.keepers_out outside.new; lanes_out = O.lanes_out outside.new }) (W.written output.old) (W.written output.new) status)) }
    ensures known { IfOk result (λ status. is_command_status status ≡ true) }
    ensures read { IfOk result (λ status. status ≡ 0 → IsAtEnd (I.left input.new)) }
    ensures input { IsErrOf result Stopped.Input → Rose (I.faults input.old) (I.faults input.new) × NotHeld (record { stores = O.stores outside.old; waiting = O.waiting outside.old; kept_back = O.kept_back outside.old; returned = O.returned outside.old; sessions = O.Archive.sessions outside.old; faults = O.faults outside.old; keepers_out = O.keepers_out outside.old; lanes_out = O.lanes_out outside.old }) (record { stores = O.stores outside.new; waiting = O.waiting outside.new; kept_back = O.kept_back outside.new; returned = O.returned outside.new; sessions = O.Archive.sessions outside.new; faults = O.faults outside.new; keepers_out = O.keepers_out outside.new; lanes_out = O.lanes_out outside.new }) × (W.written output.new ≡ W.written output.old) }
    ensures file { result ≢ Err Stopped.File }
    ensures keeper { IsErrOf result Stopped.Keeper → (I.faults input.new ≡ I.faults input.old) × Rose (O.faults outside.old) (O.faults outside.new) × NotHeld (record { stores = O.stores outside.old; waiting = O.waiting outside.old; kept_back = O.kept_back outside.old; returned = O.returned outside.old; sessions = O.Archive.sessions outside.old; faults = O.faults outside.old; keepers_out = O.keepers_out outside.old; lanes_out = O.lanes_out outside.old }) (record { stores = O.stores outside.new; waiting = O.waiting outside.new; kept_back = O.kept_back outside.new; returned = O.returned outside.new; sessions = O.Archive.sessions outside.new; faults = O.faults outside.new; keepers_out = O.keepers_out outside.new; lanes_out = O.lanes_out outside.new }) × (W.written output.new ≡ W.written output.old) }
    ensures output { IsErrOf result Stopped.Output → (I.faults input.new ≡ I.faults input.old) × Rose (W.faults output.old) (W.faults output.new) }
    ensures cut { IsErrOf result Stopped.Output → OfTold (I.left input.old) (λ lines. AdminCut store.now lines (record { stores = O.stores outside.old; waiting = O.waiting outside.old; kept_back = O.kept_back outside.old; returned = O.returned outside.old; sessions = O.Archive.sessions outside.old; faults = O.faults outside.old; keepers_out = O.keepers_out outside.old; lanes_out = O.lanes_out outside.old }) (record { stores = O.stores outside.new; waiting = O.waiting outside.new; kept_back = O.kept_back outside.new; returned = O.returned outside.new; sessions = O.Archive.sessions outside.new; faults = O.faults outside.new; keepers_out = O.keepers_out outside.new; lanes_out = O.lanes_out outside.new }) (W.written output.old) (W.written output.new)) }
    ensures memory { IsErrOf result Stopped.Memory → OfTold (I.left input.old) (λ lines. AdminWantsMemory store.now lines (record { stores = O.stores outside.old; waiting = O.waiting outside.old; kept_back = O.kept_back outside.old; returned = O.returned outside.old; sessions = O.Archive.sessions outside.old; faults = O.faults outside.old; keepers_out = O.keepers_out outside.old; lanes_out = O.lanes_out outside.old }) (record { stores = O.stores outside.new; waiting = O.waiting outside.new; kept_back = O.kept_back outside.new; returned = O.returned outside.new; sessions = O.Archive.sessions outside.new; faults = O.faults outside.new; keepers_out = O.keepers_out outside.new; lanes_out = O.lanes_out outside.new }) (W.written output.old) (W.written output.new)) }
    ensures back { AllIsBack (record { stores = O.stores outside.old; waiting = O.waiting outside.old; kept_back = O.kept_back outside.old; returned = O.returned outside.old; sessions = O.Archive.sessions outside.old; faults = O.faults outside.old; keepers_out = O.keepers_out outside.old; lanes_out = O.lanes_out outside.old }) (record { stores = O.stores outside.new; waiting = O.waiting outside.new; kept_back = O.kept_back outside.new; returned = O.returned outside.new; sessions = O.Archive.sessions outside.new; faults = O.faults outside.new; keepers_out = O.keepers_out outside.new; lanes_out = O.lanes_out outside.new }) }
{
    match read_all(alloc, input, SCRIPT_LIMIT) {
        Ok(lines) => carry_out(alloc, store, &lines, output, outside),
        Err(ReadAll::TooLong) => refuse(store, output, outside),
        Err(ReadAll::Fault) => Err(Stopped::Input),
        Err(ReadAll::Memory) => Err(Stopped::Memory),
    }
}

/// Carries out the commands on the input over the tables of a store, says why it stops where it does, and answers the status.
pub fn admin<I: Source, W: Sink, O: Outside<Entry>>(
    alloc: Global,
    store: &str,
    input: &mut I,
    output: &mut W,
    outside: &mut O,
) -> u8
    ensures ends { result ≢ 3 → result ≢ 5 → OfTold (I.left input.old) (λ lines. Administered store.now lines (record { stores = O.stores outside.old; waiting = O.waiting outside.old; kept_back = O.kept_back outside.old; returned = O.returned outside.old; sessions = O.Archive.sessions outside.old; faults = O.faults outside.old; keepers_out = O.keepers_out outside.old; lanes_out = O.lanes_out outside.old }) (record { stores = O.stores outside.new; waiting = O.waiting outside.new; kept_back = O.kept_back outside.new; returned = O.returned outside.new; sessions = O.Archive.sessions outside.new; faults = O.faults outside.new; keepers_out = O.keepers_out outside.new; lanes_out = O.lanes_out outside.new }) (W.written output.old) (W.written output.new) result) }
    ensures memory { result ≡ 5 → OfTold (I.left input.old) (λ lines. AdminWantsMemory store.now lines (record { stores = O.stores outside.old; waiting = O.waiting outside.old; kept_back = O.kept_back outside.old; returned = O.returned outside.old; sessions = O.Archive.sessions outside.old; faults = O.faults outside.old; keepers_out = O.keepers_out outside.old; lanes_out = O.lanes_out outside.old }) (record { stores = O.stores outside.new; waiting = O.waiting outside.new; kept_back = O.kept_back outside.new; returned = O.returned outside.new; sessions = O.Archive.sessions outside.new; faults = O.faults outside.new; keepers_out = O.keepers_out outside.new; lanes_out = O.lanes_out outside.new }) (W.written output.old) (W.written output.new)) }
    ensures fault { result ≡ 3 → AdminFaulted store.now (I.left input.old) (record { stores = O.stores outside.old; waiting = O.waiting outside.old; kept_back = O.kept_back outside.old; returned = O.returned outside.old; sessions = O.Archive.sessions outside.old; faults = O.faults outside.old; keepers_out = O.keepers_out outside.old; lanes_out = O.lanes_out outside.old }) (record { stores = O.stores outside.new; waiting = O.waiting outside.new; kept_back = O.kept_back outside.new; returned = O.returned outside.new; sessions = O.Archive.sessions outside.new; faults = O.faults outside.new; keepers_out = O.keepers_out outside.new; lanes_out = O.lanes_out outside.new }) (record { before = I.faults input.old; now = I.faults input.new }) (record { before = W.faults output.old; now = W.faults output.new }) (W.written output.old) (W.written output.new) }
    ensures read { result ≡ 0 → IsAtEnd (I.left input.new) }
    ensures known { (result ≤ 5) × (result ≢ 2) }
    ensures back { AllIsBack (record { stores = O.stores outside.old; waiting = O.waiting outside.old; kept_back = O.kept_back outside.old; returned = O.returned outside.old; sessions = O.Archive.sessions outside.old; faults = O.faults outside.old; keepers_out = O.keepers_out outside.old; lanes_out = O.lanes_out outside.old }) (record { stores = O.stores outside.new; waiting = O.waiting outside.new; kept_back = O.kept_back outside.new; returned = O.returned outside.new; sessions = O.Archive.sessions outside.new; faults = O.faults outside.new; keepers_out = O.keepers_out outside.new; lanes_out = O.lanes_out outside.new }) }
{
    match carry_out_input(alloc, store, input, output, outside) {
        Ok(status) => status,
        Err(Stopped::Memory) => 5,
        Err(Stopped::Input) => {
            say_fault(output, b"fault input\n");
            3
        }
        Err(Stopped::Keeper) => {
            say_fault(output, b"fault keeper\n");
            3
        }
        Err(Stopped::Output) => {
            say_fault(output, b"fault output\n");
            3
        }
        // No file is asked for.
        Err(Stopped::File) => unreachable!(),
    }
}
