// Writing what is printed.
ghost use Rattle.std.specs.Prelude.{◌≡◌, ◌≢◌, ◌≤◌, IfOk, OnOk, IsErrOf, Err};
ghost use Rattle.std.specs.Io.KnownBytes.{Appends};
ghost use Rattle.gw_base.specs.Outside.{Rose};
ghost use Rattle.gw_base.specs.Whole.{AppendsFront};
ghost use Rattle.gateway_cli.specs.Top.{play_stopped_by, stopped_by};

use crate::stopped::Stopped;
use gw_base::{Sink, WriteStop, write_all};
use play_script::PlayStop;

/// Why the program stops where a write was refused.
pub fn stop_of(stop: WriteStop) -> Stopped
    ensures { result ≡ stopped_by stop }
{
    match stop {
        WriteStop::Failed => Stopped::Output,
        WriteStop::Memory => Stopped::Memory,
    }
}

/// Why the program stops where a play or a load does.
pub fn stop_of_play(stop: PlayStop) -> Stopped
    ensures { result ≡ play_stopped_by stop }
{
    match stop {
        PlayStop::Keeper => Stopped::Keeper,
        PlayStop::Output => Stopped::Output,
        PlayStop::Memory => Stopped::Memory,
    }
}

/// Writes a text and answers a status.
pub fn say<W: Sink>(output: &mut W, text: &[u8], status: u8) -> Result<u8, Stopped>
    ensures status { IfOk result (λ s. s ≡ status) }
    ensures all { OnOk result (Appends (W.written output.old) (W.written output.new) text.now) }
    ensures front { AppendsFront (W.written output.old) (W.written output.new) text.now }
    ensures input { result ≢ Err Stopped.Input }
    ensures file { result ≢ Err Stopped.File }
    ensures keeper { result ≢ Err Stopped.Keeper }
    ensures output { IsErrOf result Stopped.Output → Rose (W.faults output.old) (W.faults output.new) }
{
    match write_all(output, text) {
        Ok(()) => Ok(status),
        Err(stop) => Err(stop_of(stop)),
    }
}

/// One try to say a fault.
pub fn say_fault<W: Sink>(output: &mut W, line: &[u8])
    ensures front { AppendsFront (W.written output.old) (W.written output.new) line.now }
    ensures later { W.faults output.old ≤ W.faults output.new }
{
    let _ = write_all(output, line);
}
