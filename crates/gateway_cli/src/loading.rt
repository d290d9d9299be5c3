// The command `load`.
ghost use Rattle.std.specs.Prelude.{◌≡◌, ◌≢◌, ◌≤◌, true, IfOk, OnErr, IsErrOf, Err};
ghost use Rattle.gw_base.specs.Outside.{Rose};
ghost use Rattle.gateway_cli.specs.Top.{Says};
ghost use Rattle.load_command.specs.Loading.{LoadedFront, LoadedWithin};
ghost use Rattle.play_script.specs.Play.{SaysFront, is_command_status, session_limits};

use crate::limits::SESSION_LIMITS;
use crate::say::stop_of_play;
use crate::stopped::Stopped;
use gw_base::Sink;
use load_command::load_within;
use std::alloc::Global;
use std::sync::Wait;

/// Plays so many calls that a seed makes up, and prints their summary.
pub fn load<W: Sink, R: Wait>(
    rt: &R,
    alloc: Global,
    seed: u64,
    calls: u64,
    output: &mut W,
) -> Result<u8, Stopped>
    requires { calls ≤ 300000 }
    ensures answered { IfOk result (Says (W.written output.old) (W.written output.new) (LoadedWithin session_limits seed calls)) }
    ensures front { OnErr result (SaysFront (W.written output.old) (W.written output.new) (LoadedFront session_limits seed calls)) }
    ensures known { IfOk result (λ status. is_command_status status ≡ true) }
    ensures input { result ≢ Err Stopped.Input }
    ensures file { result ≢ Err Stopped.File }
    ensures keeper { result ≢ Err Stopped.Keeper }
    ensures output { IsErrOf result Stopped.Output → Rose (W.faults output.old) (W.faults output.new) }
{
    match load_within(rt, alloc, SESSION_LIMITS, seed, calls, output) {
        Ok(status) => Ok(status),
        Err(stop) => Err(stop_of_play(stop)),
    }
}
