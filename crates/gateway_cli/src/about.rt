// What the program says of itself.
ghost use Rattle.std.specs.Prelude.{◌≡◌, ◌≢◌, IfOk, IsErrOf, Err};
ghost use Rattle.gw_base.specs.Outside.{Rose};
ghost use Rattle.gw_base.specs.Whole.{AppendsFront};
ghost use Rattle.gateway_cli.specs.Commands.{help, usage, version};
ghost use Rattle.gateway_cli.specs.Top.{Answered};

use crate::say::say;
use crate::stopped::Stopped;
use gw_base::Sink;

/// The commands, a line each.
pub const HELP: &[u8] = b"usage: gateway COMMAND
  serve STORE PORT LANES    serves 127.0.0.1:PORT, over 1 to 8 lanes
  admin STORE               carries out the commands on standard input
  play                      plays the script on standard input
  check FILE                tells whether a file is the definition of an API
  render TEMPLATE BODY      prints what a template gives over a body
  load SEED N               plays 1 to 300000 calls that a seed makes up, and prints their summary
  help                      prints this
  version                   prints the version of the program, and that of its stores
";

/// The version of the program, and that of the stores which it makes and takes.
const VERSION: &[u8] = b"gateway 0.3.0
store 1
";

/// Says that the words are none of a command.
pub fn say_usage<W: Sink>(output: &mut W) -> Result<u8, Stopped>
    ensures answered { IfOk result (λ status. Answered (W.written output.old) (W.written output.new) usage status) }
    ensures front { AppendsFront (W.written output.old) (W.written output.new) usage.text }
    ensures known { IfOk result (λ status. status ≡ 2) }
    ensures input { result ≢ Err Stopped.Input }
    ensures file { result ≢ Err Stopped.File }
    ensures keeper { result ≢ Err Stopped.Keeper }
    ensures output { IsErrOf result Stopped.Output → Rose (W.faults output.old) (W.faults output.new) }
{
    say(output, b"usage\n", 2)
}

/// Says which commands there are.
#[tactic(auto, unfolding(crate::specs::Commands::help_text))]
pub fn say_help<W: Sink>(output: &mut W) -> Result<u8, Stopped>
    ensures answered { IfOk result (λ status. Answered (W.written output.old) (W.written output.new) help status) }
    ensures front { AppendsFront (W.written output.old) (W.written output.new) help.text }
    ensures known { IfOk result (λ status. status ≡ 0) }
    ensures input { result ≢ Err Stopped.Input }
    ensures file { result ≢ Err Stopped.File }
    ensures keeper { result ≢ Err Stopped.Keeper }
    ensures output { IsErrOf result Stopped.Output → Rose (W.faults output.old) (W.faults output.new) }
{
    say(output, HELP, 0)
}

/// Says which version the program has.
#[tactic(auto, unfolding(crate::specs::Commands::version_text))]
pub fn say_version<W: Sink>(output: &mut W) -> Result<u8, Stopped>
    ensures answered { IfOk result (λ status. Answered (W.written output.old) (W.written output.new) version status) }
    ensures front { AppendsFront (W.written output.old) (W.written output.new) version.text }
    ensures known { IfOk result (λ status. status ≡ 0) }
    ensures input { result ≢ Err Stopped.Input }
    ensures file { result ≢ Err Stopped.File }
    ensures keeper { result ≢ Err Stopped.Keeper }
    ensures output { IsErrOf result Stopped.Output → Rose (W.faults output.old) (W.faults output.new) }
{
    say(output, VERSION, 0)
}
