// Where the gateway listens, on one line.
ghost use Rattle.std.specs.Prelude.{◌≡◌, IfOk, OnOk};
ghost use Rattle.std.specs.Io.KnownBytes.{Appends};
ghost use Rattle.gw_base.specs.Outside.{HasWriteCause};
ghost use Rattle.gw_base.specs.Whole.{AppendsFront};
ghost use Rattle.gateway_outside.specs.Announced.{listening};

use gw_base::{Memory, Sink, Text, WriteStop, write_all};
use std::alloc::Global;

#[tactic(auto, unfolding(crate::specs::Announced::listening))]
fn line(alloc: Global, port: u16, lanes: usize) -> Result<Text, Memory>
    ensures { IfOk result (λ line. line ≡ listening port lanes) }
{
    let line = format!(in alloc; "listening on 127.0.0.1:{port} with {lanes} lanes\n")?;
    Ok(Text::of(line))
}

/// Says at which port of the loopback the gateway listens, and with how many lanes. What is refused is a line that is not
/// written, and nothing else: the caller goes on.
#[tactic(auto, using(crate::proofs::Announced::nothing_yet))]
pub fn announce<W: Sink>(
    alloc: Global,
    output: &mut W,
    port: u16,
    lanes: usize,
) -> Result<(), WriteStop>
    ensures all { OnOk result (Appends (W.written output.old) (W.written output.new) (listening port lanes)) }
    ensures front { AppendsFront (W.written output.old) (W.written output.new) (listening port lanes) }
    ensures cause { HasWriteCause (W.faults output.old) (W.faults output.new) result }
    ensures beside { W.beside output.new ≡ W.beside output.old }
{
    let line = line(alloc, port, lanes)?;
    write_all(output, line.as_str().as_bytes())
}
