// One exchange over a connection to a backend.
ghost use Rattle.std.specs.Prelude.{◌≡◌, ◌&&◌, nat_le, IsErrOf, if◌then◌else◌};
ghost use Rattle.gw_base.specs.Outside.{Rose};
ghost use Rattle.backend_core.specs.declared.outcome.Outcome.TheVariants as outcome;
ghost use Rattle.gateway_outside.specs.Exchanges.{BeginsWith, CameTo, Heard, LinkTold};

use backend_core::Outcome;
use call_facts::WireReply;
use gw_base::{Sink, Source, WriteStop, write_all};
use http_edge::{Buffer, EdgeFault, next_reply};
use std::alloc::Global;

/// A connection to a backend: what comes in on it and what goes out, each read and write within the time of the exchange.
/// Reading leaves what was written and the count of failed writes, and writing leaves what is left and the count of failed
/// reads.
pub trait Line: Source + Sink {
    ghost use Rattle.std.specs.Prelude.{Bool};

    /// Whether the last call that failed had run out of time.
    ghost lapsed: { Self → Bool };

    /// Whether the last call that failed had run out of time.
    fn has_lapsed(&self) -> bool
        ensures { result ≡ lapsed self.now };

    ghost reads_beside: { (c : Self) → Self.Source.beside c ≡ (Self.written c, Self.Sink.faults c) };

    ghost writes_beside: { (c : Self) → Self.Sink.beside c ≡ (Self.left c, Self.Source.faults c) };
}

// What the bytes that come begin with.
fn read_reply<L: Line>(alloc: Global, line: &mut L, bodiless: bool) -> Result<WireReply, EdgeFault>
    ensures next { BeginsWith bodiless (L.left line.old) (L.left line.new) result }
    ensures fault { IsErrOf result EdgeFault.ReadFault → Rose (L.Source.faults line.old) (L.Source.faults line.new) }
    ensures written { L.written line.new ≡ L.written line.old }
    ensures write_faults { L.Sink.faults line.new ≡ L.Sink.faults line.old }
{
    let mut held = Buffer::new(alloc);
    next_reply(alloc, line, &mut held, bodiless)
}

// A reply counts where its status is one of HTTP that is not interim.
fn replied(reply: WireReply) -> Outcome
    ensures { result ≡ if nat_le 200 reply.status && nat_le reply.status 999 then outcome.Reply reply else outcome.Failed }
{
    if 200 <= reply.status && reply.status <= 999 {
        Outcome::Reply(reply)
    } else {
        Outcome::Failed
    }
}

// What an exchange comes to in which a call failed.
fn broken_off(lapsed: bool) -> Outcome
    ensures { result ≡ if lapsed then outcome.TimedOut else outcome.Failed }
{
    if lapsed {
        Outcome::TimedOut
    } else {
        Outcome::Failed
    }
}

// Hears the reply.
fn hear<L: Line>(alloc: Global, line: &mut L, bodiless: bool) -> Outcome
    ensures heard { Heard bodiless (record { left = L.left line.old; written = L.written line.old; read_faults = L.Source.faults line.old; write_faults = L.Sink.faults line.old; lapsed = L.lapsed line.old }) (record { left = L.left line.new; written = L.written line.new; read_faults = L.Source.faults line.new; write_faults = L.Sink.faults line.new; lapsed = L.lapsed line.new }) result }
    ensures written { L.written line.new ≡ L.written line.old }
    ensures write_faults { L.Sink.faults line.new ≡ L.Sink.faults line.old }
{
    match read_reply(alloc, line, bodiless) {
        Ok(reply) => replied(reply),
        Err(EdgeFault::Memory) => Outcome::Memory,
        Err(EdgeFault::ReadFault) => broken_off(line.has_lapsed()),
        Err(_) => Outcome::Failed,
    }
}

/// Sends a request and reads the reply; `bodiless` is true for a HEAD request. Where a write fails and time is left, the
/// reply is read all the same: a backend may answer before it has read the whole request (RFC 9112, section 9.5).
pub fn exchange_over<L: Line>(
    alloc: Global,
    line: &mut L,
    request: &[u8],
    bodiless: bool,
) -> Outcome
    ensures came { CameTo bodiless request.now
        (record { left = L.left line.old; written = L.written line.old; read_faults = L.Source.faults line.old; write_faults = L.Sink.faults line.old; lapsed = L.lapsed line.old })
        (record { left = L.left line.new; written = L.written line.new; read_faults = L.Source.faults line.new; write_faults = L.Sink.faults line.new; lapsed = L.lapsed line.new })
        result }
{
    match write_all(line, request) {
        Ok(()) => hear(alloc, line, bodiless),
        Err(WriteStop::Memory) => Outcome::Memory,
        Err(WriteStop::Failed) => {
            if line.has_lapsed() {
                Outcome::TimedOut
            } else {
                hear(alloc, line, bodiless)
            }
        }
    }
}
