// Connections and a port in memory.
ghost use Rattle.std.specs.Prelude.{◌≡◌, ◌↔◌, ◌<◌, ◌≤◌, [], ◌∷◌, ◌++◌, Some, All, map, length, min, true, false, refl, IfOk, IsErr, IsErrOf, OnOk, OnErr};
ghost use Rattle.std.specs.Io.KnownBytes.{ReadConsumes, WriteAppends};
ghost use Rattle.gw_base.specs.Feed.{is_listed as is_listed_in, raised, fed, unfed, laid, unlaid};
ghost use Rattle.gw_base.specs.Outside.{HasCause, HasWriteCause};
ghost use Rattle.gate_ports.specs.Docks.{coming_of, served_of, IsUnwritten, Looks};
ghost use Rattle.gate_ports.specs.Lending.{IfLent, is_ended};

use crate::conn::Conn;
use crate::port::{Accepted, Port};
use gw_base::{Failed, MemSink, MemSource, Sink, Source, WriteStop};
use std::marker::Model;

/// A connection in memory: what is read on it and what was written.
#[derive(Drop)]
pub struct MemConn {
    source: MemSource,
    sink: MemSink,
}

impl Model for MemConn {
    ghost use Rattle.gate_ports.specs.Docks.{ConnFacts};

    ghost Value = { ConnFacts };

    ghost view = { λ c. record { source = c.source; sink = c.sink } };
}

impl MemConn {
    /// A connection on which the source is read and the sink written.
    pub fn new(source: MemSource, sink: MemSink) -> Self
        ensures { result ≡ record { source = source; sink = sink } }
    {
        MemConn { source, sink }
    }

    /// What was written.
    pub fn written(&self) -> &[u8]
        ensures { result.now ≡ self.now.sink.written }
    {
        self.sink.bytes()
    }
}

impl Source for MemConn {
    ghost left = { λ c. Some c.source.left };

    ghost faults = { λ c. c.source.faults };

    ghost beside = { λ c. (Some c.sink.written, c.sink.faults) };

    // It reads as its source does, and its sink stays.
    fn read(&mut self, buf: &mut [u8]) -> Result<usize, Failed>
        requires { 0 < length buf.old }
        ensures bound { IfOk result (λ n. n ≤ length buf.new) }
        ensures bytes { ReadConsumes (Some self.old.source.left) (Some self.new.source.left) result buf.new }
        ensures cause { HasCause self.old.source.faults self.new.source.faults result }
        ensures numbered { IsErr result ↔ (is_listed_in self.old.source.fails self.old.source.calls ≡ true) }
        ensures given { IfOk result (λ n. n ≡ min (min (length buf.old) self.old.source.step) (length self.old.source.left)) }
        ensures after { IfOk result (λ n. self.new ≡ record self.old { source = fed self.old.source n }) }
        ensures failed { OnErr result (self.new ≡ record self.old { source = unfed self.old.source }) }
    {
        self.source.read(buf)
    }
}

impl Sink for MemConn {
    ghost written = { λ c. Some c.sink.written };

    ghost faults = { λ c. c.sink.faults };

    ghost beside = { λ c. (Some c.source.left, c.source.faults) };

    // It writes as its sink does, and its source stays.
    fn write(&mut self, piece: &[u8]) -> Result<usize, WriteStop>
        requires { 0 < length piece.now }
        ensures bound { IfOk result (λ n. n ≤ length piece.now) }
        ensures some { IfOk result (λ n. 0 < n) }
        ensures bytes { WriteAppends (Some self.old.sink.written) (Some self.new.sink.written) result piece.now }
        ensures cause { HasWriteCause self.old.sink.faults self.new.sink.faults result }
        ensures numbered { IsErrOf result WriteStop.Failed ↔ (is_listed_in self.old.sink.fails self.old.sink.calls ≡ true) }
        ensures taken { IfOk result (λ n. n ≡ length piece.now) }
        ensures after { OnOk result (self.new ≡ record self.old { sink = laid self.old.sink piece.now }) }
        ensures failed { IsErrOf result WriteStop.Failed → self.new ≡ record self.old { sink = unlaid self.old.sink } }
        ensures memory { IsErrOf result WriteStop.Memory → self.new ≡ record self.old { sink = record self.old.sink { calls = raised self.old.sink.calls } } }
    {
        self.sink.write(piece)
    }
}

impl Conn for MemConn {
    ghost reads_beside = { λ _. refl };

    ghost writes_beside = { λ _. refl };

    // A connection in memory has all its bytes: it is never silent.
    fn begin_message(&mut self, _held: &[u8])
        ensures same { self.new ≡ self.old }
    {}
}

/// A port that lends the connections of a list, and then has ended. The looks of the given numbers, counted from 0, fail,
/// and no others. A look that lends moves the connections that stand behind it, so that none takes memory.
#[derive(Drop)]
pub struct MemPort {
    // Those that are to come, and behind them those that were given back.
    conns: Vec<MemConn>,
    coming: usize,
    closed: bool,
    out: bool,
    fails: Vec<u32>,
    calls: u64,
    faults: u64,
}

impl Model for MemPort {
    ghost use Rattle.std.specs.Prelude.{◌≡◌, ◌≤◌, ◌<◌, take, drop, true, All, vec_len, vec_capacity};
    ghost use Rattle.gate_ports.specs.Docks.{PortFacts, IsUnwritten};

    ghost Value = { PortFacts };

    ghost view = { λ p. record {
      coming = take p.coming p.conns.items;
      served = drop p.coming p.conns.items;
      closed = p.closed;
      out = p.out;
      fails = p.fails.items;
      calls = p.calls;
      faults = p.faults;
    } };

    // A connection that is out has left its room, so giving it back takes no memory.
    ghost invariant = { λ p. (p.coming ≤ vec_len p.conns) × (p.out ≡ true → vec_len p.conns < vec_capacity p.conns) × All IsUnwritten (take p.coming p.conns.items) };
}

impl MemPort {
    /// A port that lends these connections in their order.
    pub fn new(conns: Vec<MemConn>, fails: Vec<u32>) -> Self
        requires { All IsUnwritten conns.items }
        ensures { result ≡ record { coming = conns.items; served = []; closed = false; out = false; fails = fails.items; calls = 0; faults = 0 } }
    {
        let coming = conns.len();
        MemPort {
            conns,
            coming,
            closed: false,
            out: false,
            fails,
            calls: 0,
            faults: 0,
        }
    }

    /// The connections that were given back, oldest first.
    pub fn served(&self) -> &[MemConn]
        ensures { result.now ≡ self.now.served }
    {
        &self.conns[self.coming..]
    }
}

fn is_listed(fails: &[u32], call: u64) -> bool
    ensures { result ≡ is_listed_in fails.now call }
{
    fails.iter().any(|n| *n as u64 == call)
}

impl Port for MemPort {
    type Link = MemConn;

    ghost coming = { λ p. Some (map coming_of p.coming) };

    ghost served = { λ p. Some (map served_of p.served) };

    ghost closed = { λ p. p.closed };

    ghost out = { λ p. p.out };

    ghost faults = { λ p. p.faults };

    fn accept(&mut self) -> Result<Accepted<MemConn>, Failed>
        requires { self.old.out ≡ false }
        ensures look { Looks result self.old self.new }
        ensures unwritten { IfLent result IsUnwritten }

        // The looks whose numbers are listed fail, and no others; once the port was shut, none does.
        ensures numbered { IsErr result ↔ ((self.old.closed ≡ false) × (is_listed_in self.old.fails self.old.calls ≡ true)) }
        ensures shut { self.old.closed ≡ true → is_ended result ≡ true }
        ensures cause { HasCause self.old.faults self.new.faults result }
    {
        let call = self.calls;
        self.calls = call.saturating_add(1);
        if self.closed {
            return Ok(Accepted::Ended);
        }
        if is_listed(&self.fails, call) {
            self.faults = self.faults.saturating_add(1);
            return Err(Failed);
        }
        if self.coming == 0 {
            return Ok(Accepted::Ended);
        }
        self.coming -= 1;
        self.out = true;
        Ok(Accepted::Conn(self.conns.remove(0)))
    }

    fn shut(&mut self)
        ensures closed { self.new ≡ record self.old { closed = true } }
    {
        self.closed = true;
    }

    fn done(&mut self, link: MemConn)
        requires { self.old.out ≡ true }
        ensures given_back { self.new ≡ record self.old { served = self.old.served ++ link ∷ []; out = false } }
    {
        let _ = self.conns.push(link);
        self.out = false;
    }
}
