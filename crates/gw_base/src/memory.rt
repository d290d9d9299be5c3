// A source and a sink in memory, whose numbered calls fail.
ghost use Rattle.std.specs.Prelude.{◌≡◌, ◌+◌, ◌-◌, ◌^◌, ◌<◌, ◌≤◌, ◌==◌, ◌↔◌, [], List, ℕ, Some, None, length, min, take, drop, true, IfOk, IsErr, IsErrOf, OnOk, OnErr};
ghost use Rattle.std.specs.Io.KnownBytes.{ReadConsumes, WriteAppends};
ghost use Rattle.std.specs.List.{list_any};
ghost use Rattle.gw_base.specs.Outside.{HasCause, HasWriteCause};
ghost use Rattle.gw_base.specs.Feed.{is_listed as is_listed_in, raised, fed, unfed, laid, unlaid};

use crate::outside::{Failed, Sink, Source, WriteStop};
use std::alloc::Global;
use std::marker::Model;

/// Bytes in memory, given in pieces of at most `step` bytes. The calls of the given numbers, counted from 0, fail, and
/// no others.
#[derive(Drop)]
pub struct MemSource {
    bytes: Vec<u8>,
    at: usize,
    step: usize,
    fails: Vec<u32>,
    calls: u64,
    faults: u64,
}

impl Model for MemSource {
    ghost use Rattle.std.specs.Prelude.{◌<◌, ◌≤◌, ℕ, length, drop};
    ghost use Rattle.gw_base.specs.Feed.{Feed};

    ghost Value = { Feed };

    ghost view = { λ s. record { left = drop s.at s.bytes.items; step = s.step; fails = s.fails.items; calls = s.calls; faults = s.faults } };

    ghost invariant = { λ s. (s.at ≤ length s.bytes.items) × (0 < s.step) };
}

impl MemSource {
    /// A source of these bytes, of which no call was made.
    pub fn new(bytes: Vec<u8>, step: usize, fails: Vec<u32>) -> Self
        requires { 0 < step }
        ensures { result ≡ record { left = bytes.items; step = step; fails = fails.items; calls = 0; faults = 0 } }
    {
        MemSource {
            bytes,
            at: 0,
            step,
            fails,
            calls: 0,
            faults: 0,
        }
    }
}

fn is_listed(fails: &[u32], call: u64) -> bool
    ensures { result ≡ is_listed_in fails.now call }
{
    fails.iter().any(|n| *n as u64 == call)
}

impl Source for MemSource {
    ghost left = { λ s. Some s.left };

    ghost faults = { λ s. s.faults };

    ghost beside = { λ _. (None, 0) };

    fn read(&mut self, buf: &mut [u8]) -> Result<usize, Failed>
        requires { 0 < length buf.old }
        ensures bound { IfOk result (λ n. n ≤ length buf.new) }
        ensures bytes { ReadConsumes (Some self.old.left) (Some self.new.left) result buf.new }
        ensures cause { HasCause self.old.faults self.new.faults result }

        // The calls whose numbers are listed fail, and no others.
        ensures numbered { IsErr result ↔ (is_listed_in self.old.fails self.old.calls ≡ true) }

        // It gives as many bytes as fit the buffer and the step.
        ensures given { IfOk result (λ n. n ≡ min (min (length buf.old) self.old.step) (length self.old.left)) }
        ensures after { IfOk result (λ n. self.new ≡ fed self.old n) }
        ensures failed { OnErr result (self.new ≡ unfed self.old) }
    {
        let call = self.calls;
        self.calls = call.saturating_add(1);
        if is_listed(&self.fails, call) {
            self.faults = self.faults.saturating_add(1);
            return Err(Failed);
        }
        let n = buf.len().min(self.step).min(self.bytes.len() - self.at);
        buf[..n].copy_from_slice(&self.bytes[self.at..self.at + n]);
        self.at += n;
        Ok(n)
    }
}

/// Bytes that were written to memory. The calls of the given numbers, counted from 0, fail, and no others; a growth
/// that is refused is want of memory and no fault.
#[derive(Drop)]
pub struct MemSink {
    bytes: Vec<u8>,
    fails: Vec<u32>,
    calls: u64,
    faults: u64,
}

impl Model for MemSink {
    ghost use Rattle.std.specs.Prelude.{ℕ};
    ghost use Rattle.gw_base.specs.Feed.{Tray};

    ghost Value = { Tray };

    ghost view = { λ s. record { written = s.bytes.items; fails = s.fails.items; calls = s.calls; faults = s.faults } };
}

impl MemSink {
    /// A sink on which nothing was written.
    pub fn new(alloc: Global, fails: Vec<u32>) -> Self
        ensures { result ≡ record { written = []; fails = fails.items; calls = 0; faults = 0 } }
    {
        MemSink {
            bytes: Vec::new(alloc),
            fails,
            calls: 0,
            faults: 0,
        }
    }

    /// What was written.
    pub fn bytes(&self) -> &[u8]
        ensures { result.now ≡ self.now.written }
    {
        self.bytes.as_slice()
    }
}

impl Sink for MemSink {
    ghost written = { λ s. Some s.written };

    ghost faults = { λ s. s.faults };

    ghost beside = { λ _. (None, 0) };

    fn write(&mut self, piece: &[u8]) -> Result<usize, WriteStop>
        requires { 0 < length piece.now }
        ensures bound { IfOk result (λ n. n ≤ length piece.now) }
        ensures some { IfOk result (λ n. 0 < n) }
        ensures bytes { WriteAppends (Some self.old.written) (Some self.new.written) result piece.now }
        ensures cause { HasWriteCause self.old.faults self.new.faults result }

        // The calls whose numbers are listed fail, and no others.
        ensures numbered { IsErrOf result WriteStop.Failed ↔ (is_listed_in self.old.fails self.old.calls ≡ true) }

        // It takes the whole piece.
        ensures taken { IfOk result (λ n. n ≡ length piece.now) }
        ensures after { OnOk result (self.new ≡ laid self.old piece.now) }
        ensures failed { IsErrOf result WriteStop.Failed → self.new ≡ unlaid self.old }
        ensures memory { IsErrOf result WriteStop.Memory → self.new ≡ record self.old { calls = raised self.old.calls } }
    {
        let call = self.calls;
        self.calls = call.saturating_add(1);
        if is_listed(&self.fails, call) {
            self.faults = self.faults.saturating_add(1);
            return Err(WriteStop::Failed);
        }
        match self.bytes.extend_from_slice(piece) {
            Ok(()) => Ok(piece.len()),
            Err(_) => Err(WriteStop::Memory),
        }
    }
}
