// A connection over a socket.
ghost use Rattle.std.specs.Prelude.{◌≡◌, ◌≤◌, None, length, refl, IfOk};
ghost use Rattle.gateway_outside.specs.Stands.{ConnCounts, IsUnfailed};

use crate::door::Door;
use crate::interrupted::{ATTEMPTS, given_up, is_interrupted};
use crate::link::is_lapse;
use gate_ports::Conn;
use gw_base::{Failed, Shared, Sink, Source, WriteStop};
use std::io::{self, Read, Write};
use std::marker::Model;
use std::net::{Shutdown, TcpStream};
use std::sync::Wait;
use std::time::{Clock, Duration, Instant};

// How many seconds a peer may take for a whole message, and a write for a piece.
const PATIENCE: u64 = 30;

// For how many milliseconds a lane waits for the first bytes of a message.
const LINGER: u64 = 1;

// Where a connection ends, what its peer still sends is dropped, until it is silent for so many milliseconds, or has sent for
// so many seconds. So many reads are never made in that time.
const SILENCE: u64 = 500;

const FAREWELL: u64 = 5;

const READS: u32 = 100_000_000;

/// A connection over a socket. From the first byte of a message its peer has 30 seconds for the whole of it, however many reads
/// that takes: past them a read fails. A write fails after 30 seconds, and where it takes nothing. Where a message begins and the
/// peer is silent for a millisecond, a read answers the end of the input, and the port sets the peer aside until it speaks. So it
/// does behind a message where others wait.
#[derive(Drop)]
pub struct SocketConn<'r, R: Clock> {
    rt: &'r R,
    door: Shared<Door>,
    stream: TcpStream,
    // When the time for the message began.
    since: Instant,
    // The next read begins a message.
    begins: bool,
    // Nothing was read yet: the peer is new or has spoken, so who else waits does not count.
    is_fresh: bool,
    // The socket has the limit for the first bytes of a message.
    has_short_limit: bool,
    // The peer was silent where a message begins.
    rests: bool,
    read_faults: u64,
    write_faults: u64,
}

impl<'r, R: Clock> Model for SocketConn<'r, R> {
    ghost use Rattle.gateway_outside.specs.Stands.{ConnCounts};

    ghost Value = { ConnCounts };

    ghost view = { λ c. record { read_faults = c.read_faults; write_faults = c.write_faults } };
}

/// Prepares the socket of a client that was just accepted.
pub fn prepare(stream: &TcpStream) -> io::Result<()> {
    stream.set_nonblocking(false)?;
    stream.set_write_timeout(Some(Duration::from_secs(PATIENCE)))?;

    // So that no piece of a reply waits for the one before. Where this is refused, replies are slower.
    let _ = stream.set_nodelay(true);
    Ok(())
}

impl<'r, R: Clock> SocketConn<'r, R> {
    // A connection that was just accepted, or whose peer was set aside and has spoken.
    pub(crate) fn begin(rt: &'r R, door: Shared<Door>, stream: TcpStream) -> io::Result<Self>
        ensures { IfOk result IsUnfailed }
    {
        let now = Instant::now(rt)?;
        Ok(SocketConn {
            rt,
            door,
            stream,
            since: now,
            begins: false,
            is_fresh: true,
            has_short_limit: false,
            rests: false,
            read_faults: 0,
            write_faults: 0,
        })
    }

    // For how long what the peer still sends is dropped. Behind a shutdown nobody is waited for.
    fn farewell(&self) -> Duration {
        if self.door.value().is_shut() {
            Duration::from_millis(SILENCE)
        } else {
            Duration::from_secs(FAREWELL)
        }
    }

    // Drops what the peer still sends, for a short time.
    fn drop_rest(&self) -> io::Result<()> {
        let since = Instant::now(self.rt)?;
        self.stream
            .set_read_timeout(Some(Duration::from_millis(SILENCE)))?;
        let mut dropped = [0; 65536];
        for _ in 0..READS {
            match (&self.stream).read(&mut dropped) {
                Ok(0) => return Ok(()),
                Ok(_) => {}
                Err(fault) if is_interrupted(&fault) => {}
                Err(fault) => return Err(fault),
            }
            if since.elapsed(self.rt)? >= self.farewell() {
                return Ok(());
            }
        }
        Ok(())
    }

    // A read that ends where the time for the message does.
    fn read_in_time(&mut self, buf: &mut [u8]) -> io::Result<usize>
        ensures bound { IfOk result (λ n. n ≤ length buf.new) }
        ensures counts { self.new ≡ self.old }
    {
        self.has_short_limit = false;
        for _ in 0..ATTEMPTS {
            // Where nothing is left of the time, the socket refuses the limit.
            let left = Duration::from_secs(PATIENCE).saturating_sub(self.since.elapsed(self.rt)?);
            self.stream.set_read_timeout(Some(left))?;
            match (&self.stream).read(buf) {
                Err(fault) if is_interrupted(&fault) => {}
                read => return read,
            }
        }
        Err(given_up())
    }

    fn write_in_time(&self, piece: &[u8]) -> io::Result<usize>
        ensures bound { IfOk result (λ n. n ≤ length piece.now) }
    {
        for _ in 0..ATTEMPTS {
            match (&self.stream).write(piece) {
                Err(fault) if is_interrupted(&fault) => {}
                wrote => return wrote,
            }
        }
        Err(given_up())
    }
}

impl<'r, R: Clock + Wait> SocketConn<'r, R> {
    // Ends the connection. A peer that was silent where a message begins is set aside. Any other is told that nothing more comes,
    // and what it still sends is dropped for a short time: a connection that is closed over bytes that were not read is reset,
    // and the peer might lose the last answer (RFC 9112, section 9.6).
    pub(crate) fn end(self) -> io::Result<()> {
        if self.rests {
            self.rest();
            return Ok(());
        }
        self.stream.shutdown(Shutdown::Write)?;
        self.drop_rest()
    }

    // Sets the peer aside, unless the door was shut: then its connection is closed.
    fn rest(self) {
        let SocketConn {
            rt,
            door,
            stream,
            ..
        } = self;
        if !door.value().is_shut() {
            door.value().park(rt, stream);
        }
    }

    // Whether the lane is given up before the first bytes of a message are read: the door was shut, or others wait behind a
    // message that was served.
    fn gives_way(&self) -> bool {
        let door = self.door.value();
        door.is_shut() || (!self.is_fresh && door.is_awaited(self.rt))
    }

    // Reads the first bytes of a message, unless the lane is given up or the peer is silent.
    fn read_first(&mut self, buf: &mut [u8]) -> io::Result<usize>
        ensures bound { IfOk result (λ n. n ≤ length buf.new) }
        ensures counts { self.new ≡ self.old }
    {
        if self.gives_way() {
            self.rests = true;
            return Ok(0);
        }
        self.is_fresh = false;
        if !self.has_short_limit {
            self.stream
                .set_read_timeout(Some(Duration::from_millis(LINGER)))?;
            self.has_short_limit = true;
        }
        match (&self.stream).read(buf) {
            Ok(count) => {
                self.begins = false;
                self.since = Instant::now(self.rt)?;
                Ok(count)
            }
            Err(fault) if is_lapse(&fault) || is_interrupted(&fault) => {
                self.rests = true;
                Ok(0)
            }
            Err(fault) => Err(fault),
        }
    }
}

impl<'r, R: Clock + Wait> Source for SocketConn<'r, R> {
    ghost left = { λ _. None };

    ghost faults = { λ c. c.read_faults };

    ghost beside = { λ c. (None, c.write_faults) };

    fn read(&mut self, buf: &mut [u8]) -> Result<usize, Failed> {
        let read = if self.begins {
            self.read_first(buf)
        } else {
            self.read_in_time(buf)
        };
        match read {
            Ok(count) => Ok(count),
            Err(_) => {
                self.read_faults = self.read_faults.saturating_add(1);
                Err(Failed)
            }
        }
    }
}

impl<'r, R: Clock + Wait> Sink for SocketConn<'r, R> {
    ghost written = { λ _. None };

    ghost faults = { λ c. c.write_faults };

    ghost beside = { λ c. (None, c.read_faults) };

    fn write(&mut self, piece: &[u8]) -> Result<usize, WriteStop> {
        match self.write_in_time(piece) {
            Ok(count) if count > 0 => {
                // Where the clock can't be read, the peer has what was left.
                self.since = Instant::now(self.rt).unwrap_or(self.since);
                Ok(count)
            }
            _ => {
                self.write_faults = self.write_faults.saturating_add(1);
                Err(WriteStop::Failed)
            }
        }
    }
}

impl<'r, R: Clock + Wait> Conn for SocketConn<'r, R> {
    ghost reads_beside = { λ _. refl };

    ghost writes_beside = { λ _. refl };

    fn begin_message(&mut self, _held: &[u8]) {
        self.begins = true;
    }
}
