// One connection to a backend.
ghost use Rattle.std.specs.Prelude.{◌≤◌, None, length, refl, IfOk};
ghost use Rattle.gateway_outside.specs.Stands.{LinkStand};

use crate::exchange::Line;
use crate::interrupted::{ATTEMPTS, given_up, is_interrupted};
use gw_base::{Failed, Sink, Source, WriteStop};
use std::io::{self, ErrorKind, Read, Write};
use std::marker::Model;
use std::net::{Ipv4Addr, Ipv6Addr, Net, SocketAddr, TcpListener, TcpStream};
use std::time::{Clock, Duration, Instant};

/// The time of an exchange.
#[derive(Drop)]
pub struct Patience<'r, R> {
    rt: &'r R,
    since: Instant,
    limit: Duration,
}

impl<'r, R: Clock> Patience<'r, R> {
    /// So many milliseconds from now.
    pub fn begin(rt: &'r R, limit: u32) -> io::Result<Self> {
        Ok(Patience {
            rt,
            since: Instant::now(rt)?,
            limit: Duration::from_millis(u64::from(limit)),
        })
    }

    // What is left, and `TimedOut` where nothing is.
    fn left(&self) -> io::Result<Duration> {
        let left = self.limit.saturating_sub(self.since.elapsed(self.rt)?);
        if left.is_zero() {
            return Err(io::Error::from(ErrorKind::TimedOut));
        }
        Ok(left)
    }
}

/// Whether a call of a socket failed since its time ended.
pub fn is_lapse(fault: &io::Error) -> bool {
    matches!(fault.kind(), ErrorKind::TimedOut | ErrorKind::WouldBlock)
}

/// A connection to a backend, for one exchange. Each read and each write of it has what is left of the exchange's time.
#[derive(Drop)]
pub struct Link<'r, R> {
    patience: Patience<'r, R>,
    stream: TcpStream,
    lapsed: bool,
    read_faults: u64,
    write_faults: u64,
}

impl<'r, R> Model for Link<'r, R> {
    ghost use Rattle.gateway_outside.specs.Stands.{LinkStand};

    ghost Value = { LinkStand };

    ghost view = { λ l. record { lapsed = l.lapsed; read_faults = l.read_faults; write_faults = l.write_faults } };
}

// Connects to one address, in what is left of the time.
fn connect<R: Net<Listener = TcpListener, Stream = TcpStream> + Clock>(
    patience: &Patience<'_, R>,
    address: SocketAddr,
) -> io::Result<TcpStream> {
    for _ in 0..ATTEMPTS {
        match TcpStream::connect_timeout(patience.rt, &address, patience.left()?) {
            Err(fault) if is_interrupted(&fault) => {}
            connected => return connected,
        }
    }
    Err(given_up())
}

impl<'r, R: Net<Listener = TcpListener, Stream = TcpStream> + Clock> Link<'r, R> {
    /// Connects to this port of 127.0.0.1. Under the name `localhost`, a port that is refused there is tried at `::1`: some
    /// servers listen at that address alone.
    pub fn open(patience: Patience<'r, R>, host: &str, port: u16) -> io::Result<Self> {
        let address = SocketAddr::from((Ipv4Addr::LOCALHOST, port));
        let stream = match connect(&patience, address) {
            Err(fault) if fault.kind() == ErrorKind::ConnectionRefused && host == "localhost" => {
                connect(&patience, SocketAddr::from((Ipv6Addr::LOCALHOST, port)))?
            }
            connected => connected?,
        };

        // So that no piece of a request waits for the one before. Where this is refused, the request is slower.
        let _ = stream.set_nodelay(true);
        Ok(Link {
            patience,
            stream,
            lapsed: false,
            read_faults: 0,
            write_faults: 0,
        })
    }
}

impl<'r, R: Clock> Link<'r, R> {
    fn read_in_time(&self, buf: &mut [u8]) -> io::Result<usize>
        ensures bound { IfOk result (λ n. n ≤ length buf.new) }
    {
        for _ in 0..ATTEMPTS {
            self.stream.set_read_timeout(Some(self.patience.left()?))?;
            match (&self.stream).read(buf) {
                Err(fault) if is_interrupted(&fault) => {}
                read => return read,
            }
        }
        Err(given_up())
    }

    fn write_in_time(&self, piece: &[u8]) -> io::Result<usize>
        ensures bound { IfOk result (λ n. n ≤ length piece.now) }
    {
        for _ in 0..ATTEMPTS {
            self.stream.set_write_timeout(Some(self.patience.left()?))?;
            match (&self.stream).write(piece) {
                Err(fault) if is_interrupted(&fault) => {}
                wrote => return wrote,
            }
        }
        Err(given_up())
    }
}

impl<'r, R: Clock> Source for Link<'r, R> {
    ghost left = { λ _. None };

    ghost faults = { λ l. l.read_faults };

    ghost beside = { λ l. (None, l.write_faults) };

    fn read(&mut self, buf: &mut [u8]) -> Result<usize, Failed> {
        match self.read_in_time(buf) {
            Ok(count) => Ok(count),
            Err(fault) => {
                self.lapsed = is_lapse(&fault);
                self.read_faults = self.read_faults.saturating_add(1);
                Err(Failed)
            }
        }
    }
}

impl<'r, R: Clock> Sink for Link<'r, R> {
    ghost written = { λ _. None };

    ghost faults = { λ l. l.write_faults };

    ghost beside = { λ l. (None, l.read_faults) };

    fn write(&mut self, piece: &[u8]) -> Result<usize, WriteStop> {
        match self.write_in_time(piece) {
            Ok(count) if count > 0 => Ok(count),
            Ok(_) => {
                self.write_faults = self.write_faults.saturating_add(1);
                Err(WriteStop::Failed)
            }
            Err(fault) => {
                self.lapsed = is_lapse(&fault);
                self.write_faults = self.write_faults.saturating_add(1);
                Err(WriteStop::Failed)
            }
        }
    }
}

impl<'r, R: Clock> Line for Link<'r, R> {
    ghost lapsed = { λ l. l.lapsed };

    ghost reads_beside = { λ _. refl };

    ghost writes_beside = { λ _. refl };

    fn has_lapsed(&self) -> bool {
        self.lapsed
    }
}
