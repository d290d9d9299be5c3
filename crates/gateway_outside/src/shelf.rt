// The clients that were set aside, and those that may be served next.
use gw_base::Memory;
use std::alloc::Global;
use std::collections::{BTreeMap, VecDeque};
use std::net::TcpStream;
use std::time::{Clock, Duration, Instant};

/// How many silent clients are kept. Past it the one that was silent longest is let go.
pub const MOST_PARKED: usize = 1024;

// For how many seconds a silent client is kept.
const PATIENCE: u64 = 75;

/// Who may be served next.
#[derive(Drop)]
pub enum Caller {
    /// One that waits at the listener.
    New,
    /// One that was set aside and has spoken, or has closed its connection.
    Parked(TcpStream),
}

// A client that was set aside, and when.
#[derive(Drop)]
struct Parked {
    stream: TcpStream,
    since: Instant,
}

/// The clients that were set aside, and those that may be served next.
#[derive(Drop)]
pub struct Shelf {
    // Under numbers that only rise: the first was silent longest.
    parked: BTreeMap<u64, Parked>,
    next: u64,
    has_new: bool,
    ready: VecDeque<TcpStream>,
}

impl Shelf {
    /// Nobody was set aside, and nobody may be served.
    pub fn new(alloc: Global) -> Self {
        Shelf {
            parked: BTreeMap::new(alloc),
            next: 0,
            has_new: false,
            ready: VecDeque::new(alloc),
        }
    }

    /// The number under which the next client is set aside.
    pub fn next_number(&self) -> u64 {
        self.next
    }

    /// Sets a client aside. Where there are too many, the one that was silent longest is let go.
    pub fn park(&mut self, stream: TcpStream, since: Instant) -> Result<(), Memory> {
        if self.parked.len() >= MOST_PARKED {
            self.let_first_go();
        }
        self.parked.insert(self.next, Parked { stream, since })?;
        self.next = self.next.wrapping_add(1);
        Ok(())
    }

    /// Says that somebody waits at the listener.
    pub fn note_new(&mut self) {
        self.has_new = true;
    }

    /// The client of this number may be served, if it is still there. Where memory runs out it is let go.
    pub fn rouse(&mut self, number: u64) {
        if let Some(parked) = self.parked.remove(&number) {
            let _ = self.ready.push_back(parked.stream);
        }
    }

    /// Whether somebody may be served.
    pub fn has_ready(&self) -> bool {
        self.has_new || !self.ready.is_empty()
    }

    /// Who is served next.
    pub fn next_caller(&mut self) -> Option<Caller> {
        if self.has_new {
            self.has_new = false;
            return Some(Caller::New);
        }
        self.ready.pop_front().map(Caller::Parked)
    }

    /// How long until a client has been silent for too long. A client that is set aside later is not due before that.
    pub fn patience<R: Clock>(&self, rt: &R) -> Duration {
        match self.parked.first_key_value() {
            Some((_, parked)) => patience().saturating_sub(silence(rt, parked)),
            None => patience(),
        }
    }

    /// Lets go of the client that was silent longest, if there is one.
    pub fn let_first_go(&mut self) -> bool {
        self.parked.pop_first().is_some()
    }

    /// Lets go of the clients that have been silent for too long.
    pub fn let_go<R: Clock>(&mut self, rt: &R) {
        for _ in 0..MOST_PARKED {
            match self.parked.first_key_value() {
                Some((_, parked)) if silence(rt, parked) >= patience() => {}
                _ => return,
            }
            self.parked.pop_first();
        }
    }
}

// For how long a silent client is kept.
fn patience() -> Duration {
    Duration::from_secs(PATIENCE)
}

// For how long a client has been silent. Where the clock can't be read it has not been.
fn silence<R: Clock>(rt: &R, parked: &Parked) -> Duration {
    parked.since.elapsed(rt).unwrap_or(Duration::ZERO)
}
