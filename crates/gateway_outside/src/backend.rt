// A backend over sockets.
ghost use Rattle.std.specs.Prelude.{◌≡◌, None};
ghost use Rattle.backend_core.specs.Exchanges.{HasStatus};

use crate::exchange::exchange_over;
use crate::link::{Link, Patience, is_lapse};
use backend_core::{Backend, Outcome, WireRequest};
use std::alloc::Global;
use std::marker::Model;
use std::net::{Net, TcpListener, TcpStream};
use std::time::Clock;

/// A backend over sockets of the loopback: one connection for each exchange, to 127.0.0.1 at the request's port, and under
/// the name `localhost` to `::1` where that is refused. All of an
/// exchange, from its connection to the last byte of its reply, has the time of the request.
#[derive(Drop)]
pub struct SocketBackend<'r, R> {
    rt: &'r R,
    faults: u64,
    lapses: u64,
}

impl<'r, R> Model for SocketBackend<'r, R> {
    ghost use Rattle.gateway_outside.specs.Stands.{BackendCounts};

    ghost Value = { BackendCounts };

    ghost view = { λ b. record { faults = b.faults; lapses = b.lapses } };
}

impl<'r, R> SocketBackend<'r, R> {
    /// The backends of this runtime's loopback, none of whose exchanges has failed.
    pub fn new(rt: &'r R) -> Self
        ensures { result ≡ record { faults = 0; lapses = 0 } }
    {
        SocketBackend {
            rt,
            faults: 0,
            lapses: 0,
        }
    }
}

// Whether it is 127.0.0.1 by one of the two names that a uri has for it.
fn is_loopback(host: &str) -> bool {
    host == "127.0.0.1" || host == "localhost"
}

// What an exchange comes to for which there is no connection.
fn unconnected(lapsed: bool) -> Outcome
    ensures { HasStatus result }
{
    if lapsed {
        Outcome::TimedOut
    } else {
        Outcome::Failed
    }
}

fn ask<'r, R: Net<Listener = TcpListener, Stream = TcpStream> + Clock>(
    rt: &'r R,
    alloc: Global,
    request: &WireRequest,
) -> Outcome
    ensures { HasStatus result }
{
    if !is_loopback(request.host.as_str()) {
        return Outcome::Failed;
    }
    let Ok(patience) = Patience::begin(rt, request.timeout) else {
        return Outcome::Failed;
    };
    let bytes = request.bytes.as_slice();
    match Link::open(patience, request.host.as_str(), request.port) {
        Ok(mut link) => exchange_over(alloc, &mut link, bytes, bytes.starts_with(b"HEAD ")),
        Err(fault) => unconnected(is_lapse(&fault)),
    }
}

impl<'r, R: Net<Listener = TcpListener, Stream = TcpStream> + Clock> Backend
    for SocketBackend<'r, R> {
    ghost sent = { λ _. None };

    ghost given = { λ _. None };

    ghost to_come = { λ _. None };

    ghost faults = { λ b. b.faults };

    ghost lapses = { λ b. b.lapses };

    ghost tells_given = { λ _ told. told };

    fn exchange(&mut self, alloc: Global, request: &WireRequest) -> Outcome {
        let outcome = ask(self.rt, alloc, request);
        match &outcome {
            Outcome::Failed => self.faults = self.faults.saturating_add(1),
            Outcome::TimedOut => self.lapses = self.lapses.saturating_add(1),
            Outcome::Reply(_) | Outcome::Memory => {}
        }
        outcome
    }
}
