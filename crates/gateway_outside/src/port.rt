// A port whose connections come from a listener.
ghost use Rattle.std.specs.Prelude.{None, IfOk, IfSome};
ghost use Rattle.gateway_outside.specs.Stands.{PortStand, IsFresh, IsUnfailed};

use crate::conn::SocketConn;
use crate::door::Door;
use gate_ports::{Accepted, Port};
use gw_base::{Failed, Shared};
use std::io;
use std::marker::Model;
use std::sync::Wait;
use std::time::Clock;

/// A port of a listener that several may share. Once one of them was shut, each look of any of them answers `Ended`.
#[derive(Drop)]
pub struct SocketPort<'r, R: Clock> {
    rt: &'r R,
    door: Shared<Door>,
    closed: bool,
    out: bool,
    faults: u64,
}

impl<'r, R: Clock> Model for SocketPort<'r, R> {
    ghost use Rattle.gateway_outside.specs.Stands.{PortStand};

    ghost Value = { PortStand };

    ghost view = { λ p. record { closed = p.closed; out = p.out; faults = p.faults } };
}

impl<'r, R: Clock> SocketPort<'r, R> {
    pub(crate) fn new(rt: &'r R, door: Shared<Door>) -> Self
        ensures { IsFresh result }
    {
        SocketPort {
            rt,
            door,
            closed: false,
            out: false,
            faults: 0,
        }
    }

    /// The number of the port that is listened at, where the system tells it.
    pub fn number(&self) -> Option<u16> {
        self.door.value().number()
    }
}

impl<'r, R: Clock + Wait> SocketPort<'r, R> {
    // Waits for a connection. None where none can be lent now.
    fn look(&self) -> io::Result<Option<SocketConn<'r, R>>>
        ensures { IfOk result (λ found. IfSome found IsUnfailed) }
    {
        let Some(stream) = self.door.value().await_client(self.rt)? else {
            return Ok(None);
        };
        let Ok(door) = self.door.share() else {
            return Ok(None);
        };
        // Where the clock can't be read, the client is let go: that is no fault of the port.
        Ok(SocketConn::begin(self.rt, door, stream).ok())
    }
}

impl<'r, R: Clock + Wait> Port for SocketPort<'r, R> {
    type Link = SocketConn<'r, R>;

    ghost coming = { λ _. None };

    ghost served = { λ _. None };

    ghost closed = { λ p. p.closed };

    ghost out = { λ p. p.out };

    ghost faults = { λ p. p.faults };

    fn accept(&mut self) -> Result<Accepted<SocketConn<'r, R>>, Failed> {
        if self.closed || self.door.value().is_shut() {
            return Ok(Accepted::Ended);
        }
        match self.look() {
            Ok(Some(conn)) => {
                self.out = true;
                Ok(Accepted::Conn(conn))
            }
            Ok(None) if self.door.value().is_shut() => Ok(Accepted::Ended),
            Ok(None) => Ok(Accepted::NotYet),
            Err(_) => {
                self.faults = self.faults.saturating_add(1);
                Err(Failed)
            }
        }
    }

    fn shut(&mut self) {
        self.closed = true;
        self.door.value().shut();
    }

    fn done(&mut self, link: SocketConn<'r, R>) {
        // Where the peer is gone already, nothing is left to be told.
        let _ = link.end();
        self.out = false;
    }
}
