// A port whose failed looks are counted where they can be read.
ghost use Rattle.std.specs.Prelude.{◌≡◌};

use gate_ports::{Accepted, Port};
use gw_base::Failed;
use std::marker::Model;

/// A port that tells how often a look at it has failed.
#[derive(Drop)]
pub struct CountedPort<P> {
    port: P,
    faults: u64,
}

impl<P> Model for CountedPort<P> {
    ghost use Rattle.gateway_machine.specs.Stands.{Counted};

    ghost Value = { Counted P };

    ghost view = { λ p. record { port = p.port; faults = p.faults } };
}

impl<P> CountedPort<P> {
    /// This port, at which no look has failed since.
    pub fn new(port: P) -> Self
        ensures { result ≡ record { port = port; faults = 0 } }
    {
        CountedPort { port, faults: 0 }
    }

    /// How often a look has failed, up to the count's greatest value.
    pub fn faults(&self) -> u64
        ensures { result ≡ self.now.faults }
    {
        self.faults
    }
}

impl<P: Port> Port for CountedPort<P> {
    type Link = P::Link;

    ghost coming = { λ p. P.coming p.port };

    ghost served = { λ p. P.served p.port };

    ghost closed = { λ p. P.closed p.port };

    ghost out = { λ p. P.out p.port };

    ghost faults = { λ p. p.faults };

    fn accept(&mut self) -> Result<Accepted<P::Link>, Failed> {
        let found = self.port.accept();
        if found.is_err() {
            self.faults = self.faults.saturating_add(1);
        }
        found
    }

    fn shut(&mut self) {
        self.port.shut();
    }

    fn done(&mut self, link: P::Link) {
        self.port.done(link);
    }
}
