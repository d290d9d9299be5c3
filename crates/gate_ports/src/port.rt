// Where connections come from.
ghost use Rattle.std.specs.Prelude.{◌≡◌, ◌≤◌, ℕ, List, [], Option, IfSome, Bool, true, false};
ghost use Rattle.gw_base.specs.Outside.{HasCause};
ghost use Rattle.gate_ports.specs.Facts.{ComingFacts, ServedFacts};
ghost use Rattle.gate_ports.specs.Lending.{IfLent, Lent, GivenBack, HasNoMore, is_lent, is_ended};

use crate::conn::Conn;
use gw_base::Failed;

/// What a look for a connection found.
#[derive(Drop)]
pub enum Accepted<L> {
    /// This connection, which is lent until it is given back.
    Conn(L),
    /// None for now.
    NotYet,
    /// None, and none will come.
    Ended,
}

/// Where connections come from. It lends one at a time, and may tell which are to come and which were given back.
pub trait Port {
    /// A connection that is lent.
    type Link: Conn;

    /// The connections that are not accepted yet, the next first, where it tells them.
    ghost coming: { Self → Option (List ComingFacts) };

    /// The connections that were given back, oldest first, where it tells them.
    ghost served: { Self → Option (List ServedFacts) };

    /// Whether it was shut.
    ghost closed: { Self → Bool };

    /// Whether a connection is out.
    ghost out: { Self → Bool };

    /// How often a look has failed, up to the count's greatest value.
    ghost faults: { Self → ℕ };

    /// Looks for a connection, which is then lent.
    fn accept(&mut self) -> Result<Accepted<Self::Link>, Failed>
        requires { out self.old ≡ false }
        ensures lent { IfLent result (λ c. Lent (record { left = Self.Link.left c; written = Self.Link.written c; read_faults = Self.Link.Source.faults c; write_faults = Self.Link.Sink.faults c }) (coming self.old) (coming self.new)) }
        ensures unwritten { IfLent result (λ c. IfSome (Self.Link.written c) (λ bytes. bytes ≡ [])) }
        ensures none { is_lent result ≡ false → coming self.new ≡ coming self.old }
        ensures ended { is_ended result ≡ true → HasNoMore (coming self.old) (closed self.old) }
        ensures shut { closed self.old ≡ true → is_ended result ≡ true }
        ensures out { out self.new ≡ is_lent result }
        ensures served { served self.new ≡ served self.old }
        ensures closed { closed self.new ≡ closed self.old }
        ensures cause { HasCause (faults self.old) (faults self.new) result };

    /// Ends the looks: each one from now on answers `Ended`. What is to come stays where it is.
    fn shut(&mut self)
        ensures closed { closed self.new ≡ true }
        ensures coming { coming self.new ≡ coming self.old }
        ensures served { served self.new ≡ served self.old }
        ensures out { out self.new ≡ out self.old }
        ensures faults { faults self.old ≤ faults self.new };

    /// Gives back the connection that is out. It takes no memory.
    fn done(&mut self, link: Self::Link)
        requires { out self.old ≡ true }
        ensures served { GivenBack (record { left = Self.Link.left link; written = Self.Link.written link; read_faults = Self.Link.Source.faults link; write_faults = Self.Link.Sink.faults link }) (served self.old) (served self.new) }
        ensures coming { coming self.new ≡ coming self.old }
        ensures closed { closed self.new ≡ closed self.old }
        ensures out { out self.new ≡ false }
        ensures faults { faults self.old ≤ faults self.new };
}
