// What is passed before an exchange.

/// Passed before each exchange with a backend, while no turn at the book is held.
pub trait Gate {
    /// Returns when the exchange may begin. `place` is that of the request's first entry in the history.
    fn pass(&self, place: u64);
}

/// A gate that stands open: it returns at once.
#[derive(Clone, Copy, Debug, Drop, PartialEq, Eq)]
pub struct FreeGate;

impl Gate for FreeGate {
    fn pass(&self, _place: u64) {}
}
