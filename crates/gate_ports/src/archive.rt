// Who takes the histories of closed sessions.
ghost use Rattle.std.specs.Prelude.{◌≡◌, List, Option, OnOk, OnErr};
ghost use Rattle.backend_core.specs.Exchanges.{gained};

use gw_base::Memory;

/// Takes the histories of closed sessions, each a list of entries.
pub trait Archive<E> {
    /// What the implementor picks to be left as it is.
    ghost Beside: { Type 0 };

    /// The histories so far, oldest first, where it tells them.
    ghost sessions: { Self → Option (List (List E)) };

    /// What `closed` leaves as it is.
    ghost beside: { Self → Beside };

    /// Takes a history. Where memory is wanting nothing changes.
    fn closed(&mut self, history: Vec<E>) -> Result<(), Memory>
        ensures taken { OnOk result (sessions self.new ≡ gained (sessions self.old) history.items) }
        ensures refused { OnErr result (sessions self.new ≡ sessions self.old) }
        ensures beside { beside self.new ≡ beside self.old };
}
