// Giving back what an outside lent.
ghost use Rattle.std.specs.Prelude.{◌≡◌, ◌≤◌, Some, length, map};
ghost use Rattle.outside_core.specs.Lending.{first_of};
ghost use Rattle.outside_core.specs.Told.{told_of};
ghost use Rattle.serve_command.specs.Holding.{AreBack, IsGivenUp};
ghost use Rattle.serve_command.specs.Shelves.{Shelves};

use book_core::Book;
use book_rules::Entry;
use gate_ports::Lane;
use outside_core::Outside;

/// The lanes of an outside.
pub(crate) type LanesOf<O> = Vec<
    Lane<
        <O as Outside<Entry>>::Door,
        <O as Outside<Entry>>::Back,
        <O as Outside<Entry>>::Time,
        <O as Outside<Entry>>::Draw,
        <O as Outside<Entry>>::Hold,
    >,
>;

/// Gives a book's keeper back, where no session was held over it.
pub(crate) fn give_up<O: Outside<Entry>>(outside: &mut O, store: &str, book: Book<O::Keep>)
    requires lent { first_of (O.keepers_out outside.old) ≡ Some store.now }
    ensures { IsGivenUp (record { stores = O.stores outside.old; waiting = O.waiting outside.old; kept_back = O.kept_back outside.old; returned = O.returned outside.old; sessions = O.Archive.sessions outside.old; faults = O.faults outside.old; keepers_out = O.keepers_out outside.old; lanes_out = O.lanes_out outside.old }) (record { stores = O.stores outside.new; waiting = O.waiting outside.new; kept_back = O.kept_back outside.new; returned = O.returned outside.new; sessions = O.Archive.sessions outside.new; faults = O.faults outside.new; keepers_out = O.keepers_out outside.new; lanes_out = O.lanes_out outside.new }) }
{
    let (keeper, _, _) = book.close();
    outside.keeper_back(store, keeper);
}

/// Gives the keeper and the lanes back, behind the last session.
pub(crate) fn give_back<O: Outside<Entry>>(
    outside: &mut O,
    store: &str,
    keeper: O::Keep,
    lanes: LanesOf<O>,
)
    requires lent { first_of (O.keepers_out outside.old) ≡ Some store.now }
    requires lanes_lent { length lanes.items ≤ O.lanes_out outside.old }
    ensures { AreBack store.now (O.Keep.facts keeper) (map (λ l. told_of (O.Door.coming l.port) (O.Door.served l.port) (O.Back.sent l.means.backend) (O.Back.given l.means.backend) (O.Time.fixed l.means.clock) (O.Draw.fixed l.means.words) (O.Door.closed l.port) (O.Door.out l.port) (O.Door.faults l.port)) lanes.items) (record { stores = O.stores outside.old; waiting = O.waiting outside.old; kept_back = O.kept_back outside.old; returned = O.returned outside.old; sessions = O.Archive.sessions outside.old; faults = O.faults outside.old; keepers_out = O.keepers_out outside.old; lanes_out = O.lanes_out outside.old }) (record { stores = O.stores outside.new; waiting = O.waiting outside.new; kept_back = O.kept_back outside.new; returned = O.returned outside.new; sessions = O.Archive.sessions outside.new; faults = O.faults outside.new; keepers_out = O.keepers_out outside.new; lanes_out = O.lanes_out outside.new }) }
{
    outside.keeper_back(store, keeper);
    outside.lanes_back(lanes);
}
