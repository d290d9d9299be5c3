// Giving a book's keeper back.
ghost use Rattle.std.specs.Prelude.{◌≡◌, ◌≤◌, Some, drop};
ghost use Rattle.book_core.specs.Books.{Keeps};
ghost use Rattle.outside_core.specs.Lending.{first_of};
ghost use Rattle.serve_command.specs.Shelves.{Shelves};
ghost use Rattle.admin_command.specs.Giving.{IsGivenBack};

use book_core::Book;
use book_rules::Entry;
use outside_core::Outside;

/// Gives a book's keeper back, with the tables of its history.
pub fn give_back<O: Outside<Entry>>(outside: &mut O, store: &str, book: Book<O::Keep>)
    requires lent { first_of (O.keepers_out outside.old) ≡ Some store.now }
    ensures { IsGivenBack store.now book.base book.history (record { stores = O.stores outside.old; waiting = O.waiting outside.old; kept_back = O.kept_back outside.old; returned = O.returned outside.old; sessions = O.Archive.sessions outside.old; faults = O.faults outside.old; keepers_out = O.keepers_out outside.old; lanes_out = O.lanes_out outside.old }) (record { stores = O.stores outside.new; waiting = O.waiting outside.new; kept_back = O.kept_back outside.new; returned = O.returned outside.new; sessions = O.Archive.sessions outside.new; faults = O.faults outside.new; keepers_out = O.keepers_out outside.new; lanes_out = O.lanes_out outside.new }) }
{
    let (keeper, _, _) = book.close();
    outside.keeper_back(store, keeper);
}
