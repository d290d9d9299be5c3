// Opening a store.
ghost use Rattle.std.specs.Prelude.{◌≡◌, ◌∷◌, IfOk, IfErr};
ghost use Rattle.serve_command.specs.Opening.{Opened, NotOpened, stop_by_start, stop_by_lending};
ghost use Rattle.serve_command.specs.Shelves.{Shelves};

use book_core::{Book, StartFault};
use book_rules::{Entry, Limits};
use keeper_core::Table;
use outside_core::{KeeperStart, Outside};
use std::alloc::Global;

/// Why no book opened.
#[derive(Clone, Copy, Debug, PartialEq, Eq)]
pub enum OpenStop {
    /// This row of this table of the store, counted from 0, is none that a book starts from.
    BadStore(Table, u64),
    /// The store's keeper could not be had, or its load failed.
    Keeper,
    /// Memory is wanting.
    Memory,
}

fn stop_by_start_of(fault: StartFault) -> OpenStop
    ensures { result ≡ stop_by_start fault }
{
    match fault {
        StartFault::BadStore(table, row) => OpenStop::BadStore(table, row),
        StartFault::StoreFault => OpenStop::Keeper,
        StartFault::Memory => OpenStop::Memory,
    }
}

fn stop_by_lending_of(fault: KeeperStart) -> OpenStop
    ensures { result ≡ stop_by_lending fault }
{
    match fault {
        KeeperStart::BadStore(table, row) => OpenStop::BadStore(table, row),
        KeeperStart::StoreFault => OpenStop::Keeper,
        KeeperStart::Memory => OpenStop::Memory,
    }
}

/// Opens a book over the store of this name. Where none opens, its keeper is given back.
pub fn open_book<O: Outside<Entry>>(
    alloc: Global,
    outside: &mut O,
    store: &str,
    limits: Limits,
) -> Result<Book<O::Keep>, OpenStop>
    ensures opened { IfOk result (λ book. Opened limits store.now (record { stores = O.stores outside.old; waiting = O.waiting outside.old; kept_back = O.kept_back outside.old; returned = O.returned outside.old; sessions = O.Archive.sessions outside.old; faults = O.faults outside.old; keepers_out = O.keepers_out outside.old; lanes_out = O.lanes_out outside.old }) (record { stores = O.stores outside.new; waiting = O.waiting outside.new; kept_back = O.kept_back outside.new; returned = O.returned outside.new; sessions = O.Archive.sessions outside.new; faults = O.faults outside.new; keepers_out = O.keepers_out outside.new; lanes_out = O.lanes_out outside.new }) book.base book.history) }
    ensures refused { IfErr result (NotOpened store.now (record { stores = O.stores outside.old; waiting = O.waiting outside.old; kept_back = O.kept_back outside.old; returned = O.returned outside.old; sessions = O.Archive.sessions outside.old; faults = O.faults outside.old; keepers_out = O.keepers_out outside.old; lanes_out = O.lanes_out outside.old }) (record { stores = O.stores outside.new; waiting = O.waiting outside.new; kept_back = O.kept_back outside.new; returned = O.returned outside.new; sessions = O.Archive.sessions outside.new; faults = O.faults outside.new; keepers_out = O.keepers_out outside.new; lanes_out = O.lanes_out outside.new })) }
{
    let keeper = match outside.keeper(alloc, store) {
        Ok(keeper) => keeper,
        Err(fault) => return Err(stop_by_lending_of(fault)),
    };
    match Book::start(alloc, keeper, limits) {
        Ok(book) => Ok(book),
        Err((keeper, fault)) => {
            outside.keeper_back(store, keeper);
            Err(stop_by_start_of(fault))
        }
    }
}
