// Stores in memory.
ghost use Rattle.std.specs.Prelude.{◌≡◌, ◌+◌, ◌≤◌, ◌<◌, [], Some, IfOk, IfSome, OnOk, OnErr, length, position, vec_len, vec_capacity};
ghost use Rattle.std.specs.Option.{option_copied};
ghost use Rattle.std.specs.Str.{bytes_eq};
ghost use Rattle.outside_core.specs.Held.{found, keeper_of, unused_keeper, with_tables, keeper_lent, keeper_returned};
ghost use Rattle.outside_core.specs.Lending.{first_of};

use gw_base::{Memory, Text};
use keeper_core::{MemKeeper, Tables};
use std::alloc::Global;
use std::marker::Model;
use std::snapshot::Snapshot;

/// A store in memory: its name, its tables, and which calls of each keeper of it fail.
#[derive(Drop)]
pub struct MemStore {
    name: Text,
    // It has the tables, and no call of it is made.
    kept: MemKeeper,
    fails: Vec<u32>,
}

impl Model for MemStore {
    ghost use Rattle.outside_core.specs.Held.{StoreFacts};

    ghost Value = { StoreFacts };

    ghost view = { λ s. record { name = s.name; lists = s.kept.lists; fails = s.fails.items } };
}

impl MemStore {
    /// A store of these tables. It takes no memory.
    pub fn new(name: Text, tables: Tables, fails: Vec<u32>) -> Self
        ensures { result ≡ record { name = name; lists = tables.lists; fails = fails.items } }
    {
        MemStore {
            name,
            kept: MemKeeper::new(tables, Vec::new(*fails.allocator())),
            fails,
        }
    }

    /// The tables as they stand.
    pub fn tables(&self) -> &Tables
        ensures { result.now.lists ≡ self.now.lists }
    {
        self.kept.tables()
    }

    fn is_named(&self, name: &str) -> bool
        ensures { result ≡ bytes_eq self.now.name name.now }
    {
        self.name.as_str() == name
    }

    // A keeper of its tables, of which no call was made.
    fn keeper(&self, alloc: Global) -> Result<MemKeeper, Memory>
        ensures { IfOk result (λ keeper. keeper ≡ unused_keeper self.now.lists self.now.fails) }
    {
        let tables = self.kept.tables().copy(alloc)?;
        Ok(MemKeeper::new(tables, Vec::from_slice(alloc, self.fails.as_slice())?))
    }
}

/// The first store of this name.
pub(crate) fn store_in<'a>(name: &str, stores: &'a [MemStore]) -> Option<&'a MemStore>
    ensures { option_copied result ≡ found name.now stores.now }
{
    let mut rest = stores;
    while let [store, others @ ..] = rest {
        if store.is_named(name) {
            return Some(store);
        }
        rest = others;
    }
    None
}

fn lent_by(alloc: Global, name: &str, stores: &[MemStore]) -> Result<MemKeeper, Memory>
    ensures { IfOk result (λ keeper. keeper ≡ keeper_of name.now stores.now) }
{
    match store_in(name, stores) {
        Some(store) => store.keeper(alloc),
        None => Ok(MemKeeper::new(Tables::new(alloc), Vec::new(alloc))),
    }
}

fn place_of(name: &str, stores: &[MemStore]) -> Option<usize>
    ensures value { result ≡ position (λ store. bytes_eq store.name name.now) stores.now }
    ensures bound { IfSome result (λ place. place < length stores.now) }
{
    stores.iter().position(|store| store.is_named(name))
}

// Puts the tables of a keeper into the store of this name, or into a new one, for which there is room.
fn put_back(stores: &mut Vec<MemStore>, name: Text, keeper: MemKeeper)
    requires { vec_len stores.old < vec_capacity stores.old }
    ensures stores { stores.new.items ≡ with_tables name keeper.lists stores.old.items }
    ensures room { vec_len stores.new ≤ vec_len stores.old + 1 }
    ensures capacity { vec_capacity stores.old ≤ vec_capacity stores.new }
{
    match place_of(name.as_str(), stores) {
        Some(place) => {
            let store = &mut stores[place];
            store.kept = keeper;
        }
        None => {
            let fails = Vec::new(*stores.allocator());
            let _ = stores.push(MemStore {
                name,
                kept: keeper,
                fails,
            });
        }
    }
}

/// Stores, and what is known of their keepers. There is room for all that are lent.
#[derive(Drop)]
pub(crate) struct MemStores {
    stores: Vec<MemStore>,
    // The names of the stores whose keepers are lent, the last of them first.
    out: Vec<Text>,
    back: Vec<Snapshot<MemKeeper>>,
}

impl Model for MemStores {
    ghost use Rattle.std.specs.Prelude.{◌+◌, ◌≤◌, map, vec_len, vec_capacity};
    ghost use Rattle.outside_core.specs.Held.{StoresFacts};

    ghost Value = { StoresFacts };

    ghost view = { λ s. record { stores = s.stores.items; out = s.out.items; back = map (λ keeper. keeper.value) s.back.items } };

    // So a keeper that is given back takes no memory, and neither does a store that was not there.
    ghost invariant = { λ s. (vec_len s.stores + vec_len s.out ≤ vec_capacity s.stores) × (vec_len s.back + vec_len s.out ≤ vec_capacity s.back) };
}

impl MemStores {
    /// Stores of which no keeper is lent. It takes no memory.
    pub(crate) fn new(stores: Vec<MemStore>) -> Self
        ensures { result ≡ record { stores = stores.items; out = []; back = [] } }
    {
        let alloc = *stores.allocator();
        MemStores {
            stores,
            out: Vec::new(alloc),
            back: Vec::new(alloc),
        }
    }

    /// The stores as they stand.
    pub(crate) fn stores(&self) -> &[MemStore]
        ensures { result.now ≡ self.now.stores }
    {
        self.stores.as_slice()
    }

    /// Lends a keeper of the store of this name. Without one it has no rows.
    pub(crate) fn lend(&mut self, alloc: Global, name: &str) -> Result<MemKeeper, Memory>
        ensures keeper { IfOk result (λ keeper. keeper ≡ keeper_of name.now self.old.stores) }
        ensures after { OnOk result (self.new ≡ keeper_lent name.now self.old) }
        ensures refused { OnErr result (self.new ≡ self.old) }
    {
        let keeper = lent_by(alloc, name, &self.stores)?;
        let name = Text::of(String::from_str(alloc, name)?);
        let room = self.out.len() + 1;
        self.stores.reserve(room)?;
        self.back.reserve(room)?;
        self.out.insert(0, name)?;
        Ok(keeper)
    }

    /// Takes back a keeper of the store that was lent last. It takes no memory.
    pub(crate) fn take_back(&mut self, name: &str, keeper: MemKeeper)
        requires { first_of self.old.out ≡ Some name.now }
        ensures { self.new ≡ keeper_returned name.now keeper self.old }
    {
        let _ = self.back.push(Snapshot::of(&keeper));
        let name = self.out.remove(0);
        put_back(&mut self.stores, name, keeper);
    }
}
