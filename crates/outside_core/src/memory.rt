// An outside in memory.
ghost use Rattle.std.specs.Prelude.{◌≡◌, ◌≢◌, ◌≤◌, ◌<◌, ◌↔◌, ◌∷◌, ◌++◌, [], nat_lt, Some, Err, All, map, length, true, IfOk, IsErrOf, IsSomeAnd, OnOk, OnErr, if◌then◌else◌};
ghost use Rattle.std.specs.Option.{option_copied, option_map};
ghost use Rattle.gw_base.specs.Feed.{raised, is_listed as is_listed_in};
ghost use Rattle.keeper_core.specs.Keeping.{told_by};
ghost use Rattle.outside_core.specs.Files.{content_of as content_of_in};
ghost use Rattle.outside_core.specs.Held.{OutsideFacts, MemLane, IsUnusedLane, named, found, lane_told, faults_of, beside_of, told_alike, asked, failed, fails_next, fails_file, keeper_returned, all_returned, LendsKeeper, LendsLanes};
ghost use Rattle.outside_core.specs.Lending.{first_of};

use crate::files::content_of;
use crate::lent::Lent;
use crate::outside::{KeeperStart, Outside, OutsideFault};
use crate::stores::{MemStore, MemStores, store_in};
use backend_core::Backend;
use gate_ports::{Archive, Gate, Lane, MemPort};
use gw_base::{Bytes, FixedClock, Memory, ReadAll, Seq, SplitMix, Text};
use keeper_core::{Keeper, MemKeeper, Tables};
use std::alloc::Global;
use std::marker::Model;

/// An outside in memory: files and stores by name, the first of a name standing for it, and lanes. Of the calls of `file`,
/// `keeper` and `lanes`, counted together from 0, those of the given numbers fail; so do a call for a file that is not there
/// and one for more lanes than wait, and no others. A call that wants memory changes nothing and is not counted.
///
/// Its faults are the calls that failed and, of what was given back, the keepers whose load failed and the lanes at whose
/// port a look failed.
#[derive(Drop)]
pub struct MemOutside<E, B, G> {
    files: Vec<(Text, Bytes)>,
    stores: MemStores,
    lanes: Lent<Lane<MemPort, B, FixedClock, SplitMix, G>>,
    sessions: Vec<Seq<E>>,
    fails: Vec<u32>,
    calls: u64,
    failures: u64,
}

impl<E, B, G> Model for MemOutside<E, B, G> {
    ghost use Rattle.std.specs.Prelude.{All};
    ghost use Rattle.outside_core.specs.Held.{OutsideFacts, MemLane, IsUnusedLane};

    ghost Value = { OutsideFacts E (MemLane B G) };

    ghost view = { λ o. record {
      files = o.files.items;
      stores = o.stores;
      lanes = o.lanes;
      sessions = o.sessions.items;
      fails = o.fails.items;
      calls = o.calls;
      failures = o.failures;
    } };

    ghost invariant = { λ o. All IsUnusedLane o.lanes.waiting };
}

fn is_listed(fails: &[u32], call: u64) -> bool
    ensures { result ≡ is_listed_in fails.now call }
{
    fails.iter().any(|n| *n as u64 == call)
}

impl<E: Drop, B: Drop, G: Drop> MemOutside<E, B, G> {
    /// An outside of which nothing was asked. It takes no memory.
    pub fn new(
        files: Vec<(Text, Bytes)>,
        stores: Vec<MemStore>,
        lanes: Vec<Lane<MemPort, B, FixedClock, SplitMix, G>>,
        fails: Vec<u32>,
    ) -> Self
        requires { All IsUnusedLane lanes.items }
        ensures { result ≡ record {
          files = files.items;
          stores = record { stores = stores.items; out = []; back = [] };
          lanes = record { waiting = lanes.items; returned = []; out = 0 };
          sessions = [];
          fails = fails.items;
          calls = 0;
          failures = 0;
        } }
    {
        MemOutside {
            files,
            stores: MemStores::new(stores),
            lanes: Lent::new(lanes),
            sessions: Vec::new(*fails.allocator()),
            fails,
            calls: 0,
            failures: 0,
        }
    }

    /// The tables of the store of this name as they stand: while its keeper is lent, as they stood before.
    pub fn tables(&self, name: &str) -> Option<&Tables>
        ensures { option_map (λ tables. tables.now.lists) result ≡ option_map (λ store. store.lists) (found name.now self.now.stores.stores) }
    {
        Some(store_in(name, self.stores.stores())?.tables())
    }

    /// The lanes that were given back, oldest first.
    pub fn lanes_returned(&self) -> &[Lane<MemPort, B, FixedClock, SplitMix, G>]
        ensures { result.now ≡ self.now.lanes.returned }
    {
        self.lanes.returned()
    }

    /// The histories of closed sessions, oldest first.
    pub fn sessions(&self) -> &[Seq<E>]
        ensures { result.now ≡ self.now.sessions }
    {
        self.sessions.as_slice()
    }

    /// How many of its calls failed.
    pub fn failures(&self) -> u64
        ensures { result ≡ self.now.failures }
    {
        self.failures
    }

    fn fails_next(&self) -> bool
        ensures { result ≡ fails_next self.now }
    {
        is_listed(&self.fails, self.calls)
    }

    // Counts a call that did not fail.
    fn succeed(&mut self)
        ensures { self.new ≡ asked self.old }
    {
        self.calls = self.calls.saturating_add(1);
    }

    // Counts a call that failed.
    fn fail(&mut self)
        ensures after { self.new ≡ failed self.old }
        ensures later { self.old.failures ≤ self.new.failures }
    {
        self.calls = self.calls.saturating_add(1);
        self.failures = self.failures.saturating_add(1);
    }
}

impl<E: Drop, B: Drop, G: Drop> Archive<E> for MemOutside<E, B, G> {
    ghost Beside = { OutsideFacts E (MemLane B G) };

    ghost sessions = { λ o. Some o.sessions };

    ghost beside = { beside_of };

    fn closed(&mut self, history: Vec<E>) -> Result<(), Memory>
        ensures taken { OnOk result (self.new ≡ record self.old { sessions = self.old.sessions ++ history.items ∷ [] }) }
        ensures refused { OnErr result (self.new ≡ self.old) }
    {
        self.sessions.push(Seq::of(history))?;
        Ok(())
    }
}

impl<E: Drop, B: Backend + Send + Drop, G: Gate + Send + Drop> Outside<E> for MemOutside<E, B, G> {
    type Keep = MemKeeper;

    type Door = MemPort;

    type Back = B;

    type Time = FixedClock;

    type Draw = SplitMix;

    type Hold = G;

    ghost files = { λ o. Some o.files };

    ghost stores = { λ o. Some (map named o.stores.stores) };

    ghost waiting = { λ o. Some (map (lane_told B.sent B.given) o.lanes.waiting) };

    ghost kept_back = { λ o. Some (map told_by o.stores.back) };

    ghost returned = { λ o. Some (map (lane_told B.sent B.given) o.lanes.returned) };

    ghost keepers_out = { λ o. o.stores.out };

    ghost lanes_out = { λ o. o.lanes.out };

    ghost faults = { faults_of };

    ghost beside_tells = { told_alike B.sent B.given };

    fn file(&mut self, alloc: Global, name: &str, limit: usize) -> Result<Vec<u8>, ReadAll>
        ensures whole { IfOk result (λ v. content_of_in name.now self.old.files ≡ Some v.items) }
        ensures within { IfOk result (λ v. length v.items ≤ limit) }
        ensures too_long { IsErrOf result ReadAll.TooLong → IsSomeAnd (content_of_in name.now self.old.files) (λ bytes. limit < length bytes) }

        // The calls whose numbers are listed fail, and those for names that no file has, and no others.
        ensures numbered { IsErrOf result ReadAll.Fault ↔ (fails_file self.old name.now ≡ true) }
        ensures failed { IsErrOf result ReadAll.Fault → self.new ≡ failed self.old }
        ensures memory { IsErrOf result ReadAll.Memory → self.new ≡ self.old }
        ensures asked { result ≢ Err ReadAll.Fault → result ≢ Err ReadAll.Memory → self.new ≡ asked self.old }
        ensures later { self.old.failures ≤ self.new.failures }
    {
        if self.fails_next() {
            self.fail();
            return Err(ReadAll::Fault);
        }
        let Some(content) = content_of(name, &self.files) else {
            self.fail();
            return Err(ReadAll::Fault);
        };
        if content.len() > limit {
            self.succeed();
            return Err(ReadAll::TooLong);
        }
        let content = Vec::from_slice(alloc, content)?;
        self.succeed();
        Ok(content)
    }

    fn keeper(&mut self, alloc: Global, name: &str) -> Result<MemKeeper, KeeperStart>
        ensures lent { LendsKeeper name.now result self.old self.new }
        ensures later { self.old.failures ≤ self.new.failures }
    {
        if self.fails_next() {
            self.fail();
            return Err(KeeperStart::StoreFault);
        }
        let Ok(keeper) = self.stores.lend(alloc, name) else {
            return Err(KeeperStart::Memory);
        };
        self.succeed();
        Ok(keeper)
    }

    fn lanes(
        &mut self,
        _alloc: Global,
        _port: u16,
        n: usize,
    ) -> Result<Vec<Lane<MemPort, B, FixedClock, SplitMix, G>>, OutsideFault>
        ensures lent { LendsLanes n result self.old self.new }
        ensures unused { IfOk result (λ lanes. All IsUnusedLane lanes.items) }
        ensures number { IfOk result (λ lanes. length lanes.items ≡ n) }
        ensures later { self.old.failures ≤ self.new.failures }
    {
        if self.fails_next() || self.lanes.waiting().len() < n {
            self.fail();
            return Err(OutsideFault::Failed);
        }
        let Ok(lanes) = self.lanes.lend(n) else {
            return Err(OutsideFault::Memory);
        };
        self.succeed();
        Ok(lanes)
    }

    fn keeper_back(&mut self, name: &str, keep: MemKeeper)
        requires { first_of self.old.stores.out ≡ Some name.now }
        ensures { self.new ≡ record self.old { stores = keeper_returned name.now keep self.old.stores } }
    {
        self.stores.take_back(name, keep);
    }

    fn lanes_back(&mut self, lanes: Vec<Lane<MemPort, B, FixedClock, SplitMix, G>>)
        requires { length lanes.items ≤ self.old.lanes.out }
        ensures { self.new ≡ record self.old { lanes = all_returned lanes.items self.old.lanes } }
    {
        self.lanes.take_back(lanes);
    }
}
