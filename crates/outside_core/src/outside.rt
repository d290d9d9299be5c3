// What a program asks of the machine around it.
ghost use Rattle.std.specs.Prelude.{◌≡◌, ◌≢◌, ◌≤◌, ◌<◌, ◌+◌, ◌-◌, ℕ, nat_lt, List, ◌∷◌, Option, Some, Ok, Err, false, length, map, drop, All, IfOk, IfSome, IsSomeAnd, IsErrOf, OnOk, OnErr};
ghost use Rattle.std.specs.List.{list_any};
ghost use Rattle.gw_base.specs.Outside.{Rose};
ghost use Rattle.backend_core.specs.Exchanges.{gained};
ghost use Rattle.keeper_core.specs.Keeping.{KeeperFacts};
ghost use Rattle.outside_core.specs.Files.{Files, content_of};
ghost use Rattle.outside_core.specs.Lending.{RoseWhere, behind, first_of, gained_all, is_failed_start, is_failed_lending};
ghost use Rattle.outside_core.specs.Stores.{Stores, IsUnused, store_of, stored};
ghost use Rattle.outside_core.specs.Told.{LaneTold};

use backend_core::Backend;
use gate_ports::{Archive, Gate, Lane, Port};
use gw_base::{Clock, ReadAll, Words};
use keeper_core::{Keeper, Table};
use std::alloc::Global;

/// Why no keeper was lent.
#[derive(Clone, Copy, Debug, PartialEq, Eq)]
pub enum KeeperStart {
    /// This row of this table of the store, counted from 0, is none that can be: the count of faults rose.
    BadStore(Table, u64),
    /// The store can't be read: the count of faults rose.
    StoreFault,
    /// Memory is wanting.
    Memory,
}

/// Why no lanes were lent.
#[derive(Clone, Copy, Debug, PartialEq, Eq)]
pub enum OutsideFault {
    /// They can't be had, as where another program has the port: the count of faults rose.
    Failed,
    /// Memory is wanting.
    Memory,
}

/// What gives files, and lends keepers and lanes and takes them back. It takes the histories of closed sessions too.
///
/// It counts its faults, and a call fails only where that count rose. Where it tells its files, its stores or its lanes,
/// contracts say what the calls make of them. What a call doesn't name it leaves.
pub trait Outside<E>: Archive<E> {
    /// Who keeps the tables of a store.
    type Keep: Keeper + Send;

    /// Where a lane's connections come from.
    type Door: Port + Send;

    /// What answers a lane's requests.
    type Back: Backend + Send;

    /// A lane's clock.
    type Time: Clock + Send;

    /// A lane's random words.
    type Draw: Words + Send;

    /// What a lane passes before each exchange.
    type Hold: Gate + Send;

    /// The names and contents of its files, where it tells them.
    ghost files: { Self → Option Files };

    /// The names and tables of its stores, where it tells them.
    ghost stores: { Self → Option Stores };

    /// The lanes that it has still to lend, the next first, where it tells them.
    ghost waiting: { Self → Option (List LaneTold) };

    /// The keepers that were given back, oldest first, where it tells them.
    ghost kept_back: { Self → Option (List KeeperFacts) };

    /// The lanes that were given back, oldest first, where it tells them.
    ghost returned: { Self → Option (List LaneTold) };

    /// The names of the stores whose keepers are lent, the one that was lent last first.
    ghost keepers_out: { Self → List (List ℕ) };

    /// How many lanes are lent.
    ghost lanes_out: { Self → ℕ };

    /// How often it has failed, up to the count's greatest value.
    ghost faults: { Self → ℕ };

    /// The content of the file of this name, where it has at most `limit` bytes.
    fn file(&mut self, alloc: Global, name: &str, limit: usize) -> Result<Vec<u8>, ReadAll>
        ensures whole { IfOk result (λ v. IfSome (files self.old) (λ told. content_of name.now told ≡ Some v.items)) }

        // TooLong comes exactly where the file has more than `limit` bytes, and the call did not fail.
        ensures within { IfOk result (λ v. length v.items ≤ limit) }
        ensures too_long { IsErrOf result ReadAll.TooLong → IfSome (files self.old) (λ told. IsSomeAnd (content_of name.now told) (λ bytes. limit < length bytes)) }
        ensures fault { IsErrOf result ReadAll.Fault → Rose (faults self.old) (faults self.new) }
        ensures later { faults self.old ≤ faults self.new }

        // The count rises in no other case.
        ensures kept { result ≢ Err ReadAll.Fault → faults self.new ≡ faults self.old }
        ensures files { files self.new ≡ files self.old }
        ensures stores { stores self.new ≡ stores self.old }
        ensures waiting { waiting self.new ≡ waiting self.old }
        ensures kept_back { kept_back self.new ≡ kept_back self.old }
        ensures returned { returned self.new ≡ returned self.old }
        ensures keepers_out { keepers_out self.new ≡ keepers_out self.old }
        ensures lanes_out { lanes_out self.new ≡ lanes_out self.old }
        ensures sessions { Self.sessions self.new ≡ Self.sessions self.old };

    /// Lends the keeper of the store of this name, which stays as it is until it is given back. A store that is not there
    /// is empty.
    fn keeper(&mut self, alloc: Global, name: &str) -> Result<Self::Keep, KeeperStart>
        ensures unused { IfOk result (λ keep. IsUnused (Self.Keep.facts keep)) }
        ensures tables { IfOk result (λ keep. IfSome (stores self.old) (λ told. (Self.Keep.facts keep).tables ≡ Some (store_of name.now told))) }
        ensures lent { OnOk result (keepers_out self.new ≡ name.now ∷ keepers_out self.old) }
        ensures refused { OnErr result (keepers_out self.new ≡ keepers_out self.old) }

        // BadStore and StoreFault come only where the count rose, and it rises in no other case.
        ensures faults { RoseWhere (is_failed_start result) (faults self.old) (faults self.new) }
        ensures files { files self.new ≡ files self.old }
        ensures stores { stores self.new ≡ stores self.old }
        ensures waiting { waiting self.new ≡ waiting self.old }
        ensures kept_back { kept_back self.new ≡ kept_back self.old }
        ensures returned { returned self.new ≡ returned self.old }
        ensures lanes_out { lanes_out self.new ≡ lanes_out self.old }
        ensures sessions { Self.sessions self.new ≡ Self.sessions self.old };

    /// Lends so many lanes, whose connections come to this port: of none the port was shut, has a connection out, or has
    /// failed.
    fn lanes(
        &mut self,
        alloc: Global,
        port: u16,
        n: usize,
    ) -> Result<Vec<Lane<Self::Door, Self::Back, Self::Time, Self::Draw, Self::Hold>>, OutsideFault>
        ensures number { IfOk result (λ lanes. length lanes.items ≡ n) }
        ensures unused { IfOk result (λ lanes. All (λ lane. (Self.Door.closed lane.port ≡ false) × (Self.Door.out lane.port ≡ false) × (Self.Door.faults lane.port ≡ 0)) lanes.items) }

        // They are the first of those that wait, and the others wait on.
        ensures first { IfOk result (λ lanes. waiting self.old ≡ behind (map (λ lane. record { coming = Self.Door.coming lane.port; served = Self.Door.served lane.port; sent = Self.Back.sent lane.means.backend; given = Self.Back.given lane.means.backend; moment = Self.Time.fixed lane.means.clock; word = Self.Draw.fixed lane.means.words; closed = Self.Door.closed lane.port; out = Self.Door.out lane.port; faults = Self.Door.faults lane.port }) lanes.items) (waiting self.new)) }
        ensures lent { OnOk result (lanes_out self.new ≡ lanes_out self.old + n) }
        ensures wait_on { OnErr result (waiting self.new ≡ waiting self.old) }
        ensures refused { OnErr result (lanes_out self.new ≡ lanes_out self.old) }

        // Failed comes only where the count rose, and it rises in no other case.
        ensures faults { RoseWhere (is_failed_lending result) (faults self.old) (faults self.new) }
        ensures files { files self.new ≡ files self.old }
        ensures stores { stores self.new ≡ stores self.old }
        ensures kept_back { kept_back self.new ≡ kept_back self.old }
        ensures returned { returned self.new ≡ returned self.old }
        ensures keepers_out { keepers_out self.new ≡ keepers_out self.old }
        ensures sessions { Self.sessions self.new ≡ Self.sessions self.old };

    /// Takes back a keeper of the store of this name, which then has its tables. It takes no memory. A keeper whose load
    /// failed counts as a fault.
    fn keeper_back(&mut self, name: &str, keep: Self::Keep)
        requires { first_of (keepers_out self.old) ≡ Some name.now }
        ensures kept_back { kept_back self.new ≡ gained (kept_back self.old) (Self.Keep.facts keep) }
        ensures stores { stores self.new ≡ stored name.now ((Self.Keep.facts keep).tables) (stores self.old) }
        ensures keepers_out { keepers_out self.new ≡ drop 1 (keepers_out self.old) }
        ensures faults { RoseWhere (nat_lt 0 ((Self.Keep.facts keep).loads)) (faults self.old) (faults self.new) }
        ensures files { files self.new ≡ files self.old }
        ensures waiting { waiting self.new ≡ waiting self.old }
        ensures returned { returned self.new ≡ returned self.old }
        ensures lanes_out { lanes_out self.new ≡ lanes_out self.old }
        ensures sessions { Self.sessions self.new ≡ Self.sessions self.old };

    /// Takes back lanes. It takes no memory. Where a look at one of their ports failed, that counts as a fault.
    fn lanes_back(
        &mut self,
        lanes: Vec<Lane<Self::Door, Self::Back, Self::Time, Self::Draw, Self::Hold>>,
    )
        requires { length lanes.items ≤ lanes_out self.old }
        ensures returned { returned self.new ≡ gained_all (returned self.old) (map (λ lane. record { coming = Self.Door.coming lane.port; served = Self.Door.served lane.port; sent = Self.Back.sent lane.means.backend; given = Self.Back.given lane.means.backend; moment = Self.Time.fixed lane.means.clock; word = Self.Draw.fixed lane.means.words; closed = Self.Door.closed lane.port; out = Self.Door.out lane.port; faults = Self.Door.faults lane.port }) lanes.items) }
        ensures lanes_out { lanes_out self.new ≡ lanes_out self.old - length lanes.items }
        ensures faults { RoseWhere (list_any (λ lane. nat_lt 0 (Self.Door.faults lane.port)) lanes.items) (faults self.old) (faults self.new) }
        ensures files { files self.new ≡ files self.old }
        ensures stores { stores self.new ≡ stores self.old }
        ensures waiting { waiting self.new ≡ waiting self.old }
        ensures kept_back { kept_back self.new ≡ kept_back self.old }
        ensures keepers_out { keepers_out self.new ≡ keepers_out self.old }
        ensures sessions { Self.sessions self.new ≡ Self.sessions self.old };

    /// What takes a history leaves all of this.
    ghost beside_tells: { (a b : Self) → Self.beside a ≡ Self.beside b
        → (files a ≡ files b) × (stores a ≡ stores b) × (waiting a ≡ waiting b) × (kept_back a ≡ kept_back b)
        × (returned a ≡ returned b) × (keepers_out a ≡ keepers_out b) × (lanes_out a ≡ lanes_out b) × (faults a ≡ faults b) };
}
