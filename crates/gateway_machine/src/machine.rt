// The machine as the program meets it.
ghost use Rattle.std.specs.Prelude.{◌≡◌, ◌≤◌, ◌+◌, ◌-◌, ◌<◌, [], ℕ, nat_lt, None, false, length, All, IfOk, if◌then◌else◌};
ghost use Rattle.std.specs.List.{list_any};
ghost use Rattle.gw_base.specs.Feed.{raised};
ghost use Rattle.gateway_machine.specs.Stands.{MachineStand, IsUnusedLane, has_failed as has_failed_in};
ghost use Rattle.std.proofs.Common.{ap, refl};
ghost use Rattle.gateway_outside.specs.Stands.{IsFresh};
ghost use Rattle.outside_core.specs.Lending.{RoseWhere};

use crate::adapters::{ReaderSource, WriterSink};
use crate::port::CountedPort;
use crate::stores::Stores;
use gate_ports::{Archive, FreeGate, Lane, Means};
use gateway_outside::{
    ListenFault, SocketBackend, SocketPort, SystemClock, announce, begin_words, listen,
};
use gw_base::{Clock as Moments, Memory, ReadAll, SplitMix, Text, read_all, write_all};
use outside_core::{KeeperStart, Outside, OutsideFault};
use std::alloc::{AllocError, Global};
use std::fs::{self, Files};
use std::io::Write;
use std::marker::Model;
use std::net::{Net, TcpListener, TcpStream};
use std::sync::Wait;
use std::time::Clock;

/// A lane over sockets of the loopback.
type SocketLane<'r, R> = Lane<
    CountedPort<SocketPort<'r, R>>,
    SocketBackend<'r, R>,
    SystemClock<'r, R>,
    SplitMix,
    FreeGate,
>;

/// The machine: its files, lanes over its sockets, and its stores. It says on `log` where it listens, and which file, store or
/// port it could not have.
/// It lets go of the keepers, the lanes and the histories that it is given.
#[derive(Drop)]
pub struct MachineOutside<'r, R, S: Drop, W: Write + Drop> {
    rt: &'r R,
    stores: S,
    log: WriterSink<W>,
    // The names of the stores whose keepers are lent, the last of them first.
    keepers_out: Vec<Text>,
    lanes_out: usize,
    faults: u64,
}

impl<'r, R, S: Drop, W: Write + Drop> Model for MachineOutside<'r, R, S, W> {
    ghost use Rattle.gateway_machine.specs.Stands.{MachineStand};

    ghost Value = { MachineStand };

    ghost view = { λ o. record { keepers_out = o.keepers_out.items; lanes_out = o.lanes_out; faults = o.faults } };
}

impl<'r, R, S: Drop, W: Write + Drop> MachineOutside<'r, R, S, W> {
    /// The machine of this runtime with these stores, of which nothing was asked.
    pub fn new(rt: &'r R, alloc: Global, stores: S, log: W) -> Self
        ensures { result ≡ record { keepers_out = []; lanes_out = 0; faults = 0 } }
    {
        MachineOutside {
            rt,
            stores,
            log: WriterSink::new(log),
            keepers_out: Vec::new(alloc),
            lanes_out: 0,
            faults: 0,
        }
    }

    // Counts a fault.
    fn fail(&mut self)
        ensures after { self.new ≡ record self.old { faults = raised self.old.faults } }
        ensures later { self.old.faults ≤ self.new.faults }
    {
        self.faults = self.faults.saturating_add(1);
    }

    // Says on the log what can't be done, and counts it as a fault. A line that is not written changes nothing else.
    fn complain(&mut self, line: Result<String, AllocError>)
        ensures after { self.new ≡ record self.old { faults = raised self.old.faults } }
        ensures later { self.old.faults ≤ self.new.faults }
    {
        if let Ok(line) = line {
            let _ = write_all(&mut self.log, line.as_bytes());
        }
        self.fail();
    }
}

fn lane_of<'r, R: Clock>(rt: &'r R, port: SocketPort<'r, R>, words: SplitMix) -> SocketLane<'r, R>
    requires { IsFresh port }
    ensures { IsUnusedLane result }
{
    Lane {
        port: CountedPort::new(port),
        means: Means {
            backend: SocketBackend::new(rt),
            clock: SystemClock::new(rt),
            words,
            gate: FreeGate,
        },
    }
}

// A lane for each port, whose words begin at this moment.
fn lanes_over<'r, R: Clock>(
    rt: &'r R,
    alloc: Global,
    ports: Vec<SocketPort<'r, R>>,
    n: usize,
    moment: u64,
) -> Result<Vec<SocketLane<'r, R>>, Memory>
    requires number { length ports.items ≡ n }
    requires fresh { All IsFresh ports.items }
    ensures number { IfOk result (λ lanes. length lanes.items ≡ n) }
    ensures unused { IfOk result (λ lanes. All IsUnusedLane lanes.items) }
{
    let mut lanes = Vec::new(alloc);
    let mut number: u32 = 0;
    for port in ports {
        lanes.push(lane_of(rt, port, begin_words(moment, number)))?;
        number = number.wrapping_add(1);
    }
    Ok(lanes)
}

fn has_failed<'r, R: Clock>(lanes: &[SocketLane<'r, R>]) -> bool
    ensures { result ≡ list_any has_failed_in lanes.now }
{
    lanes.iter().any(|lane| lane.port.faults() > 0)
}

impl<'r, E: Drop, R, S: Drop, W: Write + Drop> Archive<E> for MachineOutside<'r, R, S, W> {
    ghost Beside = { MachineStand };

    ghost sessions = { λ _. None };

    ghost beside = { λ o. o };

    fn closed(&mut self, _history: Vec<E>) -> Result<(), Memory>
        ensures { self.new ≡ self.old }
    {
        Ok(())
    }
}

impl<
    'r,
    E: Drop,
    R: Files + Net<Listener = TcpListener, Stream = TcpStream> + Clock + Wait + Sync,
    S: Stores + Drop,
    W: Write + Drop,
> Outside<E> for MachineOutside<'r, R, S, W> {
    type Keep = S::Keep;

    type Door = CountedPort<SocketPort<'r, R>>;

    type Back = SocketBackend<'r, R>;

    type Time = SystemClock<'r, R>;

    type Draw = SplitMix;

    type Hold = FreeGate;

    ghost files = { λ _. None };

    ghost stores = { λ _. None };

    ghost waiting = { λ _. None };

    ghost kept_back = { λ _. None };

    ghost returned = { λ _. None };

    ghost keepers_out = { λ o. o.keepers_out };

    ghost lanes_out = { λ o. o.lanes_out };

    ghost faults = { λ o. o.faults };

    ghost beside_tells = { λ a b same. (refl, refl, refl, refl, refl, ap (λ (o : MachineStand). o.keepers_out) same, ap (λ (o : MachineStand). o.lanes_out) same, ap (λ (o : MachineStand). o.faults) same) };

    fn file(&mut self, alloc: Global, name: &str, limit: usize) -> Result<Vec<u8>, ReadAll> {
        let file = match fs::open(self.rt, name) {
            Ok(file) => file,
            Err(error) => {
                self.complain(format!(in alloc; "cannot open {name}: {error}\n"));
                return Err(ReadAll::Fault);
            }
        };
        let read = read_all(alloc, &mut ReaderSource::new(file), limit);
        if matches!(&read, Err(ReadAll::Fault)) {
            self.complain(format!(in alloc; "cannot read {name}\n"));
        }
        read
    }

    fn keeper(&mut self, alloc: Global, name: &str) -> Result<S::Keep, KeeperStart> {
        let Ok(lent) = String::from_str(alloc, name) else {
            return Err(KeeperStart::Memory);
        };
        match self.stores.open(alloc, name) {
            Ok(keep) => match self.keepers_out.insert(0, Text::of(lent)) {
                Ok(()) => Ok(keep),
                Err(_) => Err(KeeperStart::Memory),
            },
            Err(KeeperStart::Memory) => Err(KeeperStart::Memory),
            Err(KeeperStart::StoreFault) => {
                self.complain(format!(in alloc; "cannot open the store {name}\n"));
                Err(KeeperStart::StoreFault)
            }
            Err(KeeperStart::BadStore(table, row)) => {
                self.fail();
                Err(KeeperStart::BadStore(table, row))
            }
        }
    }

    fn lanes(
        &mut self,
        alloc: Global,
        port: u16,
        n: usize,
    ) -> Result<Vec<SocketLane<'r, R>>, OutsideFault> {
        let Some(lanes_out) = self.lanes_out.checked_add(n) else {
            return Err(OutsideFault::Memory);
        };
        let ports = match listen(self.rt, alloc, port, n) {
            Ok(ports) => ports,
            Err(ListenFault::Port) => {
                self.complain(format!(in alloc; "cannot listen at 127.0.0.1:{port}\n"));
                return Err(OutsideFault::Failed);
            }
            Err(ListenFault::Memory) => return Err(OutsideFault::Memory),
        };
        let number = ports.first().and_then(|port| port.number()).unwrap_or(port);
        let moment = SystemClock::new(self.rt).now();
        let Ok(lanes) = lanes_over(self.rt, alloc, ports, n, moment) else {
            return Err(OutsideFault::Memory);
        };
        let _ = announce(alloc, &mut self.log, number, n);
        self.lanes_out = lanes_out;
        Ok(lanes)
    }

    fn keeper_back(&mut self, _name: &str, keep: S::Keep) {
        self.keepers_out.remove(0);
        if S::has_failed(&keep) {
            self.fail();
        }
    }

    fn lanes_back(&mut self, lanes: Vec<SocketLane<'r, R>>)
        requires { length lanes.items ≤ self.old.lanes_out }
        ensures lanes_out { self.new.lanes_out ≡ self.old.lanes_out - length lanes.entry.items }
        ensures faults { RoseWhere (list_any has_failed_in lanes.entry.items) self.old.faults self.new.faults }
        ensures keepers_out { self.new.keepers_out ≡ self.old.keepers_out }
    {
        self.lanes_out -= lanes.len();
        if has_failed(lanes.as_slice()) {
            self.fail();
        }
    }
}
