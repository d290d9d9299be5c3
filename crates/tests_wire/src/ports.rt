// Ports in memory: connections are lent in their order, and numbered looks fail. Lanes go to other threads, and an archive
// takes histories.
ghost use Rattle.std.specs.Prelude.{◌≡◌, [], ◌∷◌, ◌++◌, All, IfOk, OnOk, OnErr, Some, false, ℕ};
ghost use Rattle.gate_ports.specs.Docks.{IsUnwritten};

use backend_core::MemBackend;
use gate_ports::{Accepted, Archive, FreeGate, Gate, Lane, Means, MemConn, MemPort, Port};
use gw_base::{FixedClock, MemSink, MemSource, Memory, Seq, SplitMix, read_all, write_all};
use std::alloc::Global;
use std::test::Fail;

// What a look found, in a word, with what was read on a connection.
#[derive(Clone, Copy, Debug, PartialEq, Eq)]
enum Look {
    Read(&'static [u8]),
    Ended,
    Failed,
    Other,
}

const PIECES: [&[u8]; 3] = [b"one", b"two", b"three"];

fn conn(alloc: Global, bytes: &[u8]) -> Result<MemConn, Fail>
    ensures { IfOk result IsUnwritten }
{
    let source = MemSource::new(Vec::from_slice(alloc, bytes)?, 2, Vec::new(alloc));
    let sink = MemSink::new(alloc, Vec::new(alloc));
    Ok(MemConn::new(source, sink))
}

fn port(alloc: Global, conns: usize, fails: &[u32]) -> Result<MemPort, Fail>
    ensures { IfOk result (λ port. port.out ≡ false) }
{
    let mut all = Vec::new(alloc);
    for bytes in PIECES.iter().take(conns) {
        all.push(conn(alloc, bytes)?)?;
    }
    Ok(MemPort::new(all, Vec::from_slice(alloc, fails)?))
}

// Reads a connection to its end, and writes the same on it.
fn echo(alloc: Global, conn: &mut MemConn) -> Look {
    let Ok(read) = read_all(alloc, conn, 64) else {
        return Look::Other;
    };
    if write_all(conn, &read).is_err() {
        return Look::Other;
    }
    for piece in PIECES {
        if piece == read.as_slice() {
            return Look::Read(piece);
        }
    }
    Look::Other
}

// Looks for a connection, serves it and gives it back.
fn visit(alloc: Global, port: &mut MemPort) -> Look
    requires { port.old.out ≡ false }
    ensures { port.new.out ≡ false }
{
    match port.accept() {
        Ok(Accepted::Conn(mut conn)) => {
            let look = echo(alloc, &mut conn);
            port.done(conn);
            look
        }
        Ok(Accepted::NotYet) => Look::Other,
        Ok(Accepted::Ended) => Look::Ended,
        Err(_) => Look::Failed,
    }
}

fn four_visits(alloc: Global, port: &mut MemPort) -> [Look; 4]
    requires { port.old.out ≡ false }
{
    [
        visit(alloc, port),
        visit(alloc, port),
        visit(alloc, port),
        visit(alloc, port),
    ]
}

#[derive(Clone, Copy)]
struct Visits {
    conns: usize,
    fails: &'static [u32],
    looks: [Look; 4],
}

const ONE: Look = Look::Read(b"one");

const TWO: Look = Look::Read(b"two");

const THREE: Look = Look::Read(b"three");

const VISITS: [Visits; 5] = [
    Visits {
        conns: 0,
        fails: &[],
        looks: [Look::Ended, Look::Ended, Look::Ended, Look::Ended],
    },
    Visits {
        conns: 1,
        fails: &[],
        looks: [ONE, Look::Ended, Look::Ended, Look::Ended],
    },
    Visits {
        conns: 3,
        fails: &[],
        looks: [ONE, TWO, THREE, Look::Ended],
    },
    Visits {
        conns: 3,
        fails: &[1],
        looks: [ONE, Look::Failed, TWO, THREE],
    },
    Visits {
        conns: 1,
        fails: &[0, 3],
        looks: [Look::Failed, ONE, Look::Ended, Look::Failed],
    },
];

#[test]
fn connections_are_lent_in_their_order(rt: HostRuntime) -> Result<(), Fail> {
    let alloc = rt.alloc();
    for row in VISITS {
        let mut port = port(alloc, row.conns, row.fails)?;
        assert_eq!(rt; four_visits(alloc, &mut port), row.looks);
        assert_eq!(rt; port.served().len(), row.conns);
        for (conn, piece) in port.served().iter().zip(PIECES) {
            assert_eq!(rt; conn.written(), piece);
        }
    }
    Ok(())
}

#[test]
fn a_port_that_was_shut_ends(rt: HostRuntime) -> Result<(), Fail> {
    let alloc = rt.alloc();
    let mut port = port(alloc, 3, &[1])?;
    assert_eq!(rt; visit(alloc, &mut port), ONE);
    port.shut();
    assert_eq!(rt; visit(alloc, &mut port), Look::Ended);
    assert_eq!(rt; visit(alloc, &mut port), Look::Ended);
    assert_eq!(rt; port.served().len(), 1);
    Ok(())
}

type Served = Lane<MemPort, MemBackend, FixedClock, SplitMix, FreeGate>;

fn lane(alloc: Global) -> Result<Served, Fail>
    ensures { IfOk result (λ lane. lane.port.out ≡ false) }
{
    Ok(Lane {
        port: port(alloc, 1, &[])?,
        means: Means {
            backend: MemBackend::new(alloc, Vec::new(alloc)),
            clock: FixedClock { moment: 0 },
            words: SplitMix { state: 0 },
            gate: FreeGate,
        },
    })
}

// What only a value that may go to another thread is given to.
fn sent<T: Send>(value: T) -> T
    ensures { result ≡ value }
{
    value
}

#[test]
fn a_lane_may_go_to_another_thread(rt: HostRuntime) -> Result<(), Fail> {
    let alloc = rt.alloc();
    let mut lane = sent(lane(alloc)?);
    lane.means.gate.pass(0);
    assert_eq!(rt; visit(alloc, &mut lane.port), ONE);
    assert_eq!(rt; lane.means.backend.sent().len(), 0);
    Ok(())
}

// An archive of numbers, which is left its label.
#[derive(Drop)]
struct Shelf {
    label: u32,
    histories: Vec<Seq<u64>>,
}

impl Archive<u64> for Shelf {
    ghost Beside = { ℕ };

    ghost sessions = { λ s. Some s.histories.items };

    ghost beside = { λ s. s.label };

    fn closed(&mut self, history: Vec<u64>) -> Result<(), Memory>
        ensures taken { OnOk result (self.new.histories.items ≡ self.old.histories.items ++ history.items ∷ []) }
        ensures refused { OnErr result (self.new.histories.items ≡ self.old.histories.items) }
        ensures beside { self.new.label ≡ self.old.label }
    {
        self.histories.push(Seq::of(history))?;
        Ok(())
    }
}

fn close<A: Archive<u64>>(alloc: Global, archive: &mut A, entries: &[u64]) -> Result<(), Fail> {
    archive.closed(Vec::from_slice(alloc, entries)?)?;
    Ok(())
}

#[test]
fn histories_are_taken_in_their_order(rt: HostRuntime) -> Result<(), Fail> {
    let alloc = rt.alloc();
    let mut shelf = Shelf {
        label: 7,
        histories: Vec::new(alloc),
    };
    close(alloc, &mut shelf, &[1, 2])?;
    close(alloc, &mut shelf, &[])?;
    close(alloc, &mut shelf, &[3])?;
    let lengths = shelf
        .histories
        .iter()
        .map(|history| history.as_slice().len());
    for (length, wanted) in lengths.zip([2, 0, 1]) {
        assert_eq!(rt; length, wanted);
    }
    assert_eq!(rt; shelf.histories.len(), 3);
    assert_eq!(rt; shelf.label, 7);
    Ok(())
}
