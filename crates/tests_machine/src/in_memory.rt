// What an outside in memory holds.
ghost use Rattle.std.specs.Prelude.{◌≡◌, false, IfOk, All, [], IsOk};
ghost use Rattle.outside_core.specs.Held.{IsUnusedLane, OutsideFacts};

use crate::lending::{Lent, lend};
use backend_core::MemBackend;
use gate_ports::{Archive, FreeGate, Lane, Means, MemPort};
use gw_base::{Bytes, FixedClock, Memory, ReadAll, SplitMix, Text};
use keeper_core::{Keeper, KeyRow, Row, Tables, keep};
use outside_core::{MemOutside, MemStore, Outside};
use std::alloc::Global;
use std::test::Fail;

type MemLane = Lane<MemPort, MemBackend, FixedClock, SplitMix, FreeGate>;

fn text(alloc: Global, s: &str) -> Result<Text, Fail> {
    Ok(Text::of(String::from_str(alloc, s)?))
}

fn lane(alloc: Global, moment: u64) -> MemLane
    ensures { IsUnusedLane result }
{
    Lane {
        port: MemPort::new(Vec::new(alloc), Vec::new(alloc)),
        means: Means {
            backend: MemBackend::new(alloc, Vec::new(alloc)),
            clock: FixedClock { moment },
            words: SplitMix { state: moment },
            gate: FreeGate,
        },
    }
}

fn key_row(alloc: Global, key: &str) -> Result<Row, Fail> {
    Ok(Row::Key(KeyRow {
        key: text(alloc, key)?,
        value: text(alloc, "secret")?,
        enabled: 1,
    }))
}

// A file `f`, the store `a`, and two lanes.
fn outside(alloc: Global, fails: Vec<u32>) -> Result<MemOutside<u64, MemBackend, FreeGate>, Fail> {
    let content = Bytes::of(Vec::from_slice(alloc, b"content")?);
    let files = vec![in alloc; (text(alloc, "f")?, content)]?;
    let store = MemStore::new(text(alloc, "a")?, Tables::new(alloc), Vec::new(alloc));
    let stores = vec![in alloc; store]?;
    let mut lanes = Vec::new(alloc);
    lanes.push(lane(alloc, 10))?;
    lanes.push(lane(alloc, 20))?;
    Ok(MemOutside::new(files, stores, lanes, fails))
}

#[test]
fn what_is_lent_is_given_back(rt: HostRuntime) -> Result<(), Fail> {
    let alloc = rt.alloc();
    let mut outside = outside(alloc, Vec::new(alloc))?;
    assert_eq!(rt; lend(alloc, &mut outside, "a", 1), Lent::KeeperAndLanes);
    assert_eq!(rt; lend(alloc, &mut outside, "b", 1), Lent::KeeperAndLanes);
    assert_eq!(rt; lend(alloc, &mut outside, "a", 1), Lent::Keeper);
    assert_eq!(rt; outside.failures(), 1);
    assert_eq!(rt; outside.lanes_returned().len(), 2);
    assert_eq!(rt; outside.lanes_returned()[0].means.clock.moment, 10);
    assert_eq!(rt; outside.lanes_returned()[1].means.clock.moment, 20);
    Ok(())
}

#[test]
fn the_calls_that_are_listed_fail(rt: HostRuntime) -> Result<(), Fail> {
    let alloc = rt.alloc();
    let mut outside = outside(alloc, vec![in alloc; 0, 2, 5]?)?;
    assert_eq!(rt; lend(alloc, &mut outside, "a", 1), Lent::Nothing);
    assert_eq!(rt; lend(alloc, &mut outside, "a", 1), Lent::Keeper);
    assert_eq!(rt; lend(alloc, &mut outside, "a", 1), Lent::KeeperAndLanes);
    assert!(rt; matches!(outside.file(alloc, "f", 7), Err(ReadAll::Fault)));
    assert_eq!(rt; outside.failures(), 3);
    assert_eq!(rt;
        outside.file(alloc, "f", 7)?.as_slice(),
        b"content".as_slice()
    );
    assert!(rt; matches!(outside.file(alloc, "f", 6), Err(ReadAll::TooLong)));
    assert!(rt; matches!(outside.file(alloc, "g", 7), Err(ReadAll::Fault)));
    assert_eq!(rt; outside.failures(), 4);
    Ok(())
}

#[test]
fn a_store_has_the_tables_of_its_keeper(rt: HostRuntime) -> Result<(), Fail> {
    let alloc = rt.alloc();
    let mut outside = outside(alloc, Vec::new(alloc))?;
    for name in ["a", "b"] {
        let mut keeper = outside.keeper(alloc, name)?;
        let kept = keep(&mut keeper, alloc, &key_row(alloc, name)?);
        assert!(rt; kept.is_ok());
        outside.keeper_back(name, keeper);
        let found = outside
            .tables(name)
            .is_some_and(|tables| tables.key(name).is_some());
        assert!(rt; found);
    }
    assert!(rt; outside.tables("c").is_none());
    Ok(())
}

#[test]
fn histories_stand_in_their_order(rt: HostRuntime) -> Result<(), Fail> {
    let alloc = rt.alloc();
    let mut outside = outside(alloc, Vec::new(alloc))?;
    outside.closed(vec![in alloc; 1, 2]?)?;
    outside.closed(vec![in alloc; 3]?)?;
    assert_eq!(rt; outside.sessions().len(), 2);
    assert_eq!(rt; outside.sessions()[0].as_slice(), [1, 2].as_slice());
    Ok(())
}
