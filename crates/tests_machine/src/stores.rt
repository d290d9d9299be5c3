// Stores that can't be had.
use crate::lending::{Lent, lend};
use crate::passing::PassingStores;
use gateway_machine::MachineOutside;
use keeper_core::Table;
use outside_core::{KeeperStart, Outside};
use std::test::Fail;

#[test]
fn a_store_that_cannot_be_had_is_counted(rt: HostRuntime) -> Result<(), Fail> {
    let alloc = rt.alloc();
    let mut log = Vec::new(alloc);
    let mut outside = MachineOutside::new(&rt, alloc, PassingStores, &mut log);
    assert_eq!(rt;
        lend::<u64, _>(alloc, &mut outside, "x/1", 1),
        Lent::Nothing
    );
    assert_eq!(rt;
        Outside::<u64>::keeper(&mut outside, alloc, "y").err(),
        Some(KeeperStart::BadStore(Table::Stages, 7))
    );
    drop(outside);
    assert_eq!(rt; log.as_slice(), b"cannot open the store x/1\n".as_slice());
    Ok(())
}
