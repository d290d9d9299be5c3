// Lanes over sockets of the loopback.
use crate::lending::{Lent, lend};
use crate::passing::PassingStores;
use gateway_machine::MachineOutside;
use std::test::Fail;

#[test]
fn lanes_listen_at_a_free_port(rt: HostRuntime) -> Result<(), Fail> {
    let alloc = rt.alloc();
    let mut log = Vec::new(alloc);
    let mut outside = MachineOutside::new(&rt, alloc, PassingStores, &mut log);
    assert_eq!(rt;
        lend::<u64, _>(alloc, &mut outside, "a", 2),
        Lent::KeeperAndLanes
    );
    assert_eq!(rt;
        lend::<u64, _>(alloc, &mut outside, "a", 1),
        Lent::KeeperAndLanes
    );
    drop(outside);
    assert!(rt; log.starts_with(b"listening on 127.0.0.1:"));
    assert!(rt; log.ends_with(b" with 1 lanes\n"));
    Ok(())
}
