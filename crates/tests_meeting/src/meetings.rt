// Two lanes of a session that meet before their exchanges.
use crate::lanes::{are_answered, have_met, lanes};
use crate::pets::pets;
use book_core::Book;
use book_rules::Limits;
use gate_session::serve_session;
use gate_walk::LaneEnd;
use keeper_core::MemKeeper;
use std::sync::Barrier;
use std::test::Fail;

const LIMITS: Limits = Limits {
    entries: 100,
    bytes: 10_000,
};

#[test]
fn lanes_of_a_session_meet_before_their_exchanges(rt: HostRuntime) -> Result<(), Fail> {
    let alloc = rt.alloc();
    let here = Barrier::new(2);
    let keeper = MemKeeper::new(pets(alloc)?, Vec::new(alloc));
    let Ok(book) = Book::start(alloc, keeper, LIMITS) else {
        return Err(Fail::new("no book started"));
    };
    let mut lanes = lanes(&rt, alloc, &here)?;
    let Ok((book, ends)) = serve_session(&rt, alloc, book, &mut lanes) else {
        return Err(Fail::new("no session was served"));
    };
    assert!(rt; ends.as_slice() == [LaneEnd::Ended, LaneEnd::Ended].as_slice());
    assert!(rt; are_answered(&lanes));
    assert!(rt; have_met(book.history()));
    Ok(())
}
