// Connections of a session that is closing.
use crate::said::{ANN, BAD_REQUEST, BOB, HI_ANN_CLOSING, NO_HEAD};
use crate::sessions::{SHUT, conn, entries, joined, serve};
use gate_walk::Ended;
use std::test::Fail;

#[test]
fn an_answer_of_a_closing_session_is_the_last(rt: HostRuntime) -> Result<(), Fail> {
    let alloc = rt.alloc();
    let bytes = joined(alloc, &[ANN, BOB])?;
    for step in [1, 4096] {
        let mut conn = conn(alloc, &bytes, step, &[], &[])?;
        let served = serve(&rt, alloc, &SHUT, &mut conn)?;
        assert_eq!(rt; conn.written(), HI_ANN_CLOSING);
        assert_eq!(rt; served.ended, Ended::Closed);
        assert!(rt; served.closing);
        assert_eq!(rt;
            entries(alloc, &served.history, 0)?.as_str(),
            "enter leave "
        );
        assert_eq!(rt; served.history.len(), 6);
    }
    Ok(())
}

// It is told also where the answer was not written.
#[test]
fn a_failed_write_tells_that_the_session_is_closing(rt: HostRuntime) -> Result<(), Fail> {
    let alloc = rt.alloc();
    let mut conn = conn(alloc, ANN, 4096, &[], &[0])?;
    let served = serve(&rt, alloc, &SHUT, &mut conn)?;
    assert_eq!(rt; conn.written(), b"".as_slice());
    assert_eq!(rt; served.ended, Ended::WriteFault);
    assert!(rt; served.closing);
    Ok(())
}

// A connection on which no message left tells nothing of it.
#[test]
fn only_a_leave_tells_that_the_session_is_closing(rt: HostRuntime) -> Result<(), Fail> {
    let alloc = rt.alloc();
    let mut conn = conn(alloc, NO_HEAD, 4096, &[], &[])?;
    let served = serve(&rt, alloc, &SHUT, &mut conn)?;
    assert_eq!(rt; conn.written(), BAD_REQUEST);
    assert_eq!(rt; served.ended, Ended::BadHead);
    assert!(rt; !served.closing);
    Ok(())
}
