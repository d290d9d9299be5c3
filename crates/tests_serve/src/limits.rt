// Sessions that get full.
use crate::said::{ANN, BOB, BUSY, HI_ANN};
use crate::sessions::{Plan, conn, is_served_so, joined, serve};
use book_rules::Limits;
use gate_walk::Ended;
use std::alloc::Global;
use std::sync::Wait;
use std::test::Fail;

/// The limits of a session, what is written on a connection of two messages and how it ends, and the entries.
#[derive(Clone, Copy)]
struct Row {
    limits: Limits,
    written: &'static [&'static [u8]],
    ended: Ended,
    entries: &'static str,
}

// The three commands have 32 bytes, an Enter has 7 and a Leave none.
const ROWS: &'static [Row] = &[
    Row {
        limits: Limits {
            entries: 4,
            bytes: 1000,
        },
        written: &[BUSY],
        ended: Ended::SessionFull {
            entries: 4,
            bytes: 39,
        },
        entries: "enter ",
    },
    Row {
        limits: Limits {
            entries: 3,
            bytes: 1000,
        },
        written: &[BUSY],
        ended: Ended::SessionFull {
            entries: 3,
            bytes: 32,
        },
        entries: "",
    },
    Row {
        limits: Limits {
            entries: 20,
            bytes: 38,
        },
        written: &[BUSY],
        ended: Ended::SessionFull {
            entries: 3,
            bytes: 32,
        },
        entries: "",
    },
    Row {
        limits: Limits {
            entries: 20,
            bytes: 39,
        },
        written: &[HI_ANN, BUSY],
        ended: Ended::SessionFull {
            entries: 5,
            bytes: 39,
        },
        entries: "enter leave ",
    },
    Row {
        limits: Limits {
            entries: 6,
            bytes: 1000,
        },
        written: &[HI_ANN, BUSY],
        ended: Ended::SessionFull {
            entries: 6,
            bytes: 46,
        },
        entries: "enter leave enter ",
    },
];

fn plan(row: &Row) -> Plan {
    Plan {
        limits: row.limits,
        shuts: false,
    }
}

// Whether a connection of two messages is served as its row says.
fn is_served<R: Wait>(rt: &R, alloc: Global, row: &Row) -> Result<bool, Fail> {
    let bytes = joined(alloc, &[ANN, BOB])?;
    let mut conn = conn(alloc, &bytes, 4096, &[], &[])?;
    let served = serve(rt, alloc, &plan(row), &mut conn)?;
    is_served_so(alloc, &served, &conn, row.written, row.ended, row.entries)
}

#[test]
fn a_full_session_is_told(rt: HostRuntime) -> Result<(), Fail> {
    let alloc = rt.alloc();
    for (number, row) in ROWS.iter().enumerate() {
        assert!(rt; is_served(&rt, alloc, row)?, "row {number}");
    }
    Ok(())
}

// How a connection ends whose first write fails, on which nothing is written.
fn end_unwritten<R: Wait>(rt: &R, alloc: Global, row: &Row) -> Result<Ended, Fail> {
    let mut conn = conn(alloc, ANN, 4096, &[], &[0])?;
    let served = serve(rt, alloc, &plan(row), &mut conn)?;
    if !conn.written().is_empty() {
        return Err(Fail::new("something is written"));
    }
    Ok(served.ended)
}

// That the answer could not be written is not told where the session is full.
#[test]
fn a_full_session_is_told_though_the_write_fails(rt: HostRuntime) -> Result<(), Fail> {
    let alloc = rt.alloc();
    for row in ROWS {
        let answered = row.written.len() == 2;
        let ended = if answered {
            Ended::WriteFault
        } else {
            row.ended
        };
        assert_eq!(rt; end_unwritten(&rt, alloc, row)?, ended);
    }
    Ok(())
}
