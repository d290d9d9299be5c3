// What is printed of outsides, and the statuses.
use crate::outsides::{PLAIN, Plan, outside, told};
use crate::stores::Given;
use std::test::Fail;

/// An outside, which writes of the output fail, what is printed, and the status.
#[derive(Clone, Copy)]
struct Row {
    plan: Plan,
    writes: &'static [u32],
    said: &'static str,
    status: u8,
}

const BOTH: &str = "session entries=4 calls=2 admitted=0 throttled=0 quota=0 notkept=0\n";

const ROWS: &'static [Row] = &[
    Row {
        plan: PLAIN,
        writes: &[],
        said: BOTH,
        status: 0,
    },
    Row {
        plan: Plan {
            fails: &[0],
            ..PLAIN
        },
        writes: &[],
        said: "fault keeper\n",
        status: 3,
    },
    Row {
        plan: Plan {
            keeps: &[0],
            ..PLAIN
        },
        writes: &[],
        said: "fault keeper\n",
        status: 3,
    },
    Row {
        plan: Plan {
            fails: &[1],
            ..PLAIN
        },
        writes: &[],
        said: "fault port\n",
        status: 3,
    },
    Row {
        plan: Plan {
            looks: &[0],
            ..PLAIN
        },
        writes: &[],
        said: "session entries=0 calls=0 admitted=0 throttled=0 quota=0 notkept=0\nfault port\n",
        status: 3,
    },
    Row {
        plan: Plan {
            looks: &[1],
            ..PLAIN
        },
        writes: &[],
        said: "session entries=4 calls=2 admitted=0 throttled=0 quota=0 notkept=0\nfault port\n",
        status: 3,
    },
    Row {
        plan: Plan {
            rows: &[Given::Api, Given::Deployment(2)],
            ..PLAIN
        },
        writes: &[],
        said: "refused BadStore(deployments,0)\n",
        status: 1,
    },
    Row {
        plan: PLAIN,
        writes: &[0],
        said: "fault output\n",
        status: 3,
    },
];

#[test]
fn serving_ends_so(rt: HostRuntime) -> Result<(), Fail> {
    let alloc = rt.alloc();
    for row in ROWS {
        let mut outside = outside(alloc, &row.plan)?;
        let words = ["serve", "a", "8080", "2"];
        let (status, output) = told(&rt, alloc, &words, &mut outside, row.writes)?;
        assert_eq!(rt; output.bytes(), row.said.as_bytes());
        assert_eq!(rt; status, row.status);
    }
    Ok(())
}
