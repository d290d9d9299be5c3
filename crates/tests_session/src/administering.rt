// The command `admin`: lines over the store `a`.
use crate::outsides::{PLAIN, Plan, outside, told_with};
use crate::stores::Given;
use gw_base::MemSource;
use std::test::Fail;

/// An outside, what stands on the input, which of its reads and which writes fail, what is printed, and the status.
#[derive(Clone, Copy)]
struct Row {
    plan: Plan,
    lines: &'static str,
    reads: &'static [u32],
    writes: &'static [u32],
    said: &'static str,
    status: u8,
}

const LINES: &str = "text 0 bye Bye!\n# a comment\n\ndeploy 0 bye\nstage 0 bye v1 1 env=x\n";

const DONE: Row = Row {
    plan: PLAIN,
    lines: LINES,
    reads: &[],
    writes: &[],
    said: "done\ndeployed 1\ndone\n",
    status: 0,
};

const ROWS: &'static [Row] = &[
    DONE,
    Row {
        lines: "deploy 0 nope\ndeploy 0 hello",
        said: "refused NoApi\ndeployed 2\n",
        ..DONE
    },
    Row {
        lines: "shutdown 5\ndeploy 0 hello\n",
        said: "done\ndeployed 2\n",
        ..DONE
    },
    Row {
        lines: "deploy 0 hello\npost 0 0 hello v1 Ann\ndeploy 0 hello\n",
        said: "deployed 2\nrefused line 2 BadRecord at ~\n",
        status: 1,
        ..DONE
    },
    Row {
        lines: "keepfails 1\n",
        said: "refused line 1 BadRecord at ~\n",
        status: 1,
        ..DONE
    },
    Row {
        lines: "text 0 bye #if($a)x\n",
        said: "refused line 1 Unclosed(0) at /text\n",
        status: 1,
        ..DONE
    },
    Row {
        lines: "api 0 pets {\"version\":1,\"resources\":{\"/\":{\"GET\":{\"integration\":{\"type\":\"MOCK\"}}}}}\ndeploy 0 pets\n",
        said: "done\ndeployed 1\n",
        ..DONE
    },
    Row {
        lines: "deploy 0 hello\napi 0 pets {\"bogus\":1}\ndeploy 0 hello\n",
        said: "deployed 2\nrefused line 2 Unknown(bogus) at /bogus\n",
        status: 1,
        ..DONE
    },
    Row {
        lines: "api 0 pets {\"version\":1,\"authorizers\":{\"t\":{\"header\":\"h\",\"uri\":\"http://localhost:1/\"}},\"resources\":{\"/\":{\"GET\":{\"authorizer\":\"t\",\"integration\":{\"type\":\"MOCK\"}}}}}\ndeploy 0 pets\n",
        said: "done\ndeployed 1\n",
        ..DONE
    },
    Row {
        lines: "flush 0 hello v2\nflush 0 hello v1\nflush 0 hello\n",
        said: "refused NoStage\ndone\nrefused line 3 BadRecord at ~\n",
        status: 1,
        ..DONE
    },
    Row {
        plan: Plan {
            keeps: &[1],
            ..PLAIN
        },
        said: "store\nrefused NoApi\nrefused NoApi\n",
        ..DONE
    },
    Row {
        plan: Plan {
            rows: &[Given::Api, Given::Deployment(2)],
            ..PLAIN
        },
        said: "refused BadStore(deployments,0)\n",
        status: 1,
        ..DONE
    },
    Row {
        plan: Plan {
            fails: &[0],
            ..PLAIN
        },
        said: "fault keeper\n",
        status: 3,
        ..DONE
    },
    Row {
        plan: Plan {
            keeps: &[0],
            ..PLAIN
        },
        said: "fault keeper\n",
        status: 3,
        ..DONE
    },
    Row {
        reads: &[0],
        said: "fault input\n",
        status: 3,
        ..DONE
    },
    Row {
        writes: &[1],
        said: "done\nfault output\n",
        status: 3,
        ..DONE
    },
];

#[test]
fn lines_are_administered_so(rt: HostRuntime) -> Result<(), Fail> {
    let alloc = rt.alloc();
    for row in ROWS {
        let mut outside = outside(alloc, &row.plan)?;
        let bytes = Vec::from_slice(alloc, row.lines.as_bytes())?;
        let mut input = MemSource::new(bytes, 7, Vec::from_slice(alloc, row.reads)?);
        let words = ["admin", "a"];
        let (status, output) = told_with(&rt, alloc, &words, &mut input, &mut outside, row.writes)?;
        assert_eq!(rt; output.bytes(), row.said.as_bytes());
        assert_eq!(rt; status, row.status);
    }
    Ok(())
}

#[test]
fn what_is_administered_stands_in_the_store(rt: HostRuntime) -> Result<(), Fail> {
    let alloc = rt.alloc();
    let mut outside = outside(alloc, &PLAIN)?;
    for (lines, said) in [(LINES, DONE.said), ("deploy 9 bye\n", "deployed 2\n")] {
        let bytes = Vec::from_slice(alloc, lines.as_bytes())?;
        let mut input = MemSource::new(bytes, 4096, Vec::new(alloc));
        let (status, output) = told_with(
            &rt,
            alloc,
            &["admin", "a"],
            &mut input,
            &mut outside,
            &[],
        )?;
        assert_eq!(rt; status, 0);
        assert_eq!(rt; output.bytes(), said.as_bytes());
    }
    let stands = outside
        .tables("a")
        .is_some_and(|tables| tables.stage("bye", "v1").is_some());
    assert!(rt; stands);
    Ok(())
}
