// Connections to methods that ask for a key, to the byte.
ghost use Rattle.std.specs.Prelude.{◌≡◌, false};

use crate::lanes::{MemLane, lane, run};
use crate::sessions::{
    Plan, ask, close, commands_of, conn, entries, is_served_so, joined, serve_by, start, take_all,
    text,
};
use book_rules::{Command, Entry, Event, Limits};
use gate_walk::{Ended, LaneEnd};
use gw_base::Seq;
use std::alloc::Global;
use std::sync::Wait;
use std::test::Fail;
use usage_plans::{PeriodKind, Quota, Throttle};

const DOCUMENT: &str = r#"{"version":1,
    "resources":{"/k":{
        "GET":{"apiKeyRequired":true,"integration":{"type":"MOCK",
            "templates":{"application/json":"{\"statusCode\":200}"},
            "responses":[{"status":200,"templates":{"application/json":"by $!context.identity.apiKeyId"}}]}},
        "POST":{"integration":{"type":"MOCK",
            "templates":{"application/json":"{\"statusCode\":200}"},
            "responses":[{"status":200,"templates":{"application/json":"by $!context.identity.apiKeyId"}}]}}
    }}}"#;

const AMPLE: Plan = Plan {
    limits: Limits {
        entries: 100,
        bytes: 10_000,
    },
    shuts: false,
};

fn put_key(alloc: Global, name: &str, value: &str, enabled: bool) -> Result<Event, Fail> {
    Ok(ask(Command::PutKey {
        key: text(alloc, name)?,
        value: text(alloc, value)?,
        enabled,
    }))
}

fn put_plan(
    alloc: Global,
    name: &str,
    throttle: Option<Throttle>,
    quota: Option<Quota>,
) -> Result<Event, Fail> {
    let mut stages = Seq::new(alloc);
    stages.push((text(alloc, "hello")?, text(alloc, "v1")?))?;
    Ok(ask(Command::PutPlan {
        plan: text(alloc, name)?,
        throttle,
        quota,
        stages,
    }))
}

fn join(alloc: Global, plan: &str, key: &str) -> Result<Event, Fail> {
    Ok(ask(Command::JoinKey {
        plan: text(alloc, plan)?,
        key: text(alloc, key)?,
    }))
}

// The commands of a session whose stage has two plans: `burst` admits two calls at once, and one more each second; `daily` admits
// one call a day. The key `k1` joined the first, `k2` the second and `k4` the first, but it is not enabled; `k3` joined none.
fn keyed(alloc: Global) -> Result<Vec<Event>, Fail> {
    let mut commands = commands_of(alloc, DOCUMENT)?;
    let throttle = Throttle { rate: 1, burst: 2 };
    let quota = Quota {
        limit: 1,
        offset: 0,
        kind: PeriodKind::Day,
    };
    commands.push(put_plan(alloc, "burst", Some(throttle), None)?)?;
    commands.push(put_plan(alloc, "daily", None, Some(quota))?)?;
    for (name, value, enabled) in [
        ("k1", "v-1", true),
        ("k2", "v-2", true),
        ("k3", "v-3", true),
        ("k4", "v-4", false),
    ] {
        commands.push(put_key(alloc, name, value, enabled)?)?;
    }
    for (plan, key) in [("burst", "k1"), ("daily", "k2"), ("burst", "k4")] {
        commands.push(join(alloc, plan, key)?)?;
    }
    Ok(commands)
}

const BARE: &'static [u8] = b"GET /hello/v1/k HTTP/1.1\r\nhost: a\r\n\r\n";

const BY_1: &'static [u8] = b"GET /hello/v1/k HTTP/1.1\r\nhost: a\r\nX-API-Key: v-1\r\n\r\n";

const BY_2: &'static [u8] = b"GET /hello/v1/k HTTP/1.1\r\nhost: a\r\nx-api-key: v-2\r\n\r\n";

const BY_3: &'static [u8] = b"GET /hello/v1/k HTTP/1.1\r\nhost: a\r\nx-api-key: v-3\r\n\r\n";

const BY_4: &'static [u8] = b"GET /hello/v1/k HTTP/1.1\r\nhost: a\r\nx-api-key: v-4\r\n\r\n";

// The name of a key is no value of one.
const BY_NAME: &'static [u8] = b"GET /hello/v1/k HTTP/1.1\r\nhost: a\r\nx-api-key: k1\r\n\r\n";

const FREE: &'static [u8] = b"POST /hello/v1/k HTTP/1.1\r\nhost: a\r\nx-api-key: v-1\r\n\r\n";

const NOWHERE: &'static [u8] = b"GET /hello/v1/x HTTP/1.1\r\nhost: a\r\nx-api-key: v-1\r\n\r\n";

const OK_1: &'static [u8] =
    b"HTTP/1.1 200 OK\r\ncontent-type: application/json\r\ncontent-length: 5\r\n\r\nby k1";

const OK_2: &'static [u8] =
    b"HTTP/1.1 200 OK\r\ncontent-type: application/json\r\ncontent-length: 5\r\n\r\nby k2";

const OK_FREE: &'static [u8] =
    b"HTTP/1.1 200 OK\r\ncontent-type: application/json\r\ncontent-length: 3\r\n\r\nby ";

const INVALID: &'static [u8] =
    b"HTTP/1.1 403 Forbidden\r\ncontent-type: application/json\r\nx-gateway-cause: INVALID_API_KEY\r\ncontent-length: 23\r\n\r\n{\"message\":\"Forbidden\"}";

const THROTTLED: &'static [u8] =
    b"HTTP/1.1 429 Too Many Requests\r\ncontent-type: application/json\r\nx-gateway-cause: THROTTLED\r\ncontent-length: 31\r\n\r\n{\"message\":\"Too Many Requests\"}";

const OVER_QUOTA: &'static [u8] =
    b"HTTP/1.1 429 Too Many Requests\r\ncontent-type: application/json\r\nx-gateway-cause: QUOTA_EXCEEDED\r\ncontent-length: 28\r\n\r\n{\"message\":\"Limit Exceeded\"}";

const NO_TOKEN: &'static [u8] =
    b"HTTP/1.1 403 Forbidden\r\ncontent-type: application/json\r\nx-gateway-cause: MISSING_AUTHENTICATION_TOKEN\r\ncontent-length: 42\r\n\r\n{\"message\":\"Missing Authentication Token\"}";

/// What comes on a connection, what is written on it, and the entries behind the commands.
type Row = (
    &'static [&'static [u8]],
    &'static [&'static [u8]],
    &'static str,
);

const ROWS: [Row; 10] = [
    (&[BARE], &[INVALID], "enter admit leave "),
    (&[BY_3], &[INVALID], "enter admit leave "),
    (&[BY_4], &[INVALID], "enter admit leave "),
    (&[BY_NAME], &[INVALID], "enter admit leave "),
    (&[BY_1], &[OK_1], "enter admit leave "),
    (
        &[BY_1, BY_1, BY_1],
        &[OK_1, OK_1, THROTTLED],
        "enter admit leave enter admit leave enter admit leave ",
    ),
    (
        &[BY_2, BY_2],
        &[OK_2, OVER_QUOTA],
        "enter admit leave enter admit leave ",
    ),
    // A key of another plan is admitted yet.
    (
        &[BY_2, BY_2, BY_1],
        &[OK_2, OVER_QUOTA, OK_1],
        "enter admit leave enter admit leave enter admit leave ",
    ),
    // A method that asks for no key admits all, and no key is known.
    (&[FREE], &[OK_FREE], "enter leave "),
    (&[NOWHERE], &[NO_TOKEN], "enter leave "),
];

fn is_served<R: Wait>(rt: &R, alloc: Global, row: &Row) -> Result<bool, Fail> {
    let (comes, written, words) = row;
    let bytes = joined(alloc, comes)?;
    let mut conn = conn(alloc, &bytes, 4096, &[], &[])?;
    let served = serve_by(rt, alloc, &AMPLE, keyed(alloc)?, &mut conn)?;
    is_served_so(alloc, &served, &conn, written, Ended::Closed, words)
}

#[test]
fn a_call_is_admitted_by_its_key(rt: HostRuntime) -> Result<(), Fail> {
    let alloc = rt.alloc();
    for (number, row) in ROWS.iter().enumerate() {
        assert!(rt; is_served(&rt, alloc, row)?, "row {number}");
    }
    Ok(())
}

// Serves two lanes, one after another, each by a seat of its own, and gives the session's history.
fn serve_both<R: Wait>(
    rt: &R,
    alloc: Global,
    one: &mut MemLane,
    two: &mut MemLane,
) -> Result<([LaneEnd; 2], Vec<Entry>), Fail>
    requires open { (one.old.port.closed ≡ false) × (two.old.port.closed ≡ false) }
    requires home { (one.old.port.out ≡ false) × (two.old.port.out ≡ false) }
{
    let commands = keyed(alloc)?;
    let (desk, seat) = start(alloc, AMPLE.limits, 3)?;
    let seat = take_all(rt, alloc, &desk, seat, commands);
    let (seat, first) = desk.split(seat);
    let (seat, second) = desk.split(seat);
    let (first, first_end) = run(rt, alloc, &desk, first, one);
    let (second, second_end) = run(rt, alloc, &desk, second, two);
    let seat = desk.join(seat, first);
    let seat = desk.join(seat, second);
    Ok(([first_end, second_end], close(desk, seat)))
}

fn is_written(lane: &MemLane, written: &[u8]) -> bool {
    match lane.port.served() {
        [conn] => conn.written() == written,
        _ => false,
    }
}

// Two lanes share what a key's plan allows.
#[test]
fn two_lanes_admit_by_one_key(rt: HostRuntime) -> Result<(), Fail> {
    let alloc = rt.alloc();
    let both = joined(alloc, &[BY_1, BY_2])?;
    let more = joined(alloc, &[BY_1, BY_2, BY_1])?;
    let mut one = lane(alloc, &[&both], &[])?;
    let mut two = lane(alloc, &[&more], &[])?;
    let (ends, history) = serve_both(&rt, alloc, &mut one, &mut two)?;
    assert_eq!(rt; ends, [LaneEnd::Ended, LaneEnd::Ended]);
    let first = joined(alloc, &[OK_1, OK_2])?;
    let second = joined(alloc, &[OK_1, OVER_QUOTA, THROTTLED])?;
    assert!(rt; is_written(&one, &first));
    assert!(rt; is_written(&two, &second));
    for (seat, words) in [
        (1, "enter admit leave enter admit leave "),
        (2, "enter admit leave enter admit leave enter admit leave "),
    ] {
        assert_eq!(rt; entries(alloc, &history, seat)?.as_str(), words);
    }
    Ok(())
}
