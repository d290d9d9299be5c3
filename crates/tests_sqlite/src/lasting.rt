// Rows that are kept, and there again for the next keeper.
ghost use Rattle.std.specs.Prelude.{◌≡◌, [], IfOk, ⊤};

use crate::rows::{Given, join, row, show};
use gw_base::Memory;
use keeper_core::{JoinRow, KeepFault, Keeper};
use keeper_sqlite::{SqliteKeeper, StartFault, StoreFile};
use sqlite::{Connection, Error, File, FileStore};
use std::alloc::Global;
use std::fs;
use std::test::Fail;

/// What a keeper did.
#[derive(Clone, Copy, Debug, PartialEq, Eq)]
pub(crate) enum Did {
    Kept,
    Failed,
    Memory,
}

fn outcome(kept: Result<(), KeepFault>) -> Did {
    match kept {
        Ok(()) => Did::Kept,
        Err(KeepFault::Failed) => Did::Failed,
        Err(KeepFault::Memory) => Did::Memory,
    }
}

/// The file of a test, by its path.
#[derive(Drop)]
pub(crate) struct TestFile {
    rt: HostRuntime,
    path: String,
}

impl StoreFile for TestFile {
    type Conn = Connection<FileStore<File>>;

    ghost is_fresh = { λ conn. ⊤ };

    fn open(&mut self) -> Result<Connection<FileStore<File>>, Error> {
        Connection::open(&self.rt, self.path.as_str())
    }

    fn close(&mut self, conn: Connection<FileStore<File>>) {
        let _ = conn.close();
    }
}

pub(crate) type FileKeeper = SqliteKeeper<FileStore<File>, TestFile>;

fn open(rt: &HostRuntime, path: &str) -> Result<FileKeeper, StartFault>
    ensures { IfOk result (λ keeper. keeper.staged ≡ []) }
{
    let alloc = rt.alloc();
    match String::from_str(alloc, path) {
        Ok(path) => SqliteKeeper::start(alloc, TestFile { rt: *rt, path }),
        Err(_) => Err(StartFault::Memory),
    }
}

pub(crate) fn start(rt: &HostRuntime, path: &str) -> Result<FileKeeper, Memory>
    ensures { IfOk result (λ keeper. keeper.staged ≡ []) }
{
    match open(rt, path) {
        Ok(keeper) => Ok(keeper),
        Err(_) => Err(Memory),
    }
}

fn stage_all(keeper: &mut FileKeeper, alloc: Global, given: &[Given]) -> Result<(), KeepFault> {
    for given in given {
        keeper.put_row(alloc, &row(alloc, *given)?)?;
    }
    Ok(())
}

/// Stages the rows, and commits whatever is staged then.
pub(crate) fn commit(keeper: &mut FileKeeper, alloc: Global, given: &[Given]) -> Did
    ensures { keeper.new.staged ≡ [] }
{
    let staged = stage_all(keeper, alloc, given);
    let kept = keeper.commit(alloc);
    if staged.is_err() {
        outcome(staged)
    } else {
        outcome(kept)
    }
}

fn rewrite(keeper: &mut FileKeeper, alloc: Global, row: Result<JoinRow, Memory>) -> Did
    requires { keeper.old.staged ≡ [] }
{
    match row {
        Ok(row) => outcome(keeper.rewrite(alloc, &row)),
        Err(_) => Did::Memory,
    }
}

/// The tables that the keeper loads, or why it loads none.
pub(crate) fn loaded(keeper: &mut FileKeeper, alloc: Global) -> Result<String, Memory> {
    match keeper.load(alloc) {
        Ok(tables) => show(alloc, &tables),
        Err(fault) => Ok(format!(in alloc; "{fault:?}")?),
    }
}

/// What the next keeper of this file loads, or why it does not start.
pub(crate) fn found(rt: &HostRuntime, path: &str) -> Result<String, Memory> {
    match open(rt, path) {
        Ok(mut keeper) => loaded(&mut keeper, rt.alloc()),
        Err(StartFault::Memory) => Err(Memory),
        Err(fault) => Ok(format!(in rt.alloc(); "{fault:?}")?),
    }
}

/// Makes the folder of a test, empty.
pub(crate) fn folder(rt: &HostRuntime, name: &str) -> Result<(), Fail> {
    let _ = fs::remove_dir_all(rt, name);
    fs::create_dir(rt, name)?;
    Ok(())
}

const GREATEST: u64 = 9_223_372_036_854_775_807;

const ODD: [Given; 8] = [
    Given::Join("p\"", "k'", 999, 0),
    Given::Plan("p\"", 0, GREATEST, "a/dev it's/\u{2603}"),
    Given::Key("k'", "", 0),
    Given::Stage("\u{43a}\u{43b}", "dev", 1, "x=%20 y=~"),
    Given::Deployment("", 2, 0, "{\"swagger\":\"2.0\"}\n"),
    Given::Deployment("", 1, 1, "\0"),
    Given::Api("\u{43a}\u{43b}", 1, ""),
    Given::Api("", 0, "$input.body; DROP TABLE apis --"),
];

const SHOWN: &str =
    "meta 0 1\napi [] 0 [$input.body; DROP TABLE apis --]\napi [\u{43a}\u{43b}] 1 []\ndeployment [] 1 1 [\0]\ndeployment [] 2 0 [{\"swagger\":\"2.0\"}\n]\nstage [\u{43a}\u{43b}] [dev] 1 [x=%20 y=~] 8 9 []\nkey [k'] [] 0\nplan [p\"] 0 2 9223372036854775807 7 6 3 [a/dev it's/\u{2603}]\njoin [p\"] [k'] 999 3 4 1 5 6 0 1\n";

#[test]
fn rows_of_every_table_outlive_the_keeper(rt: HostRuntime) -> Result<(), Fail> {
    let alloc = rt.alloc();
    folder(&rt, "tests_sqlite_rows")?;
    let mut keeper = start(&rt, "tests_sqlite_rows/a")?;
    assert_eq!(rt; loaded(&mut keeper, alloc)?.as_str(), "meta 0 1\n");
    for given in ODD {
        assert_eq!(rt; commit(&mut keeper, alloc, &[given]), Did::Kept);
    }
    assert_eq!(rt; loaded(&mut keeper, alloc)?.as_str(), SHOWN);
    drop(keeper);
    assert_eq!(rt; found(&rt, "tests_sqlite_rows/a")?.as_str(), SHOWN);
    fs::remove_dir_all(&rt, "tests_sqlite_rows")?;
    Ok(())
}

/// Commits of rows, what they did, and all keys and joins afterwards.
const COMMITS: [(&[Given], Did, &str); 8] = [
    (&[], Did::Kept, ""),
    (
        &[Given::Key("a", "1", 1), Given::Key("b", "2", 1)],
        Did::Kept,
        "key [a] [1] 1\nkey [b] [2] 1\n",
    ),
    (
        &[Given::Key("b", "3", 1), Given::Key("b", "4", 0)],
        Did::Kept,
        "key [a] [1] 1\nkey [b] [4] 0\n",
    ),
    (
        &[Given::Key("c", "5", 1), Given::Key("d", "1", 1)],
        Did::Failed,
        "key [a] [1] 1\nkey [b] [4] 0\n",
    ),
    (
        &[
            Given::Key("c", "5", 1),
            Given::Join("p", "a", GREATEST + 1, 0),
        ],
        Did::Failed,
        "key [a] [1] 1\nkey [b] [4] 0\n",
    ),
    (
        &[Given::Key("c", "5", GREATEST + 1)],
        Did::Failed,
        "key [a] [1] 1\nkey [b] [4] 0\n",
    ),
    (
        &[Given::Join("p", "a", 1, GREATEST)],
        Did::Kept,
        "key [a] [1] 1\nkey [b] [4] 0\njoin [p] [a] 1 3 4 1 5 6 9223372036854775807 1\n",
    ),
    (
        &[Given::Meta(0, 1)],
        Did::Kept,
        "key [a] [1] 1\nkey [b] [4] 0\njoin [p] [a] 1 3 4 1 5 6 9223372036854775807 1\n",
    ),
];

#[test]
fn a_commit_keeps_all_or_nothing(rt: HostRuntime) -> Result<(), Fail> {
    let alloc = rt.alloc();
    folder(&rt, "tests_sqlite_commits")?;
    let mut keeper = start(&rt, "tests_sqlite_commits/a")?;
    for (given, kept, keys) in COMMITS {
        assert_eq!(rt; commit(&mut keeper, alloc, given), kept);
        let shown = format!(in alloc; "meta 0 1\n{keys}")?;
        assert_eq!(rt; loaded(&mut keeper, alloc)?.as_str(), shown.as_str());
    }
    fs::remove_dir_all(&rt, "tests_sqlite_commits")?;
    Ok(())
}

#[test]
fn a_join_is_rewritten_alone(rt: HostRuntime) -> Result<(), Fail> {
    let alloc = rt.alloc();
    folder(&rt, "tests_sqlite_rewrites")?;
    let mut keeper = start(&rt, "tests_sqlite_rewrites/a")?;
    let given = [Given::Join("p", "a", 1, 0), Given::Join("p", "b", 2, 0)];
    assert_eq!(rt; commit(&mut keeper, alloc, &given), Did::Kept);
    assert_eq!(rt;
        rewrite(&mut keeper, alloc, join(alloc, "p", "b", 7, 8)),
        Did::Kept
    );
    assert_eq!(rt; commit(&mut keeper, alloc, &[]), Did::Kept);
    assert_eq!(rt;
        rewrite(&mut keeper, alloc, join(alloc, "p", "a", 7, GREATEST + 1)),
        Did::Failed
    );
    drop(keeper);
    assert_eq!(rt;
        found(&rt, "tests_sqlite_rewrites/a")?.as_str(),
        "meta 0 1\njoin [p] [a] 1 3 4 1 5 6 0 1\njoin [p] [b] 7 3 4 1 5 6 8 1\n"
    );
    fs::remove_dir_all(&rt, "tests_sqlite_rewrites")?;
    Ok(())
}
