// A second keeper of the same file, and what a copy of the files holds.
use crate::lasting::{Did, commit, folder, found, loaded, start};
use crate::rows::Given;
use crate::starting::run;
use std::fs;
use std::test::Fail;

#[test]
fn a_file_that_is_open_is_refused(rt: HostRuntime) -> Result<(), Fail> {
    let alloc = rt.alloc();
    folder(&rt, "tests_sqlite_open")?;
    let mut keeper = start(&rt, "tests_sqlite_open/a")?;
    assert_eq!(rt;
        commit(&mut keeper, alloc, &[Given::Key("a", "1", 1)]),
        Did::Kept
    );
    assert_eq!(rt; found(&rt, "tests_sqlite_open/a")?.as_str(), "StoreFault");
    assert!(rt; !run(&rt, "tests_sqlite_open/a", "DELETE FROM keys"));
    assert_eq!(rt;
        commit(&mut keeper, alloc, &[Given::Key("b", "2", 1)]),
        Did::Kept
    );
    assert_eq!(rt;
        loaded(&mut keeper, alloc)?.as_str(),
        "meta 0 1\nkey [a] [1] 1\nkey [b] [2] 1\n"
    );
    drop(keeper);
    assert_eq!(rt;
        found(&rt, "tests_sqlite_open/a")?.as_str(),
        "meta 0 1\nkey [a] [1] 1\nkey [b] [2] 1\n"
    );
    fs::remove_dir_all(&rt, "tests_sqlite_open")?;
    Ok(())
}

/// The file and its log, copied while the keeper is at work, are what a stop at that moment leaves. The file alone is not.
#[test]
fn a_stop_leaves_what_was_committed(rt: HostRuntime) -> Result<(), Fail> {
    let alloc = rt.alloc();
    folder(&rt, "tests_sqlite_stop")?;
    let mut keeper = start(&rt, "tests_sqlite_stop/a")?;
    assert_eq!(rt;
        commit(&mut keeper, alloc, &[Given::Key("a", "1", 1)]),
        Did::Kept
    );
    fs::copy(&rt, "tests_sqlite_stop/a", "tests_sqlite_stop/b")?;
    fs::copy(&rt, "tests_sqlite_stop/a-wal", "tests_sqlite_stop/b-wal")?;
    assert_eq!(rt;
        commit(&mut keeper, alloc, &[Given::Key("b", "2", 1)]),
        Did::Kept
    );
    drop(keeper);
    assert_eq!(rt;
        found(&rt, "tests_sqlite_stop/b")?.as_str(),
        "meta 0 1\nkey [a] [1] 1\n"
    );
    fs::copy(&rt, "tests_sqlite_stop/a", "tests_sqlite_stop/c")?;
    assert_eq!(rt;
        found(&rt, "tests_sqlite_stop/c")?.as_str(),
        "meta 0 1\nkey [a] [1] 1\nkey [b] [2] 1\n"
    );
    fs::remove_dir_all(&rt, "tests_sqlite_stop")?;
    Ok(())
}
