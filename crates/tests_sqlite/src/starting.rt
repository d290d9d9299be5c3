// Files that a keeper starts from, and files that it does not.
use crate::lasting::{folder, found};
use sqlite::Connection;
use std::fs;
use std::test::Fail;

/// Runs the text over the file, past the keeper, and tells whether that could be done.
pub(crate) fn run(rt: &HostRuntime, path: &str, sql: &str) -> bool {
    match Connection::open(rt, path) {
        Ok(mut conn) => {
            let ran = conn.execute_batch(sql).is_ok();
            conn.close().is_ok() && ran
        }
        Err(_) => false,
    }
}

/// What was done to a new store, past the keeper, and what the next keeper finds.
const CHANGED: [(&str, &str); 7] = [
    ("UPDATE meta SET version = 9", "BadStore(Meta, 0)"),
    ("UPDATE meta SET id = 1", "BadStore(Meta, 0)"),
    ("UPDATE meta SET version = -1", "BadStore(Meta, 0)"),
    ("INSERT INTO meta VALUES (3, 1)", "BadStore(Meta, 1)"),
    ("DELETE FROM meta", "StoreFault"),
    ("DROP TABLE meta", "StoreFault"),
    ("CREATE TABLE other (a)", "meta 0 1\n"),
];

#[test]
fn a_changed_store_is_tested(rt: HostRuntime) -> Result<(), Fail> {
    folder(&rt, "tests_sqlite_changed")?;
    for (sql, answer) in CHANGED {
        let _ = fs::remove_file(&rt, "tests_sqlite_changed/a");
        let _ = fs::remove_file(&rt, "tests_sqlite_changed/a-wal");
        assert_eq!(rt;
            found(&rt, "tests_sqlite_changed/a")?.as_str(),
            "meta 0 1\n"
        );
        assert!(rt; run(&rt, "tests_sqlite_changed/a", sql), "{sql}");
        assert_eq!(rt;
            found(&rt, "tests_sqlite_changed/a")?.as_str(),
            answer,
            "{sql}"
        );
    }
    fs::remove_dir_all(&rt, "tests_sqlite_changed")?;
    Ok(())
}

#[test]
fn a_file_that_is_no_store_is_refused(rt: HostRuntime) -> Result<(), Fail> {
    let alloc = rt.alloc();
    folder(&rt, "tests_sqlite_others")?;
    let mut letters = Vec::new(alloc);
    letters.resize(4096, b'x')?;
    fs::write(&rt, "tests_sqlite_others/letters", letters.as_slice())?;
    fs::write(&rt, "tests_sqlite_others/empty", "")?;
    assert!(rt;
        run(
            &rt,
            "tests_sqlite_others/other",
            "CREATE TABLE person (name)"
        )
    );
    for (name, answer) in [
        ("letters", "StoreFault"),
        ("empty", "meta 0 1\n"),
        ("other", "StoreFault"),
        ("missing/store", "StoreFault"),
        ("", "StoreFault"),
    ] {
        let path = format!(in alloc; "tests_sqlite_others/{name}")?;
        assert_eq!(rt; found(&rt, &path)?.as_str(), answer, "{name}");
    }
    assert!(rt; fs::read(&rt, "tests_sqlite_others/letters")? == letters);
    fs::remove_dir_all(&rt, "tests_sqlite_others")?;
    Ok(())
}
