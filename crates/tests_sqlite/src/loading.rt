// Rows that were written past the keeper.
use crate::lasting::{folder, found};
use crate::starting::run;
use std::fs;
use std::test::Fail;

const PLANS: &str =
    "INSERT INTO plans VALUES ('a', 0, 0, 0, 0, 0, 0, ''), ('b', 0, 0, 0, 0, 0, 0, '')";

/// What was done to a store with the plans `a` and `b`, past the keeper, and what the next keeper finds.
///
/// A rate of 0 with a burst of 1 has the form of the columns: that no plan has it is for the book to say.
const PAST: [(&str, &str); 7] = [
    (
        "UPDATE plans SET rate = 0, burst = 1 WHERE plan = 'a'",
        "meta 0 1\nplan [a] 0 1 0 0 0 0 []\nplan [b] 0 0 0 0 0 0 []\n",
    ),
    (
        "UPDATE plans SET rate = -1 WHERE plan = 'a'",
        "BadRow(Plans, 0)",
    ),
    (
        "UPDATE plans SET stages = CAST(x'ff' AS TEXT) WHERE plan = 'b'",
        "BadRow(Plans, 1)",
    ),
    (
        "INSERT INTO joins VALUES ('a', 'k', -1, 0, 0, 0, 0, 0, 0, 0); INSERT INTO keys VALUES ('a', 'b', -1)",
        "BadRow(Keys, 0)",
    ),
    (
        "INSERT INTO joins VALUES ('a', 'k', 0, 0, 0, 0, 0, 0, 0, -1)",
        "BadRow(Joins, 0)",
    ),
    ("DROP TABLE joins", "Failed"),
    (
        "DROP TABLE joins; UPDATE plans SET rate = -1",
        "BadRow(Plans, 0)",
    ),
];

#[test]
fn the_first_bad_row_is_named(rt: HostRuntime) -> Result<(), Fail> {
    folder(&rt, "tests_sqlite_past")?;
    for (sql, answer) in PAST {
        let _ = fs::remove_file(&rt, "tests_sqlite_past/a");
        let _ = fs::remove_file(&rt, "tests_sqlite_past/a-wal");
        assert_eq!(rt; found(&rt, "tests_sqlite_past/a")?.as_str(), "meta 0 1\n");
        let whole = format!(in rt.alloc(); "{PLANS}; {sql}")?;
        assert!(rt; run(&rt, "tests_sqlite_past/a", &whole), "{sql}");
        assert_eq!(rt;
            found(&rt, "tests_sqlite_past/a")?.as_str(),
            answer,
            "{sql}"
        );
    }
    fs::remove_dir_all(&rt, "tests_sqlite_past")?;
    Ok(())
}
