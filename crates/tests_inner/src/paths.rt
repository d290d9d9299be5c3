// Texts that are no paths, with the byte at which each is none: a template prints two quotes for all of them.
use jsonpath_core::{Path, PathFault};
use std::alloc::Global;
use std::test::Fail;

const PATHS: [(&str, &str); 18] = [
    ("a", "BadPath(0)"),
    ("", "BadPath(0)"),
    ("$a", "BadPath(1)"),
    ("$.", "BadPath(2)"),
    ("$..a", "BadPath(2)"),
    ("$.a b", "BadPath(3)"),
    ("$['a b']['c'']", "BadPath(12)"),
    ("$['a", "BadPath(4)"),
    ("$['a'", "BadPath(5)"),
    ("$[-1]", "BadPath(2)"),
    ("$[", "BadPath(2)"),
    ("$[1", "BadPath(3)"),
    ("$[1a]", "BadPath(3)"),
    ("$[0:1]", "BadPath(3)"),
    ("$.*a", "BadPath(3)"),
    ("$[*", "BadPath(3)"),
    ("$[?(@.a)]", "BadPath(2)"),
    ("$ ", "BadPath(1)"),
];

fn told(alloc: Global, path: &str) -> Result<String, Fail> {
    match Path::read(alloc, path) {
        Ok(_) => Ok(String::from_str(alloc, "read")?),
        Err(fault) => Ok(format!(in alloc; "{fault}")?),
    }
}

#[test]
fn a_fault_has_its_place(rt: HostRuntime) -> Result<(), Fail> {
    for (path, want) in &PATHS {
        let got = told(rt.alloc(), path)?;
        assert_eq!(rt; got.as_str(), *want, "at {path}");
    }
    Ok(())
}

fn crosses_threads<T: Send + Sync>(value: T) -> T {
    value
}

fn read(alloc: Global, path: &str) -> Result<Path, PathFault> {
    Path::read(alloc, path)
}

#[test]
fn a_path_crosses_threads(rt: HostRuntime) -> Result<(), Fail> {
    let path = crosses_threads(read(rt.alloc(), "$.a[*]").ok());
    assert!(rt; path.is_some_and(|path| path.starred()));
    assert!(rt; read(rt.alloc(), "$.").err() == Some(PathFault::BadPath(2)));
    Ok(())
}
