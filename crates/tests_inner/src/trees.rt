// Paths of which one stands twice: in a document these would be one name.
use gw_base::{Memory, Text};
use resource_tree::{Tree, TreeFault};
use std::alloc::Global;
use std::process::Abort;
use std::test::Fail;

/// Paths, and the first fault of theirs.
type Built = (&'static [&'static str], Option<TreeFault>);

const BUILT: [Built; 3] = [
    (&["/a", "/b", "/a"], Some(TreeFault::Clash(2))),
    (&["/", "/"], Some(TreeFault::Clash(1))),
    (&["/a", "/a", "x"], Some(TreeFault::Clash(1))),
];

fn texts(alloc: Global, list: &[&str]) -> Result<Vec<Text>, Memory> {
    let mut texts = Vec::new(alloc);
    for text in list {
        texts.push(Text::of(String::from_str(alloc, text)?))?;
    }
    Ok(texts)
}

// Each list of paths has this fault.
fn each_is_built(rt: &impl Abort, alloc: Global, rows: &[Built]) -> Result<(), Fail> {
    for (paths, fault) in rows {
        let paths = texts(alloc, paths)?;
        let built = Tree::build(alloc, paths.as_slice());
        assert_eq!(rt; built.err(), *fault);
    }
    Ok(())
}

#[test]
fn a_path_stands_once(rt: HostRuntime) -> Result<(), Fail> {
    each_is_built(&rt, rt.alloc(), &BUILT)
}

fn crosses_threads<T: Send + Sync>(value: T) -> T {
    value
}

#[test]
fn a_tree_crosses_threads(rt: HostRuntime) {
    let tree = crosses_threads(Tree::build(rt.alloc(), &[]).ok());
    assert!(rt; tree.is_some_and(|tree| tree.find(&[]).is_none()));
}
