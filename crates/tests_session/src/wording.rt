// Words that ask for nothing that can be served or administered.
use crate::outsides::{PLAIN, outside, told};
use std::test::Fail;

const WORDS: &'static [&'static [&'static str]] = &[
    &["serve", "a", "0", "1"],
    &["serve", "a", "65536", "1"],
    &["serve", "a", "80x", "1"],
    &["serve", "a", "8080", "0"],
    &["serve", "a", "8080", "9"],
    &["serve", "a", "8080", "18446744073709551617"],
    &["serve", "", "8080", "1"],
    &["serve", "-a", "8080", "1"],
    &["serve", "a", "8080"],
    &["serve", "a", "8080", "1", "1"],
    &["admin"],
    &["admin", ""],
    &["admin", "-a"],
    &["admin", "a", "b"],
];

#[test]
fn other_words_are_told_the_usage(rt: HostRuntime) -> Result<(), Fail> {
    let alloc = rt.alloc();
    for words in WORDS {
        let mut outside = outside(alloc, &PLAIN)?;
        let (status, output) = told(&rt, alloc, words, &mut outside, &[])?;
        assert_eq!(rt; output.bytes(), b"usage\n".as_slice());
        assert_eq!(rt; status, 2);
    }
    Ok(())
}

#[test]
fn ports_and_lanes_at_their_ends_are_served(rt: HostRuntime) -> Result<(), Fail> {
    let alloc = rt.alloc();
    for words in [["serve", "a", "1", "1"], ["serve", "b", "65535", "2"]] {
        let mut outside = outside(alloc, &PLAIN)?;
        let (status, _) = told(&rt, alloc, &words, &mut outside, &[])?;
        assert_eq!(rt; status, 0);
    }
    Ok(())
}
