use backend_core::MemBackend;
use book_rules::Entry;
use gate_ports::FreeGate;
use gateway_cli::{MemOutside, Outside, run};
use gw_base::{Bytes, MemSink, MemSource, ReadAll, Text};
use std::alloc::Global;
use std::sync::Wait;
use std::test::Fail;
use std::thread::Threads;

/// An outside with files and nothing else.
type Files = MemOutside<Entry, MemBackend, FreeGate>;

fn text(alloc: Global, from: &str) -> Result<Text, Fail> {
    Ok(Text::of(String::from_str(alloc, from)?))
}

fn words(alloc: Global, from: &[&str]) -> Result<Vec<Text>, Fail> {
    let mut words = Vec::new(alloc);
    for word in from {
        words.push(text(alloc, word)?)?;
    }
    Ok(words)
}

/// The files `t` and `b`; the calls of these numbers fail.
fn files(alloc: Global, template: &[u8], body: &[u8], fails: &[u32]) -> Result<Files, Fail> {
    let mut files = Vec::new(alloc);
    files.push((
        text(alloc, "t")?,
        Bytes::of(Vec::from_slice(alloc, template)?),
    ))?;
    files.push((text(alloc, "b")?, Bytes::of(Vec::from_slice(alloc, body)?)))?;
    Ok(MemOutside::new(
        files,
        Vec::new(alloc),
        Vec::new(alloc),
        Vec::from_slice(alloc, fails)?,
    ))
}

/// What these words answer and print, where these writes fail. A read of the input would fail.
fn told<R: Threads + Wait + Sync>(
    rt: &R,
    alloc: Global,
    from: &[&str],
    outside: &mut Files,
    writes: &[u32],
) -> Result<(u8, MemSink), Fail> {
    let mut input = MemSource::new(Vec::new(alloc), 1, Vec::from_slice(alloc, &[0])?);
    let mut output = MemSink::new(alloc, Vec::from_slice(alloc, writes)?);
    let words = words(alloc, from)?;
    let status = run(rt, alloc, &words, &mut input, &mut output, outside);
    Ok((status, output))
}

/// Words, the calls for files that fail, what is printed, and the status.
type Row = (&'static [&'static str], &'static [u32], &'static [u8], u8);

const READS: [Row; 4] = [
    (&["render", "t", "b"], &[0], b"fault file\n", 3),
    (&["render", "t", "b"], &[1], b"fault file\n", 3),
    // There is no third call.
    (
        &["render", "t", "b"],
        &[2],
        b"refused Unclosed(0) at ~\n",
        1,
    ),
    (&["check", "t"], &[0], b"fault file\n", 3),
];

#[test]
fn a_file_that_fails_is_told_before_all_else(rt: HostRuntime) -> Result<(), Fail> {
    let alloc = rt.alloc();
    for (words, fails, said, status) in &READS {
        let mut outside = files(alloc, b"#if($a)".as_slice(), b"", *fails)?;
        let (got, output) = told(&rt, alloc, *words, &mut outside, &[])?;
        assert_eq!(rt; output.bytes(), *said);
        assert_eq!(rt; got, *status);
    }
    Ok(())
}

#[test]
fn a_write_that_fails_is_told(rt: HostRuntime) -> Result<(), Fail> {
    let alloc = rt.alloc();
    let rows: [&[&str]; 2] = [&["render", "t", "b"], &["load", "0", "1"]];
    for words in rows {
        let mut outside = files(alloc, b"Hi".as_slice(), b"", &[])?;
        let (status, output) = told(&rt, alloc, words, &mut outside, &[0])?;
        assert_eq!(rt; output.bytes(), b"fault output\n".as_slice());
        assert_eq!(rt; status, 3);
    }
    Ok(())
}

#[test]
fn files_in_memory_are_given(rt: HostRuntime) -> Result<(), Fail> {
    let alloc = rt.alloc();
    let mut outside = files(alloc, b"abc".as_slice(), b"", &[1])?;
    assert_eq!(rt; outside.file(alloc, "t", 2).err(), Some(ReadAll::TooLong));
    assert_eq!(rt; outside.file(alloc, "t", 3).err(), Some(ReadAll::Fault));
    assert_eq!(rt; outside.file(alloc, "x", 3).err(), Some(ReadAll::Fault));
    let given = outside.file(alloc, "t", 3).ok();
    assert!(rt; given.is_some_and(|bytes| bytes.as_slice() == b"abc".as_slice()));
    Ok(())
}
