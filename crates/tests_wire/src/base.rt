use gw_base::{
    Bytes, MemSink, MemSource, Name, ReadAll, Seq, Shared, SplitMix, Text, Words, WriteStop,
    read_all, write_all,
};
use std::alloc::Global;
use std::test::Fail;

#[derive(Clone, Copy)]
struct Reading {
    bytes: &'static [u8],
    step: usize,
    failing: u32,
    whole: Result<usize, ReadAll>,
}

const NONE: u32 = u32::MAX;

#[test]
fn an_input_is_read_within_its_limit(rt: HostRuntime) -> Result<(), Fail> {
    let alloc = rt.alloc();
    let rows = [
        Reading {
            bytes: b"",
            step: 1,
            failing: NONE,
            whole: Ok(0),
        },
        Reading {
            bytes: b"abc",
            step: 1,
            failing: NONE,
            whole: Ok(3),
        },
        Reading {
            bytes: b"abcd",
            step: 1,
            failing: NONE,
            whole: Err(ReadAll::TooLong),
        },
        Reading {
            bytes: b"abcd",
            step: 7,
            failing: NONE,
            whole: Err(ReadAll::TooLong),
        },
        Reading {
            bytes: b"abcd",
            step: 1,
            failing: 0,
            whole: Err(ReadAll::Fault),
        },
        Reading {
            bytes: b"abc",
            step: 2,
            failing: 1,
            whole: Err(ReadAll::Fault),
        },
        Reading {
            bytes: b"abc",
            step: 4,
            failing: 2,
            whole: Ok(3),
        },
    ];
    for row in &rows {
        let bytes = Vec::from_slice(alloc, row.bytes)?;
        let fails = Vec::from_slice(alloc, &[row.failing])?;
        let mut source = MemSource::new(bytes, row.step, fails);
        match (read_all(alloc, &mut source, 3), row.whole) {
            (Ok(read), Ok(_)) => assert_eq!(rt; read.as_slice(), row.bytes),
            (Err(fault), Err(wanted)) => assert_eq!(rt; fault, wanted),
            _ => assert!(rt; false, "one is read, and the other is refused"),
        }
    }
    Ok(())
}

#[test]
fn a_numbered_write_fails(rt: HostRuntime) -> Result<(), Fail> {
    let alloc = rt.alloc();
    let mut sink = MemSink::new(alloc, Vec::from_slice(alloc, &[1])?);
    assert_eq!(rt; write_all(&mut sink, b"ab"), Ok(()));
    assert_eq!(rt; write_all(&mut sink, b"cd"), Err(WriteStop::Failed));
    assert_eq!(rt; write_all(&mut sink, b"ef"), Ok(()));
    assert_eq!(rt; sink.bytes(), b"abef".as_slice());
    Ok(())
}

#[test]
fn small_types_give_back_what_they_hold(rt: HostRuntime) -> Result<(), Fail> {
    let alloc: Global = rt.alloc();
    let text = Text::of(String::from_str(alloc, "Ann")?).copy(alloc)?;
    assert_eq!(rt; text.as_str(), "Ann");
    assert_eq!(rt; text.len(), 3);
    assert!(rt; !text.is_empty());
    assert_eq!(rt; text.into_inner().as_str(), "Ann");
    let bytes = Bytes::of(Vec::from_slice(alloc, b"Ann")?).copy(alloc)?;
    assert_eq!(rt; bytes.into_inner().as_slice(), b"Ann".as_slice());
    let mut numbers = Seq::new(alloc);
    numbers.push(7u32)?;
    let shared = Shared::new(alloc, numbers)?;
    assert_eq!(rt; shared.share()?.value().as_slice(), [7u32].as_slice());
    assert_eq!(rt; Name::of("k-1").as_bytes(), b"k-1".as_slice());
    Ok(())
}

// The first words of the seed 0, as the reference code of SplitMix64 gives them.
#[test]
fn words_are_those_of_split_mix(rt: HostRuntime) {
    let mut words = SplitMix { state: 0 };
    for word in [
        0xE220_A839_7B1D_CDAF,
        0x6E78_9E6A_A1B9_65F4,
        0x06C4_5D18_8009_454F,
    ] {
        assert_eq!(rt; words.next(), word);
    }
}
