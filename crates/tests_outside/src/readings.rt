// The machine's clock, the words of lanes, and where the gateway listens.
use gateway_outside::{SystemClock, announce, begin_words};
use gw_base::{Clock, MemSink, Words};
use std::test::Fail;

// The end of November 2026.
const WRITTEN: u64 = 1_796_000_000_000;

#[test]
fn the_clock_tells_the_time(rt: HostRuntime) -> Result<(), Fail> {
    let mut clock = SystemClock::new(&rt);
    assert!(rt; clock.now() > WRITTEN / 2);
    assert!(rt; clock.now() < WRITTEN * 2);
    Ok(())
}

#[test]
fn lanes_have_words_of_their_own(rt: HostRuntime) -> Result<(), Fail> {
    let mut seen = begin_words(WRITTEN, 0).next();
    for lane in 1..8 {
        let word = begin_words(WRITTEN, lane).next();
        assert_ne!(rt; word, seen);
        seen = word;
    }
    assert_ne!(rt;
        begin_words(WRITTEN + 1, 0).next(),
        begin_words(WRITTEN, 0).next()
    );
    Ok(())
}

#[test]
fn one_line_says_where_the_gateway_listens(rt: HostRuntime) -> Result<(), Fail> {
    let alloc = rt.alloc();
    let mut output = MemSink::new(alloc, Vec::new(alloc));
    announce(alloc, &mut output, 8080, 4)?;
    assert_eq!(rt;
        output.bytes(),
        b"listening on 127.0.0.1:8080 with 4 lanes\n".as_slice()
    );
    Ok(())
}
