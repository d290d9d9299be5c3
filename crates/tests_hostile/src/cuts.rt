// An order that is cut.
use crate::orders::{open, order};
use gw_base::Memory;
use play_session::{Ended, Reading, Session, Talk};
use std::alloc::Global;
use std::sync::Wait;
use std::test::Fail;

const NOW: Reading = Reading { moment: 0, word: 0 };

// Whether a connection ends so many bytes behind the beginning of a message, with nothing sent and nothing written.
fn is_cut(talk: &Talk, length: usize) -> bool {
    talk.ended == Ended::Cut(length as u64)
        && talk.sent.is_empty()
        && talk.written.as_slice().is_empty()
}

// The length of the first front of these bytes that is not told to be cut, where one is not.
fn first_uncut<R: Wait>(
    session: &mut Session<'_, R>,
    alloc: Global,
    bytes: &[u8],
) -> Result<Option<usize>, Memory> {
    for length in 1..bytes.len() {
        let talk = session.connect(alloc, NOW, &bytes[..length], Vec::new(alloc))?;
        if !is_cut(&talk, length) {
            return Ok(Some(length));
        }
    }
    Ok(None)
}

// Each front of it, from its first byte to all but its last.
#[test]
fn an_order_that_is_cut_anywhere_is_not_entered(rt: HostRuntime) -> Result<(), Fail> {
    let alloc = rt.alloc();
    let order = order(alloc)?;
    assert_eq!(rt; order.len(), 2165);
    let mut session = open(&rt, alloc)?;
    let uncut = first_uncut(&mut session, alloc, &order);
    let book = session.close();
    assert_eq!(rt; uncut?, None);
    // The entries of the six commands.
    assert_eq!(rt; book.history().len(), 6);
    Ok(())
}
