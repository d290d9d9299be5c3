// A session to which an order may come.
use book_rules::Limits;
use gw_base::Memory;
use play_script::play_line;
use play_session::Session;
use std::alloc::Global;
use std::sync::Wait;
use std::test::Fail;
use tests_orders::{COMMANDS, DONE, ORDER};

/// Limits that no test reaches.
pub(crate) const AMPLE: Limits = Limits {
    entries: 100,
    bytes: 10_000,
};

/// All of these, one behind another.
pub(crate) fn joined(alloc: Global, parts: &[&[u8]]) -> Result<Vec<u8>, Fail> {
    let mut all = Vec::new(alloc);
    for part in parts {
        all.extend_from_slice(part)?;
    }
    Ok(all)
}

/// The bytes of an order.
pub(crate) fn order(alloc: Global) -> Result<Vec<u8>, Fail> {
    joined(alloc, &ORDER)
}

// Plays the commands, and tells whether each is carried out.
fn put<R: Wait>(session: &mut Session<'_, R>, alloc: Global) -> Result<bool, Memory> {
    for (line, done) in COMMANDS.iter().zip(&DONE) {
        let said = play_line(session, alloc, 1, line.as_bytes())?;
        if said.text.as_str() != *done {
            return Ok(false);
        }
    }
    Ok(true)
}

/// A session whose history has the commands.
pub(crate) fn open<'r, R: Wait>(rt: &'r R, alloc: Global) -> Result<Session<'r, R>, Fail> {
    let mut session = Session::start(rt, alloc, AMPLE, Vec::new(alloc))?;
    if put(&mut session, alloc) == Ok(true) {
        return Ok(session);
    }
    let _ = session.close();
    Err(Fail::new("the commands are not carried out"))
}
