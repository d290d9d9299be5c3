// What `play` makes of a script.
use backend_core::MemBackend;
use book_rules::Entry;
use gate_ports::FreeGate;
use gateway_cli::{MemOutside, run};
use gw_base::{MemSink, MemSource, Text};
use std::alloc::Global;
use std::sync::Wait;
use std::test::Fail;
use std::thread::Threads;

/// What `play` answers and prints.
pub(crate) fn play<R: Threads + Wait + Sync>(
    rt: &R,
    alloc: Global,
    script: &str,
) -> Result<(u8, MemSink), Fail> {
    let word = Text::of(String::from_str(alloc, "play")?);
    let words = vec![in alloc; word]?;
    let bytes = Vec::from_slice(alloc, script.as_bytes())?;
    let mut input = MemSource::new(bytes, 4096, Vec::new(alloc));
    let mut output = MemSink::new(alloc, Vec::new(alloc));
    let mut outside: MemOutside<Entry, MemBackend, FreeGate> = MemOutside::new(
        Vec::new(alloc),
        Vec::new(alloc),
        Vec::new(alloc),
        Vec::new(alloc),
    );
    let status = run(rt, alloc, &words, &mut input, &mut output, &mut outside);
    Ok((status, output))
}
