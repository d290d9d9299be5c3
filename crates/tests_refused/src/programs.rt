// An order as the input of the program.
use crate::came::Came;
use crate::orders::make_order;
use backend_core::MemBackend;
use book_rules::Entry;
use gate_ports::FreeGate;
use gateway_cli::{MemOutside, run};
use gw_base::{MemSink, MemSource, Memory, Text};
use std::alloc::Global;
use std::sync::Wait;
use std::test::Fail;
use std::thread::Threads;
use tests_orders::{COMMANDS, DONE, USAGE, USED_ONCE};

type Outside = MemOutside<Entry, MemBackend, FreeGate>;

/// What the program is given, and the whole of what it is to print.
#[derive(Drop)]
struct Play {
    words: Vec<Text>,
    input: MemSource,
    said: String,
}

// The records of a script, each behind the other, each with this at its end.
fn lines(alloc: Global, records: &[&str], end: &str) -> Result<String, Memory> {
    let mut lines = String::new(alloc);
    for record in records {
        lines.push_str(record)?;
        lines.push_str(end)?;
    }
    Ok(lines)
}

fn make_play(alloc: Global) -> Result<Play, Memory> {
    let order = make_order(alloc)?;
    let mut script = lines(alloc, &COMMANDS, "\n")?;
    script.push_str(lines(alloc, &[order.record.as_str(), USAGE], "\n")?.as_str())?;
    let mut said = lines(alloc, &DONE, "")?;
    said.push_str(order.said.as_str())?;
    said.push_str(USED_ONCE)?;
    let word = Text::of(String::from_str(alloc, "play")?);
    let bytes = Vec::from_slice(alloc, script.as_bytes())?;
    Ok(Play {
        words: vec![in alloc; word]?,
        input: MemSource::new(bytes, 4096, Vec::new(alloc)),
        said,
    })
}

fn came<R: Threads + Wait + Sync>(rt: &R, alloc: Global, play: &mut Play) -> Came {
    let mut output = MemSink::new(alloc, Vec::new(alloc));
    let mut outside: Outside = MemOutside::new(
        Vec::new(alloc),
        Vec::new(alloc),
        Vec::new(alloc),
        Vec::new(alloc),
    );
    let status = run(
        rt,
        alloc,
        &play.words,
        &mut play.input,
        &mut output,
        &mut outside,
    );
    let written = output.bytes();
    if !play.said.as_bytes().starts_with(written) {
        return Came::Wrong("what is printed is no front of the whole output");
    }
    match status {
        5 => Came::Memory(
            written.iter().filter(|byte| **byte == b'\n').count(),
            "lines",
        ),
        0 if written.len() == play.said.len() => Came::Whole,
        _ => Came::Wrong("the status is another"),
    }
}

#[test]
fn an_order_is_played_by_the_program_or_memory_is_wanting(rt: HostRuntime) -> Result<(), Fail> {
    let alloc = rt.alloc();
    let came = match make_play(alloc) {
        Ok(play) => {
            let mut play = play;
            came(&rt, alloc, &mut play)
        }
        Err(_) => Came::Nothing,
    };
    println!(rt; "came: {came}")?;
    assert!(rt; came.may_come());
    Ok(())
}
