ghost use Rattle.std.specs.Prelude.{◌<◌};

use backend_core::MemBackend;
use book_rules::{Entry, Limits};
use gate_ports::FreeGate;
use gateway_cli::{MemOutside, PlayStop, play_within, run};
use gw_base::{MemSink, MemSource, Text};
use std::alloc::Global;
use std::sync::Wait;
use std::test::Fail;
use std::thread::Threads;

pub(crate) const HELLO: &str =
    "text 0 hello Hi%20$input.body!\ndeploy 0 hello\nstage 0 hello v1 1\npost 0 0 hello v1 Ann\n";

pub(crate) const HELLO_SAID: &str =
    "done\ndeployed 1\ndone\nanswer HTTP/1.1%20200%20OK%0D%0Acontent-type:%20text/plain%0D%0Acontent-length:%207%0D%0A%0D%0AHi%20Ann!\nended Closed\n";

/// An outside that holds nothing.
type Nothing = MemOutside<Entry, MemBackend, FreeGate>;

pub(crate) fn source(
    alloc: Global,
    script: &str,
    step: usize,
    fails: &[u32],
) -> Result<MemSource, Fail>
    requires { 0 < step }
{
    let bytes = Vec::from_slice(alloc, script.as_bytes())?;
    Ok(MemSource::new(bytes, step, Vec::from_slice(alloc, fails)?))
}

// What `play` answers.
pub(crate) fn played<R: Threads + Wait + Sync>(
    rt: &R,
    alloc: Global,
    input: &mut MemSource,
    output: &mut MemSink,
) -> Result<u8, Fail> {
    let mut play = Vec::new(alloc);
    play.push(Text::of(String::from_str(alloc, "play")?))?;
    let mut outside: Nothing = MemOutside::new(
        Vec::new(alloc),
        Vec::new(alloc),
        Vec::new(alloc),
        Vec::new(alloc),
    );
    Ok(run(rt, alloc, &play, input, output, &mut outside))
}

// What a script that is read and written whole comes to.
pub(crate) fn told<R: Threads + Wait + Sync>(
    rt: &R,
    alloc: Global,
    script: &str,
) -> Result<(u8, MemSink), Fail> {
    let mut input = source(alloc, script, 4096, &[])?;
    let mut output = MemSink::new(alloc, Vec::new(alloc));
    let status = played(rt, alloc, &mut input, &mut output)?;
    Ok((status, output))
}

#[test]
fn the_hello_script_is_played_in_pieces(rt: HostRuntime) -> Result<(), Fail> {
    let alloc = rt.alloc();
    for step in [1, 2, 7, 4096] {
        let mut input = source(alloc, HELLO, step, &[])?;
        let mut output = MemSink::new(alloc, Vec::new(alloc));
        assert_eq!(rt; played(&rt, alloc, &mut input, &mut output)?, 0);
        assert_eq!(rt; output.bytes(), HELLO_SAID.as_bytes());
    }
    Ok(())
}

// What the hello script comes to in a session of this many entries.
fn played_within<R: Threads + Wait + Sync>(
    rt: &R,
    alloc: Global,
    entries: u32,
) -> Result<(Result<u8, PlayStop>, MemSink), Fail> {
    let limits = Limits {
        entries,
        bytes: 1000,
    };
    let mut output = MemSink::new(alloc, Vec::new(alloc));
    let answered = play_within(rt, alloc, limits, HELLO.as_bytes(), &mut output);
    Ok((answered, output))
}

#[test]
fn a_full_session_is_told(rt: HostRuntime) -> Result<(), Fail> {
    let alloc = rt.alloc();
    let busy =
        "answer HTTP/1.1%20503%20Service%20Unavailable%0D%0Aconnection:%20close%0D%0Acontent-length:%200%0D%0A%0D%0A\n";
    // The three commands make three entries of 5 + 15, 5 and 7 bytes; Enter makes one of 7.
    let rows = [
        (2, "done\ndeployed 1\nfull 2 25\n", ""),
        (
            3,
            "done\ndeployed 1\ndone\n",
            "ended SessionFull(3,32)\nfull 3 32\n",
        ),
        (
            4,
            "done\ndeployed 1\ndone\n",
            "ended SessionFull(4,39)\nfull 4 39\n",
        ),
    ];
    for (entries, front, end) in rows {
        let (answered, output) = played_within(&rt, alloc, entries)?;
        assert_eq!(rt; answered, Ok(4));
        let mut said = String::from_str(alloc, front)?;
        if !end.is_empty() {
            said.push_str(busy)?;
            said.push_str(end)?;
        }
        assert_eq!(rt; output.bytes(), said.as_bytes(), "at {entries}");
    }
    Ok(())
}
