// Backends in memory: with ample memory each exchange comes to what the script says, and is noted.
ghost use Rattle.std.specs.Prelude.{◌≡◌, ◌≤◌, All, IfOk};
ghost use Rattle.backend_core.specs.Script.{HasReplyStatus};

use backend_core::{Backend, MemBackend, Outcome, Scripted, WireRequest};
use call_facts::WireReply;
use gw_base::{Bytes, Seq, Text};
use std::alloc::Global;
use std::test::Fail;

// What a script says and what an exchange comes to, in a word. A reply has this status, within 200 to 999.
#[derive(Clone, Copy, Debug, PartialEq, Eq)]
enum Word {
    Reply(u16),
    Failed,
    TimedOut,
    Memory,
}

fn reply(alloc: Global, status: u16) -> Result<WireReply, Fail>
    ensures { IfOk result (λ reply. reply.status ≡ status) }
{
    Ok(WireReply {
        status,
        headers: Seq::new(alloc),
        body: Bytes::of(Vec::from_slice(alloc, b"Ann")?),
    })
}

fn scripted(alloc: Global, word: Word) -> Result<Scripted, Fail>
    ensures { IfOk result HasReplyStatus }
{
    match word {
        Word::Reply(status) => Ok(Scripted::Reply(reply(alloc, status.clamp(200, 999))?)),
        Word::Failed | Word::Memory => Ok(Scripted::Failed),
        Word::TimedOut => Ok(Scripted::TimedOut),
    }
}

fn script(alloc: Global, words: &[Word]) -> Result<Vec<Scripted>, Fail>
    ensures { IfOk result (λ script. All HasReplyStatus script.items) }
{
    let mut script = Vec::new(alloc);
    for word in words {
        script.push(scripted(alloc, *word)?)?;
    }
    Ok(script)
}

fn request(alloc: Global, port: u16) -> Result<WireRequest, Fail> {
    Ok(WireRequest {
        host: Text::of(String::from_str(alloc, "h")?),
        port,
        timeout: 29_000,
        bytes: Bytes::of(Vec::from_slice(alloc, b"GET / HTTP/1.1\r\n\r\n")?),
    })
}

fn word_of(outcome: Outcome) -> Word {
    match outcome {
        Outcome::Reply(reply) => Word::Reply(reply.status),
        Outcome::Failed => Word::Failed,
        Outcome::TimedOut => Word::TimedOut,
        Outcome::Memory => Word::Memory,
    }
}

fn ask(alloc: Global, backend: &mut MemBackend, port: u16) -> Result<Word, Fail> {
    let request = request(alloc, port)?;
    Ok(word_of(backend.exchange(alloc, &request)))
}

const SCRIPTS: [(&[Word], [Word; 3]); 4] = [
    (&[], [Word::Failed, Word::Failed, Word::Failed]),
    (
        &[Word::Reply(200), Word::Reply(999)],
        [Word::Reply(200), Word::Reply(999), Word::Failed],
    ),
    (
        &[Word::TimedOut, Word::Failed, Word::Reply(503)],
        [Word::TimedOut, Word::Failed, Word::Reply(503)],
    ),
    (
        &[
            Word::Reply(404),
            Word::TimedOut,
            Word::TimedOut,
            Word::Failed,
        ],
        [Word::Reply(404), Word::TimedOut, Word::TimedOut],
    ),
];

#[test]
fn exchanges_follow_the_script(rt: HostRuntime) -> Result<(), Fail> {
    let alloc = rt.alloc();
    for (words, outcomes) in SCRIPTS {
        let mut backend = MemBackend::new(alloc, script(alloc, words)?);
        for (port, outcome) in outcomes.iter().enumerate() {
            assert_eq!(rt; ask(alloc, &mut backend, port as u16)?, *outcome);
        }
        assert_eq!(rt; backend.sent().len(), 3);
    }
    Ok(())
}

#[test]
fn requests_are_kept_as_they_were_sent(rt: HostRuntime) -> Result<(), Fail> {
    let alloc = rt.alloc();
    let mut backend = MemBackend::new(alloc, script(alloc, &[])?);
    for port in [80, 443, 8080] {
        ask(alloc, &mut backend, port)?;
        let Some(last) = backend.sent().last() else {
            assert!(rt; false, "a request is kept");
            return Ok(());
        };
        assert_eq!(rt; last.host.as_str(), "h");
        assert_eq!(rt; last.port, port);
        assert_eq!(rt; last.timeout, 29_000);
        assert_eq!(rt; last.bytes.as_slice(), b"GET / HTTP/1.1\r\n\r\n".as_slice());
    }
    assert_eq!(rt; backend.sent().len(), 3);
    Ok(())
}
