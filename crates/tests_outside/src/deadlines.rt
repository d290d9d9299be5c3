// The time for a whole message, by a clock that the test moves.
use crate::sockets::{accept, connect, one_port};
use gw_base::{Sink, Source};
use std::alloc::Global;
use std::io::{self, Write};
use std::net::{Net, SocketAddr, TcpListener, TcpStream};
use std::sync::Wait;
use std::sync::atomic::{AtomicU64, Ordering};
use std::test::Fail;
use std::time::{Clock, Duration};

// A runtime's sockets, and a clock that stands where the test puts it.
#[derive(Drop)]
struct Hands<'h, R> {
    rt: &'h R,
    seconds: AtomicU64,
}

impl<'h, R> Hands<'h, R> {
    fn wait(&self, seconds: u64) {
        self.seconds.fetch_add(seconds, Ordering::SeqCst);
    }
}

impl<'h, R: Clock> Clock for Hands<'h, R> {
    fn monotonic(&self) -> io::Result<Duration> {
        Ok(Duration::from_secs(self.seconds.load(Ordering::SeqCst)))
    }

    fn since_1970(&self) -> io::Result<Duration> {
        self.rt.since_1970()
    }

    fn sleep(&self, duration: Duration) {
        self.rt.sleep(duration)
    }
}

impl<'h, R: Wait> Wait for Hands<'h, R> {}

impl<'h, R: Net<Listener = TcpListener, Stream = TcpStream>> Net for Hands<'h, R> {
    type Stream = TcpStream;

    type Listener = TcpListener;

    fn bind(&self, addr: SocketAddr) -> io::Result<TcpListener> {
        self.rt.bind(addr)
    }

    fn connect(&self, addr: SocketAddr) -> io::Result<TcpStream> {
        self.rt.connect(addr)
    }
}

// What comes after so many seconds: a read that gives a byte, a write that takes one, or a read that fails.
#[derive(Clone, Copy)]
enum Step {
    Reads(u64),
    Writes(u64),
    TooLate(u64),
}

// Bytes stand ready throughout, so that what a read answers is the clock's doing.
const STORIES: [&[Step]; 5] = [
    &[Step::Reads(0), Step::Reads(29), Step::TooLate(1)],
    &[Step::Reads(20), Step::TooLate(20)],
    &[Step::TooLate(31), Step::TooLate(0)],
    &[Step::Writes(29), Step::Reads(29), Step::TooLate(1)],
    &[Step::TooLate(40), Step::Writes(0), Step::Reads(29)],
];

fn goes<R>(hands: &Hands<'_, R>, conn: &mut (impl Source + Sink), step: Step) -> bool {
    match step {
        Step::Reads(seconds) => {
            hands.wait(seconds);
            conn.read(&mut [0u8; 1]) == Ok(1)
        }
        Step::Writes(seconds) => {
            hands.wait(seconds);
            conn.write(b"!") == Ok(1)
        }
        Step::TooLate(seconds) => {
            hands.wait(seconds);
            conn.read(&mut [0u8; 1]).is_err()
        }
    }
}

// Whether a connection goes as its story says.
fn plays<R: Net<Listener = TcpListener, Stream = TcpStream> + Clock + Wait>(
    hands: &Hands<'_, R>,
    alloc: Global,
    story: &[Step],
) -> Result<bool, Fail> {
    let mut port = one_port(hands, alloc)?;
    let mut peer = connect(hands, &port)?;
    peer.write_all(b"bytes that stand ready")?;
    let Some(mut conn) = accept(&mut port) else {
        return Ok(false);
    };
    for step in story {
        if !goes(hands, &mut conn, *step) {
            return Ok(false);
        }
    }
    Ok(true)
}

#[test]
fn a_peer_has_thirty_seconds_for_a_whole_message(rt: HostRuntime) -> Result<(), Fail> {
    let hands = Hands {
        rt: &rt,
        seconds: AtomicU64::new(1),
    };
    for story in STORIES {
        assert!(rt; plays(&hands, rt.alloc(), story)?);
    }
    Ok(())
}
