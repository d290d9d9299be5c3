// Exchanges with backends over the loopback.
use backend_core::{Backend, Outcome, WireRequest};
use gateway_outside::SocketBackend;
use gw_base::{Bytes, Text};
use std::alloc::Global;
use std::io::{self, Read, Write};
use std::net::{Ipv4Addr, Net, SocketAddr, TcpListener, TcpStream};
use std::test::Fail;
use std::thread::{self, Threads, join};
use std::time::{Clock, Duration};

const GET: &[u8] = b"GET /e HTTP/1.1\r\nhost: localhost\r\n\r\n";

const HEAD: &[u8] = b"HEAD /e HTTP/1.1\r\nhost: localhost\r\n\r\n";

// What a peer does with a connection.
#[derive(Clone, Copy)]
enum Peer<'p> {
    // It reads the request, writes this and closes.
    Writes(&'p [u8]),
    // It reads a few bytes, writes a reply and closes.
    AnswersEarly,
    // It closes at once.
    Closes,
    // It reads until the connection is closed.
    IsSilent,
    // It writes a header that does not end, a byte each 10 milliseconds, until the connection is closed.
    Drips,
}

// What an exchange comes to: the status of the reply and the length of its body, or why there is none.
#[derive(Clone, Copy, Debug, PartialEq, Eq)]
enum Came {
    Reply(u16, usize),
    Failed,
    TimedOut,
    Memory,
}

fn serve<R: Clock>(
    rt: &R,
    listener: &TcpListener,
    peer: Peer<'_>,
    request: &[u8],
) -> io::Result<()> {
    let (mut stream, _) = listener.accept()?;
    let mut read = [0; 64];
    match peer {
        Peer::Writes(reply) => {
            let count = stream.read(&mut read)?;
            if &read[..count] == request {
                stream.write_all(reply)?;
            }
        }
        Peer::AnswersEarly => {
            stream.read(&mut read[..8])?;
            stream.write_all(b"HTTP/1.1 401 Unauthorized\r\ncontent-length: 2\r\n\r\nno")?;
        }
        Peer::Closes => {}
        Peer::IsSilent => {
            for _ in 0..64 {
                if stream.read(&mut read)? == 0 {
                    return Ok(());
                }
            }
        }
        Peer::Drips => {
            stream.write_all(b"HTTP/1.1 200 OK\r\nx-long: ")?;
            for _ in 0..1000 {
                stream.write_all(b"a")?;
                thread::sleep(rt, Duration::from_millis(10));
            }
        }
    }
    Ok(())
}

fn told(outcome: &Outcome) -> Came {
    match outcome {
        Outcome::Reply(reply) => Came::Reply(reply.status, reply.body.as_slice().len()),
        Outcome::Failed => Came::Failed,
        Outcome::TimedOut => Came::TimedOut,
        Outcome::Memory => Came::Memory,
    }
}

fn ask<R: Net<Listener = TcpListener, Stream = TcpStream> + Clock>(
    rt: &R,
    alloc: Global,
    request: &WireRequest,
) -> Came {
    let came = told(&SocketBackend::new(rt).exchange(alloc, request));

    // So that a peer does not wait for a connection where the time of the request ended before there was one.
    let _ = TcpStream::connect(rt, SocketAddr::from((Ipv4Addr::LOCALHOST, request.port)));
    came
}

fn request(
    alloc: Global,
    host: &str,
    port: u16,
    timeout: u32,
    bytes: &[u8],
) -> Result<WireRequest, Fail> {
    Ok(WireRequest {
        host: Text::of(String::from_str(alloc, host)?),
        port,
        timeout,
        bytes: Bytes::of(Vec::from_slice(alloc, bytes)?),
    })
}

// What an exchange with a peer comes to, over so many milliseconds.
fn exchange<R: Net<Listener = TcpListener, Stream = TcpStream> + Clock + Threads + Sync>(
    rt: &R,
    alloc: Global,
    timeout: u32,
    bytes: &[u8],
    peer: Peer<'_>,
) -> Result<Came, Fail> {
    let listener = TcpListener::bind(rt, SocketAddr::from((Ipv4Addr::LOCALHOST, 0)))?;
    let port = listener.local_addr()?.port();
    let request = request(alloc, "localhost", port, timeout, bytes)?;
    let (came, _) = join(
        rt,
        || ask(rt, alloc, &request),
        || serve(rt, &listener, peer, bytes).is_ok(),
    );
    Ok(came)
}

// More milliseconds than any of these peers takes, and fewer than a silent one does.
const LONG: u32 = 20_000;

const SHORT: u32 = 50;

// A request, what the peer writes, and what the exchange comes to.
const REPLIES: [(&[u8], &[u8], Came); 9] = [
    (
        GET,
        b"HTTP/1.1 200 OK\r\ncontent-length: 3\r\n\r\nAnn",
        Came::Reply(200, 3),
    ),
    (
        GET,
        b"HTTP/1.1 404 Not Found\r\n\r\nno such thing",
        Came::Reply(404, 13),
    ),
    (
        GET,
        b"HTTP/1.1 100 Continue\r\n\r\nHTTP/1.1 999 Odd\r\n\r\n",
        Came::Reply(999, 0),
    ),
    (
        HEAD,
        b"HTTP/1.1 200 OK\r\ncontent-length: 3\r\n\r\n",
        Came::Reply(200, 0),
    ),
    (
        GET,
        b"HTTP/1.1 200 OK\r\ncontent-length: 3\r\n\r\n",
        Came::Failed,
    ),
    (
        GET,
        b"HTTP/1.1 200 OK\r\ncontent-length: 10485761\r\n\r\n",
        Came::Failed,
    ),
    (GET, b"HTTP/1.1 100 Continue\r\n\r\n", Came::Failed),
    (GET, b"what is asked?\r\n\r\n", Came::Failed),
    (GET, b"", Came::Failed),
];

#[test]
fn a_reply_is_what_the_peer_writes(rt: HostRuntime) -> Result<(), Fail> {
    for (bytes, reply, came) in REPLIES {
        assert_eq!(rt;
            exchange(&rt, rt.alloc(), LONG, bytes, Peer::Writes(reply))?,
            came
        );
    }
    Ok(())
}

// More bytes than a socket of the loopback takes that nobody reads.
const LARGE: usize = 16_000_000;

#[test]
fn an_early_reply_is_heard(rt: HostRuntime) -> Result<(), Fail> {
    let mut bytes = Vec::from_slice(rt.alloc(), b"POST /e HTTP/1.1\r\nhost: localhost\r\n")?;
    bytes.resize(LARGE, b'x')?;
    assert_eq!(rt;
        exchange(&rt, rt.alloc(), LONG, &bytes, Peer::AnswersEarly)?,
        Came::Reply(401, 2)
    );
    Ok(())
}

#[test]
fn a_peer_that_closes_early_gives_no_reply(rt: HostRuntime) -> Result<(), Fail> {
    assert_eq!(rt;
        exchange(&rt, rt.alloc(), LONG, GET, Peer::Closes)?,
        Came::Failed
    );
    Ok(())
}

#[test]
fn an_exchange_has_the_time_of_its_request(rt: HostRuntime) -> Result<(), Fail> {
    for peer in [Peer::IsSilent, Peer::Drips] {
        assert_eq!(rt;
            exchange(&rt, rt.alloc(), SHORT, GET, peer)?,
            Came::TimedOut
        );
    }
    Ok(())
}

#[test]
fn nobody_listens_there(rt: HostRuntime) -> Result<(), Fail> {
    let alloc = rt.alloc();
    let listener = TcpListener::bind(&rt, SocketAddr::from((Ipv4Addr::LOCALHOST, 0)))?;
    let port = listener.local_addr()?.port();
    assert_eq!(rt;
        ask(&rt, alloc, &request(alloc, "example.com", port, LONG, GET)?),
        Came::Failed
    );
    assert_eq!(rt;
        ask(&rt, alloc, &request(alloc, "127.0.0.1", port, 0, GET)?),
        Came::TimedOut
    );
    drop(listener);
    assert_eq!(rt;
        ask(&rt, alloc, &request(alloc, "127.0.0.1", port, LONG, GET)?),
        Came::Failed
    );
    Ok(())
}
