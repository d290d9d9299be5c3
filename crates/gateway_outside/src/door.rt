// What the ports of one listener share.
use crate::conn::prepare;
use crate::listening::ListenFault;
use crate::shelf::{Caller, Shelf};
use mio::unix::SourceFd;
use mio::{Events, Interest, Poll, Registry, Token, Waker};
use std::alloc::Global;
use std::io::{self, ErrorKind};
use std::net::{Ipv4Addr, Net, SocketAddr, TcpListener, TcpStream};
use std::os::fd::AsRawFd;
use std::sync::atomic::{AtomicBool, AtomicU64, Ordering};
use std::sync::{Mutex, Wait};
use std::thread;
use std::time::{Clock, Duration, Instant};

// How many clients one wait may find.
const MOST_FOUND: usize = 64;

// Under which tokens the system tells of the listener and of a shut door; that of a client is its number and 2.
const LISTENER: usize = 0;

const SHUT: usize = 1;

const FIRST_CLIENT: usize = 2;

// What accept(2) answers for a fault of one client or of the network, or since too many files are open, by number: ENOMEM,
// ENFILE, EMFILE, ENONET, EPROTO, ENOPROTOOPT, EOPNOTSUPP, ENETDOWN, ENETUNREACH, ECONNABORTED, ENOBUFS, EHOSTDOWN, EHOSTUNREACH.
const PASSING: [i32; 13] = [12, 23, 24, 64, 71, 92, 95, 100, 101, 103, 105, 112, 113];

// Those of them that say that there is no room for one more: ENOMEM, ENFILE, EMFILE, ENOBUFS.
const NO_ROOM: [i32; 4] = [12, 23, 24, 105];

// How many milliseconds a lane waits behind such a fault.
const PAUSE: u64 = 10;

// Where one lane waits until the system tells of a client.
#[derive(Drop)]
struct Watch {
    poll: Poll,
    events: Events,
}

/// A listener on the loopback, the clients that were set aside, and whether one of its ports was shut. A lane that waits for a
/// client sleeps until one comes or speaks: one of the lanes waits for the system, the others for that lane.
#[derive(Drop)]
pub struct Door {
    listener: TcpListener,
    registry: Registry,
    waker: Waker,
    watch: Mutex<Watch>,
    shelf: Mutex<Shelf>,
    // How many lanes wait for a client.
    waiting: AtomicU64,
    shut: AtomicBool,
}

// Whether a look at the listener failed by what passes.
fn is_passing(fault: &io::Error) -> bool {
    fault.kind() == ErrorKind::Interrupted || is_one_of(&PASSING, fault)
}

// Whether the system's number of a fault is one of these.
fn is_one_of(codes: &[i32], fault: &io::Error) -> bool {
    fault
        .raw_os_error()
        .is_some_and(|code| codes.contains(&code))
}

fn open_watch<R: Net>(rt: &R, alloc: Global) -> Result<Watch, ListenFault> {
    let events = Events::with_capacity(alloc, MOST_FOUND)?;
    let poll = Poll::new(rt)?;
    Ok(Watch { poll, events })
}

impl Door {
    /// Listens at this port of 127.0.0.1, or at a free one where it is 0.
    pub fn open<R: Net<Listener = TcpListener, Stream = TcpStream>>(
        rt: &R,
        alloc: Global,
        port: u16,
    ) -> Result<Self, ListenFault> {
        let address = SocketAddr::from((Ipv4Addr::LOCALHOST, port));
        let listener = TcpListener::bind(rt, address)?;
        listener.set_nonblocking(true)?;
        let watch = open_watch(rt, alloc)?;
        let registry = watch.poll.registry().try_clone()?;
        let waker = Waker::new(&registry, Token(SHUT))?;
        let number = listener.as_raw_fd();
        registry.register(&mut SourceFd(&number), Token(LISTENER), Interest::READABLE)?;
        Ok(Door {
            listener,
            registry,
            waker,
            watch: Mutex::new(watch),
            shelf: Mutex::new(Shelf::new(alloc)),
            waiting: AtomicU64::new(0),
            shut: AtomicBool::new(false),
        })
    }

    /// The port that is listened at, where the system tells it.
    pub fn number(&self) -> Option<u16> {
        Some(self.listener.local_addr().ok()?.port())
    }

    /// Shuts it for all. Who waits at it is woken.
    pub fn shut(&self) {
        self.shut.store(true, Ordering::SeqCst);

        // Where this fails, a lane that waits ends behind the next client, or in 75 seconds.
        let _ = self.waker.wake();
    }

    /// Whether it was shut.
    pub fn is_shut(&self) -> bool {
        self.shut.load(Ordering::SeqCst)
    }

    /// Waits for a client: one that connects, or one that was set aside and speaks. None where it was shut, where the client has
    /// gone, and where nobody came for long.
    pub fn await_client<R: Clock + Wait>(&self, rt: &R) -> io::Result<Option<TcpStream>> {
        let caller = self.shelf.lock(rt).next_caller();
        if let Some(caller) = caller {
            return self.receive(rt, caller);
        }
        self.waiting.fetch_add(1, Ordering::SeqCst);
        let caller = self.await_caller(rt);
        self.waiting.fetch_sub(1, Ordering::SeqCst);
        match caller? {
            Some(caller) => self.receive(rt, caller),
            None => Ok(None),
        }
    }

    // Waits until it is this lane's turn to wait for the system, and then until that tells of somebody.
    fn await_caller<R: Clock + Wait>(&self, rt: &R) -> io::Result<Option<Caller>> {
        let mut watch = self.watch.lock(rt);
        if self.is_shut() {
            return Ok(None);
        }
        let caller = self.shelf.lock(rt).next_caller();
        if caller.is_some() {
            return Ok(caller);
        }
        let patience = self.shelf.lock(rt).patience(rt);
        self.look(rt, &mut watch, patience)?;
        Ok(self.shelf.lock(rt).next_caller())
    }

    // Waits for so long until the system tells of somebody, and lets go of those that were silent for too long.
    fn look<R: Clock + Wait>(&self, rt: &R, watch: &mut Watch, time: Duration) -> io::Result<()> {
        watch.poll.poll(&mut watch.events, Some(time))?;
        let mut shelf = self.shelf.lock(rt);
        for event in watch.events.iter() {
            match event.token().0 {
                LISTENER => shelf.note_new(),
                SHUT => {}
                client => shelf.rouse((client - FIRST_CLIENT) as u64),
            }
        }
        shelf.let_go(rt);
        Ok(())
    }

    // The connection of a caller; none where it has gone.
    fn receive<R: Clock + Wait>(&self, rt: &R, caller: Caller) -> io::Result<Option<TcpStream>> {
        match caller {
            Caller::Parked(stream) => {
                let number = stream.as_raw_fd();
                self.registry.deregister(&mut SourceFd(&number))?;
                Ok(Some(stream))
            }
            Caller::New => self.accept(rt),
        }
    }

    // The next connection at the listener. Others may wait behind it, so the system is asked to tell of them again.
    fn accept<R: Clock + Wait>(&self, rt: &R) -> io::Result<Option<TcpStream>> {
        match self.listener.accept() {
            Ok((stream, _)) => {
                self.listen_again()?;

                // A client whose socket can't be prepared has gone: that is no fault of the port.
                Ok(prepare(&stream).ok().map(|()| stream))
            }
            Err(fault) if fault.kind() == ErrorKind::WouldBlock => Ok(None),
            Err(fault) if is_passing(&fault) => {
                if !self.has_made_room(rt, &fault) {
                    thread::sleep(rt, Duration::from_millis(PAUSE));
                }
                self.listen_again()?;
                Ok(None)
            }
            Err(fault) => Err(fault),
        }
    }

    // Whether, where there is no room for one more, the client that was silent longest was let go.
    fn has_made_room<R: Clock + Wait>(&self, rt: &R, fault: &io::Error) -> bool {
        is_one_of(&NO_ROOM, fault) && self.shelf.lock(rt).let_first_go()
    }

    fn listen_again(&self) -> io::Result<()> {
        let number = self.listener.as_raw_fd();
        self.registry.reregister(&mut SourceFd(&number), Token(LISTENER), Interest::READABLE)
    }

    /// Whether somebody waits who could be served in place of a silent client. It does not wait.
    pub fn is_awaited<R: Clock + Wait>(&self, rt: &R) -> bool {
        if self.shelf.lock(rt).has_ready() {
            return true;
        }
        // A lane that waits for a client takes the next one.
        if self.waiting.load(Ordering::SeqCst) > 0 {
            return false;
        }
        let Some(mut watch) = self.watch.try_lock() else {
            return false;
        };
        self.look(rt, &mut watch, Duration::ZERO).is_ok() && self.shelf.lock(rt).has_ready()
    }

    /// Sets a client aside until it speaks. Where that can't be, its connection is closed.
    pub fn park<R: Clock + Wait>(&self, rt: &R, stream: TcpStream) {
        let Ok(since) = Instant::now(rt) else {
            return;
        };
        let number = stream.as_raw_fd();
        let mut shelf = self.shelf.lock(rt);
        let token = Token((shelf.next_number() as usize).wrapping_add(FIRST_CLIENT));
        let registered = self
            .registry
            .register(&mut SourceFd(&number), token, Interest::READABLE);
        if registered.is_ok() {
            let _ = shelf.park(stream, since);
        }
    }
}
