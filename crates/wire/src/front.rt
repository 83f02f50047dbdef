//! What the doors of a port share.
ghost use Rattle.std.specs.Prelude.{◌≡◌, ◌==◌, cond};

use crate::hands::{BEGIN_PAUSE, BEGIN_TIME, lets_in};
use crate::patience::has_passed;
use crate::{Failed, Hands, Journal, Speech};
use std::io::{Eprint, ErrorKind};
use std::net::{Ipv4Addr, Net, Shutdown, SocketAddrV4, TcpListener, TcpStream};
use std::os::fd::OwnedFd;
use std::sync::atomic::{AtomicBool, AtomicU64, Ordering};
use std::sync::{Arc, OnceLock};
use std::time::{Clock, Duration, Instant};
use std::{io, thread};
use thiserror::Error;

/// How long a knock waits for a connection while another connection is open, in milliseconds. Between waits, a door
/// without a connection looks at the board and releases an old version.
pub const KNOCK_TIME: u64 = 50;

/// How long it waits while no connection is open at any port, in milliseconds. A connection or a stop ends the wait.
pub const QUIET_TIME: u64 = 10_000;

/// How long open sessions may go on after the server was stopped, in seconds.
pub const CLOSING_TIME: u64 = 10;

/// The most ports that a server has: one for clients, and one for followers.
const MOST_PORTS: usize = 2;

/// What all ports of a server share: its threads, when it was stopped, if it was, the listeners at its ports, as
/// streams, and how many connections are open, how many came, and how many ended by a fault.
#[derive(Drop)]
pub(crate) struct Server<'a> {
    hands: &'a Hands,
    stopped: OnceLock<Instant>,
    closers: [OnceLock<TcpStream>; MOST_PORTS],
    open: AtomicU64,
    taken: AtomicU64,
    broken: AtomicU64,
    told: AtomicBool,
}

impl<'a> Server<'a> {
    /// A server that has not been stopped and has no port yet.
    pub(crate) fn new(hands: &'a Hands) -> Server<'a> {
        Server {
            hands,
            stopped: OnceLock::new(),
            closers: [OnceLock::new(), OnceLock::new()],
            open: AtomicU64::new(0),
            taken: AtomicU64::new(0),
            broken: AtomicU64::new(0),
            told: AtomicBool::new(false),
        }
    }

    /// Keeps a listener, so that a stop refuses new connections at its port.
    fn keep(&self, closer: TcpStream) {
        let mut closer = Some(closer);
        for place in &self.closers {
            closer = match closer {
                Some(stream) => place.try_set(stream).err(),
                None => None,
            };
        }
    }

    /// Refuses new and waiting connections at every port.
    fn refuse(&self) {
        for place in &self.closers {
            if let Some(closer) = place.get() {
                let _ = closer.shutdown(Shutdown::Read);
            }
        }
    }

    /// Sets how long the next knocks may wait now.
    fn pace(&self) {
        let millis = knock_time(self.open.load(Ordering::SeqCst));
        for place in &self.closers {
            if let Some(closer) = place.get() {
                let _ = closer.set_read_timeout(Some(Duration::from_millis(millis)));
            }
        }
    }

    /// Whether to log its end, which is true once.
    pub(crate) fn is_to_be_told(&self) -> bool {
        !self.told.swap(true, Ordering::SeqCst)
    }

    /// How many connections came.
    pub(crate) fn taken(&self) -> u64 {
        self.taken.load(Ordering::SeqCst)
    }

    /// How many of them ended by a fault.
    pub(crate) fn broken(&self) -> u64 {
        self.broken.load(Ordering::SeqCst)
    }
}

/// How long a knock waits while `conns` connections are open, in milliseconds.
fn knock_time(conns: u64) -> u64
    ensures { result ≡ cond (conns == 0) 10_000 50 }
{
    if conns == 0 { QUIET_TIME } else { KNOCK_TIME }
}

/// What the doors of a port share: its listener, since when it listens, and what all ports of the server share.
#[derive(Drop)]
pub(crate) struct Front<'a, R> {
    journal: Journal<'a, R>,
    speech: Speech,
    listener: TcpListener,
    server: Arc<Server<'a>>,
    opened: Option<Instant>,
}

/// The log line for threads of a server that have not begun.
#[derive(Debug, Clone, Copy, Error)]
#[error("{begun} of {needed} threads began, and nobody is served by fewer")]
struct FewBegan {
    begun: u64,
    needed: u64,
}

/// The address of a port of this machine.
pub(crate) fn address(port: u16) -> SocketAddrV4 {
    SocketAddrV4::new(Ipv4Addr::LOCALHOST, port)
}

/// A listener at a port of this machine, and a second handle of it as a stream: the system applies the read timeout of
/// a socket to its accepts too, but only a stream has calls to set it and to shut the socket down.
fn listen<R: Net<Listener = TcpListener, Stream = TcpStream>>(
    rt: &R,
    port: u16,
) -> io::Result<(TcpListener, TcpStream)> {
    let listener = TcpListener::bind(rt, address(port))?;
    let closer = TcpStream::from(OwnedFd::from(listener.try_clone()?));
    Ok((listener, closer))
}

/// Whether an accept failed because nobody is there, or the peer has gone.
fn is_nobody(kind: ErrorKind) -> bool {
    matches!(
        kind,
        ErrorKind::WouldBlock | ErrorKind::Interrupted | ErrorKind::ConnectionAborted
    )
}

impl<'a, R: Net<Listener = TcpListener, Stream = TcpStream> + Clock + Eprint> Front<'a, R> {
    /// A new listener at a port, which accepts connections until the server is stopped.
    pub(crate) fn at(
        journal: Journal<'a, R>,
        speech: Speech,
        port: u16,
        server: Arc<Server<'a>>,
    ) -> io::Result<Front<'a, R>> {
        let (listener, closer) = listen(journal.rt(), port)?;
        server.keep(closer);
        Ok(Front {
            opened: Instant::now(journal.rt()).ok(),
            journal,
            speech,
            listener,
            server,
        })
    }
}

impl<'a, R: Clock + Eprint> Front<'a, R> {
    /// The log for the operator.
    pub(crate) fn journal(&self) -> &Journal<'a, R> {
        &self.journal
    }

    /// What its connections watch for.
    pub(crate) fn speech(&self) -> Speech {
        self.speech
    }

    /// What all ports of its server share.
    pub(crate) fn server(&self) -> &Arc<Server<'a>> {
        &self.server
    }

    /// The listener.
    pub(crate) fn listener(&self) -> &TcpListener {
        &self.listener
    }

    /// Records that the thread of one of its doors has begun.
    pub(crate) fn begin(&self) {
        self.server.hands.begin();
    }

    /// Accepts the next connection. Returns `None` if none comes while a knock waits, the server lets nobody in any
    /// more, or a thread of the server has not begun yet.
    pub(crate) fn accept(&self) -> Result<Option<TcpStream>, Failed> {
        if !self.has_all_hands()? {
            thread::sleep(self.journal.rt(), Duration::from_millis(BEGIN_PAUSE));
            return Ok(None);
        }
        if self.is_stopped() {
            self.server.refuse();
        }
        self.server.pace();
        match self.listener.accept() {
            Ok((stream, _)) => {
                self.server.taken.fetch_add(1, Ordering::SeqCst);
                Ok(Some(stream))
            }
            Err(error) if is_nobody(error.kind()) || self.is_stopped() => Ok(None),
            Err(_) => Err(Failed),
        }
    }

    /// Whether the threads of all doors and the builder have begun. Fails if they are late: then nobody is served, and
    /// standard error says so.
    fn has_all_hands(&self) -> Result<bool, Failed> {
        let hands = self.server.hands;
        let outcome = lets_in(
            hands.begun(),
            hands.needed(),
            hands.is_given_up(),
            self.is_late(),
        );
        if outcome.is_err() && hands.give_up() {
            self.journal.tell(FewBegan {
                begun: hands.begun(),
                needed: hands.needed(),
            });
        }
        outcome
    }

    /// Whether the time for its threads to begin is over.
    fn is_late(&self) -> bool {
        match (self.opened, Instant::now(self.journal.rt())) {
            (Some(opened), Ok(now)) => has_passed(opened, BEGIN_TIME, now),
            _ => true,
        }
    }

    /// Lets nobody in any more: new connections and those that wait for a door are refused.
    pub(crate) fn stop(&self) {
        if let Ok(now) = Instant::now(self.journal.rt()) {
            let _ = self.server.stopped.try_set(now);
        }
        self.server.refuse();
    }

    /// Whether the server has been stopped.
    fn is_stopped(&self) -> bool {
        self.server.stopped.get().is_some()
    }

    /// When the server was stopped, if it was.
    pub(crate) fn stopped(&self) -> Option<Instant> {
        self.server.stopped.get().copied()
    }

    /// Counts a connection that opens.
    pub(crate) fn enter(&self) {
        self.server.open.fetch_add(1, Ordering::SeqCst);
    }

    /// Counts an open connection that ends.
    pub(crate) fn leave(&self) {
        self.server.open.fetch_sub(1, Ordering::SeqCst);
    }

    /// Counts a connection that ended by a fault.
    pub(crate) fn count_broken(&self) {
        self.server.broken.fetch_add(1, Ordering::SeqCst);
    }
}
