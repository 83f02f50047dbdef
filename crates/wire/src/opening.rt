//! Opening a port.
ghost use Rattle.std.specs.Prelude.{◌≡◌, All, vec_len, IfOk};

use crate::front::{Front, Server};
use crate::journal::plural;
use crate::limits::{has_threads, lack_of_descriptors};
use crate::ticks::millis_since;
use crate::{HouseError, Journal, Speech, TcpDoor};
use std::alloc::{AllocError, Global};
use std::io::Eprint;
use std::net::{Net, TcpListener, TcpStream};
use std::sync::{Arc, Wait};
use std::thread::Threads;
use std::time::{Clock, Instant};
use std::{io, rt};
use thiserror::Error;

/// Why a port was not opened.
#[derive(Debug, Clone, Copy)]
pub(crate) enum PortError {
    /// The system refuses it, or descriptors for its doors, with this message.
    Refused(io::Error),
    /// Memory for it ran out, or the system refuses threads.
    NoMemory,
}

impl From<AllocError> for PortError {
    fn from(_: AllocError) -> PortError {
        PortError::NoMemory
    }
}

/// The log line for a port that was opened.
#[derive(Debug, Clone, Copy, Error)]
#[error("port {port} open, {count} door{s}, {millis} ms after the start")]
struct OpenedAt {
    port: u16,
    count: u32,
    s: &'static str,
    millis: u64,
}

/// The message when the system gives fewer threads than the doors and the builder need.
#[derive(Debug, Clone, Copy, Error)]
#[error("{count} threads are needed, and the system gives fewer")]
struct FewThreads {
    count: u64,
}

/// The message when the system gives fewer descriptors than the doors need.
#[derive(Debug, Clone, Copy, Error)]
#[error("the doors need {count} more descriptor{s}, and the system gives fewer")]
struct FewDescriptors {
    count: u32,
    s: &'static str,
}

/// Opens what the doors at a port share. It does not open if the system gives fewer threads or descriptors than all
/// doors of the server need at once; standard error then says so.
///
/// # Errors
///
/// `Refused` if the system refuses the port or descriptors, and `NoMemory` if memory runs out or the system refuses
/// threads.
pub(crate) fn open_front<'a, R>(
    journal: &Journal<'a, R>,
    alloc: Global,
    speech: Speech,
    port: u16,
    all: u32,
    server: Arc<Server<'a>>,
) -> Result<Arc<Front<'a, R>>, PortError>
where
    R: Net<Listener = TcpListener, Stream = TcpStream>
        + Clock
        + Eprint
        + Threads
        + Wait
        + rt::Files,
{
    let front = match Front::at(journal.another(), speech, port, server) {
        Ok(front) => front,
        Err(error) => return Err(PortError::Refused(error)),
    };
    if let Some(error) = lack_of_descriptors(alloc, front.listener(), all as usize)? {
        journal.tell(FewDescriptors {
            count: all,
            s: plural(u64::from(all)),
        });
        return Err(PortError::Refused(error));
    }
    // The system does not say whether it refused a thread because memory ran out or by a limit.
    if !has_threads(journal.rt(), all) {
        journal.tell(FewThreads {
            count: u64::from(all) + 1,
        });
        return Err(PortError::NoMemory);
    }
    match Arc::new(alloc, front) {
        Ok(front) => Ok(front),
        Err(_) => Err(PortError::NoMemory),
    }
}

/// Makes `count` doors of a front.
pub(crate) fn doors_of<'a, R: Clock + Eprint>(
    front: &Arc<Front<'a, R>>,
    alloc: Global,
    count: usize,
) -> Result<Vec<TcpDoor<'a, R>>, HouseError>
    ensures count { IfOk result (λ doors. vec_len doors ≡ count) }
    ensures no_fault { IfOk result (λ doors. All (λ door. door.faults ≡ 0) doors.items) }
{
    let mut doors = Vec::with_capacity(alloc, count)?;
    while doors.len() < count {
        doors.push(TcpDoor::of(Arc::try_clone(front)?)).unwrap();
    }
    Ok(doors)
}

/// Logs that a port was opened, and how long after that time.
pub(crate) fn tell_opened<R: Clock + Eprint>(
    journal: &Journal<'_, R>,
    begun: Option<Instant>,
    port: u16,
    count: u32,
) {
    let millis = match begun {
        Some(begun) => millis_since(journal.rt(), begun),
        None => 0,
    };
    journal.note(OpenedAt {
        port,
        count,
        s: plural(u64::from(count)),
        millis,
    });
}
