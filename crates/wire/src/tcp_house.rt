//! Doors at ports of this machine, and calls to them.
ghost use Rattle.std.specs.Prelude.{◌≡◌, [], All, None, vec_len, IfOk};
ghost use Rattle.wire.specs.Houses.{count_if, rose_once, untold_house};

use crate::faults::count_fault;
use crate::front::Server;
use crate::journal::plural;
use crate::opening::{PortError, doors_of, open_front, tell_opened};
use crate::{DoorsAsked, Failed, Hands, House, HouseError, Journal, Speech, TcpCall, TcpDoor};
use arrayvec::ArrayVec;
use std::alloc::Global;
use std::io::Eprint;
use std::net::{Net, TcpListener, TcpStream};
use std::sync::{Arc, Wait};
use std::thread::Threads;
use std::time::{Clock, Instant};
use std::{io, rt};
use thiserror::Error;

/// Opens doors at ports of 127.0.0.1 and calls them. It tells no doors and no links, because the system tells none. The
/// doors of a port share a listener, and a stop at one port stops all. Nobody is let in before the threads of all doors
/// and the builder have begun. Messages for the operator about doors and connections go to its journal.
#[derive(Drop)]
pub struct TcpHouse<'a, R> {
    journal: Journal<'a, R>,
    speech: Speech,
    hands: &'a Hands,
    server: Option<Arc<Server<'a>>>,
    begun: Option<Instant>,
    asked: ArrayVec<DoorsAsked, 2>,
    called: Option<u16>,
    refusal: Option<(u16, io::Error)>,
    door_faults: u64,
    read_faults: u64,
    write_faults: u64,
}

impl<'a, R: Clock + Eprint> TcpHouse<'a, R> {
    /// A house that has not been asked for anything, through the runtime of its journal. Its connections watch for this
    /// speech, and the threads at its doors are counted in these hands.
    pub fn new(journal: Journal<'a, R>, speech: Speech, hands: &'a Hands) -> TcpHouse<'a, R>
        ensures asked { result.asked.items ≡ [] }
        ensures called { result.called ≡ None }
        ensures doors { result.door_faults ≡ 0 }
        ensures reads { result.read_faults ≡ 0 }
        ensures writes { result.write_faults ≡ 0 }
    {
        TcpHouse {
            begun: Instant::now(journal.rt()).ok(),
            journal,
            speech,
            hands,
            server: None,
            asked: ArrayVec::new(),
            called: None,
            refusal: None,
            door_faults: 0,
            read_faults: 0,
            write_faults: 0,
        }
    }
}

impl<'a, R> TcpHouse<'a, R> {
    /// The port that the system refused, or refused descriptors for, and why, if it did.
    pub fn refusal(&self) -> Option<(u16, io::Error)> {
        self.refusal
    }
}

impl<'a, R> TcpHouse<'a, R>
where
    R: Net<Listener = TcpListener, Stream = TcpStream>
        + Clock
        + Eprint
        + Threads
        + Wait
        + rt::Files,
{
    /// What the open ports share; for a server without ports, a new one.
    fn server(&self, alloc: Global) -> Result<Arc<Server<'a>>, HouseError> {
        match &self.server {
            Some(server) => Ok(Arc::try_clone(server)?),
            None => match Arc::new(alloc, Server::new(self.hands)) {
                Ok(server) => Ok(server),
                Err(_) => Err(HouseError::NoMemory),
            },
        }
    }

    /// Opens `count` doors at a port.
    fn open(
        &mut self,
        alloc: Global,
        port: u16,
        count: u32,
    ) -> Result<Vec<TcpDoor<'a, R>>, HouseError>
        ensures count { IfOk result (λ doors. vec_len doors ≡ count) }
        ensures no_fault { IfOk result (λ doors. All (λ door. door.faults ≡ 0) doors.items) }
        ensures asked { self.new.asked ≡ self.old.asked }
        ensures called { self.new.called ≡ self.old.called }
        ensures doors { self.new.door_faults ≡ self.old.door_faults }
        ensures reads { self.new.read_faults ≡ self.old.read_faults }
        ensures writes { self.new.write_faults ≡ self.old.write_faults }
    {
        let server = self.server(alloc)?;
        let kept = Arc::try_clone(&server)?;
        let all = all_doors(&self.asked);
        let front = match open_front(&self.journal, alloc, self.speech, port, all, server) {
            Ok(front) => front,
            Err(PortError::NoMemory) => return Err(HouseError::NoMemory),
            Err(PortError::Refused(error)) => {
                self.refusal = Some((port, error));
                return Err(HouseError::Failed);
            }
        };
        let doors = doors_of(&front, alloc, count as usize)?;
        tell_opened(&self.journal, self.begun, port, count);
        self.hands.need(hands_for(count, self.server.is_none()));
        self.server = Some(kept);
        Ok(doors)
    }
}

/// How many doors have been asked for so far.
fn all_doors(asked: &[DoorsAsked]) -> u32 {
    asked
        .iter()
        .fold(0, |all: u32, asked| all.saturating_add(asked.count))
}

/// How many threads a server needs for `count` more doors: one each, and one that builds with its first doors.
fn hands_for(count: u32, are_first: bool) -> u32 {
    count.saturating_add(u32::from(are_first))
}

/// How many connections came to the doors of a server, and how many of them ended by a fault.
#[derive(Debug, Clone, Copy, Error)]
#[error("ended; {taken} connection{s}, {broken} of them by a fault")]
struct EndedAfter {
    taken: u64,
    s: &'static str,
    broken: u64,
}

/// Logs how many connections came to the server of these doors, once per server.
fn tell_ended<R: Clock + Eprint>(doors: &[TcpDoor<'_, R>]) {
    for door in doors {
        let front = door.front();
        let server = front.server();
        if server.is_to_be_told() {
            front.journal().note(EndedAfter {
                taken: server.taken(),
                s: plural(server.taken()),
                broken: server.broken(),
            });
        }
    }
}

// Whether one of these doors has failed.
fn has_failed<R: Clock + Eprint>(doors: &[TcpDoor<'_, R>]) -> bool
    ensures { result ≡ rose_once (λ door. door.faults) doors.now }
{
    doors.iter().any(|door| door.fault_count() != 0)
}

impl<'a, R> House for TcpHouse<'a, R>
where
    R: Net<Listener = TcpListener, Stream = TcpStream>
        + Clock
        + Eprint
        + Threads
        + Wait
        + rt::Files
        + Sync,
{
    type Conn = TcpCall<'a, R>;

    type Door = TcpDoor<'a, R>;

    ghost at = { λ house. untold_house
        house.asked.items house.called house.door_faults house.read_faults house.write_faults };

    fn doors(
        &mut self,
        alloc: Global,
        port: u16,
        count: u32,
    ) -> Result<Vec<TcpDoor<'a, R>>, HouseError> {
        self.asked.push(DoorsAsked { port, count });
        let outcome = self.open(alloc, port, count);
        if let Err(HouseError::Failed) = &outcome {
            count_fault(&mut self.door_faults);
        }
        outcome
    }

    fn call(&mut self, port: u16) -> Result<TcpCall<'a, R>, Failed> {
        self.called = Some(port);
        let outcome = TcpCall::to(self.journal.another(), port);
        if outcome.is_err() {
            count_fault(&mut self.read_faults);
        }
        outcome
    }

    fn shut(&mut self, doors: Vec<TcpDoor<'a, R>>)
        ensures asked { self.new.asked ≡ self.old.asked }
        ensures called { self.new.called ≡ self.old.called }
        ensures doors { self.new.door_faults
            ≡ count_if (rose_once (λ door. door.faults) doors.entry.items) self.old.door_faults }
        ensures reads { self.new.read_faults ≡ self.old.read_faults }
        ensures writes { self.new.write_faults ≡ self.old.write_faults }
    {
        if has_failed(&doors) {
            count_fault(&mut self.door_faults);
        }
        self.server = None;
        tell_ended(&doors);
    }

    fn hang_up(&mut self, link: TcpCall<'a, R>) {
        if link.read_fault_count() != 0 {
            count_fault(&mut self.read_faults);
        }
        if link.write_fault_count() != 0 {
            count_fault(&mut self.write_faults);
        }
    }
}
