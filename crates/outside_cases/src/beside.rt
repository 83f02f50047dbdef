//! Boards that are served at doors side by side, with a builder beside them, to clients of which each may wait for what
//! another did.

ghost use Rattle.std.specs.Prelude.{◌≡◌, ◌≤◌, IfOk, length};

use crate::boards::board_of;
use crate::said::{hex_or_none, push_part};
use crate::served::serve;
use case_kit::{Fields, Refusal, bytes_of};
use std::alloc::{AllocError, Global};
use std::sync::Wait;
use std::thread;
use std::thread::Threads;
use wire::{Door, Failed, HostBell, Knock, Link};

/// What a client does next: it sends a request, again and again until the reply begins with the awaited bytes.
#[derive(Drop)]
struct Step {
    request: Vec<u8>,
    awaited: Vec<u8>,
}

/// A client, as the link over which it talks. It sends a request when it has heard the reply to the one before.
#[derive(Drop)]
struct Client {
    steps: Vec<Step>,
    /// How many steps are done.
    done: usize,
    /// How many bytes of the next step's request are sent.
    sent: usize,
    /// The replies that ended a step, and what came behind them.
    heard: Vec<u8>,
    /// How many bytes those replies have.
    judged: usize,
}

impl Client {
    /// Where a request was sent whole, goes on to the next step if the reply ends this one, and else forgets the reply.
    fn go_on(&mut self) {
        let Some(step) = self.steps.get(self.done) else {
            return;
        };
        if self.sent < step.request.len() {
            return;
        }
        let reply = self.heard.get(self.judged..).unwrap_or(&[]);
        if reply.starts_with(&step.awaited) {
            self.done = self.done.saturating_add(1);
            self.judged = self.heard.len();
        } else {
            self.heard.truncate(self.judged);
            thread::yield_now();
        }
        self.sent = 0;
    }

    /// The bytes that are to be sent before the next reply comes.
    fn unsent(&self) -> &[u8] {
        match self.steps.get(self.done) {
            Some(step) => step.request.get(self.sent..).unwrap_or(&[]),
            None => &[],
        }
    }
}

impl Link for Client {
    ghost use Rattle.std.specs.Prelude.{None};

    ghost at = { λ _. record { talk = None; read_faults = 0; write_faults = 0 } };

    fn recv(&mut self, room: &mut [u8]) -> Result<usize, Failed> {
        self.go_on();
        let count = copy_front(room, self.unsent());
        self.sent = self.sent.saturating_add(count);
        Ok(count)
    }

    fn send(&mut self, piece: &[u8]) -> Result<usize, Failed> {
        // What no memory is left for is not heard.
        let _ = self.heard.extend_from_slice(piece);
        Ok(piece.len())
    }
}

/// Copies as many bytes as there is room for, and says how many.
fn copy_front(room: &mut [u8], bytes: &[u8]) -> usize
    ensures { result ≤ length room.old }
{
    let count = room.len().min(bytes.len());
    room[..count].copy_from_slice(&bytes[..count]);
    count
}

/// A door at which one client comes, or none, and then nobody.
#[derive(Drop)]
struct Hall {
    coming: Option<Client>,
    back: Option<Client>,
}

impl Door for Hall {
    ghost use Rattle.wire.specs.Knocks.{untold_door};

    type Conn = Client;

    ghost at = { λ _. untold_door 0 };

    fn knock(&mut self) -> Result<Knock<Client>, Failed> {
        match self.coming.take() {
            Some(client) => Ok(Knock::Conn(client)),
            None => {
                thread::yield_now();
                Ok(Knock::Quiet)
            }
        }
    }

    fn done(&mut self, conn: Client) {
        self.back = Some(conn);
    }
}

/// `served beside | MAP | STEP; .. | STEP; ..`: a board that is served at three doors with a builder beside them. At
/// two of them a client comes that takes these steps, and nobody at the third. A step is the bytes of a request, or
/// `REQUEST until BYTES`. How that went, and what each client heard.
pub(crate) fn served_beside<R: Threads + Wait + Sync>(
    rt: &R,
    alloc: Global,
    fields: &mut Fields<'_>,
) -> Result<String, Refusal> {
    let board = board_of(rt, alloc, fields.grid(alloc)?)?;
    let first = client_in(alloc, fields.text()?)?;
    let second = client_in(alloc, fields.text()?)?;
    let doors = three_doors(alloc, first, second)?;
    let bell = HostBell::new();
    let mut ear = bell.ear();
    let (said, doors) = serve(rt, alloc, board, doors, &bell, &mut ear)?;
    let mut heard = String::new(alloc);
    for door in &doors {
        if let Some(client) = &door.back {
            push_part(&mut heard, hex_or_none(alloc, &client.heard)?.as_str())?;
        }
    }
    Ok(format!(in alloc; "{said}; heard {heard}")?)
}

/// The client that takes these steps.
fn client_in(alloc: Global, words: &str) -> Result<Client, Refusal> {
    let mut steps = Vec::new(alloc);
    for step in words.split("; ") {
        steps.push(step_in(alloc, step)?).map_err(AllocError::from)?;
    }
    Ok(Client {
        steps,
        done: 0,
        sent: 0,
        heard: Vec::new(alloc),
        judged: 0,
    })
}

/// The step of these words.
fn step_in(alloc: Global, words: &str) -> Result<Step, Refusal> {
    let (request, awaited) = words.split_once(" until ").unwrap_or((words, ""));
    Ok(Step {
        request: bytes_of(alloc, request)?,
        awaited: bytes_of(alloc, awaited)?,
    })
}

/// Doors at which these two clients come, and one at which nobody comes.
fn three_doors(alloc: Global, first: Client, second: Client) -> Result<Vec<Hall>, AllocError>
    ensures { IfOk result (λ doors. length doors.items ≡ 3) }
{
    let mut doors = Vec::new(alloc);
    doors.push(hall_of(Some(first)))?;
    doors.push(hall_of(Some(second)))?;
    doors.push(hall_of(None))?;
    Ok(doors)
}

/// The door at which that client comes.
fn hall_of(coming: Option<Client>) -> Hall {
    Hall { coming, back: None }
}
