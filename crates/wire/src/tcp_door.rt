//! A door at a port of this machine.
ghost use Rattle.std.specs.Prelude.{◌≡◌, false};
ghost use Rattle.wire.specs.Knocks.{IfFound, is_closed, untold_door};

use crate::faults::count_fault;
use crate::front::Front;
use crate::{Door, Failed, Knock, TcpLink};
use std::io::Eprint;
use std::net::TcpStream;
use std::sync::Arc;
use std::time::Clock;

/// A door at a port of 127.0.0.1. It is never closed, and tells no talks, because the system tells none. A connection
/// that is handed back ends once the peer has closed it or is silent for a short time. Once a connection at any door of
/// the port has stopped the server, nobody is let in any more: new connections are refused, and each knock is quiet. If
/// a thread of the server has not begun within [`BEGIN_TIME`](crate::BEGIN_TIME), each knock fails; until then each is
/// quiet.
#[derive(Drop)]
pub struct TcpDoor<'a, R> {
    front: Arc<Front<'a, R>>,
    begun: bool,
    faults: u64,
}

impl<'a, R: Clock + Eprint> TcpDoor<'a, R> {
    /// A door of this front.
    pub(crate) fn of(front: Arc<Front<'a, R>>) -> TcpDoor<'a, R>
        ensures { result.faults ≡ 0 }
    {
        TcpDoor {
            front,
            begun: false,
            faults: 0,
        }
    }

    /// What the doors of its port share.
    pub(crate) fn front(&self) -> &Front<'a, R> {
        &self.front
    }

    /// Begins the thread of this door at the first knock.
    fn begin(&mut self)
        ensures { self.new.faults ≡ self.old.faults }
    {
        if !self.begun {
            self.front.begin();
        }
        self.begun = true;
    }

    /// How many knocks have failed.
    pub fn fault_count(&self) -> u64
        ensures { result ≡ self.now.faults }
    {
        self.faults
    }
}

/// The link of a new connection. A connection that has gone by now is none.
fn welcome<'a, R: Clock + Eprint>(
    front: &Arc<Front<'a, R>>,
    stream: TcpStream,
) -> Knock<TcpLink<'a, R>>
    ensures reads { IfFound result (λ link. link.read_faults ≡ 0) }
    ensures writes { IfFound result (λ link. link.write_faults ≡ 0) }
    ensures open { is_closed result ≡ false }
{
    let Ok(front) = Arc::try_clone(front) else {
        return Knock::Quiet;
    };
    match TcpLink::over(front, stream) {
        Ok(link) => Knock::Conn(link),
        Err(_) => Knock::Quiet,
    }
}

impl<'a, R: Clock + Eprint + Sync> Door for TcpDoor<'a, R> {
    type Conn = TcpLink<'a, R>;

    ghost at = { λ door. untold_door door.faults };

    fn knock(&mut self) -> Result<Knock<TcpLink<'a, R>>, Failed> {
        self.begin();
        match self.front.accept() {
            Ok(Some(stream)) => Ok(welcome(&self.front, stream)),
            Ok(None) => Ok(Knock::Quiet),
            Err(Failed) => {
                count_fault(&mut self.faults);
                Err(Failed)
            }
        }
    }

    fn done(&mut self, conn: TcpLink<'a, R>) {
        conn.part();
    }
}
