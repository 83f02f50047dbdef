//! The edge of the program: files, output, connections, doors and bells as traits that count their
//! faults, versions of them in memory for tests, and the real ones.
//!
//! A call that returns [`Failed`] says that the system refused. It may do so only if the fault
//! count of the object that was called rose during the call. So no caller can invent a fault, and
//! each caller can pass the reason on in its own contract.
//!
//! A link in memory whose first send fails, which its fault count tells:
//!
//! ```text
//! memory link | 'in' | - | - | 9 | 1 | send path, send found
//! failed, sent; left 'in', sent 'found', faults 0 1
//! ```
#![tactic(auto)]

mod bell;
mod door;
mod faults;
mod files;
mod frame_watch;
mod front;
mod glimpse;
mod hands;
mod host_bell;
mod host_files;
mod house;
mod inbox;
mod journal;
pub mod laws;
mod limits;
mod link;
mod mem_door;
mod mem_files;
mod mem_house;
mod mem_link;
mod mem_sink;
mod opener;
mod opening;
mod patience;
mod patient_stream;
mod progress;
mod reader_files;
mod sink;
mod speech;
mod std_link;
mod std_sink;
mod stderr;
mod steady_link;
mod steady_sink;
mod stream_link;
mod tcp_call;
mod tcp_door;
mod tcp_house;
mod tcp_link;
mod ticks;
mod timed_stream;
mod told_bell;
mod turn_ear;
mod unread;
mod writer_sink;

pub use bell::{Bell, Built, Ear, Ring, StillBell};
pub use door::{Door, Knock};
pub use faults::Failed;
pub use files::{FileError, Files};
pub use front::{CLOSING_TIME, KNOCK_TIME, QUIET_TIME};
pub use glimpse::{Glimpse, HEAD_SIZE};
pub use hands::{BEGIN_TIME, Hands};
pub use host_bell::{HostBell, HostEar};
pub use host_files::{HostFiles, HostOpener};
pub use house::{DoorsAsked, House, HouseError};
pub use journal::Journal;
pub use link::{Link, send_all};
pub use mem_door::MemDoor;
pub use mem_files::MemFiles;
pub use mem_house::MemHouse;
pub use mem_link::MemLink;
pub use mem_sink::MemSink;
pub use opener::{Opened, Opener};
pub use patience::{ANSWER_TIME, ASK_TIME, FRAME_TIME, IDLE_TIME, REPLY_TIME};
pub use progress::{PROGRESS_AFTER, PROGRESS_LINE, PROGRESS_TICK, Progress, Showing};
pub use reader_files::ReaderFiles;
pub use sink::{Sink, put_all};
pub use speech::{DONE_SIZE, Speech};
pub use std_link::StdLink;
pub use std_sink::StdSink;
pub use stderr::put_error;
pub use steady_link::SteadyLink;
pub use steady_sink::SteadySink;
pub use stream_link::StreamLink;
pub use tcp_call::TcpCall;
pub use tcp_door::TcpDoor;
pub use tcp_house::TcpHouse;
pub use tcp_link::TcpLink;
pub use timed_stream::PARTING_TIME;
pub use told_bell::{ToldBell, ToldEar};
pub use turn_ear::TurnEar;
pub use writer_sink::WriterSink;
