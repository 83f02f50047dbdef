//! The commands of the program: the request that a command line spells, what each command does, and
//! the texts and statuses with which a run ends.
//!
//! What a command line asks for:
//!
//! ```text
//! command | path m.map 0 1 2 3
//! OfMap(MapAsked { source: File("m.map"), aim: Path { start: Cell { x: 0, y: 1 }, goal: Cell { x: 2, y: 3 } }, \
//! build: BuildOptions { order: Rows, workers: 1 } })
//! ```
#![tactic(auto)]

pub mod ask;
mod asked;
mod check;
mod commands;
mod database;
mod db;
mod file;
mod heard;
mod help;
mod made;
mod map_file;
mod means;
mod near;
mod output;
mod pages;
mod path;
mod remarks;
mod replay;
mod request;
pub mod request_laws;
mod scen;
mod seen;
pub mod serve;
pub mod serving;
mod status;
mod system;
pub mod talk;
mod task;
mod watch;
mod words;

pub use check::answer_check;
pub use commands::{Kind, Verb};
pub use database::{first_board, first_near, first_version};
pub use db::{answer_verify, put_file, read_version};
pub use help::{advice, argument_advice};
pub use made::{answer_made, made_grid};
pub use map_file::read_grid;
pub use means::Means;
pub use near::{answer_near, answer_near_path};
pub use output::{put, refuse};
pub use path::answer_path;
pub use replay::answer_replay;
pub use request::{
    AskAsked, BuildOptions, FollowAsked, LeadAsked, MapAim, MapAsked, MapSource, Refusal, Request,
    RequestError, ServeAsked, Sides, TalkAsked, first_verb, read_request,
};
pub use scen::answer_scen;
pub use seen::Seen;
pub use status::Status;
pub use system::{command_words, exit_code, is_printed_name};
pub use task::{Task, task_for};
pub use watch::Watch;
pub use words::MAX_ROUNDS;
