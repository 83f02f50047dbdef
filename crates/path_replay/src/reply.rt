//! What is said of an event.

use edit_log::EditRefusal;
use std::fmt;

/// What is said of an event that is no query.
#[derive(Clone, Copy)]
pub enum Reply {
    /// The edit was accepted.
    Accepted {
        /// How many edits are accepted then.
        count: u32,
    },
    /// The edit was refused.
    Refused(EditRefusal),
    /// The pass holds the published version.
    Looked {
        /// How many edits that version comes after.
        prefix: u32,
        /// How many edits are accepted.
        accepted: u32,
    },
    /// All accepted edits are published.
    NothingNew {
        /// How many they are.
        prefix: u32,
    },
    /// A version is being built.
    Job {
        /// How many edits it comes after.
        prefix: u32,
        /// How many of its rows are to be built.
        rows: u32,
    },
    /// No version is being built, or no row of it is left.
    NoRow,
    /// A row was built.
    RowLeft {
        /// How many rows are left.
        left: u32,
    },
    /// No version is being built.
    NoJob,
    /// Rows are left.
    NotReady {
        /// How many.
        left: u32,
    },
    /// A version is published that comes after as many edits or more.
    Overtaken {
        /// How many that one comes after.
        by: u32,
    },
    /// The version was published.
    Published {
        /// How many edits it comes after.
        prefix: u32,
        /// How many of its rows were built.
        built: u32,
        /// How many were kept.
        kept: u32,
    },
    /// The board began to halt.
    Halting,
    /// It halted already.
    Halted,
}

impl fmt::Display for Reply {
    ghost use Rattle.std.specs.Prelude.{Some};
    ghost use Rattle.path_replay.specs.Texts.{reply_text};

    ghost output = { λ reply. Some (reply_text reply) };

    fn fmt<W: fmt::Write>(&self, f: &mut fmt::Formatter<W>) -> fmt::Result {
        match self {
            Reply::Accepted { count } => write!(f, "accepted {count}"),
            Reply::Refused(why) => write!(f, "{why}"),
            Reply::Looked { prefix, accepted } => {
                write!(f, "version {prefix} accepted {accepted}")
            }
            Reply::NothingNew { prefix } => write!(f, "nothing new {prefix}"),
            Reply::Job { prefix, rows } => write!(f, "job {prefix} rows {rows}"),
            Reply::NoRow => write!(f, "no row"),
            Reply::RowLeft { left } => write!(f, "row left {left}"),
            Reply::NoJob => write!(f, "no job"),
            Reply::NotReady { left } => write!(f, "not ready {left}"),
            Reply::Overtaken { by } => write!(f, "overtaken {by}"),
            Reply::Published {
                prefix,
                built,
                kept,
            } => {
                write!(f, "published {prefix} built {built}")?;
                write!(f, " kept {kept}")
            }
            Reply::Halting => write!(f, "halting"),
            Reply::Halted => write!(f, "halted"),
        }
    }
}
