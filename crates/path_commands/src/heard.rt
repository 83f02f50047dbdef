//! The text of an answer that a server gave.

ghost use Rattle.std.specs.Prelude.{◌≡◌, ◌≤◌, ◌++◌, IfOk, string_bytes};
ghost use Rattle.query_proto.specs.Frames.{AreMovesOf};
ghost use Rattle.path_commands.specs.Queries.{TellsPath};
ghost use Rattle.path_commands.specs.Texts.{names_text, unreachable_text};
ghost use Rattle.query_proto.specs.declared.replies.Reply.TheVariants as Reply;
ghost use Rattle.path_commands.specs.HeardTexts.{TellsHeard, TellsPathBehind, end_of, refusal_of, reply_text, version_line};

use crate::path::head_text;
use moves::Move;
use path_client::Heard;
use query_proto::{QueryWhy, Reply};
use root_cost::{Cost, MAX_STEPS};
use std::alloc::{AllocError, Global};
use std::fmt::Write;
use versions::{End, QueryRefusal};

/// Returns the text of an answer. Each line ends with a line feed.
pub fn heard_text(alloc: Global, heard: &Heard) -> Result<String, AllocError>
    requires { AreMovesOf heard.now.reply heard.now.moves }
    ensures { IfOk result (λ text. TellsHeard heard.now.reply heard.now.moves (string_bytes text)) }
{
    match heard.reply {
        Reply::Path { version, cost } => found_text(alloc, version, cost, heard.moves.moves()),
        reply => other_text(alloc, reply),
    }
}

/// Returns the version that found a path, and the path.
fn found_text(alloc: Global, version: u32, cost: Cost, moves: &[Move]) -> Result<String, AllocError>
    requires straight { cost.straight ≤ MAX_STEPS }
    requires diagonal { cost.diagonal ≤ MAX_STEPS }
    ensures { IfOk result (λ text.
        TellsPathBehind (version_line version) cost moves.now (string_bytes text)) }
{
    let path = path_of(alloc, cost, moves)?;
    let mut text = String::new(alloc);
    push_version(&mut text, version)?;
    text.push_str(path.as_str())?;
    Ok(text)
}

/// Returns the cost, the length and the moves of a path, a line each.
pub(crate) fn path_of(alloc: Global, cost: Cost, moves: &[Move]) -> Result<String, AllocError>
    requires straight { cost.straight ≤ MAX_STEPS }
    requires diagonal { cost.diagonal ≤ MAX_STEPS }
    ensures { IfOk result (λ text. TellsPath cost moves.now (string_bytes text)) }
{
    let mut text = head_text(alloc, cost)?;
    push_names(&mut text, moves)?;
    text.push_str("\n")?;
    Ok(text)
}

/// Writes the names of moves, a space before each.
fn push_names(text: &mut String, moves: &[Move]) -> Result<(), AllocError>
    ensures { IfOk result (λ _.
        string_bytes text.new ≡ string_bytes text.old ++ names_text moves.now) }
{
    for by in moves {
        write!(text, " {by}")?;
    }
    Ok(())
}

/// Returns the text of a reply without its path.
fn other_text(alloc: Global, reply: Reply) -> Result<String, AllocError>
    ensures { IfOk result (λ text. string_bytes text ≡ reply_text reply) }
{
    let mut text = String::new(alloc);
    push_reply(&mut text, reply)?;
    Ok(text)
}

/// Writes the text of a reply without its path.
fn push_reply(text: &mut String, reply: Reply) -> Result<(), AllocError>
    ensures { IfOk result (λ _. string_bytes text.new ≡ string_bytes text.old ++ reply_text reply) }
{
    match reply {
        Reply::Path { version, .. } => push_version(text, version),
        Reply::Unreachable { version } => push_unreachable(text, version),
        Reply::Refused { version, why } => push_refused(text, version, why),
        Reply::Accepted { number } => write!(text, "accepted {number}\n"),
        Reply::EditRefused(why) => write!(text, "{why}\n"),
        Reply::Published {
            prefix,
            built,
            kept,
        } => push_published(text, prefix, built, kept),
        Reply::NothingNew { prefix } => write!(text, "nothing new {prefix}\n"),
        Reply::Overtaken { by } => write!(text, "overtaken {by}\n"),
        Reply::Status {
            version,
            accepted,
            cells,
            comps,
            runs,
        } => push_board(text, version, accepted, cells, comps, runs),
        Reply::Done => text.push_str("done\n"),
        Reply::Welcome => text.push_str("welcome\n"),
        Reply::Malformed { kind, length } => write!(text, "malformed {kind} {length}\n"),
        Reply::NoMemory => text.push_str("server out of memory\n"),
    }
}

/// Writes a version, identified by the number of edits before it.
fn push_version(text: &mut String, version: u32) -> Result<(), AllocError>
    ensures { IfOk result (λ _.
        string_bytes text.new ≡ string_bytes text.old ++ version_line version) }
{
    write!(text, "version {version}\n")
}

/// Writes that a version has no path.
fn push_unreachable(text: &mut String, version: u32) -> Result<(), AllocError>
    ensures { IfOk result (λ _.
        string_bytes text.new
        ≡ string_bytes text.old ++ (version_line version ++ unreachable_text)) }
{
    write!(text, "version {version}\nunreachable\n")
}

/// Writes which end of a query a version refused, and why.
fn push_refused(text: &mut String, version: u32, why: QueryWhy) -> Result<(), AllocError>
    ensures { IfOk result (λ _.
        string_bytes text.new ≡ string_bytes text.old ++ reply_text (Reply.Refused version why)) }
{
    let refusal = refusal_of(why);
    write!(text, "version {version}\n{refusal}\n")
}

/// Writes that a version was published, and how many rows were built and kept.
fn push_published(text: &mut String, prefix: u32, built: u32, kept: u32) -> Result<(), AllocError>
    ensures { IfOk result (λ _.
        string_bytes text.new
        ≡ string_bytes text.old ++ reply_text (Reply.Published prefix built kept)) }
{
    write!(text, "published {prefix} built {built}")?;
    write!(text, " kept {kept}\n")
}

/// Writes how many edits the published version has and how many were accepted, and the numbers of
/// cells, of components and of runs of that version.
fn push_board(
    text: &mut String,
    version: u32,
    accepted: u32,
    cells: u32,
    comps: u32,
    runs: u64,
) -> Result<(), AllocError>
    ensures { IfOk result (λ _.
        string_bytes text.new
        ≡ string_bytes text.old ++ reply_text (Reply.Status version accepted cells comps runs)) }
{
    write!(text, "version {version} accepted {accepted}")?;
    write!(text, " cells {cells} components {comps}")?;
    write!(text, " runs {runs}\n")
}

/// Returns the refusal of a reply.
fn refusal_of(why: QueryWhy) -> QueryRefusal
    ensures { result ≡ refusal_of why }
{
    let which = if why.goal { End::Goal } else { End::Start };
    if why.blocked {
        QueryRefusal::Blocked { which }
    } else {
        QueryRefusal::Outside { which }
    }
}
