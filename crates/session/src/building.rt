//! The building of a version after all accepted edits, and its publication.

ghost use Rattle.std.specs.Prelude.{IfOk, OnErr};
ghost use Rattle.std.specs.Arc.{arc_value};
ghost use Rattle.moves.specs.Maps.{IsSearchable};
ghost use Rattle.edit_log.specs.Edits.{EditsInside, map_after};
ghost use Rattle.query_proto.specs.declared.requests.Request.TheVariants.{Build};
ghost use Rattle.session.specs.Answering.{ServesAt};
ghost use Rattle.session.specs.Building.{IsBuiltAfter, IsTaken, TakesNone};
ghost use Rattle.session.specs.Desks.{IsCall};
ghost use Rattle.session.specs.Standing.{HoldsSince, stands};

use crate::desk::Desk;
use crate::means::Means;
use build_pool::Gate;
use edit_log::apply;
use path_core::{Job, PublishError};
use query_proto::Reply;
use std::alloc::AllocError;
use std::sync::{Arc, Wait};
use std::thread::Threads;
use version_build::{BuildReport, build, plan};
use versions::Version;
use wire::Built;

/// Builds a version after all accepted edits and publishes it, if the published one lacks some. While another build of
/// the board runs, it waits for the end and then looks; usually there is nothing new.
pub(crate) fn answer_build<K: Desk, R: Threads + Wait + Sync, G: Gate>(
    means: &Means<'_, R, G>,
    desk: &mut K,
) -> Reply
    ensures called { IsCall (K.at desk.old) (K.at desk.new) }
    ensures holds { HoldsSince (stands (K.at desk.old)) (stands (K.at desk.new)) }
    ensures served { ServesAt (K.at desk.old) Build result (K.at desk.new) }
{
    desk.begin_build(means.rt);
    let reply = build_and_publish(means, desk);
    desk.end_build(means.rt, published(reply));
    reply
}

/// Returns what was published, if the reply says so.
fn published(reply: Reply) -> Option<Built> {
    match reply {
        Reply::Published {
            prefix,
            built,
            kept,
        } => Some(Built {
            version: prefix,
            built,
            kept,
        }),
        _ => None,
    }
}

/// Looks, builds a version after all accepted edits and publishes it, if the published one lacks some.
fn build_and_publish<K: Desk, R: Threads + Wait + Sync, G: Gate>(
    means: &Means<'_, R, G>,
    desk: &mut K,
) -> Reply
    ensures called { IsCall (K.at desk.old) (K.at desk.new) }
    ensures holds { HoldsSince (stands (K.at desk.old)) (stands (K.at desk.new)) }
    ensures served { ServesAt (K.at desk.old) Build result (K.at desk.new) }
{
    let Ok(job) = take_job(means.rt, desk) else {
        return Reply::NoMemory;
    };
    let held = desk.held();
    if job.prefix == held.prefix() {
        return Reply::NothingNew { prefix: job.prefix };
    }
    let Ok((next, report)) = build_after(means, held, &job) else {
        return Reply::NoMemory;
    };
    match desk.publish(means.rt, next) {
        Ok(prefix) => Reply::Published {
            prefix,
            built: report.built,
            kept: report.kept,
        },
        Err(PublishError::Overtaken { by }) => Reply::Overtaken { by },
        Err(PublishError::NoMemory) => Reply::NoMemory,
    }
}

/// Looks, and takes the accepted edits that the published version lacks. That version is held then.
///
/// # Errors
///
/// `AllocError` if memory runs out, for the version or for the edits.
fn take_job<K: Desk, R: Wait>(rt: &R, desk: &mut K) -> Result<Job, AllocError>
    ensures called { IsCall (K.at desk.old) (K.at desk.new) }
    ensures holds { HoldsSince (stands (K.at desk.old)) (stands (K.at desk.new)) }
    ensures taken { IfOk result (IsTaken (K.at desk.old) (K.at desk.new)) }
    ensures none { OnErr result (TakesNone (K.at desk.old) (K.at desk.new)) }
{
    let look = desk.look(rt);
    let known = desk.held().prefix();
    if !look.held {
        return Err(AllocError);
    }
    desk.job(rt, known)
}

/// Returns the version after the edits of a job, built after the one that is held.
///
/// # Errors
///
/// `AllocError` if memory runs out.
fn build_after<R: Threads + Sync, G: Gate>(
    means: &Means<'_, R, G>,
    held: &Version,
    job: &Job,
) -> Result<(Arc<Version>, BuildReport), AllocError>
    requires inside { EditsInside held.now.map job.now.edits.edits }
    requires searchable { IsSearchable (map_after held.now.map job.now.edits.edits) }
    ensures { IfOk result (λ made. IsBuiltAfter held.now job.now made.1 (arc_value made.0)) }
{
    let mut grid = held.grid().copy()?;
    apply(&mut grid, &job.edits);
    let plan = plan(means.alloc, Some(held), grid, job.prefix, held.kind())?;
    let (version, report) = build(means.rt, means.alloc, plan, means.workers, means.gate)?;
    Ok((Arc::new(means.alloc, version)?, report))
}
