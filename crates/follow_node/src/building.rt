//! The versions of a follower's board.

ghost use Rattle.std.specs.Prelude.{◌≡◌, ◌<◌, IfOk, OnErr, OnOk};
ghost use Rattle.std.specs.Arc.{arc_value};
ghost use Rattle.moves.specs.Maps.{IsSearchable};
ghost use Rattle.path_core.specs.Histories.{accepted_count, published_prefix};
ghost use Rattle.follow_node.specs.Following.{followed_of, with_published};
ghost use Rattle.follow_node.specs.Hearing.{IsNextVersion, IsVersionOf};

use cell_order::OrderKind;
use edit_log::apply;
use moves::Grid;
use path_core::Board;
use std::alloc::{AllocError, Global};
use std::sync::Arc;
use version_build::{Builder, plan};
use versions::Version;

/// The version of a map and a prefix, built after a former one.
///
/// # Errors
///
/// `AllocError` where memory runs out.
pub(crate) fn build_version(
    alloc: Global,
    former: Option<&Version>,
    grid: Grid,
    prefix: u32,
    kind: OrderKind,
) -> Result<Arc<Version>, AllocError>
    requires { IsSearchable grid }
    ensures { IfOk result (λ version. IsVersionOf grid prefix kind (arc_value version)) }
{
    let plan = plan(alloc, former, grid, prefix, kind)?;
    let mut builder = Builder::begin(alloc, plan)?;
    while builder.left() > 0 {
        builder.row()?;
    }
    let (version, _) = builder.finish()?;
    Ok(Arc::new(alloc, version)?)
}

/// Publishes the version after all accepted edits.
///
/// # Errors
///
/// `AllocError` where memory runs out. The board is as before.
pub(crate) fn publish_next(alloc: Global, board: &mut Board) -> Result<(), AllocError>
    requires { published_prefix board.old.history < accepted_count board.old.history }
    ensures published { OnOk result
        (followed_of board.new ≡ with_published (followed_of board.old)) }
    ensures refused { OnErr result (board.new ≡ board.old) }
{
    let version = next_version(alloc, board)?;
    match board.publish(0, version) {
        Ok(_) => Ok(()),
        Err(_) => Err(AllocError),
    }
}

/// The version after all accepted edits, built after the published one.
///
/// # Errors
///
/// `AllocError` where memory runs out.
fn next_version(alloc: Global, board: &Board) -> Result<Arc<Version>, AllocError>
    ensures { IfOk result (λ version. IsNextVersion board.now (arc_value version)) }
{
    // That the history is legal is known from here.
    board.entries();
    let held = board.version();
    let job = board.job(held.prefix())?;
    let mut grid = held.grid().copy()?;
    apply(&mut grid, &job.edits);
    build_version(alloc, Some(held), grid, job.prefix, held.kind())
}
