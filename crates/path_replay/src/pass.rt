//! One pass: the version that it holds, and the one that it builds.

ghost use Rattle.std.specs.Prelude.{◌≡◌, None, IfOk, OnOk, OnErr, string_bytes};
ghost use Rattle.std.specs.Option.{option_map};
ghost use Rattle.moves.specs.Maps.{IsSearchable};
ghost use Rattle.edit_log.specs.Edits.{EditsInside, map_after};
ghost use Rattle.versions.specs.Counts.{AreCounts};
ghost use Rattle.path_core.specs.Histories.{published_prefix};
ghost use Rattle.path_replay.specs.Replays.{IsBegun, IsLooked, IsPublished, IsRowBuilt};
ghost use Rattle.path_replay.specs.Inside.{AddsAnswer, Grows, IsReplayable, IsSound, StaysSound, build_of, standing_of};

use crate::answers::push_answer;
use crate::reply::Reply;
use edit_log::apply;
use moves::Cell;
use path_core::{Board, Job, PublishError};
use std::alloc::{AllocError, Global};
use std::fmt::Write;
use std::marker::Model;
use std::sync::Arc;
use version_build::{Builder, Plan, plan};
use versions::Version;

/// A pass of a replay.
#[derive(Drop)]
pub(crate) struct Pass {
    held: Arc<Version>,
    building: Option<Builder>,
}

impl Model for Pass {
    ghost use Rattle.std.specs.Arc.{arc_value};
    ghost use Rattle.path_replay.specs.Inside.{Holding};

    ghost Value = { Holding };

    ghost view = { λ p. record { version = arc_value p.held; building = p.building } };

    ghost invariant = { λ p. Unit {0} };
}

impl Pass {
    /// A pass that holds the board's version and builds none.
    pub(crate) fn new(board: &Board) -> Result<Pass, AllocError>
        ensures version { IfOk result (λ pass. pass.version ≡ board.now.version) }
        ensures building { IfOk result (λ pass. pass.building ≡ None) }
    {
        Ok(Pass {
            held: board.copy_version()?,
            building: None,
        })
    }

    /// Holds the published version from now on.
    pub(crate) fn look(&mut self, board: &Board) -> Result<Reply, AllocError>
        requires sound { IsSound board.now self.old }
        ensures reply { IfOk result (λ reply.
            IsLooked board.now.history (standing_of self.old) reply (standing_of self.new)) }
        ensures sound { OnOk result (IsSound board.now self.new) }
        ensures published { OnOk result
            (self.new.version.prefix ≡ published_prefix board.now.history) }
        ensures building { OnOk result (self.new.building ≡ self.old.building) }
    {
        // That the published version is one of a legal history is known from these two.
        board.version();
        board.entries();
        let look = board.look();
        self.held = board.copy_version()?;
        Ok(Reply::Looked {
            prefix: look.prefix,
            accepted: look.accepted,
        })
    }

    /// Looks, and begins to build the version of all accepted edits, unless it is published already. What was being
    /// built is dropped.
    pub(crate) fn begin(&mut self, alloc: Global, board: &Board) -> Result<Reply, AllocError>
        requires sound { IsSound board.now self.old }
        requires replayable { IsReplayable board.now }
        ensures reply { IfOk result (λ reply.
            IsBegun board.now.start board.now.history reply (standing_of self.new)) }
        ensures sound { OnOk result (IsSound board.now self.new) }
    {
        self.building = None;
        self.look(board)?;
        let held = self.held.prefix();
        let job = board.job(held)?;
        if job.prefix == held {
            return Ok(Reply::NothingNew { prefix: held });
        }
        let plan = self.plan(alloc, &job)?;
        let rows = plan.rows();
        self.building = Some(Builder::begin(alloc, plan)?);
        Ok(Reply::Job {
            prefix: job.prefix,
            rows,
        })
    }

    /// The plan of the version after the edits of a job.
    fn plan(&self, alloc: Global, job: &Job) -> Result<Plan, AllocError>
        requires inside { EditsInside self.now.version.map job.now.edits.edits }
        requires searchable { IsSearchable (map_after self.now.version.map job.now.edits.edits) }
        ensures map { IfOk result (λ plan.
            plan.map ≡ map_after self.now.version.map job.now.edits.edits) }
        ensures prefix { IfOk result (λ plan. plan.prefix ≡ job.now.prefix) }
        ensures order { IfOk result (λ plan. plan.order ≡ self.now.version.order) }
        ensures counts { IfOk result (λ plan.
            AreCounts self.now.version.map plan.map plan.built plan.kept) }
    {
        let mut grid = self.held.grid().copy()?;
        apply(&mut grid, &job.edits);
        plan(alloc, Some(&self.held), grid, job.prefix, self.held.kind())
    }

    /// Builds the next row, if one is left.
    pub(crate) fn row(&mut self) -> Result<Reply, AllocError>
        ensures reply { IfOk result (λ reply.
            IsRowBuilt (option_map build_of self.old.building) reply (option_map build_of self.new.building)) }
        ensures version { OnOk result (self.new.version ≡ self.old.version) }
        ensures sound { OnOk result (StaysSound self.old self.new) }
    {
        let Some(mut builder) = self.building.take() else {
            return Ok(Reply::NoRow);
        };
        if builder.left() == 0 {
            self.building = Some(builder);
            return Ok(Reply::NoRow);
        }
        builder.row()?;
        let left = builder.left();
        self.building = Some(builder);
        Ok(Reply::RowLeft { left })
    }

    /// Publishes the version all of whose rows are built.
    pub(crate) fn publish(
        &mut self,
        alloc: Global,
        board: &mut Board,
        pass: u32,
    ) -> Result<Reply, AllocError>
        requires sound { IsSound board.old self.old }
        ensures reply { IfOk result (λ reply. IsPublished board.old.history pass
            (option_map build_of self.old.building) reply
            board.new.history (option_map build_of self.new.building)) }
        ensures version { OnOk result (self.new.version ≡ self.old.version) }
        ensures sound { OnOk result (IsSound board.new self.new) }
        ensures grows { OnOk result (Grows board.old board.new) }
        ensures refused { OnErr result (board.new ≡ board.old) }
    {
        let Some(builder) = self.building.take() else {
            return Ok(Reply::NoJob);
        };
        let left = builder.left();
        if left > 0 {
            self.building = Some(builder);
            return Ok(Reply::NotReady { left });
        }
        let (version, report) = builder.finish()?;
        let version = Arc::new(alloc, version)?;
        match board.publish(pass, version) {
            Ok(prefix) => Ok(Reply::Published {
                prefix,
                built: report.built,
                kept: report.kept,
            }),
            Err(PublishError::Overtaken { by }) => Ok(Reply::Overtaken { by }),
            Err(PublishError::NoMemory) => Err(AllocError),
        }
    }

    /// Adds the answer to a query by the version that is held.
    pub(crate) fn query(&self, text: &mut String, start: Cell, goal: Cell) -> Result<(), AllocError>
        ensures { OnOk result (AddsAnswer self.now.version start goal (string_bytes text.old) (string_bytes text.new)) }
    {
        let prefix = self.held.prefix();
        write!(text, "version {prefix} ")?;
        push_answer(text, &self.held, start, goal)
    }
}
