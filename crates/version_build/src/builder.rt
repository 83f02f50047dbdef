//! Builds a version one row at a time, so that other work can be done between two rows.

ghost use Rattle.std.specs.Prelude.{◌≡◌, ◌+◌, ◌<◌, IfOk, OnOk, OnErr};
ghost use Rattle.versions.specs.Databases.{IsVersion};

use crate::parts::{Part, comps_of, first_open, parts_of};
use crate::plans::{BuildReport, Plan};
use build_pool::PlainSearch;
use cell_order::OrderKind;
use components::Labels;
use moves::Grid;
use std::alloc::{AllocError, Global};
use std::marker::Model;
use versions::Version;

/// A version that is built one row at a time, in the order of the components and of their cells.
#[derive(Drop)]
pub struct Builder {
    alloc: Global,
    prefix: u32,
    grid: Grid,
    kind: OrderKind,
    labels: Labels,
    report: BuildReport,
    parts: Vec<Part>,
    /// All components before this one have their rows.
    at: usize,
    /// How many rows are not yet built.
    left: u32,
    /// What finds the rows that are not known.
    plain: PlainSearch,
}

impl Model for Builder {
    ghost use Rattle.std.specs.Prelude.{◌*◌, ◌≤◌};
    ghost use Rattle.version_build.specs.Builders.{Building, IsUnderWay};

    ghost Value = { Building };

    ghost view = { λ b. record {
      plan = record { map = b.grid; prefix = b.prefix; order = b.kind; built = b.report.built; kept = b.report.kept };
      left = b.left;
    } };

    ghost invariant = { λ b. IsUnderWay b.grid b.kind b.labels b.parts.items b.at b.left
        × (b.grid.width * b.grid.height ≤ b.plain.room) };
}

impl Builder {
    /// Takes the memory for the searches, orders the cells whose rows are to be built, and finds those rows that stay
    /// as they were in a former version.
    ///
    /// # Errors
    ///
    /// `AllocError` where memory runs out. The plan is dropped then.
    pub fn begin(alloc: Global, plan: Plan) -> Result<Builder, AllocError>
        ensures plan { IfOk result (λ builder. builder.plan ≡ plan) }
        ensures left { IfOk result (λ builder. builder.left ≡ plan.built) }
    {
        let Plan {
            prefix,
            grid,
            labels,
            prepared,
            bases,
        } = plan;
        let (kind, report) = (prepared.kind, prepared.report);
        // That the map lies inside the limits is known from its width.
        let _ = grid.width();
        let plain = PlainSearch::over(alloc, &grid, report.built as usize)?;
        let parts = parts_of(alloc, kind, &labels, prepared.comps, &bases)?;
        Ok(Builder {
            alloc,
            prefix,
            grid,
            kind,
            labels,
            report,
            parts,
            at: 0,
            left: report.built,
            plain,
        })
    }

    /// How many rows are not yet built, at most 32,768.
    pub fn left(&self) -> u32
        ensures { result ≡ self.now.left }
    {
        self.left
    }

    /// Builds the next row.
    ///
    /// # Errors
    ///
    /// `AllocError` where memory runs out. The builder is as before then.
    pub fn row(&mut self) -> Result<(), AllocError>
        requires { 0 < self.old.left }
        ensures plan { self.new.plan ≡ self.old.plan }
        ensures ok { OnOk result (self.new.left + 1 ≡ self.old.left) }
        ensures refused { OnErr result (self.new ≡ self.old) }
    {
        self.at = first_open(&self.parts, self.at);
        self.parts[self.at].push_row(&self.grid, &mut self.plain)?;
        self.left -= 1;
        Ok(())
    }

    /// The version, all of whose rows are built, and how many were built and kept.
    ///
    /// # Errors
    ///
    /// `AllocError` where memory runs out. The builder is dropped then.
    pub fn finish(self) -> Result<(Version, BuildReport), AllocError>
        requires { self.left ≡ 0 }
        ensures map { IfOk result (λ done. done.0.map ≡ self.plan.map) }
        ensures prefix { IfOk result (λ done. done.0.prefix ≡ self.plan.prefix) }
        ensures order { IfOk result (λ done. done.0.order ≡ self.plan.order) }
        ensures version { IfOk result (λ done. IsVersion done.0) }
        ensures built { IfOk result (λ done. done.1.built ≡ self.plan.built) }
        ensures kept { IfOk result (λ done. done.1.kept ≡ self.plan.kept) }
    {
        let Builder {
            alloc,
            prefix,
            grid,
            kind,
            labels,
            report,
            parts,
            ..
        } = self;
        let comps = comps_of(alloc, kind, parts)?;
        let version = Version::assemble_labelled(prefix, grid, kind, labels, comps);
        Ok((version, report))
    }
}
