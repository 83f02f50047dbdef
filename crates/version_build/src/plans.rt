//! Plans: what is to be built of a version, and what is taken over from a former one.

ghost use Rattle.std.specs.Prelude.{◌≡◌, ◌+◌};
ghost use Rattle.moves.specs.Maps.{passable_count};

use crate::bases::Bases;
use cell_order::OrderKind;
use components::Labels;
use moves::Grid;
use row_store::CompData;
use std::marker::Model;
use std::sync::Arc;

/// How many rows were built and how many were kept. Each passable cell has a row.
#[derive(Clone, Copy, Debug, PartialEq, Eq)]
pub struct BuildReport {
    /// The rows of the components that are new, at most 32,768.
    pub built: u32,
    /// The rows of the components that a former version has too, at most 32,768.
    pub kept: u32,
}

/// What a former version has of the components of a map.
#[derive(Drop)]
pub(crate) struct Prepared {
    pub(crate) kind: OrderKind,
    /// For each component the former version's, if that has one with the same cells in the same order.
    pub(crate) comps: Vec<Option<Arc<CompData>>>,
    pub(crate) report: BuildReport,
}

/// What is to be built of a version, and what is taken over from a former one.
#[derive(Drop)]
pub struct Plan {
    pub(crate) prefix: u32,
    pub(crate) grid: Grid,
    pub(crate) labels: Labels,
    pub(crate) prepared: Prepared,
    pub(crate) bases: Bases,
}

impl Model for Plan {
    ghost use Rattle.std.specs.Prelude.{map};
    ghost use Rattle.std.specs.Arc.{arc_value};
    ghost use Rattle.std.specs.Option.{option_map};
    ghost use Rattle.version_build.specs.Plans.{Planned, IsPlan};

    ghost Value = { Planned };

    ghost view = { λ p. record {
      map = p.grid;
      prefix = p.prefix;
      order = p.prepared.kind;
      built = p.prepared.report.built;
      kept = p.prepared.report.kept;
    } };

    ghost invariant = { λ p. IsPlan p.grid p.prepared.kind p.labels (map (option_map arc_value) p.prepared.comps.items)
        p.prepared.report.built p.prepared.report.kept };
}

impl Plan {
    /// How many rows are to be built: the number of cells in components that are not kept.
    pub fn rows(&self) -> u32
        ensures rows { result ≡ self.now.built }
        ensures sum { self.now.built + self.now.kept ≡ passable_count self.now.map }
    {
        self.prepared.report.built
    }
}
