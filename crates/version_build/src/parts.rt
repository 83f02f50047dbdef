//! The parts of a version that is built row by row: one for each component of its map.

ghost use Rattle.std.specs.Prelude.{◌≡◌, ℕ, ◌*◌, ◌<◌, ◌≤◌, ◌↔◌, [], map, length, sum_by, All, Some, None};
ghost use Rattle.std.specs.Prelude.{IfOk, IfSome, IfNone, OnOk, OnErr, IsTrue};
ghost use Rattle.std.specs.Arc.{arc_value};
ghost use Rattle.std.specs.Option.{option_map};
ghost use Rattle.moves.specs.Maps.{IsSearchable};
ghost use Rattle.row_store.specs.Comps.{IsComp};
ghost use Rattle.build_pool.specs.Places.{AreComponent, CanBeBuilt};
ghost use Rattle.build_pool.specs.Pieces.{AreSome, AreWordsOver};
ghost use Rattle.version_build.specs.Plans.{CanAllBeBuilt};
ghost use Rattle.version_build.specs.Builders.{AreBegun, PushesRow, comp_of, part_at, part_from, rows_left};

use crate::bases::{Base, Bases};
use build_pool::PlainSearch;
use cell_order::{OrderKind, order_of};
use components::Labels;
use moves::{Cell, Grid, MAX_PASSABLE};
use row_store::{CompData, RowPool};
use std::alloc::{AllocError, Global};
use std::marker::Model;
use std::sync::Arc;

/// One component: the former version's, or its cells in their order and the rows that are built so far.
#[derive(Drop)]
pub(crate) struct Part {
    /// The former version's component, where it is kept.
    kept: Option<Arc<CompData>>,
    /// The cells in their order; none where the component is kept.
    cells: Vec<Cell>,
    /// The rows of the first of these cells.
    rows: RowPool,
    /// Rows of the cells that are known before they are built. Those that are not known are blank.
    known: Option<RowPool>,
}

impl Model for Part {
    ghost use Rattle.std.specs.Prelude.{IfSome};
    ghost use Rattle.std.specs.Arc.{arc_value};
    ghost use Rattle.std.specs.Option.{option_map};
    ghost use Rattle.build_pool.specs.Pieces.{AreSome};
    ghost use Rattle.version_build.specs.Builders.{Parted};

    ghost Value = { Parted };

    ghost view = { λ p. record { kept = option_map arc_value p.kept; cells = p.cells.items; rows = p.rows } };

    ghost invariant = { λ p. IfSome p.known (AreSome p.cells.items) };
}

impl Part {
    /// The component before any of its rows is built, which came of a former one.
    fn of(
        alloc: Global,
        kind: OrderKind,
        cells: &[Cell],
        kept: Option<Arc<CompData>>,
        base: Base,
    ) -> Result<Part, AllocError>
        requires { CanBeBuilt cells.now }
        ensures { IfOk result (λ part. part ≡ part_from kind cells.now (option_map arc_value kept)) }
    {
        match kept {
            Some(comp) => Ok(Part::kept(alloc, comp)),
            None => Part::open(alloc, kind, cells, base),
        }
    }

    /// A component that is kept.
    fn kept(alloc: Global, comp: Arc<CompData>) -> Part
        ensures { result ≡ record { kept = Some (arc_value comp); cells = []; rows = [] } }
    {
        Part {
            kept: Some(comp),
            cells: Vec::new(alloc),
            rows: RowPool::new(alloc),
            known: None,
        }
    }

    /// A component whose rows are to be built.
    fn open(alloc: Global, kind: OrderKind, cells: &[Cell], base: Base) -> Result<Part, AllocError>
        requires { CanBeBuilt cells.now }
        ensures { IfOk result (λ part. part ≡ part_from kind cells.now None) }
    {
        let order = order_of(alloc, kind, cells)?;
        let known = base.rows(alloc, &order)?;
        Ok(Part {
            kept: None,
            cells: order,
            rows: RowPool::new(alloc),
            known,
        })
    }

    /// Whether all rows are built.
    pub(crate) fn is_done(&self) -> bool
        ensures { IsTrue result ↔ (rows_left self.now ≡ 0) }
    {
        self.rows.len() >= self.cells.len()
    }

    /// Takes over the row of the next cell where it is known, and else builds it.
    pub(crate) fn push_row(
        &mut self,
        grid: &Grid,
        plain: &mut PlainSearch,
    ) -> Result<(), AllocError>
        requires component { AreComponent grid.now self.old.cells }
        requires searchable { IsSearchable grid.now }
        requires few { length self.old.cells ≤ MAX_PASSABLE }
        requires left { length self.old.rows < length self.old.cells }
        requires room { grid.now.width * grid.now.height ≤ plain.old.room }
        ensures ok { OnOk result (PushesRow grid.now self.old self.new) }
        ensures refused { OnErr result (self.new ≡ self.old) }
        ensures room { plain.new.room ≡ plain.old.room }
    {
        let place = self.rows.len();
        if let Some(words) = known_words(&self.known, &self.cells, place) {
            self.rows.push_words(words)?;
            self.shrink_if_done();
            return Ok(());
        }
        plain.find(grid, &self.cells, place)?;
        self.rows.push_sets(plain.sets())?;
        self.shrink_if_done();
        Ok(())
    }

    /// Gives back memory that is not needed once all rows are built.
    fn shrink_if_done(&mut self)
        ensures { self.new ≡ self.old }
    {
        if self.rows.len() == self.cells.len() {
            self.rows.shrink();
            self.known = None;
        }
    }

    /// The component with its rows, all of which are built.
    fn into_comp(self, alloc: Global, kind: OrderKind) -> Result<Arc<CompData>, AllocError>
        requires { IfNone self.kept (IsComp (comp_of kind self)) }
        ensures { IfOk result (λ comp. arc_value comp ≡ comp_of kind self) }
    {
        let Part {
            kept,
            cells,
            rows,
            ..
        } = self;
        match kept {
            Some(comp) => Ok(comp),
            None => {
                let comp = CompData::of_pool(alloc, kind, cells, rows)?;
                Ok(Arc::new(alloc, comp)?)
            }
        }
    }
}

/// The components of a map before any row is built.
pub(crate) fn parts_of(
    alloc: Global,
    kind: OrderKind,
    labels: &Labels,
    comps: Vec<Option<Arc<CompData>>>,
    bases: &Bases,
) -> Result<Vec<Part>, AllocError>
    requires long { length comps.items ≡ length labels.now }
    requires cells { CanAllBeBuilt labels.now }
    ensures { IfOk result (λ parts.
        AreBegun kind labels.now (map (option_map arc_value) comps.items) parts.items) }
{
    let mut parts = Vec::with_capacity(alloc, labels.count() as usize)?;
    for kept in comps {
        let label = parts.len();
        let cells = labels.cells(label as u32);
        parts.push(Part::of(alloc, kind, cells, kept, bases.base(label))?)?;
    }
    Ok(parts)
}

/// The components with their rows, all of which are built.
pub(crate) fn comps_of(
    alloc: Global,
    kind: OrderKind,
    parts: Vec<Part>,
) -> Result<Vec<Arc<CompData>>, AllocError>
    requires { All (λ part. IfNone part.kept (IsComp (comp_of kind part))) parts.items }
    ensures { IfOk result (λ comps. map arc_value comps.items ≡ map (comp_of kind) parts.items) }
{
    let mut comps = Vec::with_capacity(alloc, parts.len())?;
    for part in parts {
        comps.push(part.into_comp(alloc, kind)?)?;
    }
    Ok(comps)
}

/// The number of the first component, from a number on, that has a row that is not built.
pub(crate) fn first_open(parts: &[Part], from: usize) -> usize
    requires done { (label : ℕ) → label < from → rows_left (part_at parts.now label) ≡ 0 }
    requires left { 0 < sum_by rows_left parts.now }
    ensures below { result < length parts.now }
    ensures left { 0 < rows_left (part_at parts.now result) }
    ensures done { (label : ℕ) → label < result → rows_left (part_at parts.now label) ≡ 0 }
{
    for label in from..parts.len() {
        if !parts[label].is_done() {
            return label;
        }
    }
    parts.len()
}

/// The words of the row of the cell at a place, where it is known.
fn known_words<'a>(known: &'a Option<RowPool>, cells: &[Cell], place: usize) -> Option<&'a [u32]>
    requires { IfSome known.now (AreSome cells.now) }
    ensures { IfSome result (λ words. AreWordsOver cells.now place words.now) }
{
    // The cells are here for the contract alone.
    let _ = cells;
    let Some(rows) = known else {
        return None;
    };
    if place >= rows.len() {
        return None;
    }
    let words = rows.row(place);
    if words.is_empty() { None } else { Some(words) }
}
