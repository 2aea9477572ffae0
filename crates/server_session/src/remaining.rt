//! The rows that are left of an open result, in the form of its version.
ghost use Rattle.std.specs.Prelude.{◌≡◌, ◌+◌, ◌*◌, true, length, map, IfOk};
ghost use Rattle.packstream.specs.Tree.{list};
ghost use Rattle.packstream.specs.View.{trees_of};
ghost use Rattle.structures_cells.specs.Shape.{shape, shapes};
ghost use Rattle.structures.specs.Fitting.{fitted};
ghost use Rattle.engine.specs.RowCells.{cells_in};
ghost use Rattle.wire.specs.declared.Version.{Version as AnyVersion};

use engine::{Cells, Rows};
use std::alloc::{AllocError, Global};
use structures::{Cell, fit};
use wire::Version;

/// Rows of as many cells each, one behind the other. The cells before the first row are of rows that are gone, and go with the last.
#[derive(Drop)]
pub(crate) struct Remaining {
    pub cells: Cells,
    pub width: usize,
    pub start: usize,
    pub count: usize,
    ghost whole: { start + count * width ≡ length (cells_in cells) },
}

impl Remaining {
    ghost use Rattle.std.specs.Prelude.{◌≡◌, ◌<◌, ◌≤◌, ◌+◌, ◌∷◌, [], List, IfOk, drop};
    ghost use Rattle.packstream.specs.Tree.{Tree};
    ghost use Rattle.structures_cells.specs.Shape.{shapes};
    ghost use Rattle.engine.specs.Views.{rows_view};
    ghost use Rattle.server_session.specs.Session.{rows_fitted};
    ghost use Rattle.server_session.specs.Views.{remaining_rows};

    /// No rows.
    pub(crate) fn none(alloc: Global) -> Remaining
        ensures rows { remaining_rows result ≡ [] }
        ensures count { result.count ≡ 0 }
    {
        Remaining {
            cells: Cells::none(alloc),
            width: 0,
            start: 0,
            count: 0,
        }
    }

    /// All rows of an answer, in the form of a version: where their cells have one form in each, they stay where they are.
    #[tactic(auto, using(crate::proofs::Listed::rows_in_fitted))]
    pub(crate) fn fitted(
        alloc: Global,
        version: Version,
        rows: Rows,
    ) -> Result<Remaining, AllocError>
        ensures rows { IfOk result
            (λ left. remaining_rows left ≡ rows_fitted version (rows_view rows)) }
        ensures count { IfOk result (λ left. left.count ≡ rows.count) }
    {
        let Rows {
            cells,
            width,
            count,
        } = rows;
        if are_plain(&cells) {
            return Ok(Remaining {
                cells,
                width,
                start: 0,
                count,
            });
        }
        let cells = fit_cells(alloc, version, cells)?;
        Ok(Remaining {
            cells,
            width,
            start: 0,
            count,
        })
    }

    /// The first row.
    pub(crate) fn first(&self) -> &[Cell]
        requires { 0 < self.now.count }
        ensures { (row : List Tree) (rest : List (List Tree)) → remaining_rows self.now ≡ row ∷ rest
            → shapes result.now ≡ row }
    {
        &self.cells.as_slice()[self.start..self.start + self.width]
    }

    /// The first row is gone, if there is one.
    pub(crate) fn pass(&mut self)
        ensures rows { remaining_rows self.new ≡ drop 1 (remaining_rows self.old) }
        ensures fewer { 0 < self.old.count → self.new.count + 1 ≡ self.old.count }
        ensures few { self.new.count ≤ self.old.count }
    {
        if self.count > 0 {
            self.start += self.width;
            self.count -= 1;
        }
    }

    /// As many rows are gone from the front, if there are as many.
    pub(crate) fn drop_front(&mut self, count: usize)
        ensures rows { remaining_rows self.new ≡ drop count (remaining_rows self.old) }
        ensures few { self.new.count ≤ self.old.count }
    {
        for _gone in 0..count {
            self.pass();
        }
    }
}

/// Cells in the form of a version.
#[inline(never)]
fn fit_cells(alloc: Global, version: Version, cells: Cells) -> Result<Cells, AllocError>
    ensures shapes { IfOk result
        (λ r. shapes (cells_in r) ≡ map (fitted version) (shapes (cells_in cells))) }
    ensures len { IfOk result (λ r. length (cells_in r) ≡ length (cells_in cells)) }
{
    let list = cells.into_vec(alloc)?;
    Ok(Cells::Many(fit_list(alloc, version, list)?))
}

#[tactic(auto, using(crate::proofs::Listed::row_is))]
fn fit_list(alloc: Global, version: Version, cells: Vec<Cell>) -> Result<Vec<Cell>, AllocError>
    ensures { IfOk result (λ r. shapes r.items ≡ map (fitted version) (shapes cells.items)) }
{
    match fit(alloc, Cell::List(cells), version) {
        Ok(list) => cells_of(list),
        Err(_) => Err(AllocError),
    }
}

/// Whether each cell has one form in all versions, as one has that holds no other.
fn are_plain(cells: &Cells) -> bool
    ensures { result ≡ true
        → (v : AnyVersion) → map (fitted v) (shapes (cells_in cells.now)) ≡ shapes (cells_in cells.now) }
{
    match cells {
        Cells::One(cell) => is_plain(cell),
        Cells::Many(cells) => are_all_plain(cells),
    }
}

fn are_all_plain(cells: &[Cell]) -> bool
    ensures { result ≡ true → (v : AnyVersion) → map (fitted v) (shapes cells.now) ≡ shapes cells.now }
{
    for cell in cells {
        if !is_plain(cell) {
            return false;
        }
    }
    true
}

fn is_plain(cell: &Cell) -> bool
    ensures { result ≡ true → (v : AnyVersion) → fitted v (shape cell.now) ≡ shape cell.now }
{
    match cell {
        Cell::Null
        | Cell::Bool(_)
        | Cell::Int(_)
        | Cell::Float(_)
        | Cell::Bytes(_)
        | Cell::Text(_) => true,
        _ => false,
    }
}

/// The members of a list.
#[tactic(auto, using(crate::proofs::Listed::list_shapes))]
fn cells_of(cell: Cell) -> Result<Vec<Cell>, AllocError>
    ensures { IfOk result (λ row. list (trees_of (shapes row.items)) ≡ shape cell) }
{
    match cell {
        Cell::List(row) => Ok(row),
        _ => Err(AllocError),
    }
}
