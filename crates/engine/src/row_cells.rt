//! The cells of an answer's rows.
ghost use Rattle.std.specs.Prelude.{◌≡◌, [], length, IfOk, OnErr};
ghost use Rattle.engine.specs.RowCells.{cells_in};

use std::alloc::{AllocError, Global};
use std::slice;
use structures::Cell;

/// The cells of an answer's rows, one behind the other. A cell that is alone takes no memory beside the answer.
#[derive(Debug, Drop)]
pub enum Cells {
    One(Cell),
    Many(Vec<Cell>),
}

impl Cells {
    /// No cells. Takes no memory.
    pub fn none(alloc: Global) -> Cells
        ensures { cells_in result ≡ [] }
    {
        Cells::Many(Vec::new(alloc))
    }

    /// Lends the cells, in order.
    pub fn as_slice(&self) -> &[Cell]
        ensures { result.now ≡ cells_in self.now }
    {
        match self {
            Cells::One(cell) => slice::from_ref(cell),
            Cells::Many(cells) => cells.as_slice(),
        }
    }

    /// The cells as a list. An `Err` is want of memory, which only a cell that is alone takes.
    pub fn into_vec(self, alloc: Global) -> Result<Vec<Cell>, AllocError>
        ensures cells { IfOk result (λ v. v.items ≡ cells_in self) }
        ensures memory { OnErr result (length (cells_in self) ≡ 1) }
    {
        match self {
            Cells::One(cell) => {
                let mut cells = Vec::with_capacity(alloc, 1)?;
                cells.push(cell)?;
                Ok(cells)
            }
            Cells::Many(cells) => Ok(cells),
        }
    }
}
