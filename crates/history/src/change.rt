// The changes that undo and redo make, read from records of any content.
ghost use Rattle.std.specs.Prelude.{◌≡◌, true, false, ◌≤◌, length, MatchResult};
ghost use Rattle.refusal.specs.declared.Refusal.TheVariants.{Record as RecordRule};
ghost use Rattle.history.specs.Edits.{Decodes, edit_of, edit_fits, cells_with, size_with};

use super::plain::ChangeRecord;
use super::rules::locate;
use array::{Cell, CellRow, Shape};
use refusal::Refusal;

// What a change does: it puts a cell at a place of the array, or takes another circulant size.
#[derive(Clone, Copy, PartialEq, Eq, Debug)]
pub enum Kind {
    Place = 1,
    Resize = 2,
}

impl TryFrom<u8> for Kind {
    type Error = Refusal;

    ghost try_from_gives = { Decodes };

    fn try_from(number: u8) -> Result<Self, Refusal> {
        match number {
            1 => Ok(Kind::Place),
            2 => Ok(Kind::Resize),
            _ => Err(Refusal::Record),
        }
    }
}

// A change with the row that it puts in, or the size that it takes.
#[derive(Clone, Copy)]
pub enum Edit {
    Place {
        row: usize,
        column: usize,
        cell: CellRow,
    },
    Resize {
        size: usize,
    },
}

impl Edit {
    // What undoes the change of a record. Refuses with Record where its kind is not 1 or 2.
    pub fn undoing(change: &ChangeRecord) -> Result<Self, Refusal>
        ensures { result ≡ edit_of change.now change.now.cell_before change.now.size_before }
    {
        Edit::of(change, change.cell_before, change.size_before)
    }

    // What redoes the change of a record. Refuses with Record where its kind is not 1 or 2.
    pub fn redoing(change: &ChangeRecord) -> Result<Self, Refusal>
        ensures { result ≡ edit_of change.now change.now.cell_after change.now.size_after }
    {
        Edit::of(change, change.cell_after, change.size_after)
    }

    fn of(change: &ChangeRecord, cell: CellRow, size: u16) -> Result<Self, Refusal>
        ensures { result ≡ edit_of change.now cell size }
    {
        Ok(match Kind::try_from(change.kind)? {
            Kind::Place => Edit::Place {
                row: change.row as usize,
                column: change.column as usize,
                cell,
            },
            Kind::Resize => Edit::Resize {
                size: size as usize,
            },
        })
    }

    // Makes the change to an array in its buffer: gives the shape then.
    // Refuses with Record where it does not fit; the cells are then as they were.
    pub fn apply(self, shape: Shape, order: u16, cells: &mut [CellRow]) -> Result<Shape, Refusal>
        requires { 512 ≤ length cells.old }
        ensures { let was = cells.old in
            let fits = edit_fits order shape.rows shape.columns self in
            MatchResult result
            (λ s. (fits ≡ true) × (s.size ≡ size_with self shape.size) × (s.rows ≡ shape.rows) × (s.columns ≡ shape.columns)
            × (cells.new ≡ cells_with self shape.columns was))
            (λ x. (fits ≡ false) × (x ≡ RecordRule) × (cells.new ≡ was)) }
    {
        match self {
            Edit::Place { row, column, cell } => {
                let cell = Cell::from(cell);
                let k = locate(&shape, order, row, column, &cell).map_err(|_| Refusal::Record)?;
                cells[k] = cell.row();
                Ok(shape)
            }
            Edit::Resize { size } => {
                Shape::new(order, size, shape.rows(), shape.columns()).map_err(|_| Refusal::Record)
            }
        }
    }
}
