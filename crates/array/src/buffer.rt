// An array in a buffer of cells that the caller lends: at least 512 rows, of which rows x columns are used.
ghost use Rattle.std.specs.Prelude.{◌≡◌, ◌+◌, ◌*◌, ◌<◌, length, take, Some, None, MatchResult, slice_set};
ghost use Rattle.array.specs.Buffers.{place_refusal, show_refusal, cell_at};
ghost use Rattle.array.specs.Cells.{normal};

use super::cell::Cell;
use super::plain::CellRow;
use super::rules::is_below;
use super::shape::{CELLS, Shape};
use refusal::Refusal;

// Judges a place of the array in a buffer of `cells` rows, and says where it stands there.
fn locate(shape: &Shape, cells: usize, row: usize, column: usize) -> Result<usize, Refusal>
    ensures { let s = shape.now in
        let answer = show_refusal s.rows s.columns cells row column in
        MatchResult result
        (λ k. (answer ≡ None) × (k ≡ row * s.columns + column) × (k < cells))
        (λ x. answer ≡ Some x) }
{
    if cells < CELLS {
        return Err(Refusal::Buffer);
    }
    shape.place_of(row, column).ok_or(Refusal::Place)
}

// Puts a cell at a place of the array, for a field of `order` symbols.
// Refuses with Buffer, Place, then Cell where a coefficient is `order` or more; the buffer is then as it was.
pub fn place(
    shape: &Shape,
    order: u16,
    cells: &mut [CellRow],
    row: usize,
    column: usize,
    cell: &Cell,
) -> Result<(), Refusal>
    ensures { let s = shape.now in
        let was = cells.old in
        let new = cell.now.row in
        let answer = place_refusal order s.rows s.columns (length was) row column (take new.count new.terms) in
        MatchResult result
        (λ _. (answer ≡ None) × (cells.new ≡ slice_set was (row * s.columns + column) new))
        (λ x. (answer ≡ Some x) × (cells.new ≡ was)) }
{
    let k = locate(shape, cells.len(), row, column)?;
    if !is_below(cell.terms(), order) {
        return Err(Refusal::Cell);
    }
    cells[k] = cell.row();
    Ok(())
}

// Fills the caller's cell with the one at a place of the array.
// Refuses with Buffer, then Place; the cell is then as it was.
pub fn show(
    shape: &Shape,
    cells: &[CellRow],
    row: usize,
    column: usize,
    cell: &mut Cell,
) -> Result<(), Refusal>
    ensures { let s = shape.now in
        let held = cells.now in
        let answer = show_refusal s.rows s.columns (length held) row column in
        MatchResult result
        (λ _. (answer ≡ None) × (cell.new.row ≡ normal (cell_at s.columns held row column)))
        (λ x. (answer ≡ Some x) × (cell.new.row ≡ cell.old.row)) }
{
    let k = locate(shape, cells.len(), row, column)?;
    *cell = Cell::from(cells[k]);
    Ok(())
}
