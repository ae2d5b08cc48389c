// Where a cell may stand.
ghost use Rattle.std.specs.Prelude.{◌≡◌, ◌+◌, ◌*◌, ◌<◌, Some, None, MatchResult};
ghost use Rattle.refusal.specs.declared.Refusal.TheVariants.{Place as NoPlace, Cell as CellRule};
ghost use Rattle.array.specs.Cells.{below, terms_of};
ghost use Rattle.array.specs.Shapes.{unless};
ghost use Rattle.history.specs.Refusals.{inside};

use array::{Cell, Shape, is_below};
use refusal::Refusal;

// Judges a cell at a place of the array, and says where it stands in the buffer of cells.
pub fn locate(
    shape: &Shape,
    order: u16,
    row: usize,
    column: usize,
    cell: &Cell,
) -> Result<usize, Refusal>
    ensures { let s = shape.now in
        let answer = unless (inside s.rows s.columns row column) NoPlace
        (unless (below order (terms_of cell.now.row)) CellRule None) in
        MatchResult result
        (λ k. (answer ≡ None) × (k ≡ row * s.columns + column) × (k < 512))
        (λ x. answer ≡ Some x) }
{
    let place = shape.place_of(row, column).ok_or(Refusal::Place)?;
    if !is_below(cell.terms(), order) {
        return Err(Refusal::Cell);
    }
    Ok(place)
}
