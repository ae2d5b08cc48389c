// What one drawing gives at one circulant size.

#![tactic(auto)]

ghost use Rattle.std.specs.Prelude.{◌≡◌, ℕ, ◌*◌, ◌<◌, ◌≤◌, length, Some, None, MatchResult, slice_index};
ghost use Rattle.survey.specs.Surveys.{survey_refusal, Surveyed};

use array::{CellRow, Shape};
use blocks::build_forms;
use coder::{deficient, dimension};
use field::{Field, Symbol};
use refusal::Refusal;

// A code of the drawing: the symbols of a word, those of a message, and how many of the check blocks lack full rank.
#[derive(Clone, Copy)]
pub struct Survey {
    pub length: usize,
    pub dimension: usize,
    pub deficient: usize,
}

// Surveys the array of rows x columns cells at a size. The echelon forms of that size are left in `blocks`.
// Refuses with Size, Shape, then Buffer where there are fewer than 512 cells or 16,384 block symbols; `blocks` is then as it was.
pub fn survey_size<F: Field>(
    f: &F,
    size: usize,
    rows: usize,
    columns: usize,
    cells: &[CellRow],
    blocks: &mut [Symbol],
) -> Result<Survey, Refusal>
    ensures { let m = F.Field.meaning f.now in
        let was = blocks.old in
        let new = blocks.new in
        let answer = survey_refusal m.q size rows columns (length cells.now) (length was) in
        MatchResult result
        (λ s. (answer ≡ None) × Surveyed m size rows columns cells.now new s.length s.dimension s.deficient
        × ((i : ℕ) → rows * columns * size ≤ i → slice_index new i ≡ slice_index was i))
        (λ x. (answer ≡ Some x) × (new ≡ was)) }
{
    let shape = Shape::new(f.order(), size, rows, columns)?;
    build_forms(f, &shape, cells, blocks)?;
    Ok(Survey {
        length: columns * size,
        dimension: dimension(&shape, blocks)?,
        deficient: deficient(&shape, blocks)?,
    })
}
