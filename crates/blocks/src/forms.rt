// The echelon forms of the check blocks, in a buffer that the caller lends.
ghost use Rattle.std.specs.Prelude.{◌≡◌, ℕ, ◌+◌, ◌*◌, ◌<◌, ◌≤◌, length, MatchResult, slice_index};
ghost use Rattle.refusal.specs.declared.Refusal.TheVariants.{Buffer};
ghost use Rattle.algebra.specs.Matrices.{Reduced};
ghost use Rattle.blocks.specs.Blocks.{block_at, Holds};

use super::build::{BlockBuffer, block_start, places};
use array::{BLOCK_SYMBOLS, CELLS, CellRow, Shape};
use field::{Field, Symbol};
use reduction::reduce;
use refusal::Refusal;

impl BlockBuffer<'_> {
    ghost use Rattle.blocks.specs.Buffers.{IsSameBuffer};

    // Reduces the block at frequency `t`; the other blocks, and what lies past them, stay.
    fn reduce_block<F: Field>(&mut self, f: &F, t: usize)
        requires frequency { t < self.old.shape.size }
        requires symbols { let s = self.old.shape in
            ((k : ℕ) → k < s.rows * s.columns →
            slice_index self.old.symbols.now (t * (s.rows * s.columns) + k) < (F.Field.meaning f.now).q) }
        ensures same { IsSameBuffer self.old self.new }
        ensures reduced { let s = self.old.shape in
            ((rank : ℕ) × Reduced (F.Field.meaning f.now) s.rows s.columns
            (block_at s.rows s.columns self.old.symbols.now t) (block_at s.rows s.columns self.new.symbols.now t) rank) }
        ensures before { let s = self.old.shape in
            ((k : ℕ) → k < t * (s.rows * s.columns) →
            slice_index self.new.symbols.now k ≡ slice_index self.old.symbols.now k) }
        ensures past { let s = self.old.shape in
            ((k : ℕ) → (t + 1) * (s.rows * s.columns) ≤ k →
            slice_index self.new.symbols.now k ≡ slice_index self.old.symbols.now k) }
    {
        let start = block_start(&self.shape, t);
        let end = start + places(&self.shape);
        let rows = self.shape.rows();
        let columns = self.shape.columns();
        // The rank is not needed here.
        let _ = reduce(f, &mut self.symbols[start..end], rows, columns);
    }

    // The echelon forms of the array's check blocks; what lies past them in the buffer stays.
    fn fill<F: Field>(&mut self, f: &F, cells: &[CellRow])
        requires cells { 512 ≤ length cells.now }
        ensures same { IsSameBuffer self.old self.new }
        ensures held { let s = self.old.shape in
            Holds (F.Field.meaning f.now) s.size s.rows s.columns cells.now self.new.symbols.now }
        ensures past { let s = self.old.shape in
            ((i : ℕ) → s.rows * s.columns * s.size ≤ i → slice_index self.new.symbols.now i ≡ slice_index self.old.symbols.now i) }
    {
        self.build_checks(f, cells);
        // By number: a loop over the blocks, as parts of the buffer that are written, gets no proof.
        for t in 0..self.shape.size() {
            self.reduce_block(f, t);
        }
    }
}

// Fills the block buffer with the echelon forms of the array in the cell buffer. What lies past them in the buffer stays.
// Refuses with Buffer, and writes nothing, where there are fewer than 512 cells or 16,384 symbols.
pub fn build_forms<F: Field>(
    f: &F,
    shape: &Shape,
    cells: &[CellRow],
    blocks: &mut [Symbol],
) -> Result<(), Refusal>
    ensures { let s = shape.now in
        let was = blocks.old in
        let new = blocks.new in
        MatchResult result
        (λ _. (512 ≤ length cells.now) × (16384 ≤ length was)
        × Holds (F.Field.meaning f.now) s.size s.rows s.columns cells.now new
        × ((i : ℕ) → s.rows * s.columns * s.size ≤ i → slice_index new i ≡ slice_index was i))
        (λ x. (x ≡ Buffer) × (512 ≤ length cells.now → length was < 16384) × (new ≡ was)) }
{
    if cells.len() < CELLS || blocks.len() < BLOCK_SYMBOLS {
        return Err(Refusal::Buffer);
    }
    let mut buffer = BlockBuffer {
        shape: *shape,
        symbols: blocks,
    };
    buffer.fill(f, cells);
    Ok(())
}
