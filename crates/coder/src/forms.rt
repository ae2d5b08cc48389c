// The echelon forms in a block buffer. On altered contents, too, each function has one answer.
ghost use Rattle.std.specs.Prelude.{◌≡◌, ℕ, ◌<◌, ◌≤◌, ◌&&◌, length, MatchResult, nat_lt};
ghost use Rattle.algebra.specs.Matrices.{count};
ghost use Rattle.blocks.specs.Blocks.{block_at};
ghost use Rattle.refusal.specs.declared.Refusal.TheVariants.{Buffer};
ghost use Rattle.coder.specs.Forms.{row_major, frees, rank_at, dimension as dimension_of, deficient as deficient_of};

use super::matrices::Matrix;
use array::{BLOCK_SYMBOLS, Shape};
use blocks::block_start;
use field::Symbol;
use refusal::Refusal;

// The echelon forms of all check blocks of an array. That a frequency is one of theirs is asked of each call, as of a matrix.
#[derive(Clone, Copy)]
pub(crate) struct Forms<'a> {
    shape: Shape,
    symbols: &'a [Symbol],
    ghost room: { 16384 ≤ length symbols.now },
}

impl<'a> Forms<'a> {
    // Refuses with Buffer where there are fewer than 16,384 symbols.
    pub(crate) fn new(shape: &Shape, symbols: &'a [Symbol]) -> Result<Self, Refusal>
        ensures { MatchResult result
            (λ forms. (forms.shape ≡ shape.now) × (forms.symbols.now ≡ symbols.now) × (16384 ≤ length symbols.now))
            (λ x. (length symbols.now < 16384) × (x ≡ Buffer)) }
    {
        if symbols.len() < BLOCK_SYMBOLS {
            return Err(Refusal::Buffer);
        }
        Ok(Forms {
            shape: *shape,
            symbols,
        })
    }

    pub(crate) fn shape(&self) -> Shape
        ensures { result ≡ self.now.shape }
    {
        self.shape
    }

    // The form at frequency t.
    pub(crate) fn block(&self, t: usize) -> Matrix<'a>
        requires { t < self.now.shape.size }
        ensures sized { (result.rows ≡ self.now.shape.rows) × (result.columns ≡ self.now.shape.columns) }
        ensures entries { let s = self.now.shape in
            ((i j : ℕ) → i < s.rows → j < s.columns →
            row_major s.columns result.symbols.now i j ≡ block_at s.rows s.columns self.now.symbols.now t i j) }
    {
        let rows = self.shape.rows();
        let columns = self.shape.columns();
        let start = block_start(&self.shape, t);
        Matrix::new(&self.symbols[start..start + rows * columns], rows, columns)
    }

    // The number of free columns at frequency t.
    #[tactic(auto, using(crate::proofs::Alike::form_count))]
    pub(crate) fn count_free(&self, t: usize) -> usize
        requires { t < self.now.shape.size }
        ensures is { let s = self.now.shape in
            result ≡ count s.columns (frees s.rows s.columns self.now.symbols.now t) }
        ensures few { result ≤ self.now.shape.columns }
    {
        self.block(t).count_free()
    }

    // Does the block at frequency t lack full rank?
    fn is_deficient(&self, t: usize) -> bool
        requires { t < self.now.shape.size }
        ensures { let s = self.now.shape in
            let rank = rank_at s.rows s.columns self.now.symbols.now t in
            result ≡ (nat_lt rank s.rows && nat_lt rank s.columns) }
    {
        let rows = self.shape.rows();
        let columns = self.shape.columns();
        let rank = columns - self.count_free(t);
        rank < rows && rank < columns
    }

    // The number of free columns of all blocks together.
    pub(crate) fn dimension(&self) -> usize
        ensures { let s = self.now.shape in
            result ≡ dimension_of s.rows s.columns s.size self.now.symbols.now }
    {
        (0..self.shape.size()).map(|t| self.count_free(t)).sum()
    }

    // How many of the blocks lack full rank.
    fn deficient(&self) -> usize
        ensures { let s = self.now.shape in
            result ≡ deficient_of s.rows s.columns s.size self.now.symbols.now }
    {
        (0..self.shape.size())
            .filter(|t| self.is_deficient(*t))
            .count()
    }
}

// How many of the blocks lack full rank. Refuses with Buffer where there are fewer than 16,384 symbols.
pub fn deficient(shape: &Shape, blocks: &[Symbol]) -> Result<usize, Refusal>
    ensures { let s = shape.now in
        MatchResult result
        (λ n. (16384 ≤ length blocks.now) × (n ≡ deficient_of s.rows s.columns s.size blocks.now))
        (λ x. (length blocks.now < 16384) × (x ≡ Buffer)) }
{
    Ok(Forms::new(shape, blocks)?.deficient())
}
