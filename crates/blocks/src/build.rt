// Building of the check blocks in a buffer that the caller lends.
// Each block has a place for each cell of the array; place k of the block at frequency t stands at t * places + k.
ghost use Rattle.std.specs.Prelude.{◌≡◌, ℕ, ◌+◌, ◌-◌, ◌*◌, ◌%◌, ◌<◌, ◌≤◌, length, slice_index};
ghost use Rattle.field.specs.Meaning.{power};
ghost use Rattle.algebra.specs.Transforms.{root as root_of};
ghost use Rattle.blocks.specs.Blocks.{terms_at, AddedAt, Built};

use super::powers::{power_of, root};
use array::{Cell, CellRow, Shape, Term};
use field::{Field, Symbol};

// How many places a block has.
pub(crate) fn places(shape: &Shape) -> usize
    ensures is { result ≡ shape.now.rows * shape.now.columns }
    ensures few { result ≤ 512 }
{
    shape.rows() * shape.columns()
}

// Where place `k` of the block at frequency `t` stands, with the rest of the block after it.
fn entry_place(shape: &Shape, t: usize, k: usize) -> usize
    requires frequency { t < shape.now.size }
    requires place { k < shape.now.rows * shape.now.columns }
    ensures is { result ≡ t * (shape.now.rows * shape.now.columns) + k }
    ensures within { result + (shape.now.rows * shape.now.columns - k) ≤ 16384 }
{
    t * places(shape) + k
}

// Where the block at frequency `t` starts in the buffer. Where there is no such frequency the answer is 0 and no `None`, since
// the function cannot fail.
pub fn block_start(shape: &Shape, t: usize) -> usize
    ensures inside { let s = shape.now in
        (t < s.size → (result ≡ t * (s.rows * s.columns)) × (result + s.rows * s.columns ≤ 16384)) }
    ensures outside { shape.now.size ≤ t → result ≡ 0 }
{
    if t < shape.size() {
        entry_place(shape, t, 0)
    } else {
        0
    }
}

// The check blocks of an array, one after the other in the caller's buffer.
#[derive(Drop)]
pub(crate) struct BlockBuffer<'a> {
    pub(crate) shape: Shape,
    pub(crate) symbols: &'a mut [Symbol],
    ghost room: { 16384 ≤ length symbols.now },
}

impl BlockBuffer<'_> {
    ghost use Rattle.blocks.specs.Buffers.{IsSameBuffer};

    // Adds one term to place `k` of every block.
    fn add_term<F: Field>(&mut self, f: &F, alpha: Symbol, k: usize, term: Term)
        requires root { alpha ≡ root_of (F.Field.meaning f.now) self.old.shape.size }
        requires place { k < self.old.shape.rows * self.old.shape.columns }
        ensures same { IsSameBuffer self.old self.new }
        ensures added { let m = F.Field.meaning f.now in
            let s = self.old.shape in
            AddedAt m (s.rows * s.columns) s.size k
            (λ t. m.product term.coefficient (power m (root_of m s.size) ((term.shift % s.size) * t)))
            self.old.symbols.now self.new.symbols.now }
    {
        let shape = self.shape;
        let symbols = &mut *self.symbols;
        let step = power_of(f, alpha, term.shift as usize % shape.size());
        let mut p = f.product(term.coefficient, 1);
        // By index: a loop over the blocks, as parts of the buffer that are written, gets no proof.
        for t in 0..shape.size() {
            let at = entry_place(&shape, t, k);
            symbols[at] = f.sum(symbols[at], p);
            p = f.product(p, step);
        }
    }

    // Adds all terms of a cell to place `k` of every block.
    fn add_cell<F: Field>(&mut self, f: &F, alpha: Symbol, k: usize, terms: &[Term])
        requires root { alpha ≡ root_of (F.Field.meaning f.now) self.old.shape.size }
        requires place { k < self.old.shape.rows * self.old.shape.columns }
        requires symbols { let s = self.old.shape in
            ((t : ℕ) → t < s.size →
            slice_index self.old.symbols.now (t * (s.rows * s.columns) + k) < (F.Field.meaning f.now).q) }
        ensures same { IsSameBuffer self.old self.new }
        ensures added { let m = F.Field.meaning f.now in
            let s = self.old.shape in
            AddedAt m (s.rows * s.columns) s.size k (terms_at m s.size terms.now)
            self.old.symbols.now self.new.symbols.now }
    {
        for term in terms {
            self.add_term(f, alpha, k, *term);
        }
    }

    // Sets the symbols of all blocks to 0.
    fn clear(&mut self)
        ensures same { IsSameBuffer self.old self.new }
        ensures cleared { let s = self.old.shape in
            ((i : ℕ) → i < s.rows * s.columns * s.size → slice_index self.new.symbols.now i ≡ 0) }
        ensures rest { let s = self.old.shape in
            ((i : ℕ) → s.rows * s.columns * s.size ≤ i → slice_index self.new.symbols.now i ≡ slice_index self.old.symbols.now i) }
    {
        let used = places(&self.shape) * self.shape.size();
        self.symbols[..used].fill(0);
    }

    // The check blocks of the array, with no reduction yet; what lies past them in the buffer stays.
    pub(crate) fn build_checks<F: Field>(&mut self, f: &F, cells: &[CellRow])
        requires cells { 512 ≤ length cells.now }
        ensures same { IsSameBuffer self.old self.new }
        ensures built { let s = self.old.shape in
            Built (F.Field.meaning f.now) (s.rows * s.columns) s.size cells.now self.old.symbols.now self.new.symbols.now }
    {
        let alpha = root(f, &self.shape);
        self.clear();
        for (k, row) in cells[..places(&self.shape)].iter().enumerate() {
            let cell = Cell::from(*row);
            self.add_cell(f, alpha, k, cell.terms());
        }
    }
}
