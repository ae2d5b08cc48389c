// Matrices that stand row by row in a slice, with their leading entries and free columns.
// On any contents, also on those of no echelon form, each function has one answer.
ghost use Rattle.std.specs.Prelude.{◌≡◌, ℕ, ◌+◌, ◌*◌, ◌^◌, ◌<◌, ◌≤◌, true, false, length, MatchOption, slice_index};
ghost use Rattle.algebra.specs.Matrices.{starts, lead_row as lead_row_of, free, count};
ghost use Rattle.coder.specs.Forms.{row_major};

use array::Shape;
use field::Symbol;

// Where row i of a matrix starts.
pub(crate) fn row_start(rows: usize, columns: usize, i: usize) -> usize
    requires few { rows * columns < 2 ^ 64 }
    requires row { i < rows }
    ensures is { result ≡ i * columns }
    ensures fits { result + columns ≤ rows * columns }
{
    i * columns
}

// Where entry (i, j) of a matrix stands.
pub(crate) fn place(rows: usize, columns: usize, i: usize, j: usize) -> usize
    requires few { rows * columns < 2 ^ 64 }
    requires row { i < rows }
    requires column { j < columns }
    ensures is { result ≡ i * columns + j }
    ensures within { result < rows * columns }
{
    row_start(rows, columns, i) + j
}

// The number of symbols of a word.
pub(crate) fn word_length(shape: &Shape) -> usize
    ensures is { result ≡ shape.now.columns * shape.now.size }
    ensures turned { result ≡ shape.now.size * shape.now.columns }
{
    shape.columns() * shape.size()
}

// A matrix, row by row, that is read; the reduction has one that it writes. That a row or a column is one of its own, and that a lent
// slice has a symbol for each of its columns, is asked of each call and no type: a type for an index or a slice would say less than
// the call, since it knows no matrix.
#[derive(Clone, Copy)]
pub(crate) struct Matrix<'a> {
    symbols: &'a [Symbol],
    rows: usize,
    columns: usize,
    ghost sized: { length symbols.now ≡ rows * columns },
}

impl<'a> Matrix<'a> {
    pub(crate) fn new(symbols: &'a [Symbol], rows: usize, columns: usize) -> Self
        requires { length symbols.now ≡ rows * columns }
        ensures { (result.symbols.now ≡ symbols.now) × (result.rows ≡ rows) × (result.columns ≡ columns) }
    {
        Matrix {
            symbols,
            rows,
            columns,
        }
    }

    pub(crate) fn rows(&self) -> usize
        ensures { result ≡ self.now.rows }
    {
        self.rows
    }

    pub(crate) fn columns(&self) -> usize
        ensures { result ≡ self.now.columns }
    {
        self.columns
    }

    pub(crate) fn row(&self, i: usize) -> &'a [Symbol]
        requires { i < self.now.rows }
        ensures sized { length result.now ≡ self.now.columns }
        ensures entries { (j : ℕ) → j < self.now.columns →
            slice_index result.now j ≡ row_major self.now.columns self.now.symbols.now i j }
    {
        let start = row_start(self.rows, self.columns, i);
        &self.symbols[start..start + self.columns]
    }

    // Does row i have its first nonzero symbol in column j?
    fn is_start(&self, i: usize, j: usize) -> bool
        requires row { i < self.now.rows }
        requires column { j < self.now.columns }
        ensures { result ≡ starts (row_major self.now.columns self.now.symbols.now i) j }
    {
        let row = self.row(i);
        // The entry is tested first: most are 0 in sparse blocks, and then nothing else is read.
        row[j] != 0 && row[..j].iter().all(|x| *x == 0)
    }

    // The first row that leads in column j; None where the column is free.
    pub(crate) fn lead_row(&self, j: usize) -> Option<usize>
        requires { j < self.now.columns }
        ensures { let rows = self.now.rows in
            let m = row_major self.now.columns self.now.symbols.now in
            MatchOption result (free rows m j ≡ true)
            (λ i. (i < rows) × (i ≡ lead_row_of rows m j) × (free rows m j ≡ false)) }
    {
        (0..self.rows).find(|i| self.is_start(*i, j))
    }

    pub(crate) fn is_free(&self, j: usize) -> bool
        requires { j < self.now.columns }
        ensures { result ≡ free self.now.rows (row_major self.now.columns self.now.symbols.now) j }
    {
        self.lead_row(j).is_none()
    }

    // The number of free columns.
    pub(crate) fn count_free(&self) -> usize
        ensures is { result ≡ count self.now.columns (free self.now.rows (row_major self.now.columns self.now.symbols.now)) }
        ensures few { result ≤ self.now.columns }
    {
        (0..self.columns).filter(|j| self.is_free(*j)).count()
    }
}
