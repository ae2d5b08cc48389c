// A matrix of symbols in a list that the caller lends, row by row, and operations on its rows.
ghost use Rattle.std.specs.Prelude.{◌≡◌, ℕ, ◌+◌, ◌-◌, ◌*◌, ◌<◌, ◌≤◌, length, ◌≢◌, slice_index};
ghost use Rattle.algebra.specs.Matrices.{Swapped, RowIs};

use field::{Field, Symbol};

// A row has as many symbols as this array holds, or fewer: no array of circulants has more columns. A longer row is worked on where
// it stands.
const OWN: usize = 64;

// Multiplies each symbol by one.
#[inline(always)]
fn multiply_each<F: Field>(f: &F, row: &mut [Symbol], by: Symbol)
    ensures { let m = F.Field.meaning f.now in
        ((j : ℕ) → j < length row.old → slice_index row.new j ≡ m.product by (slice_index row.old j)) }
{
    for x in row.iter_mut() {
        *x = f.product(*x, by);
    }
}

// The same. In an array of our own, which overlaps neither the list nor the field, the compiler asks once which field it is, and
// can work on several columns at a time.
fn multiply_row<F: Field>(f: &F, row: &mut [Symbol], by: Symbol)
    ensures { let m = F.Field.meaning f.now in
        ((j : ℕ) → j < length row.old → slice_index row.new j ≡ m.product by (slice_index row.old j)) }
{
    if row.len() > OWN {
        multiply_each(f, row, by);
        return;
    }
    let mut space = [0; OWN];
    let own = &mut space[..row.len()];
    own.copy_from_slice(row);
    multiply_each(f, own, by);
    row.copy_from_slice(own);
}

// Adds a multiple of `row` to `sums`.
#[inline(always)]
fn add_multiple<F: Field>(f: &F, sums: &mut [Symbol], row: &[Symbol], by: Symbol)
    requires { length sums.old ≡ length row.now }
    ensures { let m = F.Field.meaning f.now in
        ((j : ℕ) → j < length row.now →
        slice_index sums.new j ≡ m.sum (slice_index sums.old j) (m.product by (slice_index row.now j))) }
{
    // By index: what is written through an iterator over two slices is not known afterwards.
    for (j, sum) in sums.iter_mut().enumerate() {
        *sum = f.sum(*sum, f.product(row[j], by));
    }
}

// The symbols in the caller's list, as many as rows times columns; the coder has a matrix of its own, which it only reads. That a
// row or a column is one of them is asked of each call and no type: a type for an index would say less than the call, since it knows
// no matrix. Nor can the type say that the entries are symbols, since it knows no field.
#[derive(Drop)]
pub(crate) struct Matrix<'a> {
    pub(crate) symbols: &'a mut [Symbol],
    pub(crate) rows: usize,
    pub(crate) columns: usize,
    ghost sized: { length symbols.now ≡ rows * columns },
}

impl Matrix<'_> {
    ghost use Rattle.reduction.specs.Rows.{entries, IsSameMatrix};

    // The place of row `i`, column `j`, with the rest of the row after it. `j` may be the number of columns, where the row ends.
    fn place(&self, i: usize, j: usize) -> usize
        requires row { i < self.now.rows }
        requires column { j ≤ self.now.columns }
        ensures is { result ≡ i * self.now.columns + j }
        ensures within { result + (self.now.columns - j) ≤ length self.now.symbols.now }
    {
        i * self.columns + j
    }

    // Row `i`, column `j`.
    pub(crate) fn entry(&self, i: usize, j: usize) -> Symbol
        requires row { i < self.now.rows }
        requires column { j < self.now.columns }
        ensures { result ≡ entries self.now i j }
    {
        self.symbols[self.place(i, j)]
    }

    // Exchanges row `a` and row `h`, which does not stand above it.
    pub(crate) fn swap_rows(&mut self, a: usize, h: usize)
        requires order { a ≤ h }
        requires within { h < self.old.rows }
        ensures same { IsSameMatrix self.old self.new }
        ensures swapped { Swapped self.old.rows self.old.columns (entries self.old) (entries self.new) a h }
    {
        if a == h {
            return;
        }
        let columns = self.columns;
        let first = self.place(a, 0);
        let second = self.place(h, 0);
        let symbols = &mut *self.symbols;
        let (above, below) = symbols.split_at_mut(second);
        above[first..first + columns].swap_with_slice(&mut below[..columns]);
    }

    // Multiplies row `a` by a symbol.
    pub(crate) fn scale_row<F: Field>(&mut self, f: &F, a: usize, by: Symbol)
        requires row { a < self.old.rows }
        ensures same { IsSameMatrix self.old self.new }
        ensures scaled { RowIs self.old.rows self.old.columns (entries self.old) (entries self.new) a
            (λ j. (F.Field.meaning f.now).product by (entries self.old a j)) }
    {
        let start = self.place(a, 0);
        multiply_row(f, &mut self.symbols[start..start + self.columns], by);
    }

    // Adds a multiple of row `h` to row `a`, in an array of our own where it has room, as `multiply_row` does.
    pub(crate) fn add_row<F: Field>(&mut self, f: &F, a: usize, h: usize, by: Symbol)
        requires row { a < self.old.rows }
        requires added { h < self.old.rows }
        requires apart { h ≢ a }
        ensures same { IsSameMatrix self.old self.new }
        ensures added { RowIs self.old.rows self.old.columns (entries self.old) (entries self.new) a
            (λ j. (F.Field.meaning f.now).sum (entries self.old a j)
            ((F.Field.meaning f.now).product by (entries self.old h j))) }
    {
        let columns = self.columns;
        if columns > OWN {
            self.add_row_in_place(f, a, h, by);
            return;
        }
        let start = self.place(a, 0);
        let added = self.place(h, 0);
        let symbols = &mut *self.symbols;
        let mut space = [0; OWN];
        let own = &mut space[..columns];
        own.copy_from_slice(&symbols[start..start + columns]);
        add_multiple(f, own, &symbols[added..added + columns], by);
        symbols[start..start + columns].copy_from_slice(own);
    }

    // The same for a row of any length, where it stands.
    fn add_row_in_place<F: Field>(&mut self, f: &F, a: usize, h: usize, by: Symbol)
        requires row { a < self.old.rows }
        requires added { h < self.old.rows }
        requires apart { h ≢ a }
        ensures same { IsSameMatrix self.old self.new }
        ensures added { RowIs self.old.rows self.old.columns (entries self.old) (entries self.new) a
            (λ j. (F.Field.meaning f.now).sum (entries self.old a j)
            ((F.Field.meaning f.now).product by (entries self.old h j))) }
    {
        let start = self.place(a, 0);
        let added = self.place(h, 0);
        let columns = self.columns;
        let symbols = &mut *self.symbols;
        // By index: both rows stand in one list, and a split between them differs with which comes first.
        for j in 0..columns {
            symbols[start + j] = f.sum(symbols[start + j], f.product(symbols[added + j], by));
        }
    }
}
