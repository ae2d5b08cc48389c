// One column of a matrix: its pivot, the first entry that is not 0 from a row on, is made 1, and the entries of the other rows 0.
ghost use Rattle.std.specs.Prelude.{◌≡◌, ℕ, ◌<◌, ◌≤◌, MatchOption};
ghost use Rattle.algebra.specs.Matrices.{RowIs, SameNull};
ghost use Rattle.reduction.specs.Blocks.{Symbols};
ghost use Rattle.reduction.specs.Steps.{Pivot, Cleared};

use super::rows::Matrix;
use field::Field;

impl Matrix<'_> {
    ghost use Rattle.reduction.specs.Rows.{entries, IsSameMatrix};

    // The first row from `top` on that has an entry in the column.
    pub(crate) fn find_pivot(&self, top: usize, column: usize) -> Option<usize>
        requires inside { column < self.now.columns }
        ensures { MatchOption result
            ((h : ℕ) → top ≤ h → h < self.now.rows → entries self.now h column ≡ 0)
            (λ i. Pivot self.now.rows (entries self.now) top column i) }
    {
        (top..self.rows).find(|i| self.entry(*i, column) != 0)
    }

    // Multiplies row `a` by the inverse of its entry in the column, which becomes 1.
    pub(crate) fn scale_pivot<F: Field>(&mut self, f: &F, a: usize, column: usize)
        requires row { a < self.old.rows }
        requires inside { column < self.old.columns }
        requires nonzero { 0 < entries self.old a column }
        requires symbol { entries self.old a column < (F.Field.meaning f.now).q }
        ensures same { IsSameMatrix self.old self.new }
        ensures scaled { RowIs self.old.rows self.old.columns (entries self.old) (entries self.new) a
            (λ j. (F.Field.meaning f.now).product
            ((F.Field.meaning f.now).inverse (entries self.old a column))
            (entries self.old a j)) }
        ensures one { entries self.new a column ≡ 1 }
        ensures nulls { SameNull (F.Field.meaning f.now) self.old.rows self.old.columns
            (entries self.old) (entries self.new) }
    {
        let by = f.inverse(self.entry(a, column));
        self.scale_row(f, a, by);
    }

    // Clears the column in every row but row `a`, which has 1 there. A symbol is its own negative, so the multiple of row `a`
    // that is added to a row is the row's entry in the column.
    pub(crate) fn clear_column<F: Field>(&mut self, f: &F, a: usize, column: usize)
        requires row { a < self.old.rows }
        requires inside { column < self.old.columns }
        requires one { entries self.old a column ≡ 1 }
        requires symbols { Symbols (F.Field.meaning f.now).q self.old.rows self.old.columns (entries self.old) }
        ensures same { IsSameMatrix self.old self.new }
        ensures cleared { Cleared (F.Field.meaning f.now) self.old.rows self.old.columns
            (entries self.old) (entries self.new) a column }
        ensures nulls { SameNull (F.Field.meaning f.now) self.old.rows self.old.columns
            (entries self.old) (entries self.new) }
    {
        // By number: row `a`, which is added, stands in the list among the rows that are written.
        for i in 0..self.rows {
            if i != a {
                let by = self.entry(i, column);
                self.add_row(f, i, a, by);
            }
        }
    }
}
