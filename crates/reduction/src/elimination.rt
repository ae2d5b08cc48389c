// The reduction of a block to reduced row echelon form, column by column.
ghost use Rattle.std.specs.Prelude.{◌<◌, ◌≤◌};
ghost use Rattle.algebra.specs.Matrices.{Reduced};
ghost use Rattle.reduction.specs.Blocks.{Symbols, Outcome};
ghost use Rattle.reduction.specs.Steps.{Stepped};

use super::rows::Matrix;
use field::{Field, Symbol, are_symbols};

impl Matrix<'_> {
    ghost use Rattle.reduction.specs.Rows.{entries, IsSameMatrix};

    // One column's step: `top` rows have their leading entries in the columns before it. The answer is the new number of them.
    fn step<F: Field>(&mut self, f: &F, top: usize, column: usize) -> usize
        requires within { top ≤ self.old.rows }
        requires inside { column < self.old.columns }
        requires symbols { Symbols (F.Field.meaning f.now).q self.old.rows self.old.columns (entries self.old) }
        ensures same { IsSameMatrix self.old self.new }
        ensures stepped { Stepped (F.Field.meaning f.now) self.old.rows self.old.columns column
            (entries self.old) (entries self.new) top result }
    {
        match self.find_pivot(top, column) {
            Some(i) => {
                self.swap_rows(top, i);
                self.scale_pivot(f, top, column);
                self.clear_column(f, top, column);
                top + 1
            }
            None => top,
        }
    }

    // Reduces the matrix, and answers its rank.
    fn eliminate<F: Field>(&mut self, f: &F) -> usize
        requires { Symbols (F.Field.meaning f.now).q self.old.rows self.old.columns (entries self.old) }
        ensures same { IsSameMatrix self.old self.new }
        ensures reduced { Reduced (F.Field.meaning f.now) self.old.rows self.old.columns
            (entries self.old) (entries self.new) result }
    {
        let mut top = 0;
        // By number: a column is no part of the list.
        for column in 0..self.columns {
            top = self.step(f, top, column);
        }
        top
    }
}

// Reduces a block to reduced row echelon form and answers its rank, which is the number of leading entries. Where the length
// is not rows x columns, or a symbol is q or more, the answer is `None`, and the block stays as it is.
pub fn reduce<F: Field>(f: &F, block: &mut [Symbol], rows: usize, columns: usize) -> Option<usize>
    ensures { Outcome (F.Field.meaning f.now) rows columns block.old block.new result }
{
    if rows.checked_mul(columns) != Some(block.len()) || !are_symbols(block, f.order()) {
        return None;
    }
    let mut matrix = Matrix {
        symbols: block,
        rows,
        columns,
    };
    Some(matrix.eliminate(f))
}
