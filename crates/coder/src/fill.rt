// The spectrum of a word at one frequency: message symbols in the free columns, and in each leading column the sum that its row asks for.
ghost use Rattle.std.specs.Prelude.{◌≡◌, ℕ, ◌+◌, ◌<◌, ◌≤◌, length, if◌then◌else◌, slice_index};
ghost use Rattle.field.specs.Sums.{total};
ghost use Rattle.algebra.specs.Matrices.{free, count};
ghost use Rattle.algebra.specs.Solutions.{solved, filled};
ghost use Rattle.coder.specs.Forms.{row_major};

use super::matrices::Matrix;
use field::{Field, Symbol};

// A row times a vector.
fn row_times<F: Field>(f: &F, row: &[Symbol], values: &[Symbol]) -> Symbol
    requires { length row.now ≡ length values.now }
    ensures { let m = F.Field.meaning f.now in
        result ≡ total m (length row.now) (λ h. m.product (slice_index row.now h) (slice_index values.now h)) }
{
    row.iter().zip(values).fold(
        0,
        |sum, (entry, value)| f.sum(sum, f.product(*entry, *value)),
    )
}

impl<'a> Matrix<'a> {
    // The message symbols from `first` on, one for each free column, and 0 in the leading columns. `first` is bounded at each call, so
    // that no sum overflows; it is a number of the loop over all blocks, and no part of a value.
    fn spread_free(&self, message: &[Symbol], first: usize, values: &mut [Symbol])
        requires sized { length values.old ≡ self.now.columns }
        requires few { first ≤ 65536 }
        ensures { let p = free self.now.rows (row_major self.now.columns self.now.symbols.now) in
            ((j : ℕ) → j < self.now.columns →
            slice_index values.new j ≡ (if p j then slice_index message.now (first + count j p) else 0)) }
    {
        // k counts the free columns and no places of a slice.
        let mut k = first;
        for (j, value) in values.iter_mut().enumerate() {
            if self.is_free(j) {
                *value = message.get(k).copied().unwrap_or(0);
                k += 1;
            } else {
                *value = 0;
            }
        }
    }

    // The solution of a block that has the given symbols in its free columns.
    fn solve<F: Field>(&self, f: &F, values: &[Symbol], row: &mut [Symbol])
        requires values { length values.now ≡ self.now.columns }
        requires sized { length row.old ≡ self.now.columns }
        ensures { let m = F.Field.meaning f.now in
            let n = self.now.columns in
            let rows = self.now.rows in
            let b = row_major n self.now.symbols.now in
            ((v : ℕ → ℕ) → ((j : ℕ) → j < n → slice_index values.now j ≡ (if free rows b j then v j else 0)) →
            (j : ℕ) → j < n → slice_index row.new j ≡ solved m rows n b v j) }
    {
        for (j, symbol) in row.iter_mut().enumerate() {
            *symbol = match self.lead_row(j) {
                Some(i) => row_times(f, self.row(i), values),
                None => values[j],
            };
        }
    }

    // The spectrum from the message symbols from `first` on.
    pub(crate) fn fill<F: Field>(&self, f: &F, message: &[Symbol], first: usize, row: &mut [Symbol])
        requires narrow { self.now.columns ≤ 64 }
        requires sized { length row.old ≡ self.now.columns }
        requires few { first ≤ 65536 }
        ensures { let n = self.now.columns in
            ((j : ℕ) → j < n → slice_index row.new j
            ≡ filled (F.Field.meaning f.now) self.now.rows n (row_major n self.now.symbols.now)
            (λ k. slice_index message.now (first + k)) j) }
    {
        // No heap is used.
        let mut space = [0; 64];
        let values = &mut space[..self.columns()];
        self.spread_free(message, first, values);
        self.solve(f, values, row);
    }
}
