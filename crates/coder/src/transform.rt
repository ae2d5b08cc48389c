// The transform of all columns at once, by Horner's rule with the columns innermost.
ghost use Rattle.std.specs.Prelude.{◌≡◌, ℕ, ◌+◌, ◌*◌, ◌<◌, ◌≤◌, length, slice_index};
ghost use Rattle.algebra.specs.Transforms.{root as root_of, synthesis};
ghost use Rattle.coder.specs.Columns.{value, coefficient, SymbolWritten};

use super::matrices::{Matrix, place};
use field::{Field, Symbol};

// One step of Horner's rule in every column: times x, plus the next row of coefficients.
fn step_row<F: Field>(f: &F, sums: &mut [Symbol], row: &[Symbol], x: Symbol)
    requires { length sums.old ≡ length row.now }
    ensures { let m = F.Field.meaning f.now in
        ((j : ℕ) → j < length row.now →
        slice_index sums.new j ≡ m.sum (slice_index row.now j) (m.product x (slice_index sums.old j))) }
{
    // By index: what is written through an iterator over two slices is not known afterwards.
    for (j, sum) in sums.iter_mut().enumerate() {
        *sum = f.sum(row[j], f.product(*sum, x));
    }
}

// The value at x of the polynomial in each column of a matrix, by Horner's rule in all columns at once.
#[inline(always)]
fn step_rows<F: Field>(f: &F, work: &Matrix, x: Symbol, sums: &mut [Symbol])
    requires { length sums.old ≡ work.now.columns }
    ensures { let m = F.Field.meaning f.now in
        let w = work.now in
        ((j : ℕ) → j < w.columns → slice_index sums.new j ≡ value m w.rows (coefficient w.columns w.symbols.now j) x) }
{
    sums.fill(0);
    // By index: there may be no columns, and a slice has no chunks of size 0.
    for t in (0..work.rows()).rev() {
        step_row(f, sums, work.row(t), x);
    }
}

// The same. Where an array of our own has room for the sums they are worked out there: it overlaps neither the buffer nor the field,
// so the compiler can work on several columns at a time. No word has more than 64 columns.
pub(crate) fn evaluate<F: Field>(f: &F, work: &Matrix, x: Symbol, sums: &mut [Symbol])
    requires { length sums.old ≡ work.now.columns }
    ensures { let m = F.Field.meaning f.now in
        let w = work.now in
        ((j : ℕ) → j < w.columns → slice_index sums.new j ≡ value m w.rows (coefficient w.columns w.symbols.now j) x) }
{
    let columns = sums.len();
    if columns > 64 {
        step_rows(f, work, x, sums);
        return;
    }
    let mut space = [0; 64];
    let own = &mut space[..columns];
    step_rows(f, work, x, own);
    sums.copy_from_slice(own);
}

// Writes symbol `l` of every column of a word.
fn scatter(sums: &[Symbol], out: &mut [Symbol], size: usize, l: usize)
    requires symbol { l < size }
    requires room { length sums.now * size ≤ length out.old }
    ensures { SymbolWritten (length sums.now) size l (λ j. slice_index sums.now j) out.old out.new }
{
    // By index: what is written through chunks of a slice is not known afterwards.
    for (j, sum) in sums.iter().enumerate() {
        out[place(sums.len(), size, j, l)] = *sum;
    }
}

// The inverse transform of every column: from the spectra, frequency by frequency, to the word in `out`.
pub(crate) fn synthesize<F: Field>(f: &F, alpha: Symbol, spectra: &Matrix, out: &mut [Symbol])
    requires root { alpha ≡ root_of (F.Field.meaning f.now) spectra.now.rows }
    requires few { spectra.now.columns ≤ 64 }
    requires room { spectra.now.columns * spectra.now.rows ≤ length out.old }
    ensures word { let s = spectra.now in
        ((j l : ℕ) → j < s.columns → l < s.rows → slice_index out.new (j * s.rows + l)
        ≡ synthesis (F.Field.meaning f.now) s.rows (coefficient s.columns s.symbols.now j) l) }
    ensures rest { (i : ℕ) → spectra.now.columns * spectra.now.rows ≤ i →
        slice_index out.new i ≡ slice_index out.old i }
{
    // No heap is used.
    let mut space = [0; 64];
    let sums = &mut space[..spectra.columns()];
    let mut x = 1;
    // By number: each symbol of a column has a power of its own.
    for l in 0..spectra.rows() {
        evaluate(f, spectra, x, sums);
        scatter(sums, out, spectra.rows(), l);
        x = f.product(alpha, x);
    }
}
