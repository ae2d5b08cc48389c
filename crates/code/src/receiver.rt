// The receiver's side: does a word pass every parity check of an array?
ghost use Rattle.std.specs.Prelude.{◌≡◌, ℕ, ◌+◌, ◌*◌, ◌%◌, ◌<◌, ◌≤◌, length, take, drop, Some, None, MatchOption, MatchResult, ◌≢◌, slice_index};
ghost use Rattle.code.specs.Checks.{cell_sum, syndrome, check_refusal, Judged, Checked, Answered};

use array::{CELLS, Cell, CellRow, Shape, Term};
use field::{Field, Symbol, are_symbols};
use refusal::Refusal;
use std::fmt;

// The first parity check that fails, by row and then by its number in the row, with its syndrome.
#[derive(Clone, Copy, PartialEq, Eq, Debug)]
pub struct FailedCheck {
    pub row: usize,
    pub s: usize,
    pub syndrome: Symbol,
}

impl fmt::Display for FailedCheck {
    fn fmt<W: fmt::Write>(&self, f: &mut fmt::Formatter<W>) -> fmt::Result {
        write!(f, "{} {} {}", self.row, self.s, self.syndrome)
    }
}

// What the parity checks say of a word: it passes them all, or fails.
pub type Verdict = Result<(), FailedCheck>;

// Adds a multiple of `xs` to `sums`.
fn add_scaled<F: Field>(f: &F, sums: &mut [Symbol], xs: &[Symbol], by: Symbol)
    requires { length sums.old ≡ length xs.now }
    ensures { let m = F.Field.meaning f.now in
        let x = xs.now in
        ((s : ℕ) → s < length x →
        slice_index sums.new s ≡ m.sum (slice_index sums.old s) (m.product by (slice_index x s))) }
{
    // Through an iterator over both slices it would not be known afterwards what was written.
    for (s, sum) in sums.iter_mut().enumerate() {
        *sum = f.sum(*sum, f.product(xs[s], by));
    }
}

// Adds one term of a cell to the checks of its row: to check s, its coefficient times symbol (shift + s) mod e of the column.
fn add_term<F: Field>(f: &F, sums: &mut [Symbol], column: &[Symbol], term: Term)
    requires sized { length sums.old ≡ length column.now }
    requires some { 0 < length column.now }
    ensures { let m = F.Field.meaning f.now in
        let x = column.now in
        ((s : ℕ) → s < length x →
        slice_index sums.new s ≡ m.sum (slice_index sums.old s)
        (m.product term.coefficient (slice_index x ((term.shift + s) % length x)))) }
{
    let size = column.len();
    let first = term.shift as usize % size;
    add_scaled(
        f,
        &mut sums[0..size - first],
        &column[first..size],
        term.coefficient,
    );
    add_scaled(
        f,
        &mut sums[size - first..size],
        &column[0..first],
        term.coefficient,
    );
}

// Adds all terms of a cell.
fn add_cell<F: Field>(f: &F, sums: &mut [Symbol], column: &[Symbol], terms: &[Term])
    requires sized { length sums.old ≡ length column.now }
    requires some { 0 < length column.now }
    requires symbols { (s : ℕ) → s < length column.now → slice_index sums.old s < (F.Field.meaning f.now).q }
    ensures { let m = F.Field.meaning f.now in
        let x = column.now in
        ((s : ℕ) → s < length x →
        slice_index sums.new s
        ≡ m.sum (slice_index sums.old s) (cell_sum m (length x) terms.now (λ l. slice_index x l) s)) }
{
    for term in terms {
        add_term(f, sums, column, *term);
    }
}

// Part `j` of a slice that is cut into parts of `size` each.
fn part<T>(xs: &[T], size: usize, j: usize) -> &[T]
    requires { (j + 1) * size ≤ length xs.now }
    ensures is { result.now ≡ take size (drop (j * size) xs.now) }
    ensures len { length result.now ≡ size }
{
    let start = j * size;
    &xs[start..start + size]
}

// The syndromes of all parity checks of a row.
fn row_syndromes<F: Field>(
    f: &F,
    shape: &Shape,
    cells: &[CellRow],
    word: &[Symbol],
    row: usize,
    sums: &mut [Symbol],
)
    requires buffer { 512 ≤ length cells.now }
    requires word_sized { length word.now ≡ shape.now.columns * shape.now.size }
    requires row_within { row < shape.now.rows }
    requires sized { length sums.old ≡ shape.now.size }
    ensures { let e = shape.now.size in
        ((s : ℕ) → s < e → slice_index sums.new s
        ≡ syndrome (F.Field.meaning f.now) e shape.now.columns cells.now word.now row s) }
{
    sums.fill(0);
    let row_cells = part(cells, shape.columns(), row);
    for (j, cell) in row_cells.iter().enumerate() {
        add_cell(
            f,
            sums,
            part(word, shape.size(), j),
            Cell::from(*cell).terms(),
        );
    }
}

fn first_nonzero(sums: &[Symbol]) -> Option<usize>
    ensures { MatchOption result
        ((k : ℕ) → k < length sums.now → slice_index sums.now k ≡ 0)
        (λ s. (s < length sums.now) × (slice_index sums.now s ≢ 0)
        × ((k : ℕ) → k < s → slice_index sums.now k ≡ 0)) }
{
    sums.iter().position(|sum| *sum != 0)
}

// Refuses with Buffer, Length, then Symbol.
// Not inlined: where the order is seen to be a power of two, each symbol is shifted and not compared, at 7 instructions for 5.
#[inline(never)]
fn judge(order: u16, shape: &Shape, cells: usize, word: &[Symbol]) -> Result<(), Refusal>
    ensures judged { Judged order shape.now.size shape.now.columns cells word.now result }
    ensures answered { let answer = check_refusal order shape.now.size shape.now.columns cells word.now in
        MatchResult result (λ _. answer ≡ None) (λ x. answer ≡ Some x) }
{
    if cells < CELLS {
        return Err(Refusal::Buffer);
    }
    if word.len() != shape.columns() * shape.size() {
        return Err(Refusal::Length);
    }
    if !are_symbols(word, order) {
        return Err(Refusal::Symbol);
    }
    Ok(())
}

// Says of a word whether it passes every parity check of the array in the cell buffer, or which one fails first.
// Refuses with Buffer where there are fewer than 512 cells, Length where the word has not columns x size symbols, then
// Symbol where one of them is no symbol of the field.
pub fn check<F: Field>(
    f: &F,
    shape: &Shape,
    cells: &[CellRow],
    word: &[Symbol],
) -> Result<Verdict, Refusal>
    ensures checked { Checked (F.Field.meaning f.now) shape.now.size shape.now.rows
        shape.now.columns cells.now word.now result }
    ensures answered { Answered (F.Field.meaning f.now) shape.now.size shape.now.rows
        shape.now.columns cells.now word.now result }
{
    judge(f.order(), shape, cells.len(), word)?;
    // No heap is used: a word has at most 511 checks to a row.
    let mut space = [0; 511];
    let sums = &mut space[..shape.size()];
    // By its number, which is part of the answer: in a loop over the rows as chunks it would not be known which row a chunk is.
    for row in 0..shape.rows() {
        row_syndromes(f, shape, cells, word, row, sums);
        if let Some(s) = first_nonzero(sums) {
            return Ok(Err(FailedCheck {
                row,
                s,
                syndrome: sums[s],
            }));
        }
    }
    Ok(Ok(()))
}
