// Recovery: the transform of a word's columns, and the message symbols from the free columns, block by block.
ghost use Rattle.std.specs.Prelude.{◌≡◌, ℕ, ◌+◌, ◌-◌, ◌*◌, ◌%◌, ◌<◌, ◌≤◌, ◌++◌, length, drop, IfOk, Some, None, MatchResult, OnErr, slice_index};
ghost use Rattle.algebra.specs.Matrices.{free, count};
ghost use Rattle.algebra.specs.Transforms.{spectrum};
ghost use Rattle.algebra.specs.Solutions.{gathered, collected};
ghost use Rattle.blocks.specs.Blocks.{Holds};
ghost use Rattle.coder.specs.Columns.{coefficient};
ghost use Rattle.coder.specs.Forms.{row_major, frees, dimension};
ghost use Rattle.coder.specs.declared.recovery.Unrecovered.TheVariants.{Refused, Fails};
ghost use Rattle.coder.specs.Recovery.{recovered, recover_refusal, refusal_of, Recovers, OneToOne};

use super::forms::Forms;
use super::matrices::{Matrix, place, row_start, word_length};
use super::transform::evaluate;
use array::{CELLS, CellRow, Shape};
use blocks::root;
use code::{FailedCheck, check};
use field::{Field, Symbol, are_symbols};
use refusal::Refusal;

// Why no message is recovered from a word.
#[derive(Clone, Copy)]
pub enum Unrecovered {
    Refused(Refusal),
    Fails(FailedCheck),
}

impl From<Refusal> for Unrecovered {
    ghost from_gives = { λ refusal r. r ≡ Refused refusal };

    fn from(refusal: Refusal) -> Self {
        Unrecovered::Refused(refusal)
    }
}

impl From<FailedCheck> for Unrecovered {
    ghost from_gives = { λ failed r. r ≡ Fails failed };

    fn from(failed: FailedCheck) -> Self {
        Unrecovered::Fails(failed)
    }
}

// The refusal that this is; Check where a parity check fails.
impl From<Unrecovered> for Refusal {
    ghost from_gives = { λ why r. r ≡ refusal_of why };

    fn from(why: Unrecovered) -> Self {
        match why {
            Unrecovered::Refused(refusal) => refusal,
            Unrecovered::Fails(_) => Refusal::Check,
        }
    }
}

// Symbol `l` of every column of a word.
fn gather(word: &[Symbol], size: usize, l: usize, row: &mut [Symbol])
    requires symbol { l < size }
    requires sized { length word.now ≡ length row.old * size }
    ensures { (j : ℕ) → j < length row.old →
        slice_index row.new j ≡ slice_index word.now (j * size + l) }
{
    let columns = row.len();
    // By index: what is written through an iterator over two slices is not known afterwards.
    for (j, symbol) in row.iter_mut().enumerate() {
        *symbol = word[place(columns, size, j, l)];
    }
}

// The word by rows: row l of `work` has symbol l of every column.
fn transpose(shape: &Shape, word: &[Symbol], work: &mut [Symbol])
    requires word_sized { length word.now ≡ shape.now.columns * shape.now.size }
    requires sized { length work.old ≡ shape.now.size * shape.now.columns }
    ensures { let s = shape.now in
        ((l j : ℕ) → l < s.size → j < s.columns →
        coefficient s.columns work.new j l ≡ slice_index word.now (j * s.size + l)) }
{
    // By index: what is written through chunks of a slice is not known afterwards.
    for l in 0..shape.size() {
        let start = row_start(shape.size(), shape.columns(), l);
        gather(
            word,
            shape.size(),
            l,
            &mut work[start..start + shape.columns()],
        );
    }
}

impl<'a> Matrix<'a> {
    // The symbols in the free columns, to the front of `out`; answers how many there are.
    #[tactic(auto, using(algebra::proofs::Gathers::count_below))]
    fn read_free(&self, values: &[Symbol], out: &mut [Symbol]) -> usize
        requires values { length values.now ≡ self.now.columns }
        requires space { let n = self.now.columns in
            count n (free self.now.rows (row_major n self.now.symbols.now)) ≤ length out.old }
        ensures number { let n = self.now.columns in
            result ≡ count n (free self.now.rows (row_major n self.now.symbols.now)) }
        ensures few { result ≤ length out.old }
        ensures wrote { let n = self.now.columns in
            let p = free self.now.rows (row_major n self.now.symbols.now) in
            out.new ≡ gathered n p (λ j. slice_index values.now j) ++ drop (count n p) out.old }
    {
        // k counts the free columns and no places of a slice.
        let mut k = 0;
        // By index: what is written through an iterator over two slices is not known afterwards.
        for (j, value) in values.iter().enumerate() {
            if self.is_free(j) {
                out[k] = *value;
                k += 1;
            }
        }
        k
    }
}

// The same, from the spectrum at frequency `t`.
#[tactic(auto, using(crate::proofs::Alike::form_count, crate::proofs::Alike::form_gathered))]
fn read_block(forms: &Forms, t: usize, values: &[Symbol], out: &mut [Symbol]) -> usize
    requires frequency { t < forms.now.shape.size }
    requires values { length values.now ≡ forms.now.shape.columns }
    requires space { let s = forms.now.shape in
        count s.columns (frees s.rows s.columns forms.now.symbols.now t) ≤ length out.old }
    ensures number { let s = forms.now.shape in
        result ≡ count s.columns (frees s.rows s.columns forms.now.symbols.now t) }
    ensures few { result ≤ length out.old }
    ensures wrote { let s = forms.now.shape in
        out.new ≡ gathered s.columns (frees s.rows s.columns forms.now.symbols.now t) (λ j. slice_index values.now j)
        ++ drop result out.old }
{
    forms.block(t).read_free(values, out)
}

// The message symbols, frequency by frequency, from a word that stands in `table` by rows.
fn read_message<F: Field>(f: &F, forms: &Forms, table: &Matrix, out: &mut [Symbol])
    requires sized { (table.now.rows ≡ forms.now.shape.size) × (table.now.columns ≡ forms.now.shape.columns) }
    requires space { let s = forms.now.shape in
        dimension s.rows s.columns s.size forms.now.symbols.now ≤ length out.old }
    ensures { let s = forms.now.shape in
        let m = F.Field.meaning f.now in
        let blocks = forms.now.symbols.now in
        out.new
        ≡ collected s.columns (frees s.rows s.columns blocks)
        (λ t j. spectrum m s.size (coefficient s.columns table.now.symbols.now j) t) s.size
        ++ drop (dimension s.rows s.columns s.size blocks) out.old }
{
    let shape = forms.shape();
    // No heap is used: an array has at most 64 columns.
    let mut space = [0; 64];
    let values = &mut space[..shape.columns()];
    let beta = f.inverse(root(f, &shape));
    let mut x = 1;
    let mut first = 0;
    // By number: each frequency has a power and a block of its own.
    for t in 0..shape.size() {
        evaluate(f, table, x, values);
        first += read_block(forms, t, values, &mut out[first..]);
        x = f.product(beta, x);
    }
}

// Refuses with Buffer, Length, Symbol, then Room.
// Not inlined: where the order is seen to be a power of two, each symbol is shifted and not compared, at 7 instructions for 5.
#[inline(never)]
fn judge(
    order: u16,
    forms: &Forms,
    cells: usize,
    word: &[Symbol],
    out: usize,
    work: usize,
) -> Result<(), Refusal>
    ensures { let s = forms.now.shape in
        let answer = recover_refusal order s.size s.rows s.columns cells forms.now.symbols.now word.now out work in
        MatchResult result (λ _. answer ≡ None) (λ x. answer ≡ Some x) }
{
    let length = word_length(&forms.shape());
    if cells < CELLS {
        return Err(Refusal::Buffer);
    }
    if word.len() != length {
        return Err(Refusal::Length);
    }
    if !are_symbols(word, order) {
        return Err(Refusal::Symbol);
    }
    if out < forms.dimension() || work < length {
        return Err(Refusal::Room);
    }
    Ok(())
}

// The message of a word that passes every parity check of the array in `cells`, into the front of `out`; answers its length.
// The echelon forms stand in `blocks`; `work` is free in its first columns x size symbols afterwards.
// Refuses with Buffer where there are fewer than 512 cells or 16,384 block symbols, Length where the word has not columns x size
// symbols, Symbol where one is no symbol of the field, Room where `out` is shorter than the dimension or `work` than a word, then
// with the first parity check that fails.
pub fn recover<F: Field>(
    f: &F,
    shape: &Shape,
    cells: &[CellRow],
    blocks: &[Symbol],
    word: &[Symbol],
    out: &mut [Symbol],
    work: &mut [Symbol],
) -> Result<usize, Unrecovered>
    ensures judged { let s = shape.now in
        Recovers (F.Field.meaning f.now) s.size s.rows s.columns cells.now blocks.now
        word.now (length out.old) (length work.old) result }
    ensures message { let s = shape.now in
        IfOk result (λ n. out.new
        ≡ recovered (F.Field.meaning f.now) s.size s.rows s.columns blocks.now word.now
        ++ drop n out.old) }
    ensures rest { (i : ℕ) → shape.now.columns * shape.now.size ≤ i →
        slice_index work.new i ≡ slice_index work.old i }
    ensures kept { OnErr result ((out.new ≡ out.old) × (work.new ≡ work.old)) }
    ensures one_to_one { let s = shape.now in
        let m = F.Field.meaning f.now in
        ((m.q - 1) % s.size ≡ 0 → Holds m s.size s.rows s.columns cells.now blocks.now →
        OneToOne m s.size s.rows s.columns cells.now blocks.now) }
{
    let forms = Forms::new(shape, blocks)?;
    judge(f.order(), &forms, cells.len(), word, out.len(), work.len())?;
    check(f, shape, cells, word)??;
    let table = &mut work[..word_length(shape)];
    transpose(shape, word, table);
    let rows = Matrix::new(table, shape.size(), shape.columns());
    read_message(f, &forms, &rows, out);
    Ok(forms.dimension())
}
