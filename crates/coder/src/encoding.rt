// Encoding: message symbols to the free columns, block by block, and the inverse transform.
ghost use Rattle.std.specs.Prelude.{◌≡◌, ℕ, ◌+◌, ◌-◌, ◌*◌, ◌%◌, ◌<◌, ◌≤◌, List, length, Some, None, MatchResult, OnErr, OnOk, slice_index};
ghost use Rattle.algebra.specs.Solutions.{filled};
ghost use Rattle.array.specs.declared.plain.CellRow.{CellRow};
ghost use Rattle.blocks.specs.Blocks.{block_at, Holds};
ghost use Rattle.code.specs.Checks.{PassesAll};
ghost use Rattle.coder.specs.Columns.{coefficient};
ghost use Rattle.refusal.specs.declared.Refusal.TheVariants.{Buffer};
ghost use Rattle.coder.specs.Forms.{dimension as dimension_of};
ghost use Rattle.coder.specs.Encoding.{spread, encoded, Encodable, encode_refusal};

use super::forms::Forms;
use super::matrices::{Matrix, row_start, word_length};
use super::transform::synthesize;
use array::Shape;
use blocks::root;
use field::{Field, Symbol, are_symbols};
use refusal::Refusal;

// Refuses with Length, Symbol, then Room.
// Not inlined: where the order is seen to be a power of two, each symbol is shifted and not compared, at 7 instructions for 5.
#[tactic(auto, using(field::proofs::SymbolTests::symbols_at, field::proofs::SymbolTests::symbols_fail))]
#[inline(never)]
fn judge(
    order: u16,
    forms: &Forms,
    message: &[Symbol],
    out: usize,
    work: usize,
) -> Result<(), Refusal>
    ensures judged { let s = forms.now.shape in
        Encodable order s.size s.rows s.columns forms.now.symbols.now message.now out work result }
    ensures refusal { let s = forms.now.shape in
        let answer = encode_refusal order s.size s.rows s.columns forms.now.symbols.now message.now out work in
        MatchResult result (λ _. answer ≡ None) (λ x. answer ≡ Some x) }
{
    if message.len() != forms.dimension() {
        return Err(Refusal::Length);
    }
    if !are_symbols(message, order) {
        return Err(Refusal::Symbol);
    }
    let length = word_length(&forms.shape());
    if out < length || work < length {
        return Err(Refusal::Room);
    }
    Ok(())
}

// The spectrum at frequency `t`, from the message symbols from `first` on. A number and no rest of the message, which may have
// fewer symbols than that where the forms are other ones than its own.
fn fill_block<F: Field>(
    f: &F,
    forms: &Forms,
    message: &[Symbol],
    t: usize,
    first: usize,
    row: &mut [Symbol],
)
    requires frequency { t < forms.now.shape.size }
    requires sized { length row.old ≡ forms.now.shape.columns }
    requires few { first ≤ 65536 }
    ensures { let s = forms.now.shape in
        ((j : ℕ) → j < s.columns → slice_index row.new j
        ≡ filled (F.Field.meaning f.now) s.rows s.columns (block_at s.rows s.columns forms.now.symbols.now t)
        (λ k. slice_index message.now (first + k)) j) }
{
    forms.block(t).fill(f, message, first, row);
}

// The spectrum of the word of a message, frequency by frequency.
fn fill_spectrum<F: Field>(f: &F, forms: &Forms, message: &[Symbol], work: &mut [Symbol])
    requires sized { length work.old ≡ forms.now.shape.size * forms.now.shape.columns }
    ensures { let s = forms.now.shape in
        ((t j : ℕ) → t < s.size → j < s.columns → coefficient s.columns work.new j t
        ≡ spread (F.Field.meaning f.now) s.rows s.columns forms.now.symbols.now message.now t j) }
{
    let shape = forms.shape();
    let mut first = 0;
    // By index: what is written through chunks of a slice is not known afterwards.
    for t in 0..shape.size() {
        let start = row_start(shape.size(), shape.columns(), t);
        fill_block(
            f,
            forms,
            message,
            t,
            first,
            &mut work[start..start + shape.columns()],
        );
        first += forms.count_free(t);
    }
}

// The word of a message, into `out`. The echelon forms stand in `blocks`; `work` is free in its first columns x size symbols afterwards.
// Refuses with Buffer where there are fewer than 16,384 block symbols, Length where the message has not as many symbols as the
// dimension, Symbol where one is no symbol of the field, then Room where `out` or `work` is shorter than a word.
pub fn encode<F: Field>(
    f: &F,
    shape: &Shape,
    blocks: &[Symbol],
    message: &[Symbol],
    out: &mut [Symbol],
    work: &mut [Symbol],
) -> Result<(), Refusal>
    ensures judged { let s = shape.now in
        Encodable (F.Field.meaning f.now).q s.size s.rows s.columns blocks.now message.now
        (length out.old) (length work.old) result }
    ensures refusal { let s = shape.now in
        let answer = encode_refusal (F.Field.meaning f.now).q s.size s.rows s.columns blocks.now
        message.now (length out.old) (length work.old) in
        MatchResult result (λ _. answer ≡ None) (λ x. answer ≡ Some x) }
    ensures word { let s = shape.now in
        OnOk result ((j l : ℕ) → j < s.columns → l < s.size → slice_index out.new (j * s.size + l)
        ≡ encoded (F.Field.meaning f.now) s.size s.rows s.columns blocks.now message.now j l) }
    ensures rest { (i : ℕ) → shape.now.columns * shape.now.size ≤ i →
        (slice_index out.new i ≡ slice_index out.old i) × (slice_index work.new i ≡ slice_index work.old i) }
    ensures kept { OnErr result ((out.new ≡ out.old) × (work.new ≡ work.old)) }
    ensures passes { let s = shape.now in
        let m = F.Field.meaning f.now in
        OnOk result ((cells : List CellRow) → (m.q - 1) % s.size ≡ 0 →
        Holds m s.size s.rows s.columns cells blocks.now →
        PassesAll m s.size s.rows s.columns cells out.new) }
{
    let forms = Forms::new(shape, blocks)?;
    judge(f.order(), &forms, message, out.len(), work.len())?;
    let table = &mut work[..word_length(shape)];
    fill_spectrum(f, &forms, message, table);
    let spectra = Matrix::new(table, shape.size(), shape.columns());
    synthesize(f, root(f, shape), &spectra, out);
    Ok(())
}

// The dimension of the code whose echelon forms stand in `blocks`. Refuses with Buffer where there are fewer than 16,384 symbols.
pub fn dimension(shape: &Shape, blocks: &[Symbol]) -> Result<usize, Refusal>
    ensures { let s = shape.now in
        MatchResult result
        (λ n. (16384 ≤ length blocks.now) × (n ≡ dimension_of s.rows s.columns s.size blocks.now))
        (λ x. (length blocks.now < 16384) × (x ≡ Buffer)) }
{
    Ok(Forms::new(shape, blocks)?.dimension())
}
