// What C calls. Each makes the code by a match of its own: of what a closure writes to a buffer that it borrows, too little is known
// afterwards.
ghost use Rattle.std.specs.Prelude.{◌≡◌, List, MatchResult};
ghost use Rattle.array.specs.declared.plain.CellRow.{CellRow};
ghost use Rattle.blocks.specs.Blocks.{Holds};
ghost use Rattle.code.specs.Checks.{PassesAll};
ghost use Rattle.refusal.specs.Number.{number};
ghost use Rattle.timing.specs.Fields.{field_of};
ghost use Rattle.timing.specs.Recovery.{Reads};

use super::timed::Code;
use array::CellRow;
use field::Symbol;
use refusal::Refusal;

// C gets a number: 0, or that of the refusal.
fn answer(r: Result<(), Refusal>) -> u8
    ensures { MatchResult r (λ _. result ≡ 0) (λ x. result ≡ number x) }
{
    match r {
        Ok(()) => 0,
        Err(refusal) => refusal.number(),
    }
}

// The echelon forms of an array, into `blocks`.
#[unsafe(no_mangle)]
pub extern "C" fn timing_build(
    field: u8,
    size: usize,
    rows: usize,
    columns: usize,
    cells: &[CellRow],
    blocks: &mut [Symbol],
) -> u8
    ensures { result ≡ 0 → Holds (field_of field) size rows columns cells.now blocks.new }
{
    match Code::new(field, size, rows, columns) {
        Ok(code) => answer(code.build(cells, blocks)),
        Err(refusal) => refusal.number(),
    }
}

// The word of a message, into `out`, by the echelon forms in `blocks`.
#[unsafe(no_mangle)]
pub extern "C" fn timing_encode(
    field: u8,
    size: usize,
    rows: usize,
    columns: usize,
    blocks: &[Symbol],
    message: &[Symbol],
    out: &mut [Symbol],
    work: &mut [Symbol],
) -> u8
    ensures { result ≡ 0 → (cells : List CellRow) → Holds (field_of field) size rows columns cells blocks.now →
        PassesAll (field_of field) size rows columns cells out.new }
{
    match Code::new(field, size, rows, columns) {
        Ok(code) => answer(code.encode(blocks, message, out, work)),
        Err(refusal) => refusal.number(),
    }
}

// Whether a word passes every parity check of an array: 0 where it does.
#[unsafe(no_mangle)]
pub extern "C" fn timing_check(
    field: u8,
    size: usize,
    rows: usize,
    columns: usize,
    cells: &[CellRow],
    word: &[Symbol],
) -> u8
    ensures { result ≡ 0 → PassesAll (field_of field) size rows columns cells.now word.now }
{
    match Code::new(field, size, rows, columns) {
        Ok(code) => answer(code.check(cells, word)),
        Err(refusal) => refusal.number(),
    }
}

// The message of a word that passes every parity check of an array, into `out`, by the echelon forms in `blocks`.
#[unsafe(no_mangle)]
pub extern "C" fn timing_recover(
    field: u8,
    size: usize,
    rows: usize,
    columns: usize,
    cells: &[CellRow],
    blocks: &[Symbol],
    word: &[Symbol],
    out: &mut [Symbol],
    work: &mut [Symbol],
) -> u8
    ensures { result ≡ 0 → Reads (field_of field) size rows columns cells.now blocks.now
        word.now out.old out.new }
{
    match Code::new(field, size, rows, columns) {
        Ok(code) => answer(code.recover(cells, blocks, word, out, work)),
        Err(refusal) => refusal.number(),
    }
}
