// A code that is timed: a field, and the shape of an array.
ghost use Rattle.std.specs.Prelude.{◌≡◌, ◌-◌, ◌%◌, List, IfOk, OnOk};
ghost use Rattle.array.specs.declared.plain.CellRow.{CellRow};
ghost use Rattle.blocks.specs.Blocks.{Holds};
ghost use Rattle.code.specs.Checks.{PassesAll};
ghost use Rattle.field.specs.AnyField.{degree_of, meaning_of};
ghost use Rattle.field.specs.Shift.{shift_field};
ghost use Rattle.timing.specs.Fields.{field_of};
ghost use Rattle.timing.specs.Recovery.{Reads};

use array::{CellRow, Shape};
use blocks::build_forms;
use field::{AnyField, Field, ShiftField, Symbol, TableField};
use refusal::Refusal;

#[derive(Clone, Copy)]
pub(crate) struct Code {
    field: AnyField,
    shape: Shape,
    ghost divides: { ((shift_field (degree_of field)).q - 1) % shape.size ≡ 0 },
}

impl Code {
    // The field goes by a number: 0 for the table field, r for the shift field of degree r.
    pub(crate) fn new(field: u8, size: usize, rows: usize, columns: usize) -> Result<Self, Refusal>
        ensures field { IfOk result (λ c. meaning_of c.field ≡ field_of field) }
        ensures shape { IfOk result (λ c. (c.shape.size ≡ size) × (c.shape.rows ≡ rows) × (c.shape.columns ≡ columns)) }
    {
        // C gives the number.
        let field = if field == 0 {
            AnyField::Table(TableField)
        } else {
            AnyField::Shift(ShiftField::new(field)?)
        };
        let shape = Shape::new(field.order(), size, rows, columns)?;
        Ok(Code { field, shape })
    }

    // The echelon forms of an array, into `blocks`.
    pub(crate) fn build(&self, cells: &[CellRow], blocks: &mut [Symbol]) -> Result<(), Refusal>
        ensures { let s = self.now.shape in
            OnOk result (Holds (meaning_of self.now.field) s.size s.rows s.columns cells.now blocks.new) }
    {
        build_forms(&self.field, &self.shape, cells, blocks)
    }

    // The word of a message, into `out`.
    pub(crate) fn encode(
        &self,
        blocks: &[Symbol],
        message: &[Symbol],
        out: &mut [Symbol],
        work: &mut [Symbol],
    ) -> Result<(), Refusal>
        ensures { let s = self.now.shape in
            let m = meaning_of self.now.field in
            OnOk result ((cells : List CellRow) → Holds m s.size s.rows s.columns cells blocks.now →
            PassesAll m s.size s.rows s.columns cells out.new) }
    {
        coder::encode(&self.field, &self.shape, blocks, message, out, work)
    }

    // Refuses with Check where the word fails a parity check.
    pub(crate) fn check(&self, cells: &[CellRow], word: &[Symbol]) -> Result<(), Refusal>
        ensures { let s = self.now.shape in
            OnOk result (PassesAll (meaning_of self.now.field) s.size s.rows s.columns cells.now word.now) }
    {
        code::check(&self.field, &self.shape, cells, word)?.or(Err(Refusal::Check))
    }

    // The message of a word, into `out`. Refuses with Check where the word fails a parity check.
    pub(crate) fn recover(
        &self,
        cells: &[CellRow],
        blocks: &[Symbol],
        word: &[Symbol],
        out: &mut [Symbol],
        work: &mut [Symbol],
    ) -> Result<(), Refusal>
        ensures { let s = self.now.shape in
            OnOk result (Reads (meaning_of self.now.field) s.size s.rows s.columns cells.now blocks.now
            word.now out.old out.new) }
    {
        coder::recover(&self.field, &self.shape, cells, blocks, word, out, work)?;
        Ok(())
    }
}
