// The calls that use the code which the editor holds, and change nothing of it.
ghost use Rattle.std.specs.Prelude.{◌≡◌, ℕ, ◌+◌, ◌*◌, ◌<◌, ◌≤◌, List, ◌++◌, length, drop, IfOk, Some, None, MatchResult, OnErr, OnOk, slice_index};
ghost use Rattle.refusal.specs.declared.Refusal.TheVariants.{Buffer};
ghost use Rattle.array.specs.declared.plain.CellRow.{CellRow};
ghost use Rattle.array.specs.Buffers.{show_refusal, cell_at};
ghost use Rattle.array.specs.Cells.{normal};
ghost use Rattle.code.specs.Checks.{Checked, Answered, PassesAll};
ghost use Rattle.coder.specs.Forms.{dimension as dimension_of};
ghost use Rattle.coder.specs.Encoding.{encoded, encode_refusal};
ghost use Rattle.coder.specs.Recovery.{recovered, Recovers, OneToOne};
ghost use Rattle.history.specs.declared.plain.ChangeRecord.{ChangeRecord};
ghost use Rattle.history.specs.Model.{Model};
ghost use Rattle.history.specs.Histories.{state_of};
ghost use Rattle.editor.specs.Editing.{Stands};

use super::changes::Editor;
use array::{Cell, CellRow};
use code::Verdict;
use coder::Unrecovered;
use field::{Field, Symbol};
use refusal::Refusal;

// The parameters of the code that an editor holds.
#[derive(Clone, Copy, PartialEq, Eq, Debug)]
pub struct Parameters {
    pub size: usize,
    pub rows: usize,
    pub columns: usize,
    pub dimension: usize,
}

impl<F: Field> Editor<F> {
    // The circulant size, the rows and columns of the array, and the dimension.
    // Refuses with Buffer where there are fewer than 16,384 block symbols.
    pub fn size(&self, blocks: &[Symbol]) -> Result<Parameters, Refusal>
        ensures { let s = self.now.history.shape in
            let b = blocks.now in
            MatchResult result
            (λ p. (16384 ≤ length b) × (p.size ≡ s.size) × (p.rows ≡ s.rows) × (p.columns ≡ s.columns)
            × (p.dimension ≡ dimension_of s.rows s.columns s.size b))
            (λ x. (length b < 16384) × (x ≡ Buffer)) }
    {
        let shape = self.history().shape();
        Ok(Parameters {
            size: shape.size(),
            rows: shape.rows(),
            columns: shape.columns(),
            dimension: coder::dimension(&shape, blocks)?,
        })
    }

    // Fills the caller's cell with the one at a place of the array. Refuses with Buffer, then Place; the cell is then as it was.
    pub fn show(
        &self,
        cells: &[CellRow],
        row: usize,
        column: usize,
        cell: &mut Cell,
    ) -> Result<(), Refusal>
        ensures { let s = self.now.history.shape in
            let held = cells.now in
            let answer = show_refusal s.rows s.columns (length held) row column in
            MatchResult result
            (λ _. (answer ≡ None) × (cell.new.row ≡ normal (cell_at s.columns held row column)))
            (λ x. (answer ≡ Some x) × (cell.new.row ≡ cell.old.row)) }
    {
        array::show(&self.history().shape(), cells, row, column, cell)
    }

    // The word of a message, into `out`; `work` is free in its first columns x size symbols afterwards.
    // Refuses with Buffer, Length where the message has not as many symbols as the dimension, Symbol, then Room.
    pub fn encode(
        &self,
        blocks: &[Symbol],
        message: &[Symbol],
        out: &mut [Symbol],
        work: &mut [Symbol],
    ) -> Result<(), Refusal>
        ensures refusal { let s = self.now.history.shape in
            let answer = encode_refusal (F.Field.meaning self.now.field).q s.size s.rows s.columns blocks.now
            message.now (length out.old) (length work.old) in
            MatchResult result (λ _. answer ≡ None) (λ x. answer ≡ Some x) }
        ensures word { let s = self.now.history.shape in
            OnOk result ((j l : ℕ) → j < s.columns → l < s.size → slice_index out.new (j * s.size + l)
            ≡ encoded (F.Field.meaning self.now.field) s.size s.rows s.columns blocks.now message.now j l) }
        ensures rest { let s = self.now.history.shape in
            ((i : ℕ) → s.columns * s.size ≤ i →
            (slice_index out.new i ≡ slice_index out.old i) × (slice_index work.new i ≡ slice_index work.old i)) }
        ensures kept { OnErr result ((out.new ≡ out.old) × (work.new ≡ work.old)) }
        ensures passes { let h = self.now.history in
            let m = F.Field.meaning self.now.field in
            OnOk result ((k : Model) (cells : List CellRow) (records : List ChangeRecord) →
            Stands m k (state_of h cells records) blocks.now →
            PassesAll m h.shape.size h.shape.rows h.shape.columns cells out.new) }
    {
        coder::encode(
            self.field(),
            &self.history().shape(),
            blocks,
            message,
            out,
            work,
        )
    }

    // Says of a word whether it passes every parity check of the array, or which one fails first.
    // Refuses with Buffer, Length where the word has not columns x size symbols, then Symbol.
    pub fn check(&self, cells: &[CellRow], word: &[Symbol]) -> Result<Verdict, Refusal>
        ensures checked { let s = self.now.history.shape in
            Checked (F.Field.meaning self.now.field) s.size s.rows s.columns cells.now word.now result }
        ensures answered { let s = self.now.history.shape in
            Answered (F.Field.meaning self.now.field) s.size s.rows s.columns cells.now word.now result }
    {
        code::check(self.field(), &self.history().shape(), cells, word)
    }

    // The message of a word that passes every parity check, into the front of `out`; answers its length.
    // `work` is free in its first columns x size symbols afterwards. Refuses with Buffer, Length, Symbol, Room, then with the first
    // parity check that fails.
    pub fn recover(
        &self,
        cells: &[CellRow],
        blocks: &[Symbol],
        word: &[Symbol],
        out: &mut [Symbol],
        work: &mut [Symbol],
    ) -> Result<usize, Unrecovered>
        ensures judged { let s = self.now.history.shape in
            Recovers (F.Field.meaning self.now.field) s.size s.rows s.columns cells.now blocks.now
            word.now (length out.old) (length work.old) result }
        ensures message { let s = self.now.history.shape in
            IfOk result (λ n. out.new
            ≡ recovered (F.Field.meaning self.now.field) s.size s.rows s.columns blocks.now word.now
            ++ drop n out.old) }
        ensures rest { let s = self.now.history.shape in
            ((i : ℕ) → s.columns * s.size ≤ i → slice_index work.new i ≡ slice_index work.old i) }
        ensures kept { OnErr result ((out.new ≡ out.old) × (work.new ≡ work.old)) }
        ensures one_to_one { let h = self.now.history in
            let m = F.Field.meaning self.now.field in
            ((k : Model) (records : List ChangeRecord) → Stands m k (state_of h cells.now records) blocks.now →
            OneToOne m h.shape.size h.shape.rows h.shape.columns cells.now blocks.now) }
    {
        coder::recover(
            self.field(),
            &self.history().shape(),
            cells,
            blocks,
            word,
            out,
            work,
        )
    }
}
