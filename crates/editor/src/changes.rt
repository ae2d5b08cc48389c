// The editor, and the calls that change what it holds. After each accepted change the block buffer holds the echelon forms of the
// array and size as they are then; a refused one leaves everything as it was.
ghost use Rattle.std.specs.Prelude.{◌≡◌, ℕ, ◌*◌, ◌<◌, ◌≤◌, ◌++◌, length, drop, replicate, IfOk, MatchResult, slice_index};
ghost use Rattle.std.specs.Result.{result_err};
ghost use Rattle.array.specs.Cells.{empty};
ghost use Rattle.blocks.specs.Blocks.{Holds};
ghost use Rattle.history.specs.Histories.{state_of};
ghost use Rattle.history.specs.Refusals.{new_refusal};
ghost use Rattle.history.specs.Model.{fresh, place, resize, undo, redo};
ghost use Rattle.editor.specs.Editing.{lent, Forms, PastKept, Stands, Changes};

use array::{Cell, CellRow};
use blocks::build_forms;
use field::{Field, Symbol};
use history::{ChangeRecord, History};
use refusal::Refusal;

// It holds nothing of the buffers, so that a copy of it speaks of the same ones. They are lent one by one, to read or to write as a
// call needs them, and each change is its step of the history and the forms built after it: one function for the four would take the
// step as a closure, which would have to say what it writes of all that it is lent. That the field stays is a promise of each
// change: a type says what holds of a value, and not what stays the same.
#[derive(Clone, Copy, PartialEq, Eq, Debug)]
pub struct Editor<F> {
    field: F,
    history: History,
}

impl<F: Field> Editor<F> {
    // An array of rows x columns empty cells at a circulant size, with no changes yet.
    // Refuses with Buffer, Size, then Shape; the buffers are then as they were.
    pub fn new(
        field: F,
        size: usize,
        rows: usize,
        columns: usize,
        cells: &mut [CellRow],
        blocks: &mut [Symbol],
        records: &[ChangeRecord],
    ) -> Result<Self, Refusal>
    where
        F: Drop,
        ensures says { let n = lent (length cells.old) (length blocks.old) (length records.now) in
            result_err result ≡ new_refusal (F.Field.meaning field).q n size rows columns }
        ensures does { let was = cells.old in
            MatchResult result
            (λ e.
            let after = state_of e.history cells.new records.now in
            (e.field ≡ field) × (after.size ≡ size) × (after.rows ≡ rows) × (after.columns ≡ columns) × (after.count ≡ 0) × (after.in_force ≡ 0)
            × (cells.new ≡ replicate (rows * columns) empty ++ drop (rows * columns) was)
            × Forms (F.Field.meaning field) after blocks.new × PastKept after blocks.old blocks.new)
            (λ _. (cells.new ≡ was) × (blocks.new ≡ blocks.old)) }
        ensures model { let m = F.Field.meaning field in
            IfOk result (λ e. Stands m (fresh m.q size rows columns) (state_of e.history cells.new records.now) blocks.new) }
    {
        let history = History::new(
            field.order(),
            size,
            rows,
            columns,
            cells,
            blocks.len(),
            records.len(),
        )?;
        let editor = Editor { field, history };
        editor.rebuild(cells, blocks)?;
        Ok(editor)
    }

    // Puts a cell at a place of the array. The changes that were undone are forgotten.
    // Refuses with Buffer, Place, Cell where a coefficient is q or more, then Full.
    pub fn place(
        &mut self,
        cells: &mut [CellRow],
        blocks: &mut [Symbol],
        records: &mut [ChangeRecord],
        row: usize,
        column: usize,
        cell: &Cell,
    ) -> Result<(), Refusal>
        ensures change { let before = state_of self.old.history cells.old records.old in
            let after = state_of self.new.history cells.new records.new in
            Changes (F.Field.meaning self.old.field) before after blocks.old blocks.new (place row column cell.now.row) result }
        ensures same { self.new.field ≡ self.old.field }
        ensures shape { self.new.history.shape ≡ self.old.history.shape }
    {
        let order = self.field.order();
        self.history
            .place(order, cells, blocks.len(), records, row, column, cell)?;
        self.rebuild(cells, blocks)
    }

    // Takes another circulant size; the cells stay. The changes that were undone are forgotten.
    // Refuses with Buffer, Size, Shape, then Full.
    pub fn resize(
        &mut self,
        cells: &[CellRow],
        blocks: &mut [Symbol],
        records: &mut [ChangeRecord],
        size: usize,
    ) -> Result<(), Refusal>
        ensures change { let before = state_of self.old.history cells.now records.old in
            let after = state_of self.new.history cells.now records.new in
            Changes (F.Field.meaning self.old.field) before after blocks.old blocks.new (resize size) result }
        ensures same { self.new.field ≡ self.old.field }
    {
        let order = self.field.order();
        self.history
            .resize(order, cells, blocks.len(), records, size)?;
        self.rebuild(cells, blocks)
    }

    // Undoes the last change in force.
    // Refuses with Buffer, Nothing, then Record where its record does not fit.
    pub fn undo(
        &mut self,
        cells: &mut [CellRow],
        blocks: &mut [Symbol],
        records: &[ChangeRecord],
    ) -> Result<(), Refusal>
        ensures change { let before = state_of self.old.history cells.old records.now in
            let after = state_of self.new.history cells.new records.now in
            Changes (F.Field.meaning self.old.field) before after blocks.old blocks.new undo result }
        ensures same { self.new.field ≡ self.old.field }
    {
        let order = self.field.order();
        self.history.undo(order, cells, blocks.len(), records)?;
        self.rebuild(cells, blocks)
    }

    // Redoes the first change that is not in force.
    // Refuses with Buffer, Nothing, then Record where its record does not fit.
    pub fn redo(
        &mut self,
        cells: &mut [CellRow],
        blocks: &mut [Symbol],
        records: &[ChangeRecord],
    ) -> Result<(), Refusal>
        ensures change { let before = state_of self.old.history cells.old records.now in
            let after = state_of self.new.history cells.new records.now in
            Changes (F.Field.meaning self.old.field) before after blocks.old blocks.new redo result }
        ensures same { self.new.field ≡ self.old.field }
    {
        let order = self.field.order();
        self.history.redo(order, cells, blocks.len(), records)?;
        self.rebuild(cells, blocks)
    }

    // Builds the echelon forms of the array. Refuses with Buffer, and writes nothing, where a buffer is too short.
    fn rebuild(&self, cells: &[CellRow], blocks: &mut [Symbol]) -> Result<(), Refusal>
        ensures { let s = self.now.history.shape in
            MatchResult result
            (λ _. Holds (F.Field.meaning self.now.field) s.size s.rows s.columns cells.now blocks.new
            × ((i : ℕ) → s.rows * s.columns * s.size ≤ i → slice_index blocks.new i ≡ slice_index blocks.old i))
            (λ _. 512 ≤ length cells.now → length blocks.old < 16384) }
    {
        build_forms(&self.field, &self.history.shape(), cells, blocks)
    }
}

impl<F> Editor<F> {
    pub fn field(&self) -> &F
        ensures { result.now ≡ self.now.field }
    {
        &self.field
    }

    // The shape of the array at the present size, and how many changes there are and are in force.
    pub fn history(&self) -> &History
        ensures { result.now ≡ self.now.history }
    {
        &self.history
    }
}
