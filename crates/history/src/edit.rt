// An array and a circulant size under edit, with the history of the changes.
ghost use Rattle.std.specs.Prelude.{◌≡◌, ◌+◌, ◌*◌, ◌<◌, ◌≤◌, List, ◌++◌, length, drop, replicate, IfOk, MatchResult, slice_set};
ghost use Rattle.std.specs.Result.{result_err};
ghost use Rattle.array.specs.Cells.{empty};
ghost use Rattle.history.specs.Refusals.{new_refusal};
ghost use Rattle.history.specs.Model.{fresh, place, resize, undo, redo};
ghost use Rattle.history.specs.Standing.{StandsFor, Serves};

use super::change::{Edit, Kind};
use super::plain::{ChangeRecord, Lengths};
use super::rules::locate;
use array::{Cell, CellRow, Shape};
use refusal::Refusal;

// `count` records are in the record buffer, and the first `in_force` of them are in force.
// A call is lent the buffers one by one, to read or to write as it needs them: one struct of all three would ask more of its caller.
#[derive(Clone, Copy, PartialEq, Eq, Debug)]
pub struct History {
    shape: Shape,
    count: usize,
    in_force: usize,
    ghost ordered: { in_force ≤ count },
    ghost limited: { count ≤ 1024 },
}

impl History {
    ghost use Rattle.history.specs.Histories.{state_of};

    // The size, rows and columns are plain numbers, and no shape yet, since a buffer that is too short is refused before them.
    // An array of rows x columns empty cells at a circulant size, for a field of `order` symbols, with no changes yet.
    // `blocks` and `records` are the lengths of the other buffers. Refuses with Buffer, Size, then Shape.
    pub fn new(
        order: u16,
        size: usize,
        rows: usize,
        columns: usize,
        cells: &mut [CellRow],
        blocks: usize,
        records: usize,
    ) -> Result<Self, Refusal>
        ensures says { result_err result ≡ new_refusal order (record { cells = length cells.old; blocks = blocks; records = records }) size rows columns }
        ensures does { let was = cells.old in
            MatchResult result
            (λ h. (h.shape.size ≡ size) × (h.shape.rows ≡ rows) × (h.shape.columns ≡ columns)
            × (h.count ≡ 0) × (h.in_force ≡ 0)
            × (cells.new ≡ replicate (rows * columns) empty ++ drop (rows * columns) was))
            (λ _. cells.new ≡ was) }
        ensures model { IfOk result (λ h. (held : List ChangeRecord)
            → StandsFor order (fresh order size rows columns) (state_of h cells.new held)) }
    {
        let lent = Lengths {
            cells: cells.len(),
            blocks,
            records,
        };
        lent.check(0)?;
        let shape = Shape::new(order, size, rows, columns)?;
        cells[..rows * columns].fill(Cell::empty().row());
        Ok(History {
            shape,
            count: 0,
            in_force: 0,
        })
    }

    // The shape of the array at the present circulant size.
    pub fn shape(&self) -> Shape
        ensures { result ≡ self.now.shape }
    {
        self.shape
    }

    // How many records the history has.
    pub fn count(&self) -> usize
        ensures { result ≡ self.now.count }
    {
        self.count
    }

    // How many of the records, from the first on, are in force.
    pub fn in_force(&self) -> usize
        ensures { result ≡ self.now.in_force }
    {
        self.in_force
    }

    // Puts a cell at a place of the array. The changes that were undone are forgotten.
    // Refuses with Buffer, Place, Cell where a coefficient is `order` or more, then Full; nothing is then changed.
    pub fn place(
        &mut self,
        order: u16,
        cells: &mut [CellRow],
        blocks: usize,
        records: &mut [ChangeRecord],
        row: usize,
        column: usize,
        cell: &Cell,
    ) -> Result<(), Refusal>
        ensures change { let before = state_of self.old cells.old records.old in
            let after = state_of self.new cells.new records.new in
            Serves order before after blocks (place row column cell.now.row) result }
        ensures shape { self.new.shape ≡ self.old.shape }
    {
        let lent = Lengths::of(cells, blocks, records);
        lent.check(self.count)?;
        let k = locate(&self.shape, order, row, column, cell)?;
        lent.check_room(self.in_force)?;
        let change = ChangeRecord {
            kind: Kind::Place as u8,
            row: row as u8,
            column: column as u8,
            cell_before: Cell::from(cells[k]).row(),
            cell_after: cell.row(),
            ..ChangeRecord::default()
        };
        self.add_change(records, change);
        cells[k] = cell.row();
        Ok(())
    }

    // Takes another circulant size; the cells stay. The changes that were undone are forgotten.
    // Refuses with Buffer, Size, Shape, then Full; nothing is then changed.
    pub fn resize(
        &mut self,
        order: u16,
        cells: &[CellRow],
        blocks: usize,
        records: &mut [ChangeRecord],
        size: usize,
    ) -> Result<(), Refusal>
        ensures { let before = state_of self.old cells.now records.old in
            let after = state_of self.new cells.now records.new in
            Serves order before after blocks (resize size) result }
    {
        let lent = Lengths::of(cells, blocks, records);
        lent.check(self.count)?;
        let shape = Shape::new(order, size, self.shape.rows(), self.shape.columns())?;
        lent.check_room(self.in_force)?;
        let change = ChangeRecord {
            kind: Kind::Resize as u8,
            size_before: self.shape.size() as u16,
            size_after: size as u16,
            ..ChangeRecord::default()
        };
        self.add_change(records, change);
        self.shape = shape;
        Ok(())
    }

    // Writes the record of a new change after those in force, and puts it in force. The records after it are forgotten.
    fn add_change(&mut self, records: &mut [ChangeRecord], change: ChangeRecord)
        requires in_force_bound { self.old.in_force < 1024 }
        requires in_force_in_bounds { self.old.in_force < length records.old }
        ensures { let d = self.old.in_force in
            let g = self.new in
            (g.shape ≡ self.old.shape) × (g.count ≡ d + 1) × (g.in_force ≡ d + 1)
            × (records.new ≡ slice_set records.old d change) }
    {
        records[self.in_force] = change;
        self.count = self.in_force + 1;
        self.in_force = self.count;
    }

    // Undoes the last change in force.
    // Refuses with Buffer, Nothing, then Record where its record does not fit; nothing is then changed.
    pub fn undo(
        &mut self,
        order: u16,
        cells: &mut [CellRow],
        blocks: usize,
        records: &[ChangeRecord],
    ) -> Result<(), Refusal>
        ensures { let before = state_of self.old cells.old records.now in
            let after = state_of self.new cells.new records.now in
            Serves order before after blocks undo result }
    {
        Lengths::of(cells, blocks, records).check(self.count)?;
        let change = records[..self.in_force].last().ok_or(Refusal::Nothing)?;
        self.shape = Edit::undoing(change)?.apply(self.shape, order, cells)?;
        self.in_force -= 1;
        Ok(())
    }

    // Redoes the first change that is not in force.
    // Refuses with Buffer, Nothing, then Record where its record does not fit; nothing is then changed.
    pub fn redo(
        &mut self,
        order: u16,
        cells: &mut [CellRow],
        blocks: usize,
        records: &[ChangeRecord],
    ) -> Result<(), Refusal>
        ensures { let before = state_of self.old cells.old records.now in
            let after = state_of self.new cells.new records.now in
            Serves order before after blocks redo result }
    {
        Lengths::of(cells, blocks, records).check(self.count)?;
        let change = records[self.in_force..self.count]
            .first()
            .ok_or(Refusal::Nothing)?;
        self.shape = Edit::redoing(change)?.apply(self.shape, order, cells)?;
        self.in_force += 1;
        Ok(())
    }
}
