// What a record buffer holds, and the lengths of the buffers that a call is lent.
ghost use Rattle.std.specs.Prelude.{◌≡◌, length, None};
ghost use Rattle.std.specs.Result.{result_err};
ghost use Rattle.refusal.specs.declared.Refusal.TheVariants.{Buffer, Full};
ghost use Rattle.array.specs.Shapes.{unless};
ghost use Rattle.history.specs.Refusals.{roomy, spare};

use array::{BLOCK_SYMBOLS, CELLS, CellRow};
use refusal::Refusal;

// One change as plain numbers, of any content: how a record buffer holds changes.
// Kind 1 puts a cell at a row and a column, kind 2 takes another circulant size.
// The parts that belong to the other kind are 0, or the empty cell.
#[derive(Clone, Copy, PartialEq, Eq, Debug, Default)]
pub struct ChangeRecord {
    pub kind: u8,
    pub row: u8,
    pub column: u8,
    pub cell_before: CellRow,
    pub cell_after: CellRow,
    pub size_before: u16,
    pub size_after: u16,
}

const CHANGES: usize = 1024;

// The lengths of the buffers that a call is lent: of cells, of block symbols and of records.
#[derive(Clone, Copy)]
pub struct Lengths {
    pub cells: usize,
    pub blocks: usize,
    pub records: usize,
}

impl Lengths {
    pub fn of(cells: &[CellRow], blocks: usize, records: &[ChangeRecord]) -> Self
        ensures { result ≡ record { cells = length cells.now; blocks = blocks; records = length records.now } }
    {
        Lengths {
            cells: cells.len(),
            blocks,
            records: records.len(),
        }
    }

    // Judges the lengths, for a history of `count` records.
    pub fn check(self, count: usize) -> Result<(), Refusal>
        ensures { result_err result ≡ unless (roomy self count) Buffer None }
    {
        if self.cells < CELLS || self.blocks < BLOCK_SYMBOLS || self.records < count {
            return Err(Refusal::Buffer);
        }
        Ok(())
    }

    // Judges whether one more change than `in_force` can be in force.
    pub fn check_room(self, in_force: usize) -> Result<(), Refusal>
        ensures { result_err result ≡ unless (spare self in_force) Full None }
    {
        if in_force >= CHANGES || in_force >= self.records {
            return Err(Refusal::Full);
        }
        Ok(())
    }
}
