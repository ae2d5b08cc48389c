// A cell: zero to four terms that keep the rules for cells, whoever holds it.
ghost use Rattle.std.specs.Prelude.{◌≡◌, true, false, take, MatchResult};
ghost use Rattle.array.specs.Cells.{lawful, sound, normal, packed, empty};
ghost use Rattle.refusal.specs.declared.Refusal.TheVariants.{Cell as CellRule};

use super::plain::{CellRow, Term};
use super::rules::{is_lawful, is_sound};
use refusal::Refusal;

#[derive(Clone, Copy, PartialEq, Eq, Debug)]
pub struct Cell {
    row: CellRow,
    ghost keeps: { sound row ≡ true },
}

// A constant, since it fills arrays of four; no heap is used.
const NO_TERM: Term = Term {
    shift: 0,
    coefficient: 0,
};

impl Cell {
    // The cell that has no terms: `Cell::empty()` says so, where a Default would not.
    pub fn empty() -> Self
        ensures { result.row ≡ empty }
    {
        Cell {
            row: CellRow {
                count: 0,
                terms: [NO_TERM; 4],
            },
        }
    }

    // Makes this the cell of a list of terms.
    // Refuses with Cell where the list breaks a rule for cells; the cell is then as it was.
    pub fn fill(&mut self, terms: &[Term]) -> Result<(), Refusal>
        ensures { let ts = terms.now in
            MatchResult result
            (λ _. (lawful ts ≡ true) × (self.new.row ≡ packed ts))
            (λ x. (lawful ts ≡ false) × (x ≡ CellRule) × (self.new.row ≡ self.old.row)) }
    {
        *self = Cell::try_from(terms)?;
        Ok(())
    }

    // The row that a buffer holds for this cell.
    pub fn row(&self) -> CellRow
        ensures { result ≡ self.now.row }
    {
        self.row
    }

    // The terms, in the order of their shifts.
    pub fn terms(&self) -> &[Term]
        ensures { result.now ≡ take self.now.row.count self.now.row.terms }
    {
        &self.row.terms[..self.row.count as usize]
    }
}

// The cell that a row is read as: the empty cell where the row breaks a rule for cells.
impl From<CellRow> for Cell {
    ghost from_gives = { λ row c. c.row ≡ normal row };

    fn from(row: CellRow) -> Self {
        if is_sound(&row) {
            Cell { row }
        } else {
            Cell::empty()
        }
    }
}

// The cell of a list of terms. Refuses with Cell where the list breaks a rule for cells.
impl<'a> TryFrom<&'a [Term]> for Cell {
    type Error = Refusal;

    ghost try_from_gives = { λ terms r. MatchResult r
        (λ c. (lawful terms.now ≡ true) × (c.row ≡ packed terms.now))
        (λ x. (lawful terms.now ≡ false) × (x ≡ CellRule)) };

    fn try_from(terms: &'a [Term]) -> Result<Self, Refusal> {
        if !is_lawful(terms) {
            return Err(Refusal::Cell);
        }
        let mut places = [NO_TERM; 4];
        places[..terms.len()].copy_from_slice(terms);
        Ok(Cell {
            row: CellRow {
                count: terms.len() as u8,
                terms: places,
            },
        })
    }
}
