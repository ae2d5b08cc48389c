// An editor of one row of two cells, {(0, 1)} and {(1, 1)}, over 4 symbols at size 3, with its buffers.
use array::{BLOCK_SYMBOLS, CELLS, Cell, CellRow, Term};
use code::Verdict;
use editor::{Editor, Parameters};
use field::{ShiftField, Symbol};
use history::ChangeRecord;
use refusal::Refusal;
use std::alloc::Global;

#[derive(Drop)]
pub struct Held {
    editor: Editor<ShiftField>,
    pub cells: Vec<CellRow>,
    pub blocks: Vec<Symbol>,
    pub records: Vec<ChangeRecord>,
}

fn term(shift: u16, coefficient: u16) -> Term {
    Term { shift, coefficient }
}

impl Held {
    pub fn new(alloc: Global) -> anyhow::Result<Self> {
        let mut cells = vec![in alloc; CellRow::default(); CELLS]?;
        let mut blocks = vec![in alloc; 0; BLOCK_SYMBOLS]?;
        let records = vec![in alloc; ChangeRecord::default(); 1024]?;
        let field = ShiftField::new(2)?;
        let editor = Editor::new(field, 3, 1, 2, &mut cells, &mut blocks, &records)?;
        let mut held = Held {
            editor,
            cells,
            blocks,
            records,
        };
        held.place(0, 0, &[term(0, 1)])?;
        held.place(0, 1, &[term(1, 1)])?;
        Ok(held)
    }

    pub fn place(&mut self, row: usize, column: usize, terms: &[Term]) -> Result<(), Refusal> {
        self.editor.place(
            &mut self.cells,
            &mut self.blocks,
            &mut self.records,
            row,
            column,
            &Cell::try_from(terms)?,
        )
    }

    pub fn undo(&mut self) -> Result<(), Refusal> {
        self.editor
            .undo(&mut self.cells, &mut self.blocks, &self.records)
    }

    pub fn redo(&mut self) -> Result<(), Refusal> {
        self.editor
            .redo(&mut self.cells, &mut self.blocks, &self.records)
    }

    pub fn size(&self) -> Result<Parameters, Refusal> {
        self.editor.size(&self.blocks)
    }

    pub fn check(&self, word: &[Symbol]) -> Result<Verdict, Refusal> {
        self.editor.check(&self.cells, word)
    }

    // The word of two columns that a message becomes.
    pub fn encode(&self, message: &[Symbol]) -> Result<[Symbol; 6], Refusal> {
        let mut word = [0; 6];
        let mut work = [0; 6];
        self.editor
            .encode(&self.blocks, message, &mut word, &mut work)?;
        Ok(word)
    }

    // How many terms the cell at a place has.
    pub fn terms_at(&self, row: usize, column: usize) -> Result<usize, Refusal> {
        let mut cell = Cell::empty();
        self.editor.show(&self.cells, row, column, &mut cell)?;
        Ok(cell.terms().len())
    }
}
