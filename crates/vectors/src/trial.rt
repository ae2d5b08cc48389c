// Arrays drawn by a source, and words tried against them.
use super::board::Board;
use super::lines::{Spaced, judged};
use super::source::Source;
use array::{CELLS, Cell, Shape};
use field::{Field, Symbol};
use std::alloc::AllocError;
use std::fmt;

// An array over a field, and the source that its cells and words are drawn from.
#[derive(Drop)]
pub struct Trial<'a, F> {
    rt: &'a HostRuntime,
    field: &'a F,
    source: Source,
    board: Board,
}

impl<'a, F: Field> Trial<'a, F> {
    pub fn new(
        rt: &'a HostRuntime,
        field: &'a F,
        seed: u32,
        shape: Shape,
    ) -> Result<Self, AllocError> {
        Ok(Trial {
            rt,
            field,
            source: Source::new(seed),
            board: Board::new(rt.alloc(), field.order(), shape, CELLS)?,
        })
    }

    // Draws a cell of `count` terms for a place of the array.
    pub fn draw_cell(&mut self, row: usize, column: usize, count: u16) -> anyhow::Result<Cell> {
        let cell = self
            .source
            .cell(self.rt.alloc(), self.field.order(), count)?;
        self.board.place(row, column, &cell)?;
        Ok(cell)
    }

    // Draws a cell of 0 to 4 terms for each place of the array.
    pub fn draw_cells(&mut self) -> anyhow::Result<()> {
        let shape = self.board.shape();
        // By number, as a place is given.
        for row in 0..shape.rows() {
            for column in 0..shape.columns() {
                let count = self.source.below(5);
                self.draw_cell(row, column, count)?;
            }
        }
        Ok(())
    }

    pub fn draw_word(&mut self, count: usize) -> Result<Vec<Symbol>, AllocError> {
        self.source.word(self.rt.alloc(), self.field.order(), count)
    }

    // The array with its cells, as they are read back.
    pub fn print_array(&self) -> anyhow::Result<()> {
        let q = self.field.order();
        let shape = self.board.shape();
        let (rows, columns) = (shape.rows(), shape.columns());
        println!(self.rt; "array {q} {} {rows} {columns}:", shape.size())?;
        let mut cell = Cell::empty();
        // By number, as a place is given.
        for row in 0..rows {
            for column in 0..columns {
                self.board.show(row, column, &mut cell)?;
                println!(self.rt; "cell {row} {column}:{}", Spaced(cell.terms()))?;
            }
        }
        Ok(())
    }

    // What the check says of a word.
    pub fn print_word(
        &self,
        name: impl fmt::Display + Drop,
        word: &[Symbol],
    ) -> anyhow::Result<()> {
        let answer = judged(self.board.check(self.field, word));
        println!(self.rt; "{name}: {answer}")?;
        Ok(())
    }

    // Adds a symbol that is not 0 to one of the word, and prints what the check says then.
    pub fn print_changed(&mut self, word: &mut [Symbol]) -> anyhow::Result<()> {
        let at = self.source.below(word.len().min(65535) as u16);
        let by = self.source.nonzero(self.field.order());
        if let Some(symbol) = word.get_mut(at as usize) {
            *symbol = self.field.sum(*symbol, by);
        }
        self.print_word(format_args!("changed {at} {by}"), word)
    }

    // A word of zeros, a drawn one, and one that passes, also with three symbols changed.
    pub fn print_words(&mut self, passing: &[Symbol]) -> anyhow::Result<()> {
        let alloc = self.rt.alloc();
        self.print_word("zero word", &vec![in alloc; 0; passing.len()]?)?;
        let drawn = self.draw_word(passing.len())?;
        self.print_word("drawn word", &drawn)?;
        self.print_word("word of the code", passing)?;
        let mut word = Vec::from_slice(alloc, passing)?;
        for _ in 0..3 {
            self.print_changed(&mut word)?;
        }
        Ok(())
    }
}
