// An array with a buffer of its own.
use array::{Cell, CellRow, Shape, Term};
use code::Verdict;
use field::{Field, Symbol};
use refusal::Refusal;
use std::alloc::{AllocError, Global};

#[derive(Drop)]
pub struct Board {
    order: u16,
    shape: Shape,
    cells: Vec<CellRow>,
}

impl Board {
    // An array of empty cells for a field of `order` symbols, in a buffer of `cells` cells.
    pub fn new(alloc: Global, order: u16, shape: Shape, cells: usize) -> Result<Self, AllocError> {
        Ok(Board {
            order,
            shape,
            cells: vec![in alloc; CellRow::default(); cells]?,
        })
    }

    pub fn shape(&self) -> Shape {
        self.shape
    }

    pub fn place(&mut self, row: usize, column: usize, cell: &Cell) -> Result<(), Refusal> {
        array::place(&self.shape, self.order, &mut self.cells, row, column, cell)
    }

    // Places the cell of a list of terms.
    pub fn put(&mut self, row: usize, column: usize, terms: &[Term]) -> Result<(), Refusal> {
        self.place(row, column, &Cell::try_from(terms)?)
    }

    pub fn show(&self, row: usize, column: usize, cell: &mut Cell) -> Result<(), Refusal> {
        array::show(&self.shape, &self.cells, row, column, cell)
    }

    pub fn check<F: Field>(&self, f: &F, word: &[Symbol]) -> Result<Verdict, Refusal> {
        code::check(f, &self.shape, &self.cells, word)
    }
}
