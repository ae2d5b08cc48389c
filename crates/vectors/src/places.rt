// Placing cells in an array, and looking at them.
use super::board::Board;
use super::lines::{Spaced, accepted};
use super::terms::terms;
use array::{Cell, Shape};
use field::Symbol;

// cells of the buffer, row, column, coefficient of the last term
const PLACES: [(usize, usize, usize, Symbol); 17] = [
    (512, 0, 0, 1),
    (512, 1, 2, 3),
    (600, 1, 0, 2),
    (511, 0, 0, 1),
    (512, 2, 0, 1),
    (512, 0, 3, 1),
    (512, 0, 0, 4),
    (512, 0, 0, 511),
    (511, 2, 0, 4),
    (511, 0, 3, 1),
    (511, 0, 0, 4),
    (512, 2, 0, 4),
    (512, 0, 3, 4),
    (0, 0, 0, 1),
    (512, 65535, 0, 1),
    (512, 0, 65535, 1),
    (512, 65535, 65535, 4),
];

fn print_show(rt: &HostRuntime, board: &Board, row: usize, column: usize) -> anyhow::Result<()> {
    let mut cell = Cell::try_from(terms![7:3].as_slice())?;
    let answer = accepted(board.show(row, column, &mut cell));
    println!(rt; "  show: {answer}")?;
    println!(rt;
        "  then the cell of the caller holds:{}",
        Spaced(cell.terms())
    )?;
    Ok(())
}

fn print_place(
    rt: &HostRuntime,
    cells: usize,
    row: usize,
    column: usize,
    last: Symbol,
) -> anyhow::Result<()> {
    let mut board = Board::new(rt.alloc(), 4, Shape::new(4, 3, 2, 3)?, cells)?;
    let cell = Cell::try_from(terms![5:3, 6:last].as_slice())?;
    let answer = accepted(board.place(row, column, &cell));
    println!(rt;
        "cells, row, column {cells} {row} {column}:{}",
        Spaced(cell.terms())
    )?;
    println!(rt; "  place: {answer}")?;
    print_show(rt, &board, row, column)
}

pub fn print_places(rt: &HostRuntime) -> anyhow::Result<()> {
    rt.println(
        "== placing a cell in a 2 x 3 array over 4 symbols, and looking with a cell that holds 7:3",
    )?;
    for (cells, row, column, last) in PLACES {
        print_place(rt, cells, row, column, last)?;
    }
    Ok(())
}
