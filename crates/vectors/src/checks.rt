// Checks of small arrays over 4 symbols, worked by hand.
use super::board::Board;
use super::lines::{Spaced, judged};
use super::terms::terms;
use array::{CELLS, Shape};
use field::{ShiftField, Symbol};
use refusal::Refusal;

const ONE_ROW: [[Symbol; 6]; 8] = [
    [2, 3, 1, 1, 2, 3],
    [3, 1, 2, 1, 2, 3],
    [0, 0, 0, 0, 0, 0],
    [1, 1, 1, 1, 1, 1],
    [0, 0, 0, 0, 0, 3],
    [0, 0, 1, 0, 0, 0],
    [0, 1, 0, 0, 0, 0],
    [3, 3, 3, 3, 3, 3],
];

const TWO_ROWS: [[Symbol; 6]; 6] = [
    [2, 3, 1, 1, 2, 3],
    [0, 0, 0, 0, 0, 0],
    [1, 1, 1, 1, 1, 1],
    [0, 0, 0, 0, 0, 3],
    [1, 0, 0, 0, 1, 0],
    [2, 2, 2, 2, 2, 2],
];

fn draw_first_row(board: &mut Board) -> Result<(), Refusal> {
    board.put(0, 0, &terms![0:1])?;
    board.put(0, 1, &terms![1:1])
}

fn draw_second_row(board: &mut Board) -> Result<(), Refusal> {
    board.put(1, 0, &terms![0:2])?;
    board.put(1, 1, &terms![2:3, 4:1])
}

fn print_words(rt: &HostRuntime, board: &Board, words: &[[Symbol; 6]]) -> anyhow::Result<()> {
    let f = ShiftField::new(2)?;
    for word in words {
        let answer = judged(board.check(&f, word));
        println!(rt; "word{}: {answer}", Spaced(word))?;
    }
    Ok(())
}

pub fn print_small(rt: &HostRuntime) -> anyhow::Result<()> {
    rt.println("== words of the array 0:1 | 1:1 of size 3 over 4 symbols")?;
    let mut board = Board::new(rt.alloc(), 4, Shape::new(4, 3, 1, 2)?, CELLS)?;
    draw_first_row(&mut board)?;
    print_words(rt, &board, &ONE_ROW)?;
    rt.println("== words of the same array with a second row, 0:2 | 2:3 4:1")?;
    let mut board = Board::new(rt.alloc(), 4, Shape::new(4, 3, 2, 2)?, CELLS)?;
    draw_first_row(&mut board)?;
    draw_second_row(&mut board)?;
    print_words(rt, &board, &TWO_ROWS)
}

// cells of the buffer, symbols of the word, its last symbol
const CHECKS: [(usize, usize, Symbol); 16] = [
    (512, 6, 0),
    (512, 6, 3),
    (512, 6, 4),
    (512, 6, 65535),
    (512, 5, 0),
    (512, 7, 0),
    (512, 0, 0),
    (512, 12, 0),
    (511, 6, 0),
    (600, 6, 0),
    (511, 5, 0),
    (511, 6, 4),
    (511, 5, 4),
    (512, 5, 4),
    (512, 7, 4),
    (0, 6, 0),
];

// The array of one row in a buffer of `cells` cells; not drawn where they are too few.
fn board_with(rt: &HostRuntime, cells: usize) -> anyhow::Result<Board> {
    let mut board = Board::new(rt.alloc(), 4, Shape::new(4, 3, 1, 2)?, cells)?;
    if cells >= CELLS {
        draw_first_row(&mut board)?;
    }
    Ok(board)
}

fn print_case(rt: &HostRuntime, cells: usize, count: usize, last: Symbol) -> anyhow::Result<()> {
    let board = board_with(rt, cells)?;
    let mut word = vec![in rt.alloc(); 0; count]?;
    if let Some(symbol) = word.last_mut() {
        *symbol = last;
    }
    let answer = judged(board.check(&ShiftField::new(2)?, &word));
    println!(rt; "check {cells} {count} {last}: {answer}")?;
    Ok(())
}

pub fn print_refusals(rt: &HostRuntime) -> anyhow::Result<()> {
    rt.println(
        "== words of the array of one row: cells of the buffer, symbols of the word, its last symbol after zeros",
    )?;
    for (cells, count, last) in CHECKS {
        print_case(rt, cells, count, last)?;
    }
    Ok(())
}
