// Cells: what fill accepts, and how rows of any content are read.
use super::lines::{Spaced, accepted};
use super::terms::terms;
use array::{Cell, CellRow, Term};

const FILLS: [&[Term]; 17] = [
    &terms![],
    &terms![0:1],
    &terms![511:511],
    &terms![0:1, 1:1, 2:1, 3:1],
    &terms![5:1, 6:2, 510:3, 511:511],
    &terms![512:1],
    &terms![0:0],
    &terms![0:512],
    &terms![0:65535],
    &terms![65535:1],
    &terms![4:1, 4:1],
    &terms![4:1, 3:1],
    &terms![0:1, 1:1, 2:1, 2:1],
    &terms![0:1, 1:1, 2:1, 3:1, 4:1],
    &terms![0:1, 1:0],
    &terms![0:1, 1:512],
    &terms![0:1, 512:1],
];

fn print_fill(rt: &HostRuntime, terms: &[Term]) -> anyhow::Result<()> {
    let mut cell = Cell::try_from(terms![7:3].as_slice())?;
    let answer = accepted(cell.fill(terms));
    println!(rt; "terms:{}", Spaced(terms))?;
    println!(rt; "  fill: {answer}")?;
    println!(rt; "  then the cell holds:{}", Spaced(cell.terms()))?;
    Ok(())
}

pub fn print_fills(rt: &HostRuntime) -> anyhow::Result<()> {
    rt.println("== filling a cell that holds 7:3")?;
    for terms in FILLS {
        print_fill(rt, terms)?;
    }
    Ok(())
}

// The count and the terms of each row.
const ROWS: [(u8, [Term; 4]); 14] = [
    (0, terms![0:0, 0:0, 0:0, 0:0]),
    (1, terms![0:1, 0:0, 0:0, 0:0]),
    (4, terms![0:1, 1:2, 2:3, 511:511]),
    (5, terms![0:1, 1:1, 2:1, 3:1]),
    (255, terms![0:0, 0:0, 0:0, 0:0]),
    (1, terms![0:1, 1:0, 0:0, 0:0]),
    (1, terms![0:1, 0:0, 0:0, 0:1]),
    (0, terms![0:1, 0:0, 0:0, 0:0]),
    (1, terms![512:1, 0:0, 0:0, 0:0]),
    (1, terms![0:0, 0:0, 0:0, 0:0]),
    (1, terms![3:512, 0:0, 0:0, 0:0]),
    (2, terms![3:1, 3:1, 0:0, 0:0]),
    (2, terms![3:1, 2:1, 0:0, 0:0]),
    (3, terms![3:1, 4:1, 0:0, 0:0]),
];

pub fn print_rows(rt: &HostRuntime) -> anyhow::Result<()> {
    rt.println("== rows with their count, and the terms of the cell that each is read as")?;
    for (count, terms) in ROWS {
        let cell = Cell::from(CellRow { count, terms });
        println!(rt; "row {count}:{}", Spaced(&terms))?;
        println!(rt; "  cell:{}", Spaced(cell.terms()))?;
    }
    Ok(())
}
