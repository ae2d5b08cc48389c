// Arrays drawn by the source, with words that pass and words that do not.
use super::passing;
use super::trial::Trial;
use array::Shape;
use field::{Field, ShiftField, Symbol, TableField};

fn print_trial<F: Field>(mut trial: Trial<F>, passing: &[Symbol]) -> anyhow::Result<()> {
    trial.draw_cells()?;
    trial.print_array()?;
    trial.print_words(passing)
}

// What the source starts from, a degree, the size, rows and columns of an array, and a word that passes.
const ARRAYS: [(u32, u8, usize, usize, usize, &[Symbol]); 8] = [
    (1001, 2, 3, 2, 4, &passing::WORD_2_3),
    (1002, 2, 1, 3, 5, &passing::WORD_2_1),
    (1003, 3, 7, 2, 4, &passing::WORD_3_7),
    (1004, 4, 5, 2, 4, &passing::WORD_4_5),
    (1005, 5, 31, 1, 2, &passing::WORD_5_31),
    (1006, 6, 9, 2, 4, &passing::WORD_6_9),
    (1007, 7, 1, 2, 5, &passing::WORD_7_1),
    (1008, 8, 17, 2, 3, &passing::WORD_8_17),
];

pub fn print_drawn(rt: &HostRuntime) -> anyhow::Result<()> {
    rt.println("== drawn arrays: q, size, rows, columns; changed K X: X is added to symbol K")?;
    for (seed, degree, size, rows, columns, word) in ARRAYS {
        let f = ShiftField::new(degree)?;
        let shape = Shape::new(f.order(), size, rows, columns)?;
        print_trial(Trial::new(rt, &f, seed, shape)?, word)?;
    }
    let shape = Shape::new(TableField.order(), 7, 3, 6)?;
    print_trial(
        Trial::new(rt, &TableField, 1009, shape)?,
        &passing::WORD_9_7,
    )
}
