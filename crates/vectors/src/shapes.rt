// Shapes: which sizes, rows and columns an array may have.
use super::lines::accepted;
use array::Shape;

// q, size, rows, columns
const SHAPES: [(u16, usize, usize, usize); 34] = [
    (512, 1, 1, 1),
    (512, 7, 1, 1),
    (512, 73, 1, 1),
    (512, 511, 1, 1),
    (512, 0, 1, 1),
    (512, 2, 1, 1),
    (512, 9, 1, 1),
    (512, 512, 1, 1),
    (512, 511, 2, 16),
    (512, 511, 3, 16),
    (64, 63, 8, 32),
    (64, 63, 8, 33),
    (256, 255, 1, 64),
    (256, 255, 2, 64),
    (64, 9, 8, 64),
    (4, 3, 8, 64),
    (2, 1, 8, 64),
    (512, 1, 0, 1),
    (512, 1, 8, 1),
    (512, 1, 9, 1),
    (512, 1, 1, 0),
    (512, 1, 1, 64),
    (512, 1, 1, 65),
    (512, 2, 0, 1),
    (512, 0, 9, 65),
    (512, 512, 3, 16),
    (4, 511, 1, 1),
    (4, 2, 1, 1),
    (1, 511, 1, 1),
    (1, 512, 1, 1),
    (0, 1, 1, 1),
    (512, 65535, 1, 1),
    (512, 511, 65535, 1),
    (512, 511, 1, 65535),
];

pub fn print_shapes(rt: &HostRuntime) -> anyhow::Result<()> {
    rt.println("== shapes: q, size, rows, columns")?;
    for (q, size, rows, columns) in SHAPES {
        let answer = accepted(Shape::new(q, size, rows, columns));
        println!(rt; "shape {q} {size} {rows} {columns}: {answer}")?;
    }
    Ok(())
}
