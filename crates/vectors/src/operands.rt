// Sums, products and inverses of worked pairs, and the two fields of 512 symbols side by side.
use super::lines::accepted;
use field::{Field, ShiftField, TableField};

// A degree and two operands.
const PAIRS: [(u8, u16, u16); 32] = [
    (2, 2, 3),
    (2, 3, 3),
    (2, 1, 2),
    (2, 4, 3),
    (2, 3, 4),
    (2, 7, 7),
    (3, 4, 2),
    (3, 7, 7),
    (3, 8, 5),
    (4, 8, 2),
    (4, 9, 15),
    (4, 16, 1),
    (5, 16, 2),
    (5, 31, 31),
    (5, 32, 31),
    (6, 32, 2),
    (6, 63, 63),
    (6, 63, 64),
    (7, 64, 2),
    (7, 127, 127),
    (7, 128, 127),
    (8, 128, 2),
    (8, 255, 255),
    (8, 255, 256),
    (9, 256, 2),
    (9, 511, 511),
    (9, 0, 300),
    (9, 300, 0),
    (9, 1, 511),
    (9, 512, 511),
    (9, 511, 512),
    (9, 65535, 65535),
];

fn print_pair<F: Field>(rt: &HostRuntime, name: &str, f: &F, a: u16, b: u16) -> anyhow::Result<()> {
    let q = f.order();
    println!(rt;
        "{name} {q} {a} {b}: {} {} {}",
        f.sum(a, b),
        f.product(a, b),
        f.inverse(a)
    )?;
    Ok(())
}

pub fn print_pairs(rt: &HostRuntime) -> anyhow::Result<()> {
    rt.println("== operands: q, a, b: a + b, a x b, 1 / a; an operand of q or more is taken as 0")?;
    for (degree, a, b) in PAIRS {
        print_pair(rt, "shift", &ShiftField::new(degree)?, a, b)?;
    }
    print_pair(rt, "table", &TableField, 256, 2)
}

const DEGREES: [u8; 6] = [0, 1, 2, 9, 10, 255];

pub fn print_degrees(rt: &HostRuntime) -> anyhow::Result<()> {
    rt.println("== degrees of shift fields")?;
    for degree in DEGREES {
        let answer = accepted(ShiftField::new(degree));
        println!(rt; "degree {degree}: {answer}")?;
    }
    Ok(())
}

// Do two fields answer differently?
fn differ<F: Field, G: Field>(f: &F, g: &G, a: u16, b: u16) -> bool {
    f.sum(a, b) != g.sum(a, b) || f.product(a, b) != g.product(a, b) || f.inverse(a) != g.inverse(a)
}

// How many pairs of 0 to 520 they answer differently.
fn count_differences<F: Field, G: Field>(f: &F, g: &G) -> usize {
    // By a fold: it is not proved at once that the counts fit when `sum` adds them.
    (0..521u16)
        .map(|a| (0..521u16).filter(|b| differ(f, g, a, *b)).count())
        .fold(0, |sum, count| sum.saturating_add(count))
}

pub fn print_differences(rt: &HostRuntime) -> anyhow::Result<()> {
    rt.println("== table field against shift field of degree 9")?;
    let count = count_differences(&TableField, &ShiftField::from(TableField));
    println!(rt; "pairs of 0 to 520 on which they differ: {count}")?;
    Ok(())
}
