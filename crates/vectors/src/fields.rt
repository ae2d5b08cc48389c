// The published power tables of the primitive polynomials, with inverses, and all sums and products as digests.
use super::lines::print_symbols;
use field::{Field, ShiftField, Symbol, TableField};
use std::iter;

// One number more in a digest.
fn mix(digest: u16, x: u16) -> u16 {
    ((digest as u32 * 31 + x as u32) % 65521) as u16
}

// Of what an operation answers, for a from 0 to q - 1 and for each a b from 0 to q - 1.
fn digest<O: Fn(Symbol, Symbol) -> Symbol>(q: u16, operation: O) -> u16
    requires { O.IsAlwaysCallable operation }
{
    let mut digest = 0;
    for a in 0..q {
        for b in 0..q {
            digest = mix(digest, operation(a, b));
        }
    }
    digest
}

fn print_powers<F: Field>(rt: &HostRuntime, f: &F) -> anyhow::Result<()> {
    let count = f.order().saturating_sub(1) as usize;
    let next = |power: &Symbol| Some(f.product(*power, f.generator()));
    let powers: Vec<Symbol> = iter::successors(Some(1), next)
        .take(count)
        .collect(rt.alloc())?;
    print_symbols(rt, "powers of the generator, from 1 on", &powers)
}

fn print_inverses<F: Field>(rt: &HostRuntime, f: &F) -> anyhow::Result<()> {
    let inverses: Vec<Symbol> = (0..f.order()).map(|a| f.inverse(a)).collect(rt.alloc())?;
    print_symbols(rt, "inverses of 0, 1 and so on", &inverses)
}

fn print_field<F: Field>(rt: &HostRuntime, f: &F) -> anyhow::Result<()> {
    let q = f.order();
    println!(rt; "order, generator: {q} {}", f.generator())?;
    let sums = digest(q, |a, b| f.sum(a, b));
    let products = digest(q, |a, b| f.product(a, b));
    println!(rt; "digests of all sums and all products: {sums} {products}")?;
    print_powers(rt, f)?;
    print_inverses(rt, f)
}

pub fn print_fields(rt: &HostRuntime) -> anyhow::Result<()> {
    for degree in 2..10u8 {
        println!(rt; "== shift field of degree {degree}:")?;
        print_field(rt, &ShiftField::new(degree)?)?;
    }
    rt.println("== table field")?;
    print_field(rt, &TableField)
}
