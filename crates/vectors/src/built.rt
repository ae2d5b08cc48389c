// Words that pass a row of two circulants a and b, since circulants commute: b applied to any u, then a applied to u.
use super::lines::Spaced;
use super::trial::Trial;
use array::{Cell, Shape, Term};
use field::{Field, ShiftField, Symbol, TableField};
use std::alloc::{AllocError, Global};

// Symbol s of a circulant applied to u: the sum of coefficient times symbol (shift + s) mod e of u.
fn applied<F: Field>(f: &F, terms: &[Term], u: &[Symbol], s: usize) -> Symbol {
    let mut sum = 0;
    for term in terms {
        let at = (term.shift as usize).saturating_add(s) % u.len().max(1);
        let symbol = u.get(at).copied().unwrap_or(0);
        sum = f.sum(sum, f.product(term.coefficient, symbol));
    }
    sum
}

// b applied to u, then a applied to u.
fn build<F: Field>(
    alloc: Global,
    f: &F,
    a: &Cell,
    b: &Cell,
    u: &[Symbol],
) -> Result<Vec<Symbol>, AllocError> {
    let mut word = Vec::new(alloc);
    for cell in [b, a] {
        word.extend((0..u.len()).map(|s| applied(f, cell.terms(), u, s)))?;
    }
    Ok(word)
}

// At size q - 1, the largest.
fn print_built_word<F: Field>(rt: &HostRuntime, f: &F, seed: u32) -> anyhow::Result<()> {
    let q = f.order();
    let size = q.saturating_sub(1) as usize;
    let mut trial = Trial::new(rt, f, seed, Shape::new(q, size, 1, 2)?)?;
    let a = trial.draw_cell(0, 0, 4)?;
    let b = trial.draw_cell(0, 1, 3)?;
    println!(rt; "q, first cell {q}:{}", Spaced(a.terms()))?;
    println!(rt; "second cell:{}", Spaced(b.terms()))?;
    let u = trial.draw_word(size)?;
    let mut word = build(rt.alloc(), f, &a, &b, &u)?;
    trial.print_word("built word", &word)?;
    trial.print_changed(&mut word)
}

pub fn print_built(rt: &HostRuntime) -> anyhow::Result<()> {
    rt.println("== words built from two circulants of size q - 1")?;
    for degree in 2..10u8 {
        print_built_word(rt, &ShiftField::new(degree)?, 2000 + degree as u32)?;
    }
    print_built_word(rt, &TableField, 2010)
}
