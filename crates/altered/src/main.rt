// Buffers that another hand altered between the calls of an editor: each call still ends, and refuses or answers as its contract says.

#![tactic(auto)]

mod held;

use field::Symbol;
use held::Held;
use refusal::Refusal;

// Changes item `k` of a buffer.
fn alter<T, C: FnOnce(&mut T)>(buffer: &mut [T], k: usize, change: C)
    requires { C.IsAlwaysCallable change }
{
    if let Some(item) = buffer.get_mut(k) {
        change(item);
    }
}

fn tell(rt: &HostRuntime, what: &str, answer: Result<(), Refusal>) -> anyhow::Result<()> {
    match answer {
        Ok(()) => println!(rt; "{what}: ok")?,
        Err(refusal) => println!(rt; "{what}: refused {refusal}")?,
    }
    Ok(())
}

fn tell_size(rt: &HostRuntime, held: &Held) -> anyhow::Result<()> {
    match held.size() {
        Ok(p) => println!(rt; "size {}, dimension {}", p.size, p.dimension)?,
        Err(refusal) => println!(rt; "refused {refusal}")?,
    }
    Ok(())
}

fn tell_check(rt: &HostRuntime, held: &Held, word: &[Symbol]) -> anyhow::Result<()> {
    match held.check(word) {
        Ok(Ok(())) => println!(rt; "passes")?,
        Ok(Err(failed)) => println!(rt; "fails {failed}")?,
        Err(refusal) => println!(rt; "refused {refusal}")?,
    }
    Ok(())
}

fn tell_encode(rt: &HostRuntime, held: &Held, message: &[Symbol]) -> anyhow::Result<()> {
    match held.encode(message) {
        Ok(word) => {
            println!(rt; "word {word:?}")?;
            tell_check(rt, held, &word)?;
        }
        Err(refusal) => println!(rt; "encode: refused {refusal}")?,
    }
    Ok(())
}

fn tell_terms(rt: &HostRuntime, held: &Held, row: usize, column: usize) -> anyhow::Result<()> {
    println!(rt; "terms {}", held.terms_at(row, column)?)?;
    Ok(())
}

// A row with a count of 5 reads as the empty cell.
fn alter_row(rt: &HostRuntime) -> anyhow::Result<()> {
    println!(rt; "a row of cells")?;
    let mut held = Held::new(rt.alloc())?;
    tell_check(rt, &held, &[2, 3, 1, 1, 2, 3])?;
    alter(&mut held.cells, 0, |row| row.count = 5);
    tell_terms(rt, &held, 0, 0)?;
    tell_check(rt, &held, &[2, 3, 1, 1, 2, 3])?;
    tell_encode(rt, &held, &[0, 1, 0])?;
    tell(rt, "place", held.place(0, 0, &[]))?;
    tell(rt, "undo", held.undo())?;
    tell(rt, "undo", held.undo())?;
    tell(rt, "redo", held.redo())?;
    tell_size(rt, &held)
}

// A symbol past q leads its row as any nonzero one; a block of zeros has only free columns.
fn alter_blocks(rt: &HostRuntime) -> anyhow::Result<()> {
    println!(rt; "block symbols")?;
    let mut held = Held::new(rt.alloc())?;
    alter(&mut held.blocks, 0, |symbol| *symbol = 9);
    tell_size(rt, &held)?;
    tell_encode(rt, &held, &[0, 1, 0])?;
    alter(&mut held.blocks, 0, |symbol| *symbol = 0);
    alter(&mut held.blocks, 1, |symbol| *symbol = 0);
    tell_size(rt, &held)?;
    tell_encode(rt, &held, &[0, 1, 0])?;
    tell_encode(rt, &held, &[1, 0, 0, 0])?;
    tell(rt, "undo", held.undo())?;
    tell_size(rt, &held)?;
    tell(rt, "redo", held.redo())?;
    tell_encode(rt, &held, &[0, 1, 0])
}

// Records that do not fit are refused; one that fits is taken at its word.
fn alter_records(rt: &HostRuntime) -> anyhow::Result<()> {
    println!(rt; "records")?;
    let mut held = Held::new(rt.alloc())?;
    alter(&mut held.records, 1, |record| record.kind = 3);
    tell(rt, "another kind", held.undo())?;
    alter(&mut held.records, 1, |record| {
        record.kind = 1;
        record.row = 1;
    });
    tell(rt, "no such row", held.undo())?;
    alter(&mut held.records, 1, |record| {
        record.row = 0;
        record.column = 2;
    });
    tell(rt, "no such column", held.undo())?;
    alter(&mut held.records, 1, |record| {
        record.column = 1;
        record.cell_before.count = 1;
        record.cell_before.terms[0].coefficient = 4;
    });
    tell(rt, "coefficient 4", held.undo())?;
    alter(&mut held.records, 1, |record| {
        record.cell_before.count = 7;
        record.cell_before.terms[0].coefficient = 1;
    });
    tell(rt, "count 7", held.undo())?;
    tell_terms(rt, &held, 0, 1)?;
    alter(&mut held.records, 0, |record| {
        record.kind = 2;
        record.size_before = 2;
    });
    tell(rt, "size 2", held.undo())?;
    alter(&mut held.records, 0, |record| record.size_before = 1);
    tell(rt, "size 1", held.undo())?;
    tell_size(rt, &held)
}

fn main(rt: HostRuntime) -> anyhow::Result<()> {
    alter_row(&rt)?;
    alter_blocks(&rt)?;
    alter_records(&rt)
}
