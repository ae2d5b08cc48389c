// The commands of a script.
use super::answer::{Answer, Trouble};
use super::session::Session;
use super::words::{next_number, numbers, read_symbol, read_term};
use array::Term;
use field::{AnyField, ShiftField, Symbol, TableField};
use std::alloc::Global;
use std::str::SplitWhitespace;

pub fn make<'a>(
    session: &mut Session,
    name: &'a str,
    words: SplitWhitespace<'a>,
) -> Result<Answer, Trouble<'a>> {
    // A table of functions would say no more than the match.
    match name {
        "field" => choose_field(session, words),
        "new" => start_array(session, words),
        "place" => place_cell(session, words),
        "resize" => resize_array(session, words),
        "undo" => undo_change(session, words),
        "redo" => redo_change(session, words),
        "buffers" => lend_buffers(session, words),
        "room" => lend_room(session, words),
        "show" => show_cell(session, words),
        "check" => check_word(session, words),
        "encode" => encode_message(session, words),
        "recover" => recover_message(session, words),
        "size" => show_size(session, words),
        "sizes" => show_sizes(session, words),
        _ => Err(Trouble::Word("no such command", name)),
    }
}

// field shift DEGREE | field table
fn choose_field<'a>(
    session: &mut Session,
    mut words: SplitWhitespace<'a>,
) -> Result<Answer, Trouble<'a>> {
    let field = match words.next() {
        Some("shift") => {
            let [degree] = numbers::<1>(words)?;
            AnyField::Shift(ShiftField::new(u8::try_from(degree).unwrap_or(u8::MAX))?)
        }
        Some("table") => {
            let [] = numbers::<0>(words)?;
            AnyField::Table(TableField)
        }
        Some(word) => return Err(Trouble::Word("no such field", word)),
        None => return Err(Trouble::Line("the field is missing: shift DEGREE, or table")),
    };
    Ok(Answer::Field(session.choose(field)))
}

// new SIZE ROWS COLUMNS
fn start_array<'a>(
    session: &mut Session,
    words: SplitWhitespace<'a>,
) -> Result<Answer, Trouble<'a>> {
    let [size, rows, columns] = numbers::<3>(words)?;
    session.start(size, rows, columns)?;
    Ok(Answer::Done)
}

// place ROW COLUMN SHIFT:COEFFICIENT ..
fn place_cell<'a>(
    session: &mut Session,
    mut words: SplitWhitespace<'a>,
) -> Result<Answer, Trouble<'a>> {
    let row = next_number(&mut words)?;
    let column = next_number(&mut words)?;
    let terms: Vec<Term> = words.map(read_term).try_collect(session.heap())?;
    session.place(row, column, terms.as_slice())?;
    Ok(Answer::Done)
}

// resize SIZE
fn resize_array<'a>(
    session: &mut Session,
    words: SplitWhitespace<'a>,
) -> Result<Answer, Trouble<'a>> {
    let [size] = numbers::<1>(words)?;
    session.resize(size)?;
    Ok(Answer::Done)
}

// undo. Two functions and no third that takes the step: a function that takes `Session::undo` by a bound gets no proof.
fn undo_change<'a>(
    session: &mut Session,
    words: SplitWhitespace<'a>,
) -> Result<Answer, Trouble<'a>> {
    let [] = numbers::<0>(words)?;
    session.undo()?;
    Ok(Answer::Done)
}

// redo
fn redo_change<'a>(
    session: &mut Session,
    words: SplitWhitespace<'a>,
) -> Result<Answer, Trouble<'a>> {
    let [] = numbers::<0>(words)?;
    session.redo()?;
    Ok(Answer::Done)
}

// buffers CELLS BLOCKS RECORDS
fn lend_buffers<'a>(
    session: &mut Session,
    words: SplitWhitespace<'a>,
) -> Result<Answer, Trouble<'a>> {
    let [cells, blocks, records] = numbers::<3>(words)?;
    session.lend(cells, blocks, records)?;
    Ok(Answer::Done)
}

// room OUT WORK
fn lend_room<'a>(session: &mut Session, words: SplitWhitespace<'a>) -> Result<Answer, Trouble<'a>> {
    let [out, work] = numbers::<2>(words)?;
    session.lend_room(out, work)?;
    Ok(Answer::Done)
}

// show ROW COLUMN
fn show_cell<'a>(session: &Session, words: SplitWhitespace<'a>) -> Result<Answer, Trouble<'a>> {
    let [row, column] = numbers::<2>(words)?;
    Ok(Answer::Cell(session.show(row, column)?))
}

fn read_symbols<'a>(heap: Global, words: SplitWhitespace<'a>) -> Result<Vec<Symbol>, Trouble<'a>> {
    words.map(read_symbol).try_collect(heap)
}

// check SYMBOL ..
fn check_word<'a>(session: &Session, words: SplitWhitespace<'a>) -> Result<Answer, Trouble<'a>> {
    let word = read_symbols(session.heap(), words)?;
    Ok(Answer::Verdict(session.check(word.as_slice())?))
}

// encode SYMBOL ..
fn encode_message<'a>(
    session: &mut Session,
    words: SplitWhitespace<'a>,
) -> Result<Answer, Trouble<'a>> {
    let message = read_symbols(session.heap(), words)?;
    Ok(Answer::Word(session.encode(message.as_slice())?))
}

// recover SYMBOL ..
fn recover_message<'a>(
    session: &mut Session,
    words: SplitWhitespace<'a>,
) -> Result<Answer, Trouble<'a>> {
    let word = read_symbols(session.heap(), words)?;
    Ok(Answer::Message(session.recover(word.as_slice())?))
}

// sizes
fn show_sizes<'a>(
    session: &mut Session,
    words: SplitWhitespace<'a>,
) -> Result<Answer, Trouble<'a>> {
    let [] = numbers::<0>(words)?;
    Ok(Answer::Sizes(session.sizes()?))
}

// size
fn show_size<'a>(session: &Session, words: SplitWhitespace<'a>) -> Result<Answer, Trouble<'a>> {
    let [] = numbers::<0>(words)?;
    Ok(Answer::Size(session.parameters()?))
}
