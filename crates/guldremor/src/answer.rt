// What a command answers, and why it may not.
ghost use Rattle.std.specs.Prelude.{◌≡◌, ◌+◌, ◌*◌, ◌/◌, ◌<◌, ◌≤◌};

use array::{Cell, CellRow};
use code::{FailedCheck, Verdict};
use coder::Unrecovered;
use editor::Parameters;
use field::Symbol;
use refusal::Refusal;
use std::alloc::{AllocError, AllocFailed};
use std::fmt;
use survey::Survey;

#[derive(Drop)]
pub enum Answer {
    Field(u16),
    Done,
    Cell(CellRow),
    Verdict(Verdict),
    Word(Vec<Symbol>),
    Message(Vec<Symbol>),
    Sizes(Vec<SizeLine>),
    Size(Parameters),
}

// One line of the table of sizes.
#[derive(Clone, Copy)]
pub struct SizeLine {
    pub size: usize,
    pub survey: Survey,
}

#[derive(Drop)]
pub enum Trouble<'a> {
    // the library refuses
    Refused(Refusal),
    // no message is recovered, since the word fails a parity check
    Fails(FailedCheck),
    // the line is no command, with the word that is wrong
    Word(&'static str, &'a str),
    // the line is no command
    Line(&'static str),
    Memory(AllocError),
}

impl From<AllocError> for Trouble<'_> {
    fn from(e: AllocError) -> Self {
        Trouble::Memory(e)
    }
}

impl<T: Drop> From<AllocFailed<T>> for Trouble<'_> {
    fn from(e: AllocFailed<T>) -> Self {
        Trouble::Memory(AllocError)
    }
}

impl From<Refusal> for Trouble<'_> {
    fn from(refusal: Refusal) -> Self {
        Trouble::Refused(refusal)
    }
}

impl From<Unrecovered> for Trouble<'_> {
    fn from(why: Unrecovered) -> Self {
        match why {
            Unrecovered::Refused(refusal) => Trouble::Refused(refusal),
            Unrecovered::Fails(failed) => Trouble::Fails(failed),
        }
    }
}

// A name and what stands after it.
fn write_list<T: fmt::Display, W: fmt::Write>(
    f: &mut fmt::Formatter<W>,
    name: &str,
    items: &[T],
) -> fmt::Result {
    write!(f, "{name}")?;
    for item in items {
        write!(f, " {item}")?;
    }
    Ok(())
}

// The rate to four decimals.
impl fmt::Display for SizeLine {
    fn fmt<W: fmt::Write>(&self, f: &mut fmt::Formatter<W>) -> fmt::Result {
        let size = self.size;
        let length = self.survey.length;
        let dimension = self.survey.dimension;
        let deficient = self.survey.deficient;
        let rate = rate_of(dimension, length);
        let whole = rate / 10000;
        let part = rate % 10000;
        write!(
            f,
            "{size:>6}  {length:>6}  {dimension:>9}  {whole}.{part:04}  {deficient:>24}"
        )
    }
}

// Ten thousand times dimension / length, to the nearest whole number; no symbols have the rate 0.
fn rate_of(dimension: usize, length: usize) -> usize
    ensures { dimension ≤ 16384 → length ≤ 16384 → 0 < length → result ≡ (dimension * 10000 + length / 2) / length }
{
    let scaled = dimension.saturating_mul(10000).saturating_add(length / 2);
    scaled.checked_div(length).unwrap_or(0)
}

impl fmt::Display for Answer {
    fn fmt<W: fmt::Write>(&self, f: &mut fmt::Formatter<W>) -> fmt::Result {
        match self {
            Answer::Field(order) => write!(f, "field {order}"),
            Answer::Done => write!(f, "ok"),
            Answer::Cell(row) => write_list(f, "cell", Cell::from(*row).terms()),
            Answer::Word(word) => write_list(f, "word", word.as_slice()),
            Answer::Message(message) => write_list(f, "message", message.as_slice()),
            Answer::Sizes(lines) => {
                write!(
                    f,
                    "  size  length  dimension    rate  blocks lacking full rank"
                )?;
                for line in lines {
                    write!(f, "\n{line}")?;
                }
                Ok(())
            }
            Answer::Size(p) => {
                write!(
                    f,
                    "size {} {} {} {}",
                    p.size, p.rows, p.columns, p.dimension
                )
            }
            Answer::Verdict(Ok(())) => write!(f, "passes"),
            Answer::Verdict(Err(failed)) => write!(f, "fails {failed}"),
        }
    }
}

impl fmt::Display for Trouble<'_> {
    fn fmt<W: fmt::Write>(&self, f: &mut fmt::Formatter<W>) -> fmt::Result {
        match self {
            Trouble::Refused(refusal) => write!(f, "refused {refusal}"),
            Trouble::Fails(failed) => write!(f, "refused {} {failed}", Refusal::Check.number()),
            Trouble::Word(why, word) => write!(f, "{why}: {word}"),
            Trouble::Line(why) => write!(f, "{why}"),
            Trouble::Memory(_) => write!(f, "no memory"),
        }
    }
}
