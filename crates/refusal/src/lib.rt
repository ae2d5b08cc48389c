// Why a call refuses. Every crate of the library refuses with one of these, and each has a fixed number.

#![tactic(auto)]

ghost use Rattle.std.specs.Prelude.{◌≡◌};
ghost use Rattle.refusal.specs.Number.{number};

use std::error::Error;
use std::fmt;

#[derive(Clone, Copy, PartialEq, Eq, Debug)]
pub enum Refusal {
    // the circulant size is not from 1 to 511, or does not divide q - 1
    Size = 1,
    // rows, columns, or rows x columns x size is out of range
    Shape = 2,
    // a buffer that the caller lends is too short
    Buffer = 3,
    // the array has no such row or column
    Place = 4,
    // a cell breaks a rule for cells, or has a coefficient of q or more
    Cell = 5,
    // the history has no room for another change
    Full = 6,
    // nothing is left to undo or to redo
    Nothing = 7,
    // a message or a word has the wrong number of symbols
    Length = 8,
    // a symbol of a message or a word is q or more
    Symbol = 9,
    // a buffer for the answer, or for working, is too short
    Room = 10,
    // a word fails a parity check
    Check = 11,
    // a change record does not fit the array
    Record = 15,
    // the degree of a shift field is not from 2 to 9
    Degree = 16,
}

impl Refusal {
    // A method with a name and no From: `u8::from(refusal)` would not tell a reader which number it is.
    pub fn number(self) -> u8
        ensures { result ≡ number self }
    {
        self as u8
    }

    // The reason in a few words, for people.
    fn reason(self) -> &'static str {
        match self {
            Refusal::Size => "the size is not from 1 to 511 or does not divide q - 1",
            Refusal::Shape => "not 1 to 8 rows, 1 to 64 columns, rows x columns x size up to 16384",
            Refusal::Buffer => "a buffer is too short",
            Refusal::Place => "the array has no such place",
            Refusal::Cell =>
                "a cell has 0 to 4 terms, shifts 0 to 511 strictly rising, coefficients 1 to 511 below q",
            Refusal::Full => "the history is full",
            Refusal::Nothing => "nothing is left to undo or redo",
            Refusal::Length => "wrong number of symbols",
            Refusal::Symbol => "a symbol is q or more",
            Refusal::Room => "the buffer for the answer or for working is too short",
            Refusal::Check => "the word fails a parity check",
            Refusal::Record => "the change record does not fit",
            Refusal::Degree => "the degree is not from 2 to 9",
        }
    }
}

impl fmt::Display for Refusal {
    fn fmt<W: fmt::Write>(&self, f: &mut fmt::Formatter<W>) -> fmt::Result {
        write!(f, "{} ({})", self.number(), self.reason())
    }
}

impl Error for Refusal {}
