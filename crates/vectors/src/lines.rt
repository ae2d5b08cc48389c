// How the values on a line are printed.
use code::{FailedCheck, Verdict};
use field::Symbol;
use refusal::Refusal;
use std::fmt;

// A list, with a space before each item.
#[derive(Clone, Copy)]
pub struct Spaced<'a, T>(pub &'a [T]);

impl<T: fmt::Display> fmt::Display for Spaced<'_, T> {
    fn fmt<W: fmt::Write>(&self, f: &mut fmt::Formatter<W>) -> fmt::Result {
        for item in self.0 {
            write!(f, " {item}")?;
        }
        Ok(())
    }
}

// What a call of the library answers.
#[derive(Clone, Copy)]
pub struct Answer<T>(pub Result<T, Refusal>);

impl<T: fmt::Display> fmt::Display for Answer<T> {
    fn fmt<W: fmt::Write>(&self, f: &mut fmt::Formatter<W>) -> fmt::Result {
        match &self.0 {
            Ok(value) => write!(f, "{value}"),
            Err(refusal) => write!(f, "refused {}", refusal.number()),
        }
    }
}

// What the parity checks say of a word.
#[derive(Clone, Copy)]
pub struct Outcome(Verdict);

impl fmt::Display for Outcome {
    fn fmt<W: fmt::Write>(&self, f: &mut fmt::Formatter<W>) -> fmt::Result {
        match self.0 {
            Ok(()) => write!(f, "passes"),
            Err(FailedCheck { row, s, syndrome }) => {
                write!(f, "fails check ({row}, {s}) with syndrome {syndrome}")
            }
        }
    }
}

// The answer of a call whose value is not printed.
pub fn accepted<T: Drop>(answer: Result<T, Refusal>) -> Answer<&'static str> {
    Answer(answer.map(|_| "accepted"))
}

// The answer of a check.
pub fn judged(answer: Result<Verdict, Refusal>) -> Answer<Outcome> {
    Answer(answer.map(Outcome))
}

// Sixteen symbols to a line.
pub fn print_symbols(rt: &HostRuntime, name: &str, symbols: &[Symbol]) -> anyhow::Result<()> {
    println!(rt; "{name}:")?;
    for part in symbols.chunks(16) {
        rt.println(Spaced(part))?;
    }
    Ok(())
}
