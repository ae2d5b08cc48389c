// The rules for cells, as tests.
ghost use Rattle.std.specs.Prelude.{◌≡◌};
ghost use Rattle.array.specs.Cells.{lawful, rising, sound, unused, below};

use super::plain::{CellRow, Term};

pub fn is_lawful(terms: &[Term]) -> bool
    ensures { result ≡ lawful terms.now }
{
    terms.len() <= 4 && is_rising(terms)
}

// Do shifts rise strictly, and is each number in its range? A loop, since each shift is compared with the one before.
fn is_rising(terms: &[Term]) -> bool
    ensures { result ≡ rising 0 terms.now }
{
    let mut low: u16 = 0;
    for term in terms {
        if term.shift < low || term.shift > 511 || term.coefficient == 0 || term.coefficient > 511 {
            return false;
        }
        low = term.shift + 1;
    }
    true
}

pub fn is_sound(row: &CellRow) -> bool
    ensures { result ≡ sound row.now }
{
    if row.count > 4 {
        return false;
    }
    let count = row.count as usize;
    is_lawful(&row.terms[..count]) && is_unused(&row.terms[count..])
}

fn is_unused(terms: &[Term]) -> bool
    ensures { result ≡ unused terms.now }
{
    terms.iter().all(|t| t.shift == 0 && t.coefficient == 0)
}

// Are all coefficients below `order`, the number of symbols of a field?
pub fn is_below(terms: &[Term], order: u16) -> bool
    ensures { result ≡ below order terms.now }
{
    terms.iter().all(|t| t.coefficient < order)
}
