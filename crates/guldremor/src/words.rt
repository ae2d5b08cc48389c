// The words of a command line: numbers and terms. They are read by functions and no FromStr, since the types are not the program's
// own, and a script has a rule of its own: a number that is too large counts as the largest.
ghost use Rattle.std.specs.Prelude.{◌≡◌, ◌+◌, ◌-◌, ◌*◌, ◌^◌, min, true, false, MatchOption, MatchResult};
ghost use Rattle.guldremor.specs.Words.{numeral, value};

use super::answer::Trouble;
use array::Term;
use std::str::SplitWhitespace;

// A number in decimal digits; none where there are no bytes, or one that is no digit. A number past 64 bits counts as the largest
// that fits, which is past every limit of ours.
fn number_of(word: &str) -> Option<u64>
    ensures { MatchOption result
        (numeral word.now ≡ false)
        (λ n. (numeral word.now ≡ true) × (n ≡ value word.now)) }
{
    let bytes = word.as_bytes();
    if bytes.is_empty() {
        return None;
    }
    let mut n: u64 = 0;
    for b in bytes {
        if !b.is_ascii_digit() {
            return None;
        }
        n = append_digit(n, *b - b'0');
    }
    Some(n)
}

// One digit more at the end of a number, or the largest that fits.
fn append_digit(n: u64, digit: u8) -> u64
    ensures { result ≡ min (10 * n + digit) (2 ^ 64 - 1) }
{
    n.saturating_mul(10).saturating_add(u64::from(digit))
}

// The number, or the largest of 16 bits, which is past every limit on symbols, shifts and coefficients.
fn narrow(n: u64) -> u16
    ensures { result ≡ min n 65535 }
{
    u16::try_from(n).unwrap_or(u16::MAX)
}

pub fn read_number(word: &str) -> Result<u64, Trouble<'_>>
    ensures { MatchResult result
        (λ n. (numeral word.now ≡ true) × (n ≡ value word.now))
        (λ _. numeral word.now ≡ false) }
{
    number_of(word).ok_or(Trouble::Word("not a number", word))
}

pub fn read_symbol(word: &str) -> Result<u16, Trouble<'_>>
    ensures { MatchResult result
        (λ n. (numeral word.now ≡ true) × (n ≡ min (value word.now) 65535))
        (λ _. numeral word.now ≡ false) }
{
    Ok(narrow(read_number(word)?))
}

// The next word, which has to be a number.
pub fn next_number<'a>(words: &mut SplitWhitespace<'a>) -> Result<usize, Trouble<'a>> {
    let word = words.next().ok_or(Trouble::Line("a number is missing"))?;
    Ok(read_number(word)? as usize)
}

// As many numbers as are wanted, after which the line has to end.
pub fn numbers<'a, const N: usize>(
    mut words: SplitWhitespace<'a>,
) -> Result<[usize; N], Trouble<'a>> {
    let mut numbers = [0; N];
    for number in numbers.iter_mut() {
        *number = next_number(&mut words)?;
    }
    match words.next() {
        Some(word) => Err(Trouble::Word("one word too many", word)),
        None => Ok(numbers),
    }
}

// SHIFT:COEFFICIENT
pub fn read_term(word: &str) -> Result<Term, Trouble<'_>> {
    let Some((shift, coefficient)) = word.split_once(':') else {
        return Err(Trouble::Word("not SHIFT:COEFFICIENT", word));
    };
    let (Some(shift), Some(coefficient)) = (number_of(shift), number_of(coefficient)) else {
        return Err(Trouble::Word("not SHIFT:COEFFICIENT", word));
    };
    Ok(Term {
        shift: narrow(shift),
        coefficient: narrow(coefficient),
    })
}
