// The shift field of degree r: 2^r symbols, multiplied by shifts and exclusive ors.
ghost use Rattle.std.specs.Prelude.{◌≡◌, ◌^◌, ◌<◌, ◌≤◌, MatchResult};
ghost use Rattle.field.specs.Shift.{pick, double};
ghost use Rattle.refusal.specs.declared.Refusal.TheVariants.{Degree};

use super::binary::Binary;
use super::interface::Symbol;
use refusal::Refusal;

// The primitive polynomials of degree 2 to 9; bit i is the coefficient of x^i.
const POLYNOMIALS: [u16; 8] = [7, 11, 19, 37, 67, 137, 285, 529];

#[derive(Clone, Copy)]
pub struct ShiftField {
    degree: u8,
    ghost degree_low: { 2 ≤ degree },
    ghost degree_high: { degree ≤ 9 },
}

// `a` where the bit is 1, 0 where it is 0; without a branch.
fn select(bit: u16, a: u16) -> u16
    requires { bit < 2 }
    ensures { result ≡ pick bit a }
{
    0u16.wrapping_sub(bit) & a
}

impl ShiftField {
    // Refuses with Degree where the degree is not from 2 to 9.
    pub fn new(degree: u8) -> Result<Self, Refusal>
        ensures { MatchResult result
            (λ f. (2 ≤ degree) × (degree ≤ 9) × (f.degree ≡ degree))
            (λ x. ((2 ≤ degree) × (degree ≤ 9) → ⊥) × (x ≡ Degree)) }
    {
        if !(2..=9).contains(&degree) {
            return Err(Refusal::Degree);
        }
        Ok(ShiftField::of_degree(degree))
    }

    pub(crate) fn of_degree(degree: u8) -> Self
        requires low { 2 ≤ degree }
        requires high { degree ≤ 9 }
        ensures { result.degree ≡ degree }
    {
        ShiftField { degree }
    }

    fn double(&self, a: Symbol) -> Symbol
        requires { a < 2 ^ self.now.degree }
        ensures is { result ≡ double self.now.degree a }
        ensures below { result < 2 ^ self.now.degree }
    {
        let d = a << 1;
        d ^ select(d >> self.degree, POLYNOMIALS[(self.degree - 2) as usize])
    }
}

impl Binary for ShiftField {
    ghost degree = { λ f. f.degree };

    ghost degree_low = { λ f. f.degree_low };

    ghost degree_high = { λ f. f.degree_high };

    fn degree(&self) -> u8 {
        self.degree
    }

    // The sum of x^i times `b` over the bits i that are 1 in `a`. All nine steps are taken at every degree, since bits from the
    // degree on are 0: so nothing depends on `a` but masks, and where `b` stays the same its multiples are worked out once.
    fn multiply(&self, a: Symbol, b: Symbol) -> Symbol {
        let mut p = 0;
        let mut multiple = b;
        for i in 0..9u32 {
            p ^= select((a >> i) & 1, multiple);
            multiple = self.double(multiple);
        }
        p
    }

    // a^(q - 2), the product of the squares a^2, a^4, .., a^(q / 2).
    fn invert(&self, a: Symbol) -> Symbol {
        let mut square = a;
        let mut p = 1;
        for _ in 1..self.degree {
            square = self.multiply(square, square);
            p = self.multiply(p, square);
        }
        p
    }
}
