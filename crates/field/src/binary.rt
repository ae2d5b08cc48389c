// A field of 2^degree symbols is given by its degree and by a product and an inverse of symbols, by whatever means: the rest of the
// interface is the same for all of them.
ghost use Rattle.std.specs.Prelude.{◌≡◌, ℕ, ◌-◌, ◌^◌, ◌<◌, ◌≤◌, cond, nat_lt};
ghost use Rattle.field.specs.Shift.{multiplied, raised, shift_field};
ghost use Rattle.field.specs.Laws.{shift_lawful, shift_binary};

use super::interface::{Field, Symbol};

pub trait Binary {
    ghost degree: { Self → ℕ };

    fn degree(&self) -> u8
        ensures { result ≡ degree self.now };

    fn multiply(&self, a: Symbol, b: Symbol) -> Symbol
        requires a_below { a < 2 ^ degree self.now }
        requires b_below { b < 2 ^ degree self.now }
        ensures is { result ≡ multiplied (degree self.now) a b }
        ensures below { result < 2 ^ degree self.now };

    // 0 for 0
    fn invert(&self, a: Symbol) -> Symbol
        requires { a < 2 ^ degree self.now }
        ensures { result ≡ raised (degree self.now) a (2 ^ degree self.now - 2) };

    ghost degree_low: { (f : Self) → 2 ≤ degree f };

    ghost degree_high: { (f : Self) → degree f ≤ 9 };
}

// An operand in a field of `order` symbols: 0 where it is no symbol.
fn operand(a: u16, order: u16) -> Symbol
    ensures is { result ≡ cond (nat_lt a order) a 0 }
    ensures below { 0 < order → result < order }
{
    if a < order { a } else { 0 }
}

impl<B: Binary> Field for B {
    ghost meaning = { λ f. shift_field (B.degree f) };

    ghost lawful = { λ f. shift_lawful (B.degree f) (B.degree_low f) (B.degree_high f) };

    ghost binary = { λ f. shift_binary (B.degree f) (B.degree_low f) (B.degree_high f) };

    fn order(&self) -> u16 {
        1 << self.degree()
    }

    fn generator(&self) -> Symbol {
        2
    }

    fn sum(&self, a: Symbol, b: Symbol) -> Symbol {
        operand(a, self.order()) ^ operand(b, self.order())
    }

    fn product(&self, a: Symbol, b: Symbol) -> Symbol {
        self.multiply(operand(a, self.order()), operand(b, self.order()))
    }

    fn inverse(&self, a: Symbol) -> Symbol {
        self.invert(operand(a, self.order()))
    }
}
