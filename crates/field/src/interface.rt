// The interface of a finite field. Symbols are the numbers below the order q; an operand of q or more is taken as 0.
ghost use Rattle.std.specs.Prelude.{◌≡◌};
ghost use Rattle.field.specs.Meaning.{Meaning, Lawful, CharacteristicTwo};

pub type Symbol = u16;

pub trait Field {
    // which field this is
    ghost meaning: { Self → Meaning };

    // q, the number of symbols
    fn order(&self) -> u16
        ensures { result ≡ (meaning self.now).q };

    // g, whose powers are all symbols but 0
    fn generator(&self) -> Symbol
        ensures { result ≡ (meaning self.now).g };

    fn sum(&self, a: Symbol, b: Symbol) -> Symbol
        ensures { result ≡ (meaning self.now).sum a b };

    fn product(&self, a: Symbol, b: Symbol) -> Symbol
        ensures { result ≡ (meaning self.now).product a b };

    // 0 for 0
    fn inverse(&self, a: Symbol) -> Symbol
        ensures { result ≡ (meaning self.now).inverse a };

    ghost lawful: { (f : Self) → Lawful (meaning f) };

    ghost binary: { (f : Self) → CharacteristicTwo (meaning f) };
}
