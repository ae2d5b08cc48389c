// A field that is chosen when the program runs.

use super::binary::Binary;
use super::interface::Symbol;
use super::shift::ShiftField;
use super::table::TableField;

#[derive(Clone, Copy)]
pub enum AnyField {
    Shift(ShiftField),
    Table(TableField),
}

// Each function hands on to the one of two fields that it is. A trait object in place of the enum would need the heap.
impl Binary for AnyField {
    ghost use Rattle.field.specs.AnyField.{degree_of, degree_of_low, degree_of_high};

    ghost degree = { degree_of };

    ghost degree_low = { degree_of_low };

    ghost degree_high = { degree_of_high };

    fn degree(&self) -> u8 {
        match self {
            AnyField::Shift(f) => f.degree(),
            AnyField::Table(f) => f.degree(),
        }
    }

    fn multiply(&self, a: Symbol, b: Symbol) -> Symbol {
        match self {
            AnyField::Shift(f) => f.multiply(a, b),
            AnyField::Table(f) => f.multiply(a, b),
        }
    }

    fn invert(&self, a: Symbol) -> Symbol {
        match self {
            AnyField::Shift(f) => f.invert(a),
            AnyField::Table(f) => f.invert(a),
        }
    }
}
