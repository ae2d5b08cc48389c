// The table field: the shift field of degree 9, multiplied through tables of powers and logarithms.
ghost use Rattle.std.proofs.Common.{lit≤};
ghost use Rattle.field.specs.Meaning.{Alike};
ghost use Rattle.field.specs.Shift.{shift_field};

use super::binary::Binary;
use super::interface::Symbol;
use super::shift::ShiftField;
use super::tables::{logarithm_of, power_at};

#[derive(Clone, Copy)]
pub struct TableField;

// The same field, multiplied by shifts.
impl From<TableField> for ShiftField {
    ghost from_gives = { λ _ f. Alike (shift_field 9) (shift_field f.degree) };

    fn from(_: TableField) -> Self {
        ShiftField::of_degree(9)
    }
}

impl Binary for TableField {
    ghost degree = { λ _. 9 };

    ghost degree_low = { λ _. lit≤ tt };

    ghost degree_high = { λ _. lit≤ tt };

    fn degree(&self) -> u8 {
        9
    }

    fn multiply(&self, a: Symbol, b: Symbol) -> Symbol {
        if a == 0 || b == 0 {
            return 0;
        }
        let k = logarithm_of(a) + logarithm_of(b);
        power_at(if k < 511 { k } else { k - 511 })
    }

    fn invert(&self, a: Symbol) -> Symbol {
        if a == 0 {
            return 0;
        }
        let k = logarithm_of(a);
        power_at(if k == 0 { 0 } else { 511 - k })
    }
}
