use std::fmt;

// One term of a cell: the circulant has `coefficient` at position `shift` of its first row.
#[repr(C)]
#[derive(Clone, Copy, PartialEq, Eq, Debug, Default)]
pub struct Term {
    pub shift: u16,
    pub coefficient: u16,
}

impl fmt::Display for Term {
    fn fmt<W: fmt::Write>(&self, f: &mut fmt::Formatter<W>) -> fmt::Result {
        write!(f, "{}:{}", self.shift, self.coefficient)
    }
}

// A cell as plain numbers, of any content: how buffers hold cells.
// The count stands beside the terms since C lends and reads such rows, and a row in a buffer may hold anything.
#[repr(C)]
#[derive(Clone, Copy, PartialEq, Eq, Debug, Default)]
pub struct CellRow {
    pub count: u8,
    pub terms: [Term; 4],
}
