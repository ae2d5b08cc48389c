// The shape of an array under a circulant size.
ghost use Rattle.std.specs.Prelude.{◌≡◌, ◌+◌, ◌*◌, ◌<◌, ◌≤◌, Some, None, MatchOption, MatchResult};
ghost use Rattle.array.specs.Shapes.{shape_refusal};

use refusal::Refusal;

// The most cells that an array has: so many a buffer of cells has room for.
pub const CELLS: usize = 512;

// The most symbols that all blocks of an array have together: so many a buffer of blocks has room for.
pub const BLOCK_SYMBOLS: usize = 16384;

#[derive(Clone, Copy, PartialEq, Eq, Debug)]
pub struct Shape {
    size: usize,
    rows: usize,
    columns: usize,
    ghost size_low: { 1 ≤ size },
    ghost size_high: { size ≤ 511 },
    ghost rows_low: { 1 ≤ rows },
    ghost rows_high: { rows ≤ 8 },
    ghost columns_low: { 1 ≤ columns },
    ghost columns_high: { columns ≤ 64 },
    ghost few: { rows * columns * size ≤ 16384 },
}

impl Shape {
    // An array of rows x columns cells at a circulant size, for a field of `order` symbols.
    // Refuses with Size where the size breaks its rule, then with Shape.
    pub fn new(order: u16, size: usize, rows: usize, columns: usize) -> Result<Self, Refusal>
        ensures { MatchResult result
            (λ s. (shape_refusal order size rows columns ≡ None) × (s.size ≡ size) × (s.rows ≡ rows) × (s.columns ≡ columns))
            (λ x. shape_refusal order size rows columns ≡ Some x) }
    {
        if !(1..=511).contains(&size) || (order as usize).saturating_sub(1) % size != 0 {
            return Err(Refusal::Size);
        }
        if !(1..=8).contains(&rows)
            || !(1..=64).contains(&columns)
            || rows * columns * size > BLOCK_SYMBOLS
        {
            return Err(Refusal::Shape);
        }
        Ok(Shape {
            size,
            rows,
            columns,
        })
    }

    pub fn size(&self) -> usize
        ensures { result ≡ self.now.size }
    {
        self.size
    }

    pub fn rows(&self) -> usize
        ensures { result ≡ self.now.rows }
    {
        self.rows
    }

    pub fn columns(&self) -> usize
        ensures { result ≡ self.now.columns }
    {
        self.columns
    }

    // Where the cell of a row and a column stands in the buffer of cells; nowhere where the array has no such place.
    pub fn place_of(&self, row: usize, column: usize) -> Option<usize>
        ensures { let s = self.now in
            MatchOption result
            ((row < s.rows) × (column < s.columns) → ⊥)
            (λ k. (row < s.rows) × (column < s.columns) × (k ≡ row * s.columns + column) × (k < 512)) }
    {
        if row < self.rows && column < self.columns {
            Some(row * self.columns + column)
        } else {
            None
        }
    }
}
