// Arrays of circulants: terms, cells, plain rows, the shape of an array, and a buffer of cells.
// No field is here: where a rule speaks of q, q is a number.

#![tactic(auto)]

mod buffer;
mod cell;
mod plain;
mod rules;
mod shape;

pub use buffer::{place, show};
pub use cell::Cell;
pub use plain::{CellRow, Term};
pub use rules::is_below;
pub use shape::{BLOCK_SYMBOLS, CELLS, Shape};
