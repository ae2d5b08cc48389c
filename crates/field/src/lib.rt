// Finite fields: the interface that everything above is written against, its implementation, and the fields that have it.

#![tactic(auto)]

mod any;
mod binary;
mod interface;
mod shift;
mod symbols;
mod table;
mod tables;

pub use any::AnyField;
pub use interface::{Field, Symbol};
pub use shift::ShiftField;
pub use symbols::are_symbols;
pub use table::TableField;
