// The reduction of one block to reduced row echelon form, in place, over any field.

#![tactic(auto)]

mod elimination;
mod pivots;
mod rows;

pub use elimination::reduce;
