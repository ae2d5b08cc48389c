// Quasi-cyclic codes drawn by an array of circulants: generic over every field, over buffers that the caller lends.

#![tactic(auto)]

mod receiver;

pub use field::are_symbols;
pub use receiver::{FailedCheck, Verdict, check};
