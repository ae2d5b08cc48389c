// Entry points for C, through which the library is timed beside the same loops in C.
// C gives and gets plain numbers: so the field, the size, the rows and the columns are parameters, and the answer is a number.
// A field goes by a number: 0 for the table field, r for the shift field of degree r. The answer is 0, or the number of the refusal.

#![tactic(auto)]

mod entries;
mod timed;

pub use entries::{timing_build, timing_check, timing_encode, timing_recover};
