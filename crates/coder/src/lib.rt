// Encoding and recovery through the echelon forms of the check blocks.

#![tactic(auto)]

mod encoding;
mod fill;
mod forms;
mod matrices;
mod recovery;
mod transform;

pub use encoding::{dimension, encode};
pub use forms::deficient;
pub use recovery::{Unrecovered, recover};
