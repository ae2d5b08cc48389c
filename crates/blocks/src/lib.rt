// The check blocks of an array at a circulant size: one for each frequency of the transform.

#![tactic(auto)]

mod build;
mod forms;
mod powers;

pub use build::block_start;
pub use forms::build_forms;
pub use powers::root;
