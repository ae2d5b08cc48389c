// The array and the circulant size under edit, with a history of the changes that can be undone and redone.
// The buffers are the caller's, who lends them at each call. No field is here: where a rule speaks of q, q is a number.

#![tactic(auto)]

mod change;
mod edit;
mod plain;
mod rules;

pub use edit::History;
pub use plain::ChangeRecord;
