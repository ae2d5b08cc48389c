// An array and a circulant size under edit, over a field, with a history; and the code that they give.
// The buffers are the caller's, who lends them at each call: cells, block symbols and change records.

#![tactic(auto)]

mod changes;
mod coding;

pub use changes::Editor;
pub use coding::Parameters;
