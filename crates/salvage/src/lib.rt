// A damaged file salvaged: what is sound in it, in a file of its own, and a list of what was dropped.
// Document 02, [10]. No public function has a `requires`.
#![tactic(auto)]

mod calls;
mod indices;
mod pieces;
mod sorter;

pub use calls::{Saved, salvage};
