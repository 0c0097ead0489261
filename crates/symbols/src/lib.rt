// Lists of option symbols: holdings made of a member's list, and a list made of holdings. Document 02, [9].
// No public function has a `requires`.
#![tactic(auto)]

mod digits;
mod exports;
mod imports;
mod lent;
mod lines;
mod names;
mod refusals;
mod roots;

pub use exports::export;
pub use imports::import;
