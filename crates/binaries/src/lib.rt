// Margin of credit event binary options: document 02, [11], and circular RG11-039 (document 004). Layer of its own on
// `records`, whose dates it uses. No public function has a `requires`.
#![tactic(auto)]

mod calls;
mod margins;
mod percentages;
mod positions;
mod times;

pub use calls::{binary_margin, pair_margin};
pub use percentages::Side;
pub use positions::{LongPosition, Position};
