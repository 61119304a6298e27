// How an image is cut into strips for a ring: a plan with the fewest strips, and a check of a plan from anywhere. A plan is a lent slice of
// numbers, two to a run: its first row, and how many rows it has. A number left over at the end of the slice is no run. C lends it so, and
// gives rows, bytes a row and the ring's length as three numbers: each call makes one value of them first (`Fit`).
#![tactic(auto)]

mod plan;
mod quotient;
mod refusal;
mod sizes;
mod strips;
mod verdict;

pub use plan::propose;
pub use refusal::Refusal;
pub use strips::{Strips, outline};
pub use verdict::check;
