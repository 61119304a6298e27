// Text in lent buffers: decimal numbers in and out, lines out of the pieces of an input, text behind an index. Every call answers for any
// index; where there is no room, it changes nothing.
#![tactic(auto)]

mod cut;
mod decimal;
mod field;
mod text;

pub use cut::{Took, take_line};
pub use decimal::{Number, number_at, put_decimal};
pub use field::{last, spaced};
pub use text::{has_room, put};
