// A line that asks for a plan, its answer as text, and the answers to the lines of an input that comes in pieces.
#![tactic(auto)]

mod cut;
mod plan;
mod ring;
mod strips;
mod text;

pub use cut::{Cut, answer_last, answer_next};
pub use plan::{Plan, PlanError, Question, plan_line};
pub use ring::{Asked, parse};
pub use strips::{AskedStrips, parse_strips};
pub use text::append;
