// Conditional expressions: what their bytes are, byte by byte from the left. What a test of
// membership is told comes from outside: nothing here knows who asks.
#![tactic(auto)]

mod condition;
mod fault;
mod padding;
mod stack;

pub use condition::{Tests, judge, literal_end, weigh};
pub use fault::Fault;
pub use padding::zeros;
