// Policies: shape, and what the rules leave. Knows nothing of descriptors, of confinement or of
// what is asked.
#![tactic(auto)]

mod one_rule;
mod rules;
mod sections;
mod shape;
mod walk;

pub use one_rule::Rule;
pub use rules::{Ruled, ruled_by};
pub use shape::{Refusal, judge_policy};
pub use walk::{Rules, rule_by_lengths};
