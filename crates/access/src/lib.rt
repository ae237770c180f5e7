// The check: the only door to it. What it relies on of identities, lists, tokens, passes, policies,
// audits and answers is what those crates promise.
#![tactic(auto)]

mod answer;
mod answering;
mod auditing;
mod decide;
mod evaluate;
mod finding;
mod question;

pub use answer::{Traced, handed};
pub use decide::{check, reported, trail};
pub use question::{Question, Refusal};
