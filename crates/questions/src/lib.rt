// The question file: the only door to it. What a question is answered is the check's affair.
#![tactic(auto)]

mod file;

pub use file::{Desired, desired_in, question, trail_question};
