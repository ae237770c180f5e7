// The audit trail of a question, and whether staged audit differs. Knows the entries of SACLs, and
// of a token what the passes know; not what is granted.
#![tactic(auto)]

mod entry;
mod firing;
mod putting;
mod staging;
mod trail;
mod walk;
mod writing;

pub use firing::{Asked, Sought};
