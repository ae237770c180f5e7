// Answers: what an evaluation finds for a kind, and what is read off it for a mask. Of lists only
// the type of a rights mask is known here, and nothing of tokens and policies.
#![tactic(auto)]

mod answer;

pub use answer::{Answer, Found, flagged, read_off, refused};
