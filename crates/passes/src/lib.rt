// Matching, and one pass over a list. Lists are read through `lists` alone, and of a token only its
// flat listing, through `seats`. Which tokens are refused, and how a listing is made, is not known
// here.
#![tactic(auto)]

mod chains;
mod evaluation;
mod matching;
mod search;
mod walk;
mod weighing;

pub use chains::chain_crowd;
pub use evaluation::{listed, normal};
pub use matching::{Crowd, Hit, Hits};
pub use walk::Walked;
