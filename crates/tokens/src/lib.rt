// The judge of a flat listing, and the two converters.
#![tactic(auto)]

mod flat;
mod judging;
mod pack;
mod parts;
mod refusal;

pub use flat::{Listed, list_in, to_listing};
pub use judging::judge;
pub use pack::to_record;
pub use refusal::Refusal;
