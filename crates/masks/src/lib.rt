// Kinds and masks, and the tally of one pass. Of lists only the type of a rights mask is known, and
// nothing of tokens or of who matches.
#![tactic(auto)]

mod masks;
mod tally;

pub use masks::{all_bits, asked, entry_mask, explicit, legal, mapped, when};
pub use tally::Tally;
