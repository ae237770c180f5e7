// Token records and flat listings: what they are, the laws of both, and the way from a record to the
// bytes of its listing, which tells of usual tokens that they keep the token rules. Of the others
// that is left to `tokens`.
#![tactic(auto)]

mod unpacking;
mod writing;

pub use unpacking::{Filled, has_room, unpack};

// A group's attribute word. A rights mask is another type, so that the two cannot change places.
#[derive(Clone, Copy)]
pub struct Attributes(pub u32);
