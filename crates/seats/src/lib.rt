// A token's flat listing read in place, seat by seat, with the attribute words of groups, and the
// key of a SID by which seats are found. Of tokens only their listings are known here, and no lists.
#![tactic(auto)]

mod keys;
mod seats;

pub use keys::{key, last};
pub use seats::{Seat, first_seat, seat_at};
