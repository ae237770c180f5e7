// The seats of a crowd, numbered and chained by the keys of their SIDs, so that a search begins
// with those that share a key.
ghost use Rattle.std.specs.Prelude.{◌≡◌, ◌≤◌};
ghost use Rattle.passes.specs.Chains.{cell_of, tables, chains_of};

use seats::{Seat, first_seat, key, last, seat_at};

// The cell of a seat: where its SID stands, the number of the next seat of its chain, how it
// matches, and the SID's last word.
// kept: parts of one number by arithmetic: no heap, so seats lie on the stack at eight bytes each, and
// `cell_of` of specs says what stands where.
fn cell(x: Seat, next: u16, word: u32) -> u64
    requires { x.from ≤ x.to }
    ensures { result ≡ cell_of x.from x.to next x.allows x.denies word }
{
    let from = (x.from % 32768) as u64;
    let long = ((x.to - x.from) / 4 % 32) as u64;
    let after = (next % 512) as u64;
    let allows = 536870912 * u64::from(x.allows);
    let denies = 1073741824 * u64::from(x.denies);
    from + 32768 * long + 1048576 * after + allows + denies + 4294967296 * u64::from(word)
}

// Chains the crowd at a place of a listing: each seat goes ahead of its chain.
// kept: two tables side by side, and `attrs` a truth: no heap, so both are lent by the caller, and
// `chains_of` of specs speaks of the two and asks by the truth.
pub fn chain_crowd(
    listing: &[u8],
    at: usize,
    attrs: bool,
    heads: &mut [u16; 512],
    seats: &mut [u64],
)
    ensures heads_after { heads.new ≡ (chains_of attrs listing.now at
        (tables heads.old seats.old)).heads }
    ensures seats_after { seats.new ≡ (chains_of attrs listing.now at
        (tables heads.old seats.old)).seats }
{
    let Some(first) = first_seat(listing, at) else {
        return;
    };
    let mut seat = first;
    let beside = base::u32_at(listing, seat.to) as usize;
    for i in 1..seats.len() {
        let w = &listing[seat.from..seat.to];
        let k = key(w);
        seats[i] = cell(seat, heads[k], last(w));
        heads[k] = (i % 65536) as u16;
        if beside < i {
            return;
        }
        let Some(after) = seat_at(listing, seat.next, attrs) else {
            return;
        };
        seat = after;
    }
}
