// What a search for a SID meets: the first seat of a chain, one seat, the row of all seats below.
// A chain is followed while it leaps far, and then the row is: so a long chain costs no more than a
// look at every seat.
ghost use Rattle.std.specs.Prelude.{◌≡◌, cond, ◌||◌, ◌-◌, ◌≤◌, ◌<◌, eqb, length, get_or};
ghost use Rattle.seats.specs.Key.{last_of};
ghost use Rattle.passes.specs.Matching.{among};
ghost use Rattle.passes.specs.Chains.{next_in, last_in, allows_in, denies_in, sits_in};
ghost use Rattle.passes.specs.Chains.{near, row, head_of};

use seats::{key, last};

// The number of the first seat of a SID's chain; 0 where there is none.
// kept: 0 and no Option: heads and cells hold a number, 0 for no seat (`chains_of`), and `head_of` says
// it so; no plainer, since each caller tests it once, and a search stops at the same 0 at a chain's end.
pub(crate) fn head(heads: &[u16; 512], seats: &[u64], w: &[u8]) -> usize
    ensures value { result ≡ head_of heads.now seats.now w.now }
    ensures upper_bound { result ≤ length seats.now - 1 }
{
    let k = key(w);
    let n = usize::from(heads[k]);
    if seats.len() <= n {
        return 0;
    }
    n
}

// The number of the next seat of a chain; 0 at its end.
// kept: 0 and no Option, and parts of a cell by division, here and below: no heap, so seats lie on the
// stack at eight bytes each, and `cell_of` and `next_in` say what stands where.
pub(crate) fn next(x: u64) -> usize
    ensures { (result ≡ next_in x) × (result < 512) }
{
    (x / 1048576 % 512) as usize
}

// Whether a chain goes on to a seat that is near: fewer than 16 numbers below, or not below at all.
pub(crate) fn is_near(n: usize, after: usize) -> bool
    requires { after < 512 }
    ensures { result ≡ near n after }
{
    after != 0 && n < after + 16
}

// Whether the seat of a cell matches for allow, or for deny.
fn ready(x: u64, allow: bool) -> bool
    ensures { result ≡ cond allow (allows_in x) (denies_in x) }
{
    if allow {
        x / 536870912 % 2 == 1
    } else {
        x / 1073741824 % 2 == 1
    }
}

// Whether the SID of a cell has the last word.
fn ends(x: u64, word: u32) -> bool
    ensures { result ≡ eqb (last_in x) word }
{
    x / 4294967296 == u64::from(word)
}

// Whether the identity in a cell of the listing is the SID, and matches. The SID's last word, which
// tells most apart, is handed in.
pub(crate) fn sits(listing: &[u8], x: u64, word: u32, w: &[u8], allow: bool) -> bool
    requires { word ≡ last_of w.now }
    ensures { result ≡ sits_in allow listing.now x w.now }
{
    if !ends(x, word) {
        return false;
    }
    let from = (x % 32768) as usize;
    let to = from + 4 * ((x / 32768 % 32) as usize);
    if listing.len() < to {
        return false;
    }
    ready(x, allow) && base::same(&listing[from..to], w)
}

// Whether one of the four seats from a number down has the last word.
fn one_ends(seats: &[u64], n: usize, word: u32) -> bool
    requires { (4 ≤ n) × (n < length seats.now) }
    ensures { result ≡ ((eqb (last_in (get_or seats.now n 0)) word
        || eqb (last_in (get_or seats.now (n - 1) 0)) word)
        || (eqb (last_in (get_or seats.now (n - 2) 0)) word
        || eqb (last_in (get_or seats.now (n - 3) 0)) word)) }
{
    let upper = ends(seats[n], word) | ends(seats[n - 1], word);
    let lower = ends(seats[n - 2], word) | ends(seats[n - 3], word);
    upper | lower
}

// Whether one of the seats from a number down is that of the SID, and matches. While none of four
// has its last word they are passed at once.
// kept: tables, SID and side one by one, here and in `sits`: no plainer, a crowd has hits also, of which
// these ask nothing.
pub(crate) fn search_row(listing: &[u8], seats: &[u64], from: usize, w: &[u8], allow: bool) -> bool
    requires { from ≤ length seats.now - 1 }
    ensures { result ≡ among allow (row seats.now listing.now from)
        w.now }
{
    let word = last(w);
    let mut n = from;
    // kept: the four are counted down by hand: where one of them has the word, the row goes on from
    // there seat by seat, which chunks of four from the end would not say in fewer words.
    'fours: while 4 <= n {
        if one_ends(seats, n, word) {
            break 'fours;
        }
        n -= 4;
    }
    for i in (1..n + 1).rev() {
        if sits(listing, seats[i], word, w, allow) {
            return true;
        }
    }
    false
}
