// A token's flat listing, read in place, seat by seat.
ghost use Rattle.std.specs.Prelude.{◌≡◌, ◌≤◌, length, IfSome};
ghost use Rattle.seats.specs.Seats.{allow_word, deny_word, onward};
ghost use Rattle.seats.specs.Seats.{first_seat, seat_at, seat_found, SeatLies};

use records::Attributes;

// An identity of a listing: its SID stands from `from` to `to`, and `next` is the place after what
// belongs to it.
#[derive(Clone, Copy)]
pub struct Seat {
    pub from: usize,
    pub to: usize,
    pub next: usize,
    pub allows: bool,
    pub denies: bool,
}

// Whether a group with these attributes matches for allow.
fn allows(a: Attributes) -> bool
    ensures { result ≡ allow_word a.0 }
{
    a.0 & 0x4 != 0 && a.0 & 0x10 == 0
}

// Whether a group with these attributes matches for deny.
fn denies(a: Attributes) -> bool
    ensures { result ≡ deny_word a.0 }
{
    a.0 & 0x14 != 0
}

// The place `n` bytes after `e`, or the end of the bytes.
fn onward(s: &[u8], e: usize, n: usize) -> usize
    requires { e ≤ length s.now }
    ensures value { result ≡ onward s.now e n }
    ensures upper_bound { result ≤ length s.now }
{
    if s.len() - e < n {
        return s.len();
    }
    e + n
}

// The first identity of a crowd, which a count follows. None where no SID stands.
pub fn first_seat(s: &[u8], at: usize) -> Option<Seat>
    ensures value { result ≡ seat_found (first_seat s.now at) }
    ensures seat_lies { IfSome result (λ x. SeatLies (length s.now) x) }
{
    let to = sids::sid_end(s, at)?;
    let next = onward(s, to, 4);
    Some(Seat {
        from: at,
        to,
        next,
        allows: true,
        denies: true,
    })
}

// The member at a place: with an attribute word after it where `attrs`, else for both. None where no
// SID stands.
// kept: `attrs`, a truth: the definition `seat_at` asks it.
pub fn seat_at(s: &[u8], at: usize, attrs: bool) -> Option<Seat>
    ensures value { result ≡ seat_found (seat_at attrs s.now at) }
    ensures seat_lies { IfSome result (λ x. SeatLies (length s.now) x) }
{
    let to = sids::sid_end(s, at)?;
    if !attrs {
        return Some(Seat {
            from: at,
            to,
            next: to,
            allows: true,
            denies: true,
        });
    }
    // "both 32 bits and must never change places": an attribute word is no rights mask.
    let word = Attributes(base::u32_at(s, to));
    let next = onward(s, to, 4);
    Some(Seat {
        from: at,
        to,
        next,
        allows: allows(word),
        denies: denies(word),
    })
}
