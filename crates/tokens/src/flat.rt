// A packed record as a flat listing: unpacked into a room that is lent, judged there where unpacking
// did not tell, and handed out.
// The rooms of `to_listing` are chosen by the record's length.
ghost use Rattle.std.specs.Prelude.{◌≡◌, true, ◌≤◌, length, IfOk};
ghost use Rattle.std.proofs.lemmas.List.Edits.{sets};
ghost use Rattle.records.specs.Converters.{as_listing, fitted};
ghost use Rattle.records.specs.Unpacking.{room_fits};
ghost use Rattle.tokens.specs.Answers.{answered, converted_by};
ghost use Rattle.tokens.specs.Judging.{extent_by, listed_in, room_after};

use crate::judging::judge;
use crate::refusal::Refusal;

// How long the listing at the front of a room is, and the place of its confinement identity.
// kept: a length beside a lent room, since `room_after` speaks of the whole room.
#[derive(Clone, Copy)]
pub struct Listed {
    pub length: usize,
    pub confined_at: usize,
}

// Lists a packed record at the front of `room`. It is misshapen, its token breaks a token rule, or
// it is too long for `room`, as far as the lengths tell. Where it breaks a rule `room` then holds
// the listing too, and on the other refusals it is all zeros.
pub fn list_in(s: &[u8], room: &mut [u8]) -> Result<Listed, Refusal>
    ensures value { extent_by result ≡ listed_in (length room.old) s.now }
    ensures room_after { room.new ≡ room_after s.now room.old }
    ensures length_in_bounds { IfOk result (λ r. (r.length ≤ length room.old) × (r.confined_at ≤ r.length)) }
{
    let Some(u) = records::unpack(s, room) else {
        if records::has_room(room.len(), s.len()) {
            return Err(Refusal::Misshapen);
        }
        return Err(Refusal::TooLong);
    };
    let length = u.length;
    if u.clean {
        return Ok(Listed {
            length,
            confined_at: length,
        });
    }
    let confined_at = judge(&room[..length])?;
    Ok(Listed {
        length,
        confined_at,
    })
}

// Copies all of `from` to the front of `out`.
pub(crate) fn copy(from: &[u8], out: &mut [u8])
    requires { length from.now ≤ length out.old }
    ensures { out.new ≡ sets out.old 0 from.now }
{
    out[..from.len()].copy_from_slice(from);
}

// Lists a record in a room of N bytes, which is long enough, and copies the listing to `out`.
// kept: beside `packed_in_room`, since the one may be refused in its room and the other may not.
fn listed_in_room<const N: usize>(s: &[u8], out: &mut [u8]) -> Result<usize, Refusal>
    requires { (N ≤ 22940) × (room_fits N (length s.now) ≡ true) }
    ensures value { converted_by result ≡ answered (fitted (length out.old) (as_listing s.now)) }
    ensures out_after { out.new ≡ sets out.old 0 (fitted (length out.old) (as_listing s.now)).bytes }
{
    let mut room = [0u8; N];
    let n = list_in(s, &mut room)?.length;
    if out.len() < n {
        return Err(Refusal::TooLong);
    }
    copy(&room[..n], out);
    Ok(n)
}

// Writes the listing of a packed record to `out`, which is unchanged on refusal: too long is a
// listing that is longer than `out`.
pub fn to_listing(s: &[u8], out: &mut [u8]) -> Result<usize, Refusal>
    ensures value { converted_by result ≡ answered (fitted (length out.old) (as_listing s.now)) }
    ensures out_after { out.new ≡ sets out.old 0 (fitted (length out.old) (as_listing s.now)).bytes }
{
    // kept: access::answering has the same four sizes, since a const argument is a literal.
    match s.len() {
        ..=64 => listed_in_room::<256>(s, out),
        65..=512 => listed_in_room::<2048>(s, out),
        513..=2048 => listed_in_room::<8192>(s, out),
        _ => listed_in_room::<22940>(s, out),
    }
}
