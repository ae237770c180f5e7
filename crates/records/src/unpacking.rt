// From a packed record to a flat listing, in one pass: each number is written as it is read.
// A refused record leaves the buffer empty.
ghost use Rattle.std.specs.Prelude.{◌≡◌, true, cond, ℕ, ◌+◌, ◌*◌, ◌<◌, ◌≤◌, length, replicate, IfSome};
ghost use Rattle.std.proofs.lemmas.List.Edits.{sets};
ghost use Rattle.base.specs.Bytes.{little};
ghost use Rattle.base.specs.Bytes.Read.{none};
ghost use Rattle.base.specs.Sevens.{num_of};
ghost use Rattle.records.specs.Fields.{many, group_at, people_at};
ghost use Rattle.records.specs.TokenRecord.{packed_identity, packed_reader, read_record};
ghost use Rattle.records.specs.Unpacking.{outcome, copied, limited, word_at, members_room};
ghost use Rattle.records.specs.Unpacking.{member_copied, confinement_copied, people_copied};
ghost use Rattle.records.specs.Unpacking.{Unpacked, Unpacks, filled, left, Roomy, Within, room_fits};
ghost use Rattle.records.specs.Clean.{Such, Plain, PlainGroups, Keeping, ReadKeeping};

use crate::Attributes;
use crate::writing::{put_head, put_little};
use base::Num;

// The place after what was read, and after what was written of it. Where clean, no identity read is
// S-1-3-4 or S-1-5-10; where not, nothing is said.
#[derive(Clone, Copy)]
pub struct Step {
    pub next: usize,
    pub to: usize,
    pub clean: bool,
}

// The length of the listing at the front of a buffer. Where clean, its token keeps the token rules
// and is not confined; where not, nothing is said.
// kept: a length beside a lent buffer, since `Unpacked` speaks of the whole buffer.
#[derive(Clone, Copy)]
pub struct Filled {
    pub length: usize,
    pub clean: bool,
}

// The n words of an identity from place `at`, four bytes each. Of `clean` nothing is said.
// kept: a struct of `out` and `o`, here and below, is no plainer: Roomy and Within speak of the places
// in `s` too.
fn unpack_words(s: &[u8], at: usize, n: usize, out: &mut [u8], o: usize) -> Option<Step>
    requires { Roomy (length out.old) o (length s.now) at (4 * n) }
    ensures out_after { left result out.new ≡ outcome (copied word_at n s.now at) out.old o }
    ensures within { Within result o at (4 * n) }
{
    let mut next = at;
    let mut to = o;
    // kept: `next` goes along by hand too, and steps of four would say `o + 4 * n` twice.
    for _ in 0..n {
        let w = base::word32(s, next)?;
        put_little(out, to, 4, w.value);
        next = w.next;
        to += 4;
    }
    Some(Step {
        next,
        to,
        clean: true,
    })
}

// The number at `at`, where it is at most `most`.
fn number_to(s: &[u8], at: usize, most: u64) -> Option<Num>
    ensures value { result ≡ num_of (limited most s.now at) }
    ensures value_le_most { IfSome result (λ n. (n.value ≤ most) × (n.next ≤ length s.now)) }
{
    let n = base::number32(s, at)?;
    if most < n.value {
        return None;
    }
    Some(n)
}

// An identity: its count, 48-bit authority and words, as a SID's bytes. S-1-3-4 and S-1-5-10 have
// one word: an identity of another count is clean.
fn unpack_identity(s: &[u8], at: usize, out: &mut [u8], o: usize) -> Option<Step>
    requires { Roomy (length out.old) o (length s.now) at 68 }
    ensures out_after { left result out.new ≡ outcome (packed_identity s.now at) out.old o }
    ensures within { Within result o at 68 }
    ensures such { IfSome result (λ r. r.clean ≡ true → Such Plain (packed_identity s.now at)) }
{
    let n = number_to(s, at, 15)?;
    let v = base::number48(s, n.next)?;
    put_head(out, o, n.value, v.value);
    let w = unpack_words(s, v.next, n.value as usize, out, o + 8)?;
    if n.value != 1 {
        return Some(w);
    }
    let to = w.to;
    Some(Step {
        next: w.next,
        to,
        clean: !sids::is_virtual(&out[o..to]),
    })
}

// Writes a group's attribute word from place `o`.
fn put_attributes(out: &mut [u8], o: usize, word: Attributes)
    requires { o + 4 ≤ length out.old }
    ensures { out.new ≡ sets out.old o (little 4 word.0) }
{
    put_little(out, o, 4, u64::from(word.0));
}

// A member: an identity and, where `attrs`, its attribute word.
// kept: `attrs` is a truth, here and below, for `member_copied` of specs asks it.
fn unpack_member(s: &[u8], at: usize, attrs: bool, out: &mut [u8], o: usize) -> Option<Step>
    requires { Roomy (length out.old) o (length s.now) at (members_room attrs 1) }
    ensures out_after { left result out.new ≡ outcome (member_copied attrs s.now at) out.old o }
    ensures within { Within result o at (members_room attrs 1) }
    ensures such { IfSome result (λ r. r.clean ≡ true → Such Plain (packed_identity s.now at)) }
{
    let w = unpack_identity(s, at, out, o)?;
    if !attrs {
        return Some(w);
    }
    let a = base::number32(s, w.next)?;
    put_attributes(out, w.to, Attributes(a.value as u32));
    Some(Step {
        next: a.next,
        to: w.to + 4,
        clean: w.clean,
    })
}

// As many members, one after the other.
fn unpack_members(
    s: &[u8],
    at: usize,
    n: usize,
    attrs: bool,
    out: &mut [u8],
    o: usize,
) -> Option<Step>
    requires { Roomy (length out.old) o (length s.now) at (members_room attrs n) }
    ensures out_after { left result out.new ≡ outcome (copied (member_copied attrs) n s.now at) out.old o }
    ensures within { Within result o at (members_room attrs n) }
    ensures such { IfSome result (λ r. attrs ≡ true → r.clean ≡ true →
        Such PlainGroups (many (group_at packed_reader) n s.now at)) }
{
    let mut next = at;
    let mut to = o;
    let mut clean = true;
    for _ in 0..n {
        let w = unpack_member(s, next, attrs, out, to)?;
        next = w.next;
        to = w.to;
        clean &= w.clean;
    }
    Some(Step { next, to, clean })
}

// The confinement identity and at most 64 capabilities.
fn unpack_confinement(s: &[u8], at: usize, out: &mut [u8], o: usize) -> Option<Step>
    requires { Roomy (length out.old) o (length s.now) at 4424 }
    ensures out_after { left result out.new ≡ outcome (confinement_copied s.now at) out.old o }
    ensures within { Within result o at 4424 }
{
    let w = unpack_identity(s, at, out, o)?;
    let n = number_to(s, w.next, 64)?;
    put_little(out, w.to, 4, n.value);
    unpack_members(s, n.next, n.value as usize, false, out, w.to + 4)
}

// From the user on: at most 256 groups, and the confinement where the flags say so. Where there are
// flags, nothing is said of `clean`.
fn unpack_people(s: &[u8], at: usize, flags: u64, out: &mut [u8]) -> Option<Step>
    requires { Roomy (length out.old) 12 (length s.now) at 22928 }
    ensures out_after { left result out.new ≡ outcome (people_copied flags s.now at) out.old 12 }
    ensures within { Within result 12 at 22928 }
    ensures such { IfSome result (λ r. flags ≡ 0 → r.clean ≡ true → (p : ℕ) →
        Such Keeping (people_at packed_reader flags p s.now at)) }
{
    let u = unpack_identity(s, at, out, 12)?;
    let n = number_to(s, u.next, 256)?;
    put_little(out, u.to, 4, n.value);
    let g = unpack_members(s, n.next, n.value as usize, true, out, u.to + 4)?;
    if flags & 1 == 0 {
        return Some(Step {
            next: g.next,
            to: g.to,
            clean: u.clean & g.clean,
        });
    }
    unpack_confinement(s, g.next, out, g.to)
}

// The whole record: the listing of it. Where it is misshapen, `out` holds what was unpacked before
// the fault. Clean only without flags.
fn unpack_record(s: &[u8], out: &mut [u8]) -> Option<Filled>
    requires { Roomy (length out.old) 0 (length s.now) 0 22940 }
    ensures unpacks { Unpacks (read_record s.now) out.old out.new (filled result) }
    ensures length_in_bounds { IfSome result (λ r. (0 < r.length) × (r.length ≤ length out.old)) }
    ensures read_keeping { IfSome result (λ r. r.clean ≡ true → ReadKeeping (read_record s.now)) }
{
    let version = base::number32(s, 0)?;
    if version.value != 1 {
        return None;
    }
    let flags = number_to(s, version.next, 3)?;
    let p = base::number64(s, flags.next)?;
    put_little(out, 0, 4, flags.value);
    put_little(out, 4, 8, p.value);
    let w = unpack_people(s, p.next, flags.value, out)?;
    if w.next != s.len() {
        return None;
    }
    Some(Filled {
        length: w.to,
        clean: (flags.value == 0) & w.clean,
    })
}

// Whether a buffer is long enough for the listing of a record, by their lengths: 22,940 bytes are
// enough for any record, and four for each of its bytes.
pub fn has_room(room: usize, size: usize) -> bool
    ensures { result ≡ room_fits room size }
{
    22940 <= room || size <= room / 4
}

// Makes a buffer all zeros.
fn clear(out: &mut [u8])
    ensures { out.new ≡ replicate (length out.old) 0 }
{
    out.fill(0);
}

// The listing of a packed record, written to the front of `out`. There is none for a misshapen
// record, nor for any record for which `out` may be too short; `out` is then all zeros.
pub fn unpack(s: &[u8], out: &mut [u8]) -> Option<Filled>
    ensures unpacked { Unpacked (cond (room_fits (length out.old) (length s.now))
        (read_record s.now) none) out.old out.new (filled result) }
    ensures length_in_bounds { IfSome result (λ r. (0 < r.length) × (r.length ≤ length out.old)) }
    ensures read_keeping { IfSome result (λ r. r.clean ≡ true →
        ReadKeeping (cond (room_fits (length out.old) (length s.now)) (read_record s.now) none)) }
{
    if !has_room(out.len(), s.len()) {
        clear(out);
        return None;
    }
    let filled = unpack_record(s, out);
    if filled.is_none() {
        clear(out);
    }
    filled
}
