// From a flat listing to a packed record. The listing was judged before, so every part stands where
// it is read. A record is at most twice as long as its listing, and has at most 28,021 bytes: so
// what is written of it fits.
ghost use Rattle.std.specs.Prelude.{◌≡◌, true, ◌+◌, ◌*◌, ◌≤◌, ◌<◌, length};
ghost use Rattle.std.proofs.lemmas.List.Edits.{sets};
ghost use Rattle.base.specs.Sevens.{packed};
ghost use Rattle.base.specs.Writing.{Wrote};
ghost use Rattle.sids.specs.Sid.{sid_end, is_sid};
ghost use Rattle.records.specs.TokenRecord.{packed_words, pack_identity};
ghost use Rattle.records.specs.Converters.{as_record, fitted, full_result};
ghost use Rattle.records.specs.Packing.{member_bytes, member_end, members_bytes, members_end};
ghost use Rattle.records.specs.Packing.{MembersStand, crowd_bytes, crowd_end, CrowdStands};
ghost use Rattle.records.specs.Packing.{record_bytes, Packable};
ghost use Rattle.tokens.specs.Answers.{answered, converted_by};

use crate::flat::copy;
use crate::judging::judge;
use crate::parts::{authority, identity_end, word};
use crate::refusal::Refusal;
use records::Attributes;

// The place after what was read, and after what was written of it.
#[derive(Clone, Copy)]
pub struct Place {
    pub from: usize,
    pub to: usize,
}

// Writes a number of five groups, as most words of a domain are, and answers the place after it.
// kept: a buffer stands beside its place, here and below, since a struct that holds a buffer must say
// in each contract that it still holds the same one.
fn put_five(out: &mut [u8], o: usize, v: u64) -> usize
    requires { (268435456 ≤ v) × (v < 34359738368) × (o + length (packed v) ≤ length out.old) }
    ensures { Wrote out.old out.new o result (packed v) }
{
    out[o] = (128 + v % 128) as u8;
    out[o + 1] = (128 + v / 128 % 128) as u8;
    out[o + 2] = (128 + v / 16384 % 128) as u8;
    out[o + 3] = (128 + v / 2097152 % 128) as u8;
    out[o + 4] = (v / 268435456) as u8;
    o + 5
}

// Writes a number in sevens at place `o`, shortest form, and answers the place after it. Most are
// one byte or five, which are written at once.
// kept: beside audit's `put`: this one is for speed, and that one measures too.
fn put(out: &mut [u8], o: usize, v: u64) -> usize
    requires { o + length (packed v) ≤ length out.old }
    ensures { Wrote out.old out.new o result (packed v) }
{
    if v < 128 {
        out[o] = v as u8;
        return o + 1;
    }
    if 268435456 <= v && v < 34359738368 {
        return put_five(out, o, v);
    }
    let mut n = v;
    let mut i = o;
    // kept: the number that is left says when to stop, and no range counts that.
    while 128 <= n {
        out[i] = (128 + n % 128) as u8;
        n /= 128;
        i += 1;
    }
    out[i] = n as u8;
    i + 1
}

// The n words of a SID.
fn pack_words(w: &[u8], n: usize, out: &mut [u8], o: usize) -> usize
    requires { (8 + 4 * n ≤ length w.now) × (o + length (packed_words n w.now 8) ≤ length out.old) }
    ensures { Wrote out.old out.new o result (packed_words n w.now 8) }
{
    let mut to = o;
    // kept: no plainer in chunks of four: `packed_words` reads by places, and `n` would cut them.
    for k in 0..n {
        to = put(out, to, u64::from(word(w, 8 + 4 * k)));
    }
    to
}

// An identity: its count, 48-bit authority and words.
fn pack_identity(w: &[u8], out: &mut [u8], o: usize) -> usize
    requires { (is_sid w.now ≡ true) × (o + length (pack_identity w.now) ≤ length out.old) }
    ensures { Wrote out.old out.new o result (pack_identity w.now) }
{
    let n = usize::from(w[1]);
    let a = put(out, o, n as u64);
    let b = put(out, a, authority(w));
    pack_words(w, n, out, b)
}

// A group's attribute word.
fn pack_attributes(word: Attributes, out: &mut [u8], o: usize) -> usize
    requires { o + length (packed word.0) ≤ length out.old }
    ensures { Wrote out.old out.new o result (packed word.0) }
{
    put(out, o, u64::from(word.0))
}

// A member: an identity and, where `attrs`, its attribute word.
// kept: `attrs` is a truth, here and below, for `member_bytes` of specs asks it.
fn pack_member(s: &[u8], attrs: bool, out: &mut [u8], at: Place) -> Place
    requires { (sid_end s.now at.from ≡ 0 → ⊥) × (at.to + length (member_bytes attrs s.now at.from) ≤ length out.old) }
    ensures wrote { Wrote out.old out.new at.to result.to (member_bytes attrs s.now at.from) }
    ensures from_value { result.from ≡ member_end attrs s.now at.from }
{
    let e = identity_end(s, at.from);
    let w = &s[at.from..e];
    let to = pack_identity(w, out, at.to);
    if !attrs {
        return Place { from: e, to };
    }
    let word = Attributes(base::u32_at(s, e));
    Place {
        from: e + 4,
        to: pack_attributes(word, out, to),
    }
}

// As many members, one after the other.
fn pack_members(s: &[u8], n: u32, attrs: bool, out: &mut [u8], at: Place) -> Place
    requires { MembersStand attrs n s.now at.from × (at.to + length (members_bytes attrs n s.now at.from) ≤ length out.old) }
    ensures wrote { Wrote out.old out.new at.to result.to (members_bytes attrs n s.now at.from) }
    ensures from_value { result.from ≡ members_end attrs n s.now at.from }
{
    let mut p = at;
    for _ in 0..n {
        p = pack_member(s, attrs, out, p);
    }
    p
}

// An identity, a count and as many members: the user with the groups, or the confinement identity
// with the capabilities.
fn pack_crowd(s: &[u8], attrs: bool, out: &mut [u8], at: Place) -> Place
    requires { CrowdStands attrs s.now at.from × (at.to + length (crowd_bytes attrs s.now at.from) ≤ length out.old) }
    ensures wrote { Wrote out.old out.new at.to result.to (crowd_bytes attrs s.now at.from) }
    ensures from_value { result.from ≡ crowd_end attrs s.now at.from }
{
    let e = identity_end(s, at.from);
    let w = &s[at.from..e];
    let a = pack_identity(w, out, at.to);
    let n = base::u32_at(s, e);
    let to = put(out, a, u64::from(n));
    pack_members(s, n, attrs, out, Place { from: e + 4, to })
}

// The whole record of a listing, from the front of the buffer, and its length.
fn pack(s: &[u8], out: &mut [u8]) -> usize
    requires { Packable s.now × (length (record_bytes s.now) ≤ length out.old) }
    ensures { Wrote out.old out.new 0 result (record_bytes s.now) }
{
    let flags = base::u32_at(s, 0);
    let a = put(out, 0, 1);
    let b = put(out, a, u64::from(flags));
    let to = put(out, b, base::u64_at(s, 4));
    let p = pack_crowd(s, true, out, Place { from: 12, to });
    if flags & 1 == 0 {
        return p.to;
    }
    let q = pack_crowd(s, false, out, p);
    q.to
}

// The record of a listing, packed into a room of N bytes and copied to `out`, which is unchanged on
// refusal: the record is longer than it.
fn packed_in_room<const N: usize>(s: &[u8], out: &mut [u8]) -> Result<usize, Refusal>
    requires { (N ≤ 28021) × Packable s.now × (length (record_bytes s.now) ≤ N) }
    ensures value { converted_by result ≡ answered (fitted (length out.old) (full_result (record_bytes s.now))) }
    ensures out_after { out.new ≡ sets out.old 0 (fitted (length out.old) (full_result (record_bytes s.now))).bytes }
{
    let mut room = [0u8; N];
    let n = pack(s, &mut room);
    if out.len() < n {
        return Err(Refusal::TooLong);
    }
    copy(&room[..n], out);
    Ok(n)
}

// Writes the packed record of a flat listing to `out`, which is unchanged on refusal: too long is a
// record that is longer than `out`. Where `out` is surely long enough the record is packed there,
// and else in a room that is.
pub fn to_record(s: &[u8], out: &mut [u8]) -> Result<usize, Refusal>
    ensures value { converted_by result ≡ answered (fitted (length out.old) (as_record s.now)) }
    ensures out_after { out.new ≡ sets out.old 0 (fitted (length out.old) (as_record s.now)).bytes }
{
    judge(s)?;
    if s.len() <= out.len() / 2 {
        return Ok(pack(s, out));
    }
    if s.len() <= 1024 {
        return packed_in_room::<2048>(s, out);
    }
    packed_in_room::<28021>(s, out)
}
