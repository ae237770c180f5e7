// Tokens too long to write out, built from parts: 256 groups and 64 capabilities, each identity of
// 15 words, each number the largest of its field.
ghost use Rattle.std.specs.Prelude.{◌≡◌};
ghost use Rattle.converts.specs.Buffers.{build, puts, fills, crowds};
ghost use Rattle.converts.specs.Forms.{crowd_of, but_last, parts_but_last};

use crate::report::{Form, pair_into, refused};
use std::io;

// Copies a part to a place, as far as the buffer goes, and answers the place after it.
// kept: a place by hand: `puts` stops at the buffer's end byte by byte, as this does; a copy of the
// shorter part has to ask of a place past the end besides, and is no plainer.
fn put(out: &mut [u8], at: usize, part: &[u8]) -> usize
    ensures { build out.new result
        ≡ puts part.now (build out.old at) }
{
    let mut to = at;
    for b in part {
        if out.len() <= to {
            return to;
        }
        out[to] = *b;
        to += 1;
    }
    to
}

// A part, some times in a row.
#[tactic(auto, unfolding(crate::specs::Buffers::fills))]
fn fill(out: &mut [u8], at: usize, part: &[u8], times: usize) -> usize
    ensures { build out.new result
        ≡ fills part.now times (build out.old at) }
{
    let mut to = at;
    for _i in 0..times {
        to = put(out, to, part);
    }
    to
}

// Identities of a head and 15 words, each with a tail after it.
#[tactic(auto, unfolding(crate::specs::Buffers::crowds))]
fn crowd(out: &mut [u8], at: usize, head: &[u8], word: &[u8], tail: &[u8], times: usize) -> usize
    ensures { build out.new result
        ≡ crowds head.now word.now tail.now times
        (build out.old at) }
{
    let mut to = at;
    for _i in 0..times {
        let words = put(out, to, head);
        let end = fill(out, words, word, 15);
        to = put(out, end, tail);
    }
    to
}

// A number of identities with no tail: 83 bytes each in a record, 68 in a listing.
fn identities(out: &mut [u8], at: usize, form: Form, times: usize) -> usize
    ensures { build out.new result ≡ crowd_of form times (build out.old at) }
{
    match form {
        Form::Record => {
            let head = b"\x0f\xff\xff\xff\xff\xff\xff\x3f";
            crowd(out, at, head, b"\xff\xff\xff\xff\x0f", b"", times)
        }
        Form::Listing => {
            let head = b"\x01\x0f\xff\xff\xff\xff\xff\xff";
            crowd(out, at, head, b"\xff\xff\xff\xff", b"", times)
        }
    }
}

// A token up to the last of its 64 capabilities, of what stands before its user, its groups and its
// capabilities, and of an identity's head and word.
fn parts_but_last(
    out: &mut [u8],
    user: &[u8],
    groups: &[u8],
    capabilities: &[u8],
    head: &[u8],
    word: &[u8],
) -> usize
    ensures { build out.new result
        ≡ parts_but_last user.now groups.now capabilities.now head.now word.now
        (build out.old 0) }
{
    let owner = put(out, 0, user);
    let count = crowd(out, owner, head, word, b"", 1);
    let first = put(out, count, groups);
    let confinement = crowd(out, first, head, word, word, 256);
    let number = crowd(out, confinement, head, word, b"", 1);
    let rest = put(out, number, capabilities);
    crowd(out, rest, head, word, b"", 63)
}

// The largest token up to the last of its 64 capabilities.
fn but_last(out: &mut [u8], form: Form) -> usize
    ensures { build out.new result ≡ but_last form (build out.old 0) }
{
    match form {
        Form::Record => {
            let user = b"\x01\x01\xff\xff\xff\xff\xff\xff\xff\xff\xff\x01";
            let head = b"\x0f\xff\xff\xff\xff\xff\xff\x3f";
            parts_but_last(
                out,
                user,
                b"\x80\x02",
                b"\x40",
                head,
                b"\xff\xff\xff\xff\x0f",
            )
        }
        Form::Listing => {
            let user = b"\x01\0\0\0\xff\xff\xff\xff\xff\xff\xff\xff";
            let head = b"\x01\x0f\xff\xff\xff\xff\xff\xff";
            let word = b"\xff\xff\xff\xff";
            parts_but_last(out, user, b"\0\x01\0\0", b"\x40\0\0\0", head, word)
        }
    }
}

// The largest token that no rule refuses: its last capability is S-1-15-2-2.
pub(crate) fn accepted(rt: &impl Print) -> io::Result<()> {
    // kept: buffers of the largest size, and a place beside each: what is built is shown short of
    // room too, and a Vec would grow.
    let mut packed = [0u8; 28021];
    let r = but_last(&mut packed, Form::Record);
    let n = put(&mut packed, r, b"\x02\x0f\x02\x02");
    let mut flat = [0u8; 22940];
    let l = but_last(&mut flat, Form::Listing);
    let m = put(&mut flat, l, b"\x01\x02\0\0\0\0\0\x0f\x02\0\0\0\x02\0\0\0");
    if 28021 < n || 22940 < m {
        return Ok(());
    }
    let record = &packed[0..n];
    let listing = &flat[0..m];
    pair_into(rt, b"largest", record, listing, 22940, 28021)?;
    pair_into(rt, b"largest, a byte short", record, listing, 22887, 27941)
}

// The largest token by shape, which has no capability S-1-15-2-2.
pub(crate) fn by_shape(rt: &impl Print) -> io::Result<()> {
    let mut record = [0u8; 28021];
    let r = but_last(&mut record, Form::Record);
    identities(&mut record, r, Form::Record, 1);
    refused(rt, Form::Record, b"largest by shape", &record[0..28021])?;
    let mut listing = [0u8; 22940];
    let l = but_last(&mut listing, Form::Listing);
    identities(&mut listing, l, Form::Listing, 1);
    refused(rt, Form::Listing, b"largest by shape", &listing[0..22940])
}
