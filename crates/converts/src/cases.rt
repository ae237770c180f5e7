// The cases of a file: a line with a name, and after it the record of a token, its listing, or
// both.
ghost use Rattle.std.specs.Prelude.{◌≤◌};

use crate::report::{Form, pair_into, refused};
use std::io;
use testkit::{Lines, bytes_of, first_line};

// Puts the bytes of a form, in hexadecimal digits up to a line end, into a buffer, and answers how
// many they are: none where digits are missing or there is no room.
// kept: buffers of a fixed size, which `testkit::bytes_of` is lent and whose end it has to heed.
fn form(digits: &[u8], bytes: &mut [u8; 4096]) -> usize
    ensures { result ≤ 4096 }
{
    bytes_of(digits, b'\n', bytes).unwrap_or(0)
}

// A listing alone is refused.
fn with_listing(rt: &impl Print, name: &[u8], rest: &[u8]) -> io::Result<()> {
    let Some(digits) = rest.strip_prefix(b"listing = ") else {
        return Ok(());
    };
    let mut bytes = [0u8; 4096];
    let n = form(digits, &mut bytes);
    refused(rt, Form::Listing, name, &bytes[0..n])
}

// A record alone is refused; where a listing follows, each is turned into the other.
fn with_record(rt: &impl Print, name: &[u8], record: &[u8], rest: &[u8]) -> io::Result<()> {
    let Some(digits) = rest.strip_prefix(b"listing = ") else {
        return refused(rt, Form::Record, name, record);
    };
    let mut bytes = [0u8; 4096];
    let n = form(digits, &mut bytes);
    pair_into(rt, name, record, &bytes[0..n], 22940, 28021)
}

// The line of a record, behind its name, and what follows on it.
fn record_line(rest: &[u8]) -> Option<(&[u8], &[u8])> {
    first_line(rest.strip_prefix(b"record = ")?)
}

// The forms that follow on a name.
fn forms(rt: &impl Print, name: &[u8], rest: &[u8]) -> io::Result<()> {
    let Some((digits, others)) = record_line(rest) else {
        return with_listing(rt, name, rest);
    };
    let mut bytes = [0u8; 4096];
    let n = form(digits, &mut bytes);
    with_record(rt, name, &bytes[0..n], others)
}

// Runs the cases of a file.
pub(crate) fn run(rt: &HostRuntime, name: &[u8]) -> io::Result<()> {
    // kept: a buffer of a fixed size, which `read` fills: a Vec could fail.
    let mut text = [0u8; 16384];
    let n = testkit::read(rt, name, &mut text)?;
    for (line, rest) in Lines(&text[..n]) {
        if let Some([name @ .., _]) = line.strip_prefix(b"# ") {
            forms(rt, name, rest)?;
        }
    }
    Ok(())
}
