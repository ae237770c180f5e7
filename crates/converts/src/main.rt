// Worked cases of the two converters: the cards' tokens, the largest token, and each refusal. Those
// that are short stand in `data/`. The lines in `stdout` are decided from the page and not from
// this program.
//
// A token's line has its name and, for record to listing and then for listing to record: the
// status, the length, whether the buffer past the length is as it was, and whether the bytes are
// the other form's. A refusal's line has the length of what was given, and the same answers.
#![tactic(auto)]

mod cases;
mod largest;
mod report;

use report::pair_into;
use std::io;

// TU into buffers that it fills, and into buffers a byte shorter.
fn short(rt: &impl Print) -> io::Result<()> {
    let record = b"\x01\0\0\x02\x05\0\x07\0";
    let listing = b"\0\0\0\0\0\0\0\0\0\0\0\0\x01\x02\0\0\0\0\0\x05\0\0\0\0\x07\0\0\0\0\0\0\0";
    pair_into(rt, b"TU, just fits", record, listing, 32, 8)?;
    pair_into(rt, b"TU, a byte short", record, listing, 31, 7)?;
    pair_into(rt, b"TU, no room", record, listing, 0, 0)
}

fn main(rt: HostRuntime) -> io::Result<()> {
    cases::run(&rt, b"cards.txt")?;
    largest::accepted(&rt)?;
    largest::by_shape(&rt)?;
    cases::run(&rt, b"shapes.txt")?;
    cases::run(&rt, b"rules.txt")?;
    short(&rt)
}
