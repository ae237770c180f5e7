// The entries of some lists, as the entry reader shows them: a line for each list, and one for each
// entry with its type, flags, mask and the bytes of its SID. The lines in `stdout` are decided from
// the page and not from this program.
#![tactic(auto)]

ghost use Rattle.std.specs.Prelude.{◌<◌};

use lists::{Ace, Extent};
use reader::Entries;
use std::io;
use testkit::{print, print_bytes};

// Writes the line of an entry of the list.
fn show(rt: &impl Print, list: &[u8], a: Ace) -> io::Result<()> {
    let kind = if a.kind == 0 { "allow" } else { "deny" };
    print!(rt; "  {kind} flags {:02x} mask {:08x} sid ", a.flags, a.mask.0)?;
    let sid = lists::part(
        list,
        Extent {
            from: a.from,
            to: a.to,
        },
    );
    print_bytes(rt, sid)?;
    print(rt, b"\n")
}

// Writes the lines of a list: its name, then an entry after the other, to the end.
fn listed(rt: &impl Print, name: &[u8], list: &[u8]) -> io::Result<()> {
    print(rt, name)?;
    print(rt, b"\n")?;
    let mut r = Entries::opened(list);
    while let Some(a) = r.current() {
        show(rt, r.list(), a)?;
        r = r.stepped();
    }
    Ok(())
}

// Two entries of 16 bytes, allow 1 to S-1-5 at 8 and deny 2 to S-1-7 at 24 with flag 8, with
// another byte at a place.
// kept: beside `spared` and not one function of a const size: their bytes are all that either has.
fn changed(rt: &impl Print, name: &[u8], at: usize, v: u8) -> io::Result<()>
    requires { at < 40 }
{
    let mut l = *b"\x02\0\x28\0\x02\0\0\0\
        \0\0\x10\0\x01\0\0\0\x01\0\0\0\0\0\0\x05\
        \x01\x08\x10\0\x02\0\0\0\x01\0\0\0\0\0\0\x07";
    l[at] = v;
    listed(rt, name, &l)
}

// An allow entry of 32 bytes, whose 16 spare bytes look like a deny entry, and a deny entry of 16
// after it; with another byte at a place.
fn spared(rt: &impl Print, name: &[u8], at: usize, v: u8) -> io::Result<()>
    requires { at < 56 }
{
    let mut l = *b"\x02\0\x38\0\x02\0\0\0\
        \0\0\x20\0\x01\0\0\0\x01\0\0\0\0\0\0\x05\
        \x01\0\x10\0\x02\0\0\0\x01\0\0\0\0\0\0\x07\
        \x01\0\x10\0\x04\0\0\0\x01\0\0\0\0\0\0\x06";
    l[at] = v;
    listed(rt, name, &l)
}

fn main(rt: HostRuntime) -> io::Result<()> {
    let d = testkit::descriptor();
    listed(&rt, b"the DACL of D", lists::dacl(&d))?;
    listed(&rt, b"the SACL of D", lists::sacl(&d))?;
    changed(&rt, b"two entries", 0, 2)?;
    changed(&rt, b"count 1, and 16 bytes after the last", 4, 1)?;
    changed(&rt, b"count 0", 4, 0)?;
    changed(&rt, b"count 3", 4, 3)?;
    changed(&rt, b"type 5 in the second place", 24, 5)?;
    changed(&rt, b"size 12 in the first place", 10, 12)?;
    changed(&rt, b"size 20 in the second place", 26, 20)?;
    changed(&rt, b"a SID of one word in the second place", 33, 1)?;
    changed(&rt, b"size 32 in the first place", 10, 32)?;
    spared(&rt, b"16 spare bytes that look like an entry", 0, 2)?;
    spared(&rt, b"the same, with a SID of four words", 17, 4)?;
    spared(&rt, b"the same, with a SID of five words", 17, 5)?;
    spared(&rt, b"the same, with count 1", 4, 1)?;
    spared(&rt, b"the same, with size 48", 10, 48)?;
    spared(&rt, b"the same, with size 16", 10, 16)
}
