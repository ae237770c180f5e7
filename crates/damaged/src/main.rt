// The page's number for descriptors that are damaged at one place each: a line for each case, its
// name and its number. The cases that change bytes of D stand in `data/changes.txt`. The numbers in
// `stdout` are decided from the page and not from this program.
#![tactic(auto)]

ghost use Rattle.std.specs.Prelude.{◌≡◌, ◌/◌, length};
ghost use Rattle.lists.specs.Descriptor.{number_of, parts_of};
ghost use Rattle.damaged.specs.Changes.{put_at, changed};

use lists::Refusal;
use std::io;
use testkit::{Lines, print};

// The page's number for what is wrong with a descriptor, 0 where nothing is.
// kept: `number_of` gives these numbers of the definition's `Verdict`; `lists::Refusal` has none.
fn number(d: &[u8]) -> u64
    ensures { result ≡ number_of (parts_of d.now).verdict }
{
    match lists::read(d) {
        Ok(_) => 0,
        Err(Refusal::Misshapen) => 6,
        Err(Refusal::Ownerless) => 7,
        Err(Refusal::ForeignEntry) => 8,
    }
}

// Writes a case's line.
fn show(rt: &impl Print, name: &[u8], d: &[u8]) -> io::Result<()> {
    let n = number(d);
    print(rt, name)?;
    println!(rt; " {n}")
}

// D, cut short.
fn lengths(rt: &impl Print) -> io::Result<()> {
    let d = testkit::descriptor();
    show(rt, b"empty", &d[0..0])?;
    show(rt, b"length 19", &d[0..19])?;
    show(rt, b"length 20", &d[0..20])?;
    show(rt, b"length 63", &d[0..63])?;
    show(rt, b"length 64", &d)
}

// An owner alone, S-1-0 at 20, and zeros after it.
// kept: 65,536 bytes on the stack, of which parts are read; a Vec could fail.
fn longest(rt: &impl Print) -> io::Result<()> {
    let mut d = [0u8; 65536];
    d[0] = 1;
    d[3] = 128;
    d[4] = 20;
    d[20] = 1;
    show(rt, b"length 27", &d[0..27])?;
    show(rt, b"length 28", &d[0..28])?;
    show(rt, b"length 65535", &d[0..65535])?;
    show(rt, b"length 65536", &d)
}

// Puts another byte at a place, if 64 bytes have it.
#[tactic(auto, unfolding(crate::specs::Changes::put_at))]
fn place(d: &mut [u8; 64], at: u8, v: u8)
    ensures { d.new ≡ put_at d.old at v }
{
    let k = usize::from(at);
    if k < 64 {
        d[k] = v;
    }
}

// D with other bytes: of each two bytes the first is a place and the second what stands there.
#[tactic(auto, unfolding(crate::specs::Changes::changed))]
fn changed(changes: &[u8]) -> [u8; 64]
    ensures { result ≡ changed changes.now (length changes.now / 2) }
{
    let mut d = testkit::descriptor();
    // kept: a number and not `chunks_exact(2)`: the contract's `changed` counts the changes.
    for k in 0..changes.len() / 2 {
        place(&mut d, changes[2 * k], changes[2 * k + 1]);
    }
    d
}

// Writes the line of a case of the file, if a line has one: the changes, a blank, and the name.
fn case(rt: &impl Print, line: &[u8]) -> io::Result<()> {
    let mut changes = [0u8; 16];
    let Some(n) = testkit::bytes_of(line, b' ', &mut changes) else {
        return Ok(());
    };
    match line.get(2 * n + 1..) {
        Some([name @ .., _]) => show(rt, name, &changed(&changes[..n])),
        _ => Ok(()),
    }
}

fn main(rt: HostRuntime) -> io::Result<()> {
    lengths(&rt)?;
    longest(&rt)?;
    // kept: a buffer of a fixed size, which `read` fills: a Vec could fail.
    let mut text = [0u8; 4096];
    let n = testkit::read(&rt, b"changes.txt", &mut text)?;
    for (line, _) in Lines(&text[..n]) {
        case(&rt, line)?;
    }
    Ok(())
}
