// Bytes of a trail, measured or written by the same steps: `write` tells which.
// kept: buffer, place and `write` stand side by side, since a struct that holds a buffer must say in
// each contract, beside all that stands there now, that it still holds the same one.
ghost use Rattle.std.specs.Prelude.{◌≡◌, true, cond, ◌+◌, ◌≤◌, ◌<◌, ◌^◌, length, set};
ghost use Rattle.base.specs.Sevens.{packed};
ghost use Rattle.audit.specs.Trail.{event_bytes};
ghost use Rattle.audit.specs.Noting.{Noted, Room};
ghost use Rattle.audit.specs.Walking.{event_of};

use crate::walk::Event;

// A byte at a place, where it is written.
fn store(out: &mut [u8], i: usize, b: u8, write: bool)
    requires { write ≡ true → i < length out.old }
    ensures { out.new ≡ cond write (set out.old i b) out.old }
{
    if write {
        out[i] = b;
    }
}

// A number in sevens at place `o`, shortest form; answers the place after it.
// kept: `put` of tokens writes the same, but never measures, and is made for speed.
fn put(out: &mut [u8], o: usize, v: u64, write: bool) -> usize
    requires { (o + 10 < 2 ^ 64) × Room write out.old o (packed v) }
    ensures { Noted write out.old out.new o result (packed v) }
{
    let mut n = v;
    let mut i = o;
    // kept: the number that is left says when to stop, and no range counts that.
    while 128 <= n {
        store(out, i, (128 + n % 128) as u8, write);
        n = n / 128;
        i += 1;
    }
    store(out, i, n as u8, write);
    i + 1
}

// An event at place `o`: its source, its entry's number and its mask.
pub(crate) fn put_event(out: &mut [u8], o: usize, e: Event, write: bool) -> usize
    requires { (o + 30 < 2 ^ 64) × Room write out.old o (event_bytes (event_of e)) }
    ensures noted { Noted write out.old out.new o result (event_bytes (event_of e)) }
    ensures upper_bound { result ≤ o + 30 }
{
    // kept: `as u64`: with `u64::from` the proof did not close.
    let a = put(out, o, e.source as u64, write);
    let b = put(out, a, e.entry as u64, write);
    put(out, b, e.mask.0 as u64, write)
}
