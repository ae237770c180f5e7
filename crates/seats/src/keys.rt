// The key of a SID: a number below 512 that depends on all of its words; and its last word.
ghost use Rattle.std.specs.Prelude.{◌≡◌, ◌<◌};
ghost use Rattle.seats.specs.Key.{mixed, spread, key_of, last_of};

// All words of a SID in one number, two at a time. Most SIDs have one word, or five: for these
// there is no loop.
// kept: 0 and no Option where it is too short: it cannot fail, and `key_of` of specs reads so.
fn mixed(w: &[u8]) -> u64
    ensures { result ≡ mixed w.now }
{
    if w.len() < 8 {
        return 0;
    }
    let k = w.len() - 8;
    let end = base::u64_at(w, k);
    if k <= 8 {
        return end;
    }
    let both = end ^ base::u64_at(w, 8);
    if k <= 16 {
        return both;
    }
    let mut x = both ^ base::u64_at(w, 16);
    for i in (24..k).step_by(8) {
        x ^= base::u64_at(w, i);
    }
    x
}

// Nine bits of a number that depend on all of its bits.
fn spread(x: u64) -> usize
    ensures { (result ≡ spread x) × (result < 512) }
{
    let low = x % 4294967296;
    let high = x / 4294967296;
    ((low * 1640531527 + high * 1013904223) / 8388608 % 512) as usize
}

// The key of a SID: one of 512, from all its words.
pub fn key(w: &[u8]) -> usize
    ensures value { result ≡ key_of w.now }
    ensures upper_bound { result < 512 }
{
    spread(mixed(w))
}

// The last word of a SID.
// kept: 0 and no Option where it is too short: it cannot fail, and `last_of` of specs reads so.
pub fn last(w: &[u8]) -> u32
    ensures { result ≡ last_of w.now }
{
    if w.len() < 4 {
        return 0;
    }
    base::u32_at(w, w.len() - 4)
}
