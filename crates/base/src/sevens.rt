// Numbers in groups of seven bits, lowest first, shortest form only. One reader takes the width;
// `number32`, `number48` and `number64` name it. `word32` has a short way of its own.
ghost use Rattle.std.specs.Prelude.{◌≡◌, ◌+◌, ◌≤◌, ◌<◌, ◌^◌, length, IfSome};
ghost use Rattle.base.specs.Bytes.{byte_at};
ghost use Rattle.base.specs.Bytes.Read.{some};
ghost use Rattle.base.specs.Sevens.{number, num_of, within};

// A number with the place after it.
#[derive(Clone, Copy)]
pub struct Num {
    pub value: u64,
    pub next: usize,
}

// The number of one byte that stands at a place.
fn alone(value: u64, at: usize) -> Num
    requires { at + 1 < 2 ^ 64 }
    ensures { Some result ≡ num_of (some value (at + 1)) }
{
    Num {
        value,
        next: at + 1,
    }
}

// `value` with the place after it, where it is within `bits` bits.
fn within(value: u64, next: usize, bits: u32) -> Option<Num>
    requires { bits < 64 }
    ensures { result ≡ num_of (within bits (some value next)) }
{
    if (1u64 << bits) <= value {
        return None;
    }
    Some(Num { value, next })
}

// The number that starts at `at` with a group that is not the last. `value` is the groups before
// `place`, `shift` bits of them; what stands there may not be 0 if it is the last.
fn longer(s: &[u8], at: usize, bits: u32) -> Option<Num>
    requires { (7 < bits) × (bits ≤ 64) × (at < length s.now) × (128 ≤ byte_at s.now at) }
    ensures { result ≡ num_of (number bits s.now at) }
{
    let mut value = u64::from(s[at]) - 128;
    let mut shift: u32 = 7;
    for place in at + 1..s.len() {
        let b = u64::from(s[place]);
        let left = bits - shift;
        if b < 128 {
            let high = within(b, place + 1, left)?;
            if high.value == 0 {
                return None;
            }
            return Some(Num {
                value: value + (high.value << shift),
                next: high.next,
            });
        }
        if left <= 7 {
            return None;
        }
        value += (b - 128) << shift;
        // kept: goes along with `place`; the edit `groups_eight_bits_apart` is of this step.
        shift += 7;
    }
    None
}

// The number that starts at `at`, in at most `bits` bits. Nearly all take one byte: that is the
// short way.
// kept: `value_bound` five times in this file: each of the public functions promises it.
fn number_at(s: &[u8], at: usize, bits: u32) -> Option<Num>
    requires { (7 < bits) × (bits ≤ 64) }
    ensures value { result ≡ num_of (number bits s.now at) }
    ensures value_bound { IfSome result (λ n. (n.value < 2 ^ bits) × (n.next ≤ length s.now)) }
{
    let first = u64::from(*s.get(at)?);
    if first < 128 {
        return Some(alone(first, at));
    }
    longer(s, at, bits)
}

// The number that starts at `at`, in at most 32 bits. None where it is cut short, in a longer form
// or too wide; so with 48 and 64 bits.
// kept: three functions for three widths: an enum of widths, with its bits, is longer than these.
pub fn number32(s: &[u8], at: usize) -> Option<Num>
    ensures value { result ≡ num_of (number 32 s.now at) }
    ensures value_bound { IfSome result (λ n. (n.value < 2 ^ 32) × (n.next ≤ length s.now)) }
{
    number_at(s, at, 32)
}

// The value of the number that starts at `at` with the byte `first`, where that has five groups and
// is within 32 bits; none where it is another, or no number.
fn five(s: &[u8], at: usize, first: u64) -> Option<u64>
    requires { (at < length s.now) × (first ≡ byte_at s.now at) × (128 ≤ first) × (first < 256) }
    ensures { IfSome result (λ v. number 32 s.now at ≡ some v (at + 5)) }
{
    if s.len() - at < 5 {
        return None;
    }
    let second = u64::from(s[at + 1]);
    let third = u64::from(s[at + 2]);
    let fourth = u64::from(s[at + 3]);
    let fifth = u64::from(s[at + 4]);
    if second < 128 || third < 128 || fourth < 128 || fifth == 0 || 15 < fifth {
        return None;
    }
    let low = (first - 128) + 128 * (second - 128);
    Some(low + 16384 * (third - 128) + 2097152 * (fourth - 128) + 268435456 * fifth)
}

// The number of more than one byte that starts at `at` with the byte `first`, within 32 bits.
fn large32(s: &[u8], at: usize, first: u64) -> Option<Num>
    requires { (at < length s.now) × (first ≡ byte_at s.now at) × (128 ≤ first) × (first < 256) }
    ensures { result ≡ num_of (number 32 s.now at) }
{
    let Some(value) = five(s, at, first) else {
        return longer(s, at, 32);
    };
    Some(Num {
        value,
        next: at + 5,
    })
}

// What `number32` answers, with a short way for five bytes beside that for one: most words of an
// identity take the one or the other.
// kept: the contract of `number32` again, for speed: docs/DECISIONS.md, entry 54.
pub fn word32(s: &[u8], at: usize) -> Option<Num>
    ensures value { result ≡ num_of (number 32 s.now at) }
    ensures value_bound { IfSome result (λ n. (n.value < 2 ^ 32) × (n.next ≤ length s.now)) }
{
    let first = u64::from(*s.get(at)?);
    if 127 < first {
        return large32(s, at, first);
    }
    Some(alone(first, at))
}

// In at most 48 bits.
pub fn number48(s: &[u8], at: usize) -> Option<Num>
    ensures value { result ≡ num_of (number 48 s.now at) }
    ensures value_bound { IfSome result (λ n. (n.value < 2 ^ 48) × (n.next ≤ length s.now)) }
{
    number_at(s, at, 48)
}

// In at most 64 bits.
pub fn number64(s: &[u8], at: usize) -> Option<Num>
    ensures value { result ≡ num_of (number 64 s.now at) }
    ensures value_bound { IfSome result (λ n. (n.value < 2 ^ 64) × (n.next ≤ length s.now)) }
{
    number_at(s, at, 64)
}
