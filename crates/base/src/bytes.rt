// Numbers of two, four and eight bytes, lowest first, and equality of bytes. Each is total: what is
// not wholly there reads as 0.
ghost use Rattle.std.specs.Prelude.{◌≡◌, ◌<◌, ◌^◌, length};
ghost use Rattle.base.specs.Bytes.{u16_at, u32_at, u64_at, same};

// The number in the two bytes at a place, or 0 where they are not both there.
// kept: 0 and no Option: it cannot fail, and a public function that could not fail still can't; past
// the end the definitions read on with 0.
// kept: three functions for three widths: each of the three has its own definition in specs.
pub fn u16_at(s: &[u8], at: usize) -> u32
    ensures value { result ≡ u16_at s.now at }
    ensures upper_bound { result < 65536 }
{
    if s.len() < 2 || s.len() - 2 < at {
        return 0;
    }
    u32::from(s[at]) + 256 * u32::from(s[at + 1])
}

// The number in the four bytes at a place, or 0 where they are not all there.
// kept: 0 and no Option: it cannot fail, and a public function that could not fail still can't.
pub fn u32_at(s: &[u8], at: usize) -> u32
    ensures { result ≡ u32_at s.now at }
{
    if s.len() < 4 || s.len() - 4 < at {
        return 0;
    }
    // kept: by 256 and no `from_le_bytes`: the edit `highest_byte_swapped` is of these lines.
    u32::from(s[at])
        + 256 * u32::from(s[at + 1])
        + 65536 * u32::from(s[at + 2])
        + 16777216 * u32::from(s[at + 3])
}

// The number in the eight bytes at a place, or 0 where they are not all there.
// kept: 0 and no Option: it cannot fail, and a public function that could not fail still can't.
pub fn u64_at(s: &[u8], at: usize) -> u64
    ensures { result ≡ u64_at s.now at }
{
    if s.len() < 8 || s.len() - 8 < at {
        return 0;
    }
    u64::from(u32_at(s, at)) + 4294967296 * u64::from(u32_at(s, at + 4))
}

// Whether two lists of one length are equal, byte by byte.
// kept: a loop and no `==` on slices, since the edit `same_other_bytes_skipped` is one of its step.
fn alike(a: &[u8], b: &[u8]) -> bool
    requires { length a.now ≡ length b.now }
    ensures { result ≡ same a.now b.now }
{
    for i in 0..a.len() {
        if a[i] != b[i] {
            return false;
        }
    }
    true
}

// Whether two lists of bytes are equal: the lengths first, then the last eight bytes, which tell
// most identities apart, then every eight before them. Fewer than eight are compared one by one.
pub fn same(a: &[u8], b: &[u8]) -> bool
    ensures { result ≡ same a.now b.now }
{
    if a.len() != b.len() {
        return false;
    }
    if a.len() < 8 {
        return alike(a, b);
    }
    let k = a.len() - 8;
    if u64_at(a, k) != u64_at(b, k) {
        return false;
    }
    for i in (0..k).step_by(8) {
        if u64_at(a, i) != u64_at(b, i) {
            return false;
        }
    }
    true
}
