// The numbers and places that are packed of a flat listing. It was judged before, so every part
// stands where it is read: words, authority and ends are read with no test.
ghost use Rattle.std.specs.Prelude.{◌≡◌, ◌+◌, ◌*◌, ◌≤◌, length};
ghost use Rattle.base.specs.Bytes.{u32_at, u48_be_at};
ghost use Rattle.sids.specs.Sid.{sid_end};

// The four bytes at a place as a number, lowest first.
// kept: base::u32_at in its place tests each word's place, and packing takes an eighth longer.
pub(crate) fn word(w: &[u8], at: usize) -> u32
    requires { at + 4 ≤ length w.now }
    ensures { result ≡ u32_at w.now at }
{
    u32::from_le_bytes([w[at], w[at + 1], w[at + 2], w[at + 3]])
}

// The six authority bytes of a SID as a number, highest first.
pub(crate) fn authority(w: &[u8]) -> u64
    requires { 8 ≤ length w.now }
    ensures { result ≡ u48_be_at w.now 2 }
{
    u64::from_be_bytes([0, 0, w[2], w[3], w[4], w[5], w[6], w[7]])
}

// The place after the identity at a place.
pub(crate) fn identity_end(s: &[u8], at: usize) -> usize
    requires { sid_end s.now at ≡ 0 → ⊥ }
    ensures value { result ≡ sid_end s.now at }
    ensures upper_bound { result ≤ length s.now }
{
    at + 8 + 4 * usize::from(s[at + 1])
}
