// One identity at a place of lent bytes, and the two virtual identities.
ghost use Rattle.std.specs.Prelude.{◌≡◌, ◌≤◌, length, IfSome};
ghost use Rattle.base.specs.Bytes.{same, found};
ghost use Rattle.sids.specs.Sid.{sid_end, is_sid, owner_rights, virtual, single};

// The place after the SID that stands whole at `at`.
pub fn sid_end(s: &[u8], at: usize) -> Option<usize>
    ensures value { result ≡ found (sid_end s.now at) }
    ensures upper_bound { IfSome result (λ e. e ≤ length s.now) }
{
    if s.len() < 8 || s.len() - 8 < at {
        return None;
    }
    if s[at] != 1 {
        return None;
    }
    let n = usize::from(s[at + 1]);
    if 15 < n {
        return None;
    }
    let e = at + 8 + 4 * n;
    if s.len() < e {
        return None;
    }
    Some(e)
}

// Whether the bytes are exactly one SID.
pub fn is_sid(s: &[u8]) -> bool
    ensures { result ≡ is_sid s.now }
{
    sid_end(s, 0) == Some(s.len())
}

// Whether a SID has one word and an authority below 2^32, given as its four bytes stand: the words
// are compared as numbers, the one that tells most identities apart first.
fn is_single(w: &[u8], authority: u32, word: u32) -> bool
    ensures { result ≡ same w.now (single authority word) }
{
    if w.len() != 12 || base::u32_at(w, 8) != word || base::u32_at(w, 4) != authority {
        return false;
    }
    base::u32_at(w, 0) == 257
}

// Whether a SID is S-1-3-4, owner rights.
pub fn is_owner_rights(w: &[u8]) -> bool
    ensures { result ≡ same w.now owner_rights }
{
    is_single(w, 0x3000000, 4)
}

// Whether a SID is one of the two virtual identities: owner rights, or S-1-5-10, the object itself.
pub fn is_virtual(w: &[u8]) -> bool
    ensures { result ≡ virtual w.now }
{
    is_owner_rights(w) || is_single(w, 0x5000000, 10)
}
