// Entries of a list that was judged before: found by their sizes and the counts of their SIDs.
ghost use Rattle.std.specs.Prelude.{◌≡◌, ◌≤◌, length, IfSome};
ghost use Rattle.lists.specs.Acl.{stands};
ghost use Rattle.lists.specs.ByLength.{ace_by_length};

use crate::acl::{Ace, Rights};

// The entry at a place of its list. Its type is not asked, nor the shape of its SID: the scan of
// the list did that. No entry where it does not fit.
// kept: beside `ace_at`, for speed: docs/DECISIONS.md, entry 46.
pub fn ace_by_length(l: &[u8], at: usize) -> Option<Ace>
    ensures value { result ≡ stands (ace_by_length l.now at) }
    ensures inside { IfSome result (λ a.
        (a.from ≤ a.to) × ((a.to ≤ a.next) × (a.next ≤ length l.now))) }
{
    if l.len() < 16 || l.len() - 16 < at {
        return None;
    }
    let next = at + base::u16_at(l, at + 2) as usize;
    if l.len() < next {
        return None;
    }
    let to = at + 16 + 4 * usize::from(l[at + 9]);
    if next < to {
        return None;
    }
    let mask = base::u32_at(l, at + 4);
    Some(Ace {
        kind: l[at],
        flags: l[at + 1],
        mask: Rights(mask),
        from: at + 8,
        to,
        next,
    })
}
