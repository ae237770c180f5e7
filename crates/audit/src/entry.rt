// An entry of a SACL, at a place of the list's own bytes.
ghost use Rattle.std.specs.Prelude.{◌≡◌, length, IfSome};
ghost use Rattle.lists.specs.Descriptor.{LiesIn};
ghost use Rattle.audit.specs.Events.{spot_at};
ghost use Rattle.audit.specs.Walking.{read};

use lists::{Extent, Rights};

// What an audit entry says: its flags, its mask as stored and where its SID stands.
#[derive(Clone, Copy)]
pub struct AuditEntry {
    pub flags: u8,
    pub mask: Rights,
    pub sid: Extent,
}

// An entry of a SACL: what it says, where it is an audit entry, and the place after it.
#[derive(Clone, Copy)]
pub struct Entry {
    pub audit: Option<AuditEntry>,
    pub next: usize,
}

// The entry at a place.
pub(crate) fn entry_at(l: &[u8], at: usize) -> Option<Entry>
    ensures value { result ≡ read (spot_at l.now at) }
    ensures lies { IfSome result (λ e. IfSome e.audit (λ x. LiesIn (length l.now) x.sid)) }
{
    let next = lists::entry_end(l, at, false)?;
    if l[at] != 2 {
        return Some(Entry { audit: None, next });
    }
    let sid = Extent {
        from: at + 8,
        to: sids::sid_end(l, at + 8).unwrap(),
    };
    let audit = AuditEntry {
        flags: l[at + 1],
        mask: Rights(base::u32_at(l, at + 4)),
        sid,
    };
    Some(Entry {
        audit: Some(audit),
        next,
    })
}
