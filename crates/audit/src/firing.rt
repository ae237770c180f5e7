// Whether an entry of a SACL fires: raises an event.
ghost use Rattle.std.specs.Prelude.{◌≡◌, length};
ghost use Rattle.lists.specs.Descriptor.{LiesIn};
ghost use Rattle.passes.specs.Crowds.{shown_in};
ghost use Rattle.audit.specs.Events.{flag_for, fires};
ghost use Rattle.audit.specs.Walking.{said_in};

use crate::entry::AuditEntry;
use lists::Rights;
use passes::Crowd;

// What an event must concern: the object kind, the explicit bits of the question, and its final
// allowed answer.
#[derive(Clone, Copy)]
pub struct Sought {
    pub kind: u32,
    pub bits: Rights,
    pub allowed: bool,
}

// What is sought, and for whom.
#[derive(Clone, Copy)]
pub struct Asked<'a> {
    pub sought: Sought,
    pub crowd: Crowd<'a>,
}

// The flag of audit entries for an answer: success or failure.
fn flag_for(allowed: bool) -> u8
    ensures { result ≡ flag_for allowed }
{
    if allowed { 0x40 } else { 0x80 }
}

impl<'a> Asked<'a> {
    // Whether an audit entry fires: not for children only, with the flag for the answer, a mask that
    // covers a bit sought and a SID that matches for deny.
    pub(crate) fn fires(self, list: &[u8], x: AuditEntry) -> bool
        requires { LiesIn (length list.now) x.sid }
        ensures { result ≡ fires self.entry.sought (shown_in self.entry.crowd)
            self.entry.crowd.hits (said_in list.now x) }
    {
        if x.flags & 0x08 != 0 || x.flags & flag_for(self.sought.allowed) == 0 {
            return false;
        }
        let mask = masks::entry_mask(self.sought.kind, x.mask);
        if mask.0 & self.sought.bits.0 == 0 {
            return false;
        }
        self.crowd.matches(&list[x.sid.from..x.sid.to], false)
    }
}
