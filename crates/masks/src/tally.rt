// "A tally of bits decided and bits allowed takes one entry and gives the next tally".
ghost use Rattle.std.specs.Prelude.{◌≡◌};
ghost use Rattle.masks.specs.TheTally.{emptied, allowing, denying, stepped, idle};

use lists::Rights;

#[derive(Clone, Copy)]
pub struct Tally {
    pub decided: Rights,
    pub allowed: Rights,
}

impl Tally {
    // "Generic bits are 0x80000000 read, 0x40000000 write, 0x20000000 execute, 0x10000000 all."
    pub const GENERIC_READ: Rights = Rights(0x80000000);

    pub const GENERIC_WRITE: Rights = Rights(0x40000000);

    pub const GENERIC_EXECUTE: Rights = Rights(0x20000000);

    pub const GENERIC_ALL: Rights = Rights(0x10000000);

    pub const NOT_GENERIC: Rights = Rights(0x0FFFFFFF);

    // System security is asked only when named; the other bit asks for the maximum.
    pub const SYSTEM_SECURITY: Rights = Rights(0x01000000);

    pub const MAXIMUM: Rights = Rights(0x02000000);

    // What a question may ask of any kind: the generic bits and the two above.
    pub const SPECIAL: Rights = Rights(0xF3000000);

    // The owner's two rights, and the right that SeTakeOwnership adds.
    pub const OWNERS: Rights = Rights(0x60000);

    pub const TAKE_OWNERSHIP: Rights = Rights(0x80000);

    // No bit, and every bit.
    pub const NONE: Rights = Rights(0);

    pub const EVERYTHING: Rights = Rights(0xFFFFFFFF);

    // "every pass begins with the empty tally"
    pub fn empty() -> Tally
        ensures { result ≡ emptied }
    {
        Tally {
            decided: Tally::NONE,
            allowed: Tally::NONE,
        }
    }

    // "takes one entry and gives the next tally": an allow entry that matches.
    pub fn allow(self, mask: Rights) -> Tally
        ensures { result ≡ allowing self mask.0 }
    {
        let d = self.decided.0;
        let a = self.allowed.0;
        Tally {
            decided: Rights(d | mask.0),
            allowed: Rights(a | (mask.0 & !d)),
        }
    }

    // "takes one entry and gives the next tally": a deny entry that matches.
    pub fn deny(self, mask: Rights) -> Tally
        ensures { result ≡ denying self mask.0 }
    {
        let d = self.decided.0;
        let a = self.allowed.0;
        Tally {
            decided: Rights(d | mask.0),
            allowed: Rights(a),
        }
    }

    // The next tally, after an entry that matches or not and allows or denies.
    pub fn step(self, hit: bool, allow: bool, mask: Rights) -> Tally
        ensures { result ≡ stepped self hit allow mask.0 }
    {
        if !hit {
            self
        } else if allow {
            self.allow(mask)
        } else {
            self.deny(mask)
        }
    }

    // Whether an entry cannot change the tally: it is for children only (flag 0x08), or its bits
    // are all decided.
    pub fn idle(self, flags: u8, mask: Rights) -> bool
        ensures { result ≡ idle self flags mask.0 }
    {
        flags & 0x08 != 0 || self.decided.0 & mask.0 == mask.0
    }
}
