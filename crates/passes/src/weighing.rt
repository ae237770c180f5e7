// Whether a condition is true in a pass. "Membership means matching for allow in the pass being
// made": by the tables of chains, and by the hits for the two virtual identities.
ghost use Rattle.std.specs.Prelude.{◌≡◌, true};
ghost use Rattle.conditions.specs.Membership.{sids_of, meets, admits};
ghost use Rattle.passes.specs.Crowds.{shown_in};
ghost use Rattle.passes.specs.Matching.{matches};

use crate::matching::Crowd;
use conditions::{Tests, literal_end, weigh};

impl Tests for Crowd<'_> {
    ghost use Rattle.std.specs.Prelude.{true};
    ghost use Rattle.conditions.specs.Membership.{sids_of, reply};
    ghost use Rattle.passes.specs.Crowds.{shown_in};
    ghost use Rattle.passes.specs.Matching.{matches};

    ghost told = { λ c b list. reply (matches true (shown_in c) c.hits) b (sids_of list) };

    // What one of the four tests of membership is told of a list.
    fn tell(&self, b: u8, list: &[u8]) -> bool {
        match b {
            0x89 => self.meets(list, true),
            0x8b => self.meets(list, false),
            0x90 => !self.meets(list, true),
            _ => !self.meets(list, false),
        }
    }
}

impl Crowd<'_> {
    // Whether every SID of a list is a member, or some SID is.
    // kept: `every` is a truth, by which `meets` of specs asks.
    fn meets(self, c: &[u8], every: bool) -> bool
        ensures { result ≡ meets (matches true (shown_in self.entry) self.entry.hits)
            every (sids_of c.now) }
    {
        let mut at: usize = 0;
        // kept: where a literal ends the next begins, so no range goes along; no iterator is plainer for
        // this one loop, which asks only for an end.
        while at < c.len() {
            let Some(e) = literal_end(c, at) else {
                return every;
            };
            let from = at + 5;
            if self.matches(&c[from..e], true) != every {
                return !every;
            }
            at = e;
        }
        every
    }

    // Whether a condition admits in a pass against those whom the tables show: there is none, or it
    // is true. The hits answer for the two virtual identities. It is no part of the pass's own loop,
    // where few entries have a condition.
    #[inline(never)]
    pub fn admits(self, c: &[u8]) -> bool
        ensures { result ≡ admits (matches true (shown_in self.entry) self.entry.hits)
            c.now }
    {
        c.is_empty() || weigh(c, &self).unwrap_or(false)
    }
}
