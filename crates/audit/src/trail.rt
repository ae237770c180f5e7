// The trail of a question: measured first, and written only where all of it fits.
ghost use Rattle.std.specs.Prelude.{◌≡◌, true, cond, ltb, length, None, Some};
ghost use Rattle.passes.specs.Crowds.{shown_in};
ghost use Rattle.policy.specs.ByLengths.{rules_by_lengths};
ghost use Rattle.audit.specs.Events.{events_of};
ghost use Rattle.audit.specs.Trail.{trail_bytes};
ghost use Rattle.audit.specs.Noting.{noted, Noted, Room, fitting};

use crate::firing::Asked;

impl<'a> Asked<'a> {
    // The events of the descriptor's SACL, then those of the rules, measured or written from the
    // front.
    fn put_all(self, sacl: &[u8], policy: &[u8], out: &mut [u8], write: bool) -> usize
        requires { Room write out.old 0 (trail_bytes (events_of self.sought
            (shown_in self.crowd) self.crowd.hits sacl.now
            (rules_by_lengths policy.now))) }
        ensures { Noted write out.old out.new 0 result (trail_bytes (events_of self.entry.sought
            (shown_in self.entry.crowd) self.entry.crowd.hits sacl.now
            (rules_by_lengths policy.now))) }
    {
        let o = self.put_list(sacl, 0, out, 0, write);
        self.put_rules(policy, out, o, write)
    }

    // The length of the trail of a question whose SACL and policy were judged before, which is then
    // at the front of `out`. None where it does not fit; nothing is written then.
    // kept: a length beside the lent buffer: the clauses speak of the whole buffer after (`noted`).
    pub fn report(self, sacl: &[u8], policy: &[u8], out: &mut [u8]) -> Option<usize>
        ensures value { let w = trail_bytes (events_of self.entry.sought (shown_in self.entry.crowd)
            self.entry.crowd.hits sacl.now (rules_by_lengths policy.now))
            in result ≡ cond (ltb (length out.old) (length w)) None (Some (length w)) }
        ensures written { out.new ≡ noted true out.old 0 (fitting (length out.old) (trail_bytes
            (events_of self.entry.sought (shown_in self.entry.crowd) self.entry.crowd.hits sacl.now
            (rules_by_lengths policy.now)))) }
    {
        let n = self.put_all(sacl, policy, out, false);
        if n == 0 {
            return Some(0);
        }
        if out.len() < n {
            return None;
        }
        self.put_all(sacl, policy, out, true);
        Some(n)
    }
}
