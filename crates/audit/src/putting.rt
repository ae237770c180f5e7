// The events of a SACL, and of a policy's rules, measured or written in order. What they read was
// judged before; the rules are found by the lengths of their sections.
ghost use Rattle.std.specs.Prelude.{◌+◌, ◌*◌, ◌≤◌, ◌<◌, ◌^◌};
ghost use Rattle.passes.specs.Crowds.{shown_in};
ghost use Rattle.policy.specs.Policy.{Placed};
ghost use Rattle.policy.specs.ByLengths.{lists_by_lengths, rules_by_lengths};
ghost use Rattle.audit.specs.Events.{events_in, rule_events, rules_events};
ghost use Rattle.audit.specs.Trail.{trail_bytes};
ghost use Rattle.audit.specs.Noting.{Noted, Room};

use crate::firing::Asked;
use crate::walk::Events;
use crate::writing::put_event;
use policy::{Rule, Rules};

impl<'a> Asked<'a> {
    // The events of a SACL, from place `o`; answers the place after them.
    pub(crate) fn put_list(
        self,
        list: &[u8],
        source: u32,
        out: &mut [u8],
        o: usize,
        write: bool,
    ) -> usize
        requires { (o < 2 ^ 62) × Room write out.old o (trail_bytes (events_in self.sought
            (shown_in self.crowd) self.crowd.hits source list.now)) }
        ensures noted { Noted write out.old out.new o result (trail_bytes (events_in self.entry.sought
            (shown_in self.entry.crowd) self.entry.crowd.hits source list.now)) }
        ensures upper_bound { result ≤ o + 30 * 65536 }
    {
        let mut to = o;
        for e in Events::of(self, list, source) {
            to = put_event(out, to, e, write);
        }
        to
    }

    // The events of a rule, where it has a SACL and applies.
    fn put_rule(
        self,
        s: &[u8],
        r: Rule,
        source: u32,
        out: &mut [u8],
        o: usize,
        write: bool,
    ) -> usize
        requires placed { Placed s.now r }
        requires o_bound { (o < 2 ^ 62) × Room write out.old o (trail_bytes (rule_events
            self.sought (shown_in self.crowd) self.crowd.hits source
            (lists_by_lengths s.now r))) }
        ensures noted { Noted write out.old out.new o result (trail_bytes (rule_events
            self.entry.sought (shown_in self.entry.crowd) self.entry.crowd.hits source
            (lists_by_lengths s.now r))) }
        ensures upper_bound { result ≤ o + 30 * 65536 }
    {
        // kept: cut here, as in `rule_stages`: `bytes_of` of policy asks something of its caller, so it is
        // not public.
        let sacl = &s[r.sacl.from..r.sacl.to];
        if sacl.is_empty() || !self.crowd.admits(&s[r.applies.from..r.applies.to]) {
            return o;
        }
        self.put_list(sacl, source, out, o, write)
    }

    // The events of a policy's rules, from place `o`; "rule number from 1".
    pub(crate) fn put_rules(self, s: &[u8], out: &mut [u8], o: usize, write: bool) -> usize
        requires { (o ≤ 30 * 65536) × Room write out.old o (trail_bytes (rules_events
            self.sought (shown_in self.crowd) self.crowd.hits 1
            (rules_by_lengths s.now))) }
        ensures { Noted write out.old out.new o result (trail_bytes (rules_events
            self.entry.sought (shown_in self.entry.crowd) self.entry.crowd.hits 1
            (rules_by_lengths s.now))) }
    {
        let mut to = o;
        // kept: no plainer: `enumerate` counts from 0 in `usize`, so one would be added and the sum cast; a
        // range of 256 stops short, as no policy is judged here.
        let mut source = 0;
        for r in Rules::of(s) {
            source += 1;
            to = self.put_rule(s, r, source, out, to, write);
        }
        to
    }
}
