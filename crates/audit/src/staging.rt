// Whether staged audit differs from the effective one. Two SACLs are compared in step, without
// storage.
ghost use Rattle.std.specs.Prelude.{◌≡◌};
ghost use Rattle.passes.specs.Crowds.{shown_in};
ghost use Rattle.policy.specs.Policy.{Placed};
ghost use Rattle.policy.specs.ByLengths.{lists_by_lengths, rules_by_lengths};
ghost use Rattle.audit.specs.Events.{audits_differ, rule_stages, stages_audit};

use crate::firing::Asked;
use crate::walk::Events;
use policy::{Rule, Rules};

impl<'a> Asked<'a> {
    // Whether the masks of two SACLs' events differ, in order.
    fn differ(self, one: &[u8], two: &[u8]) -> bool
        ensures { result ≡ audits_differ self.entry.sought (shown_in self.entry.crowd)
            self.entry.crowd.hits one.now two.now }
    {
        let mut others = Events::of(self, two, 0);
        for e in Events::of(self, one, 0) {
            let Some(f) = others.next() else {
                return true;
            };
            if e.mask.0 != f.mask.0 {
                return true;
            }
        }
        others.next().is_some()
    }

    // Whether a rule has a staged SACL, applies, and its two SACLs' events differ.
    fn rule_stages(self, s: &[u8], r: Rule) -> bool
        requires { Placed s.now r }
        ensures { result ≡ rule_stages self.entry.sought (shown_in self.entry.crowd)
            self.entry.crowd.hits (lists_by_lengths s.now r) }
    {
        let staged = &s[r.staged_sacl.from..r.staged_sacl.to];
        if staged.is_empty() || !self.crowd.admits(&s[r.applies.from..r.applies.to]) {
            return false;
        }
        self.differ(&s[r.sacl.from..r.sacl.to], staged)
    }

    // Whether some rule of a policy stages audit that differs.
    pub fn stages_audit(self, s: &[u8]) -> bool
        ensures { result ≡ stages_audit self.entry.sought (shown_in self.entry.crowd)
            self.entry.crowd.hits (rules_by_lengths s.now) }
    {
        for r in Rules::of(s) {
            if self.rule_stages(s, r) {
                return true;
            }
        }
        false
    }
}
