// The rules of a policy whose shape is judged elsewhere, found by the lengths of their sections alone.
ghost use Rattle.std.specs.Prelude.{◌≡◌, IfSome};
ghost use Rattle.policy.specs.Policy.{Placed, found, section};
ghost use Rattle.policy.specs.ByLengths.{rule_by_lengths, rules_by_lengths};

use crate::one_rule::Rule;
use crate::sections::section_at;
use lists::Extent;

// The rule at a place, by the lengths of its sections alone: its lists are not scanned. A section that
// does not fit is an empty one at place 0, and the next is read from there.
// kept: places of 0 and no `Option`: `rule_by_lengths` of specs says where the sections stand that do
// fit, also of a rule of which one does not.
pub fn rule_by_lengths(s: &[u8], at: usize) -> Rule
    ensures value { result ≡ rule_by_lengths s.now at }
    ensures placed { Placed s.now result }
{
    let nowhere = Extent { from: 0, to: 0 };
    let applies = section_at(s, at).unwrap_or(nowhere);
    let effective = section_at(s, applies.to).unwrap_or(nowhere);
    let sacl = section_at(s, effective.to).unwrap_or(nowhere);
    let staged = section_at(s, sacl.to).unwrap_or(nowhere);
    let staged_sacl = section_at(s, staged.to).unwrap_or(nowhere);
    Rule {
        next: staged_sacl.to,
        unread: false,
        applies,
        effective,
        sacl,
        staged,
        staged_sacl,
    }
}

// The rule at a place, if it fits.
// kept: the place after it asked whether it is 0, as `found` of specs asks.
fn fitting_rule(s: &[u8], at: usize) -> Option<Rule>
    ensures value { result ≡ found (rule_by_lengths s.now at) }
    ensures placed { IfSome result (λ r. Placed s.now r) }
{
    let r = rule_by_lengths(s, at);
    if r.next == 0 {
        return None;
    }
    Some(r)
}

// The rules of a policy in their order; they stop where one does not fit.
#[derive(Clone, Copy)]
pub struct Rules<'a> {
    pub policy: &'a [u8],
    pub ahead: u32,
    pub place: usize,
}

impl<'a> Rules<'a> {
    ghost use Rattle.policy.specs.Walking.{rules_left};

    // All rules of a policy: as many as its heading says, from the place after it.
    pub fn of(policy: &'a [u8]) -> Rules<'a>
        ensures left { rules_left result ≡ rules_by_lengths policy.now }
        ensures policy { result.policy.now ≡ policy.now }
    {
        Rules {
            policy,
            ahead: base::u32_at(policy, 1),
            place: 5,
        }
    }
}

impl<'a> Iterator for Rules<'a> {
    ghost use Rattle.std.specs.Iterator.{at_most};
    ghost use Rattle.policy.specs.Walking.{GivesRule};

    type Item = Rule;

    ghost next_gives = { GivesRule };

    ghost remaining = { λ q. at_most q.ahead };

    fn next(&mut self) -> Option<Rule> {
        if self.ahead == 0 {
            return None;
        }
        let r = fitting_rule(self.policy, self.place)?;
        self.ahead -= 1;
        self.place = r.next;
        Some(r)
    }
}
