// What the rules of a policy leave. The policy's shape is judged elsewhere, and each list is walked
// once.
ghost use Rattle.std.specs.Prelude.{◌≡◌};
ghost use Rattle.lists.specs.ByLength.{entries_by_length};
ghost use Rattle.passes.specs.Crowds.{shown_in};
ghost use Rattle.policy.specs.Policy.{Placed};
ghost use Rattle.policy.specs.Rules.{result_of, narrowed_by, judged_by, ruled_by};
ghost use Rattle.policy.specs.ByLengths.{lists_by_lengths, rules_by_lengths};

use crate::one_rule::Rule;
use crate::sections::bytes_of;
use crate::walk::Rules;
use lists::Rights;
use masks::Tally;
use passes::Crowd;

// The bits left, those on which effective and staged results differ, and whether a rule that
// applies has an effective SACL, and a staged one.
#[derive(Clone, Copy)]
pub struct Ruled {
    pub left: Rights,
    pub differ: Rights,
    pub has_sacl: bool,
    pub has_staged_sacl: bool,
}

// Who asks, and for an object of which kind.
#[derive(Clone, Copy)]
struct Asker<'a> {
    kind: u32,
    crowd: Crowd<'a>,
    privileges: u64,
}

impl<'a> Asker<'a> {
    // Normal evaluation with a rule's list for the descriptor's.
    fn result(self, list: &[u8]) -> Rights
        ensures { result.0 ≡ result_of self.entry.kind (shown_in self.entry.crowd)
            self.entry.crowd.hits self.entry.privileges (entries_by_length list.now) }
    {
        let walked = self.crowd.pass(self.kind, list);
        passes::normal(self.kind, true, walked, self.crowd.hits, self.privileges)
    }

    // What is left after one rule more that applies.
    fn narrowed(self, s: &[u8], r: Rule, before: Ruled) -> Ruled
        requires { Placed s.now r }
        ensures { result ≡ narrowed_by self.entry.kind (shown_in self.entry.crowd)
            self.entry.crowd.hits self.entry.privileges before (lists_by_lengths s.now r) }
    {
        let e = self.result(bytes_of(s, r.effective));
        let mut differ = before.differ;
        if r.staged.from < r.staged.to {
            let q = self.result(bytes_of(s, r.staged));
            differ = Rights(before.differ.0 | (e.0 ^ q.0));
        }
        Ruled {
            left: Rights(before.left.0 & e.0),
            differ,
            has_sacl: before.has_sacl | (r.sacl.from < r.sacl.to),
            has_staged_sacl: before.has_staged_sacl | (r.staged_sacl.from < r.staged_sacl.to),
        }
    }

    // What is left after one rule more. "A rule that does not apply neither narrows nor flags."
    fn judged(self, s: &[u8], r: Rule, before: Ruled) -> Ruled
        requires { Placed s.now r }
        ensures { result ≡ judged_by self.entry.kind (shown_in self.entry.crowd)
            self.entry.crowd.hits self.entry.privileges before (lists_by_lengths s.now r) }
    {
        if self.crowd.admits(bytes_of(s, r.applies)) {
            self.narrowed(s, r, before)
        } else {
            before
        }
    }
}

// What all rules of a policy leave, for a crowd with these privileges.
pub fn ruled_by(s: &[u8], kind: u32, crowd: Crowd, privileges: u64) -> Ruled
    ensures { result ≡ ruled_by kind (shown_in crowd.entry) crowd.entry.hits privileges
        (rules_by_lengths s.now) }
{
    let asker = Asker {
        kind,
        crowd,
        privileges,
    };
    // Before the first rule every bit is left.
    let mut so_far = Ruled {
        left: Tally::EVERYTHING,
        differ: Tally::NONE,
        has_sacl: false,
        has_staged_sacl: false,
    };
    for r in Rules::of(s) {
        so_far = asker.judged(s, r, so_far);
    }
    so_far
}
