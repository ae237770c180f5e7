// One walk over a list, which serves every evaluation.
ghost use Rattle.std.specs.Prelude.{◌≡◌, not, cond, ◌&&◌, ◌||◌, [], ◌≤◌, length};
ghost use Rattle.base.specs.Bits.{has};
ghost use Rattle.base.specs.Bytes.{part, same};
ghost use Rattle.sids.specs.Sid.{owner_rights};
ghost use Rattle.conditions.specs.Membership.{admits};
ghost use Rattle.lists.specs.Acl.{callback};
ghost use Rattle.lists.specs.ByLength.{entries_by_length};
ghost use Rattle.passes.specs.Crowds.{shown_in};
ghost use Rattle.passes.specs.OnePass.{member};
ghost use Rattle.passes.specs.OneWalk.{walked_of};

use crate::matching::Crowd;
use crate::search::{head, is_near, next, search_row, sits};
use lists::Rights;
use masks::{Tally, all_bits, entry_mask};
use seats::last;

// What the pass allows, and whether some entry that counts names S-1-3-4.
#[derive(Clone, Copy)]
pub struct Walked {
    pub allowed: Rights,
    pub named: bool,
}

// Whether an entry counts, by its flags: one that is for children only says nothing of the object
// itself, and takes nothing from its owner.
fn counts(flags: u8) -> bool
    ensures { result ≡ not (has flags 0x08) }
{
    flags & 0x08 == 0
}

// Whether S-1-3-4 was named before, or is now by an entry that counts.
fn names(before: bool, w: &[u8]) -> bool
    ensures { result ≡ (before || same w.now owner_rights) }
{
    before || sids::is_owner_rights(w)
}

impl Crowd<'_> {
    // Whether an entry speaks: its SID matches (`hit`), and it has no condition, or a true one,
    // which stands from `from` to `to` of the list.
    fn speaks(self, hit: bool, kind: u8, list: &[u8], from: usize, to: usize) -> bool
        requires { (from ≤ to) × (to ≤ length list.now) }
        ensures { result ≡ (hit && admits (member (shown_in self.entry) self.entry.hits)
            (cond (callback kind) (part list.now from to) [])) }
    {
        hit && (!lists::is_callback(kind) || self.admits(&list[from..to]))
    }

    // The pass of a list, which was judged before, against those whom the tables of chains show:
    // each entry in stored order, each against the identities that share its key, and where these
    // stand close together against all below. With the chains of a crowd they decide as the whole
    // crowd does. The hits answer for the two virtual identities. Where all bits are decided only
    // entries for these two are taken.
    pub fn pass(self, kind: u32, list: &[u8]) -> Walked
        ensures { result ≡ walked_of kind (shown_in self.entry) self.entry.hits
            (entries_by_length list.now) }
    {
        let Crowd {
            listing,
            heads,
            seats,
            hits,
        } = self;
        let entries = base::u16_at(list, 4);
        let all = all_bits(kind);
        let mut t = Tally::empty();
        let mut named = false;
        let mut place: usize = 8;
        'entries: for _ in 0..entries {
            let Some(e) = lists::ace_by_length(list, place) else {
                break 'entries;
            };
            place = e.next;
            if !counts(e.flags) {
                continue 'entries;
            }
            let from = e.from;
            let to = e.to;
            let who = &list[from..to];
            let class = e.kind;
            let allow = (class == 0) | (class == 9);
            if sids::is_virtual(who) {
                named = names(named, who);
                let mask = entry_mask(kind, e.mask);
                let hit = hits.matches(who, allow);
                let spoken = self.speaks(hit, class, list, to, place);
                t = t.step(spoken, allow, mask);
                continue 'entries;
            }
            if t.decided.0 == all.0 {
                continue 'entries;
            }
            let first = head(heads, seats, who);
            if first == 0 {
                continue 'entries;
            }
            let mask = entry_mask(kind, e.mask);
            if t.idle(e.flags, mask) {
                continue 'entries;
            }
            // "The search through a token stops at the first listing that matches."
            // kept: the loop of `search_chain` again, since the rules want it here, nested in the
            // pass, with a value that it yields by `break`.
            let word = last(who);
            let mut n = first;
            let hit = 'search: loop {
                if n == 0 {
                    break 'search false;
                }
                let x = seats[n];
                if sits(listing, x, word, who, allow) {
                    break 'search true;
                }
                let after = next(x);
                if is_near(n, after) {
                    break 'search search_row(listing, seats, n - 1, who, allow);
                }
                n = after;
            };
            let spoken = self.speaks(hit, class, list, to, place);
            t = t.step(spoken, allow, mask);
        }
        let allowed = t.allowed;
        Walked { allowed, named }
    }
}
