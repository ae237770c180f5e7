// The evaluation over a token's flat listing: normal evaluation, confinement and the rules of the
// policy. Every list is walked by the one pass; the chains and the hits of the normal identities
// are made once and serve the descriptor's list and every rule.
ghost use Rattle.std.specs.Prelude.{◌≡◌, ◌≤◌, ltb, length};
ghost use Rattle.passes.specs.Confinement.{confines};
ghost use Rattle.access.specs.Evaluating.{beside, few, Seatable};
ghost use Rattle.access.specs.Cases.{confinement_at, found_at};

use answers::Found;
use lists::Rights;
use masks::Tally;
use passes::Crowd;

// Where the user stands in a listing.
pub(crate) const USER: usize = 12;

// What is evaluated: a kind, a token's listing with the place of its confinement identity, where the
// token is confined, the owner and the self identity, the descriptor's list, which was judged before
// and is empty where it is not present, and the policy.
// kept: `present` beside `list`, for `found_in` of Evaluating reads both (`dacl_as`), and a null DACL is
// walked too, over no entries.
#[derive(Clone, Copy)]
pub(crate) struct Case<'a> {
    pub(crate) kind: u32,
    pub(crate) listing: &'a [u8],
    pub(crate) place: usize,
    pub(crate) owner: &'a [u8],
    pub(crate) me: &'a [u8],
    pub(crate) present: bool,
    pub(crate) list: &'a [u8],
    pub(crate) policy: &'a [u8],
}

// Whether confinement applies: flag 1, confined, without flag 2, exempt.
fn confines(flags: u32) -> bool
    ensures { result ≡ confines flags }
{
    flags & 1 != 0 && flags & 2 == 0
}

// Whether fewer than `n` identities stand beside the first one of a crowd.
fn few_beside(listing: &[u8], at: usize, n: u32) -> bool
    ensures { result ≡ ltb (beside listing.now at) n }
{
    // kept: 0 where no SID stands, for `beside` of Evaluating reads on at that place.
    let e = sids::sid_end(listing, at).unwrap_or(0);
    base::u32_at(listing, e) < n
}

impl<'a> Case<'a> {
    // The bits that confinement leaves: the list alone, with the confinement identities, for allow
    // and deny both. They are seated in `seats`.
    // kept: `Seatable` here, in `found_with`, `seated` and `found`: it speaks of the seats, which differ.
    fn confinement(self, seats: &mut [u64]) -> Rights
        requires { Seatable self.listing.now self.place (length seats.old) }
        ensures { result.0 ≡ confinement_at self.entry }
    {
        if !confines(base::u32_at(self.listing, 0)) {
            return Tally::EVERYTHING;
        }
        // kept: two tables, on the stack, and a chain of indices in them: no heap, fixed memory.
        let mut heads = [0u16; 512];
        passes::chain_crowd(self.listing, self.place, false, &mut heads, seats);
        let crowd = Crowd::of(self.listing, &heads, seats, self.owner, self.me);
        let walked = crowd.pass(self.kind, self.list);
        passes::listed(self.kind, self.present, walked)
    }

    // What is found for a kind, where `seats` has room for the confinement identities, and after
    // them for the normal ones.
    fn found_with(self, seats: &mut [u64]) -> Found
        requires { Seatable self.listing.now self.place (length seats.old) }
        ensures { result ≡ found_at self.entry }
    {
        let left = self.confinement(seats);
        // kept: tables as in `confinement`, and the three steps again: the crowd borrows the tables, so a
        // function that made both could not hand it out.
        let mut heads = [0u16; 512];
        passes::chain_crowd(self.listing, USER, true, &mut heads, seats);
        let crowd = Crowd::of(self.listing, &heads, seats, self.owner, self.me);
        let privileges = u64::from(base::u32_at(self.listing, 4));
        let walked = crowd.pass(self.kind, self.list);
        let normal = passes::normal(self.kind, self.present, walked, crowd.hits, privileges);
        let rules = policy::ruled_by(self.policy, self.kind, crowd, privileges);
        let confined = Rights(normal.0 & left.0);
        let ruled = Rights(confined.0 & rules.left.0);
        let differ = rules.differ;
        Found {
            normal,
            confined,
            ruled,
            differ,
            has_sacl: rules.has_sacl,
            has_staged_sacl: rules.has_staged_sacl,
        }
    }

    // What is found for a kind, with N seats.
    fn seated<const N: usize>(self) -> Found
        requires few { N ≤ 512 }
        requires seatable { Seatable self.listing.now self.place N }
        ensures { result ≡ found_at self.entry }
    {
        // kept: an array on the stack: no heap, fixed memory.
        let mut seats = [0u64; N];
        self.found_with(&mut seats)
    }

    // Whether fewer than `n` stand beside the user, and beside the confinement identity.
    fn few(self, n: u32) -> bool
        ensures { result ≡ few self.entry.listing.now self.entry.place n }
    {
        few_beside(self.listing, USER, n) && few_beside(self.listing, self.place, n)
    }

    // What is found for a kind, in as much room as the token's identities need.
    pub(crate) fn found(self) -> Found
        requires { Seatable self.listing.now self.place 258 }
        ensures { result ≡ found_at self.entry }
    {
        if self.few(31) {
            self.seated::<32>()
        } else if self.few(127) {
            self.seated::<128>()
        } else {
            self.seated::<258>()
        }
    }
}
