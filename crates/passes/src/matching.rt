// Which identities match: those whom the tables of chains show, and the two virtual ones.
ghost use Rattle.std.specs.Prelude.{◌≡◌, ◌-◌, ◌≤◌, length};
ghost use Rattle.passes.specs.Chains.{chain, shown};
ghost use Rattle.passes.specs.Crowds.{shown_in};
ghost use Rattle.passes.specs.Matching.{among, side, matches, nobody, hit_of, hits_of};
ghost use Rattle.passes.specs.OneWalk.{virtual_matches};

use crate::search::{head, is_near, next, sits};
use seats::last;

// How an identity stands in for a virtual one, for allow and for deny.
// kept: a side is a truth, `allow`, and no enum: the definitions ask by it (`side`, `among`), and an
// enum would need a bridge in every clause.
#[derive(Clone, Copy)]
pub struct Hit {
    pub allow: bool,
    pub deny: bool,
}

impl Hit {
    // Nobody stands in.
    const NOBODY: Hit = Hit {
        allow: false,
        deny: false,
    };

    // The side that is asked for.
    fn facing(self, allow: bool) -> bool
        ensures { result ≡ side allow self }
    {
        if allow { self.allow } else { self.deny }
    }
}

// How the owner and the self identity match.
#[derive(Clone, Copy)]
pub struct Hits {
    pub owner: Hit,
    pub me: Hit,
}

impl Hits {
    // How a virtual identity matches: S-1-3-4 as the owner does, S-1-5-10 as the self identity
    // does.
    pub(crate) fn matches(self, w: &[u8], allow: bool) -> bool
        ensures { result ≡ virtual_matches allow self w.now }
    {
        if sids::is_owner_rights(w) {
            self.owner.facing(allow)
        } else {
            self.me.facing(allow)
        }
    }
}

// Whether a SID matches one of the chain that begins with the seat of a number; with 0 there is
// none. Seat by seat along the chain, and down the row from where it goes on nearby.
// kept: a loop of its own, which `pass` has too, and not `search_row`: with two callers the compiler
// keeps that apart from `pass` (docs/DECISIONS.md, 52). A chain leaps, so no range goes along it.
fn search_chain(listing: &[u8], seats: &[u64], first: usize, w: &[u8], allow: bool) -> bool
    requires { first ≤ length seats.now - 1 }
    ensures { result ≡ among allow
        (chain seats.now listing.now first first) w.now }
{
    let word = last(w);
    let mut n = first;
    let mut down = false;
    loop {
        if n == 0 {
            return false;
        }
        let x = seats[n];
        if sits(listing, x, word, w, allow) {
            return true;
        }
        let after = next(x);
        if is_near(n, after) {
            down = true;
        }
        if down {
            n -= 1;
        } else {
            n = after;
        }
    }
}

// A crowd: those whom the tables of chains show over a token's listing, and how the owner and the
// self identity match in it.
#[derive(Clone, Copy)]
pub struct Crowd<'a> {
    pub listing: &'a [u8],
    pub heads: &'a [u16; 512],
    pub seats: &'a [u64],
    pub hits: Hits,
}

impl<'a> Crowd<'a> {
    // The crowd that tables show, with its owner and its self identity (`me`, which may be empty).
    pub fn of(
        listing: &'a [u8],
        heads: &'a [u16; 512],
        seats: &'a [u64],
        owner: &[u8],
        me: &[u8],
    ) -> Self
        ensures shows { shown_in result ≡ shown heads.now seats.now listing.now }
        ensures hits { result.hits ≡ hits_of (shown heads.now seats.now listing.now)
            owner.now me.now }
    {
        let nobody = Hits {
            owner: Hit::NOBODY,
            me: Hit::NOBODY,
        };
        let bare = Crowd {
            listing,
            heads,
            seats,
            hits: nobody,
        };
        let hits = Hits {
            owner: bare.hit(owner),
            me: bare.hit(me),
        };
        Crowd { hits, ..bare }
    }

    // How an identity stands in for a virtual one. An empty one does not, nor a virtual one, nor one
    // whose chain is empty; these are told apart once, for allow and deny both.
    fn hit(self, w: &[u8]) -> Hit
        ensures { result ≡ hit_of (shown_in self.entry) w.now }
    {
        if w.is_empty() || sids::is_virtual(w) {
            return Hit::NOBODY;
        }
        let n = head(self.heads, self.seats, w);
        if n == 0 {
            return Hit::NOBODY;
        }
        Hit {
            allow: search_chain(self.listing, self.seats, n, w, true),
            deny: search_chain(self.listing, self.seats, n, w, false),
        }
    }

    // Whether a SID matches one of those whom the tables show.
    fn among(self, w: &[u8], allow: bool) -> bool
        ensures { result ≡ among allow (shown_in self.entry) w.now }
    {
        let n = head(self.heads, self.seats, w);
        search_chain(self.listing, self.seats, n, w, allow)
    }

    // Whether a SID matches, for allow or for deny: a virtual one by the hits, any other by the
    // tables.
    pub fn matches(self, w: &[u8], allow: bool) -> bool
        ensures { result ≡ matches allow (shown_in self.entry) self.entry.hits w.now }
    {
        if sids::is_virtual(w) {
            self.hits.matches(w, allow)
        } else {
            self.among(w, allow)
        }
    }
}
