// What a check hands on: what is found with the places that an audit needs, and an answer with the
// length of its trail.
ghost use Rattle.std.specs.Prelude.{◌≡◌};
ghost use Rattle.access.specs.Refusals.{handed};

use crate::question::Refusal;
use answers::{Answer, Found, refused};
use lists::Extent;

// What was found; for the audit how long the token's listing is, and where the descriptor's owner and
// SACL stand.
// kept: `length` and no slice, for the clause `listing` of `findings_in` speaks of the whole room after.
#[derive(Clone, Copy)]
pub struct Findings {
    pub found: Found,
    pub length: usize,
    pub owner: Extent,
    pub sacl: Extent,
}

// An answer, and how long its trail is in the buffer that was lent.
// kept: `length` and no slice, for `Lent` speaks of the whole buffer after, and C is handed the length.
#[derive(Clone, Copy)]
pub struct Traced {
    pub answer: Answer,
    pub length: usize,
}

// What a caller is handed: a refusal is an answer with the page's number, and has no trail.
pub fn handed(r: Result<Traced, Refusal>) -> Traced
    ensures { result ≡ handed r }
{
    match r {
        Ok(t) => t,
        Err(e) => Traced {
            answer: refused(e.number()),
            length: 0,
        },
    }
}
