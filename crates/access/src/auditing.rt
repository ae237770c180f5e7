// The audit of an answer, over a token's flat listing: whether a staged SACL raises the staging flag,
// and the trail in the buffer that was lent.
ghost use Rattle.std.specs.Prelude.{◌≡◌, ◌<◌, ◌≤◌, length, IfOk};
ghost use Rattle.policy.specs.ByLengths.{rules_by_lengths};
ghost use Rattle.access.specs.Reported.{in_buffer, Lent};
ghost use Rattle.access.specs.Evaluating.{crowd_in, report_in};
ghost use Rattle.access.specs.Refusals.{handed};

use crate::answer::Traced;
use crate::evaluate::USER;
use crate::question::{Question, Refusal};
use answers::{Answer, flagged};
use audit::{Asked, Sought};
use passes::Crowd;

// The report on an answer: the trail in `out` where that is lent, and 11 where it does not fit. The
// normal identities are seated once more: no audit is made where no list asks for it.
// kept: `lent` beside `out`, as in `reported`.
pub(crate) fn audited(
    q: Question,
    listing: &[u8],
    owner: &[u8],
    sacl: &[u8],
    a: Answer,
    out: &mut [u8],
    lent: bool,
) -> Result<Traced, Refusal>
    requires few { (length listing.now ≤ 32768) × (length (crowd_in listing.now) < 258) }
    requires accepted { a.status ≡ 0 }
    ensures report { Lent (in_buffer (length out.old) (report_in lent q.entry.kind q.entry.mask.0
        listing.now owner.now q.entry.me.now sacl.now
        (rules_by_lengths q.entry.policy.now) a)) out.old out.new (handed result) }
    ensures accepted { IfOk result (λ t. t.answer.status ≡ 0) }
{
    // kept: tables on the stack, and the three steps again, as in `found_with` of evaluate.rt.
    let mut heads = [0u16; 512];
    let mut seats = [0u64; 258];
    passes::chain_crowd(listing, USER, true, &mut heads, &mut seats);
    let crowd = Crowd::of(listing, &heads, &seats, owner, q.me);
    let asked = Asked {
        sought: Sought {
            kind: q.kind,
            bits: masks::explicit(q.kind, q.mask),
            allowed: a.allowed,
        },
        crowd,
    };
    let answer = flagged(a, asked.stages_audit(q.policy));
    if !lent {
        return Ok(Traced { answer, length: 0 });
    }
    let Some(length) = asked.report(sacl, q.policy, out) else {
        return Err(Refusal::TooLong);
    };
    Ok(Traced { answer, length })
}
