// What is found for a kind, whatever the mask: the numbers 3 to 10 in the page's order, then the
// evaluation. Requests for many masks are answered from one finding.
ghost use Rattle.std.specs.Prelude.{◌≡◌, true, ℕ, ◌<◌, ◌≤◌, length, take, slice_index, IfOk};
ghost use Rattle.base.specs.Bytes.{part};
ghost use Rattle.lists.specs.Descriptor as descriptor;
ghost use Rattle.records.specs.Converters.{as_listing};
ghost use Rattle.records.specs.Unpacking.{room_fits};
ghost use Rattle.access.specs.Status.{posed, self_fits};
ghost use Rattle.access.specs.Refusals.{number_told};
ghost use Rattle.access.specs.Findings.{findings_for, told, ListedIn};

use crate::answer::Findings;
use crate::evaluate::Case;
use crate::question::{Question, Refusal};
use lists::Extent;
use tokens::Listed;

// Lists the token's record at the front of `room`, which is long enough for it.
// kept: `room_fits` here, in `findings_in`, `answer_in` and `answer_within`: it speaks of a lent room and of
// a record, and a type that borrows both is no plainer.
fn list_record(token: &[u8], room: &mut [u8]) -> Result<Listed, Refusal>
    requires { room_fits (length room.old) (length token.now) ≡ true }
    ensures number { number_told result ≡ (as_listing token.now).status }
    ensures listing { IfOk result (ListedIn token.now room.new) }
    ensures bytes { (i : ℕ) → slice_index token.now i < 256 }
{
    Ok(tokens::list_in(token, room)?)
}

// Whether a self identity is empty or exactly one SID.
fn self_fits(me: &[u8]) -> bool
    ensures { result ≡ self_fits me.now }
{
    me.is_empty() || sids::is_sid(me)
}

// The bytes of an extent that lies inside: what `lists::part` gives, and no test.
// kept: beside `lists::part`, since testing the extent once more is too slow (docs/DECISIONS.md, 81); and not
// shared with the policy's `bytes_of`, since a public function asks nothing.
fn cut(d: &[u8], x: Extent) -> &[u8]
    requires { descriptor.LiesIn (length d.now) x }
    ensures { result.now ≡ part d.now x.from x.to }
{
    &d[x.from..x.to]
}

// What is found, or the refusal. The token's listing is made in `room`, which is long enough for it,
// and left at its front.
pub(crate) fn findings_in(q: Question, room: &mut [u8]) -> Result<Findings, Refusal>
    requires { room_fits (length room.old) (length q.token.now) ≡ true }
    ensures value { told result ≡ findings_for (posed q.entry) }
    ensures listing { IfOk result (λ f. (take f.length room.new
        ≡ (as_listing q.entry.token.now).bytes) × (f.length ≤ length room.new)) }
    ensures bytes { (i : ℕ) → slice_index q.entry.token.now i < 256 }
{
    let l = list_record(q.token, room)?;
    if !self_fits(q.me) {
        return Err(Refusal::SelfUnfit);
    }
    let parts = lists::read(q.descriptor)?;
    policy::judge_policy(q.policy)?;
    let n = l.length;
    let case = Case {
        kind: q.kind,
        listing: &room[0..n],
        place: l.confined_at,
        owner: cut(q.descriptor, parts.owner),
        me: q.me,
        present: !parts.null,
        list: cut(q.descriptor, parts.dacl),
        policy: q.policy,
    };
    Ok(Findings {
        found: case.found(),
        length: n,
        owner: parts.owner,
        sacl: parts.sacl,
    })
}
