// The report on a question whose kind and mask were judged: what is found, the answer read off for
// the mask, and its audit where a list asks for it.
ghost use Rattle.std.specs.Prelude.{◌≡◌, true, ◌&&◌, ◌||◌, ◌≤◌, length, IfOk};
ghost use Rattle.records.specs.Unpacking.{room_fits};
ghost use Rattle.access.specs.Status.{posed};
ghost use Rattle.access.specs.Reported.{lending, in_buffer, report_past, Lent};
ghost use Rattle.access.specs.Refusals.{handed};

use crate::answer::Traced;
use crate::auditing::audited;
use crate::finding::findings_in;
use crate::question::{Question, Refusal};
use answers::read_off;

// Whether an audit is to be made: a rule that applies has a staged SACL, or a buffer is lent and a
// SACL stands, the descriptor's own or that of a rule that applies.
fn is_asked(lent: bool, own: bool, ruled: bool, staged: bool) -> bool
    ensures { result ≡ (staged || (lent && (own || ruled))) }
{
    staged || lent && (own || ruled)
}

// The report, where the token's listing is made in `room`, which is long enough for it.
// kept: `lent` beside `out`, as in `reported`.
fn answer_in(q: Question, room: &mut [u8], out: &mut [u8], lent: bool) -> Result<Traced, Refusal>
    requires { room_fits (length room.old) (length q.token.now) ≡ true }
    ensures report { Lent (in_buffer (length out.old) (lending lent (report_past (posed q.entry))))
        out.old out.new (handed result) }
    ensures accepted { IfOk result (λ t. t.answer.status ≡ 0) }
{
    let f = findings_in(q, room)?;
    let found = f.found;
    let answer = read_off(q.kind, q.mask, found);
    // kept: the places compared: a method of `Extent` would say no more in this one line.
    let own = f.sacl.from < f.sacl.to;
    if !is_asked(lent, own, found.has_sacl, found.has_staged_sacl) {
        return Ok(Traced { answer, length: 0 });
    }
    let owner = lists::part(q.descriptor, f.owner);
    let sacl = lists::part(q.descriptor, f.sacl);
    let n = f.length;
    audited(q, &room[0..n], owner, sacl, answer, out, lent)
}

// The report, with a room of N bytes for the listing.
// kept: `lent` beside `out`, as in `reported`.
fn answer_within<const N: usize>(q: Question, out: &mut [u8], lent: bool) -> Result<Traced, Refusal>
    requires few { N ≤ 65536 }
    requires fits { room_fits N (length q.token.now) ≡ true }
    ensures report { Lent (in_buffer (length out.old) (lending lent (report_past (posed q.entry))))
        out.old out.new (handed result) }
    ensures accepted { IfOk result (λ t. t.answer.status ≡ 0) }
{
    let mut room = [0u8; N];
    answer_in(q, &mut room, out, lent)
}

// The report. The room for the token's listing is chosen by the record's length.
// kept: `lent` beside `out`, as in `reported`. It is compiled apart, so that a kind or a mask is refused
// before there is a room on the stack.
#[inline(never)]
pub(crate) fn answered(q: Question, out: &mut [u8], lent: bool) -> Result<Traced, Refusal>
    ensures report { Lent (in_buffer (length out.old) (lending lent (report_past (posed q.entry))))
        out.old out.new (handed result) }
    ensures accepted { IfOk result (λ t. t.answer.status ≡ 0) }
{
    // kept: the sizes of `tokens::to_listing` again: a const argument is no value to hand out.
    match q.token.len() {
        0..=64 => answer_within::<256>(q, out, lent),
        65..=512 => answer_within::<2048>(q, out, lent),
        513..=2048 => answer_within::<8192>(q, out, lent),
        _ => answer_within::<22940>(q, out, lent),
    }
}
