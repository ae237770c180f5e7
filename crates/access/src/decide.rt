// The check: a question's kind and mask, then what is found, then the answer.
ghost use Rattle.std.specs.Prelude.{◌≡◌, length, IfOk};
ghost use Rattle.masks.specs.KindsAndMasks.{known_kind};
ghost use Rattle.access.specs.Status.{posed, checked};
ghost use Rattle.access.specs.Reported.{report_of, lending, in_buffer, Lent};
ghost use Rattle.access.specs.Refusals.{handed};

use crate::answer::{Traced, handed};
use crate::answering::answered;
use crate::question::{Question, Refusal};
use answers::Answer;

// 1 file, 2 key.
fn is_kind(kind: u32) -> bool
    ensures { result ≡ known_kind kind }
{
    matches!(kind, 1 | 2)
}

// The report on a question, where a buffer is lent for its trail or not.
// kept: `lent` beside `out`, for as `Option<&mut [u8]>` the proof does not close: tried on functions that
// pass one on, as `answered` does, which could not say what is left in the buffer.
#[inline(always)]
pub fn reported(q: Question, out: &mut [u8], lent: bool) -> Result<Traced, Refusal>
    ensures report { Lent (in_buffer (length out.old) (lending lent (report_of (posed q.entry))))
        out.old out.new (handed result) }
    ensures accepted { IfOk result (λ t. t.answer.status ≡ 0) }
{
    if !is_kind(q.kind) {
        return Err(Refusal::UnknownKind);
    }
    if !masks::legal(q.kind, q.mask) {
        return Err(Refusal::ForeignMask);
    }
    answered(q, out, lent)
}

// The answer to a question.
pub fn check(q: Question) -> Answer
    ensures { result ≡ checked (posed q.entry) }
{
    handed(reported(q, &mut [], false)).answer
}

// The answer to a question, and its trail at the front of `out`: 11 where that is too short.
pub fn trail(q: Question, out: &mut [u8]) -> Traced
    ensures { Lent (in_buffer (length out.old) (report_of (posed q.entry)))
        out.old out.new result }
{
    handed(reported(q, out, true))
}
