// The question file: kind, mask, then token, self identity, descriptor and policy, each with a
// length before it. What the parts hold is judged by the check alone.
ghost use Rattle.std.specs.Prelude.{◌≡◌, ◌≤◌, length, IfSome, IfOk};
ghost use Rattle.questions.specs.QuestionFile.{blob_at, question_of, file_answer, file_report};
ghost use Rattle.questions.specs.QuestionFile.{file_desires};
ghost use Rattle.questions.specs.Blobs.{held_at, held_in};
ghost use Rattle.access.specs.Reported.{lending, in_buffer, Lent};
ghost use Rattle.access.specs.Refusals.{handed};

use access::{Question, Refusal, Traced, handed, reported};
use answers::Answer;
use lists::Rights;

// A part of the file, and the place after it.
#[derive(Clone, Copy)]
struct Blob<'a> {
    bytes: &'a [u8],
    next: usize,
}

// What a question desires: the kind and the mask, and nothing of the rest.
#[derive(Clone, Copy)]
pub struct Desired {
    pub kind: u32,
    pub mask: Rights,
}

// The part whose length stands at `at`; none where no number stands there, or where it runs past the end.
fn blob_at(s: &[u8], at: usize) -> Option<Blob>
    ensures value { blob_at s.now at ≡ held_at result }
    ensures within { IfSome result (λ b. b.next ≤ length s.now) }
{
    let n = base::number32(s, at)?;
    let from = n.next;
    let long = n.value as usize;
    if s.len() - from < long {
        return None;
    }
    let next = from + long;
    Some(Blob {
        bytes: &s[from..next],
        next,
    })
}

// The question that the bytes hold, and nothing after it; none where they are misshapen.
fn question_in(s: &[u8]) -> Option<Question>
    ensures { question_of s.now ≡ held_in (length s.now) result }
{
    let kind = base::number32(s, 0)?;
    let mask = base::number32(s, kind.next)?;
    let token = blob_at(s, mask.next)?;
    let me = blob_at(s, token.next)?;
    let descriptor = blob_at(s, me.next)?;
    let policy = blob_at(s, descriptor.next)?;
    if policy.next != s.len() {
        return None;
    }
    Some(Question {
        kind: kind.value as u32,
        mask: Rights(mask.value as u32),
        token: token.bytes,
        me: me.bytes,
        descriptor: descriptor.bytes,
        policy: policy.bytes,
    })
}

// The report on a question file, where a buffer is lent for its trail or not; 12 where it is misshapen
// or longer than 65,536 bytes.
// kept: `lent` beside `out`, as in `access::reported`, to which both are handed.
fn file_report(s: &[u8], out: &mut [u8], lent: bool) -> Result<Traced, Refusal>
    ensures report { Lent (in_buffer (length out.old) (lending lent
        (file_report s.now))) out.old out.new (handed result) }
    ensures accepted { IfOk result (λ t. t.answer.status ≡ 0) }
{
    if 65536 < s.len() {
        return Err(Refusal::FileMisshapen);
    }
    let Some(q) = question_in(s) else {
        return Err(Refusal::FileMisshapen);
    };
    reported(q, out, lent)
}

// The answer to a question file.
pub fn question(s: &[u8]) -> Answer
    ensures { result ≡ file_answer s.now }
{
    handed(file_report(s, &mut [], false)).answer
}

// The answer to a question file, and its trail at the front of `out`: 11 where that is too short.
pub fn trail_question(s: &[u8], out: &mut [u8]) -> Traced
    ensures { Lent (in_buffer (length out.old) (file_report s.now))
        out.old out.new result }
{
    handed(file_report(s, out, true))
}

// What the question of a file desires, whatever it is answered; 0 and 0 where the file holds none.
// kept: no `Option`, for `pirasteh_why_question` hands both numbers to C, and its contract says that
// they are those of `file_desires`.
pub fn desired_in(s: &[u8]) -> Desired
    ensures { result ≡ file_desires s.now }
{
    match question_in(s) {
        Some(q) => Desired {
            kind: q.kind,
            mask: q.mask,
        },
        None => Desired {
            kind: 0,
            mask: Rights(0),
        },
    }
}
