// The functions that C and Rust call; `pirasteh_c` exports them. Each hands its arguments to the
// check or to a converter, and the answer to the numbers lent for it; nothing is decided here.
#![tactic(auto)]

ghost use Rattle.std.specs.Prelude.{◌≡◌, length};
ghost use Rattle.records.specs.Converters.{as_listing, as_record, fitted};
ghost use Rattle.tokens.specs.Answers.{converted_by};
ghost use Rattle.access.specs.Status.{checked};
ghost use Rattle.questions.specs.QuestionFile.{file_answer, file_desires, file_report};
ghost use Rattle.access.specs.Reported.{report_of, in_buffer};
ghost use Rattle.pirasteh.specs.Told.{Told, Handed};
ghost use Rattle.pirasteh.specs.Explained.{if_answered, Shown, Explained};
ghost use Rattle.pirasteh.specs.Followed.{Followed};

use access::Question;
use answers::Answer;
use lists::Rights;

// The parts of an answer: the status, and the rest in the lent numbers.
// kept: numbers, where the functions below have them: the C interface.
fn tell(a: Answer, granted: &mut u32, allowed: &mut u32, staged: &mut u32) -> u32
    ensures { Told a result granted.new allowed.new staged.new }
{
    *granted = a.granted.0;
    *allowed = u32::from(a.allowed);
    *staged = u32::from(a.staged);
    a.status
}

// The answer to a question: the status, and in the lent numbers the granted mask, allowed (1 or 0)
// and the staging flag (1 or 0); all three are 0 on refusal.
// kept: the parts one by one and lent numbers: the C interface.
pub fn pirasteh_check(
    kind: u32,
    mask: u32,
    token: &[u8],
    me: &[u8],
    descriptor: &[u8],
    policy: &[u8],
    granted: &mut u32,
    allowed: &mut u32,
    staged: &mut u32,
) -> u32
    ensures { Told (checked (record {
      kind = kind;
      mask = mask;
      token = token.now;
      self = me.now;
      descriptor = descriptor.now;
      policy = policy.now;
    })) result granted.new allowed.new staged.new }
{
    let q = Question {
        kind,
        mask: Rights(mask),
        token,
        me,
        descriptor,
        policy,
    };
    tell(access::check(q), granted, allowed, staged)
}

// The answer to a question file, in the same way.
// kept: lent numbers: the C interface.
pub fn pirasteh_question(file: &[u8], granted: &mut u32, allowed: &mut u32, staged: &mut u32) -> u32
    ensures { Told (file_answer file.now) result
        granted.new allowed.new staged.new }
{
    tell(questions::question(file), granted, allowed, staged)
}

// The three masks of an answer that come before the granted one, in the lent numbers.
// kept: lent numbers: the C interface.
fn show(a: Answer, normal: &mut u32, confined: &mut u32, ruled: &mut u32)
    ensures { Shown a normal.new confined.new ruled.new }
{
    *normal = a.normal.0;
    *confined = a.confined.0;
    *ruled = a.ruled.0;
}

// A number where a question is answered, and 0 where it is refused.
// kept: a status and 0: the C interface.
fn if_answered(status: u32, n: u32) -> u32
    ensures { result ≡ if_answered status n }
{
    if status == 0 { n } else { 0 }
}

// The answer to a question with its masks: beside what `pirasteh_check` says, in the lent numbers
// the bits asked for, and of these those after normal evaluation, after confinement and after
// policy; all are 0 on refusal.
// kept: the parts one by one and lent numbers: the C interface.
pub fn pirasteh_why(
    kind: u32,
    mask: u32,
    token: &[u8],
    me: &[u8],
    descriptor: &[u8],
    policy: &[u8],
    asked: &mut u32,
    normal: &mut u32,
    confined: &mut u32,
    ruled: &mut u32,
    granted: &mut u32,
    allowed: &mut u32,
    staged: &mut u32,
) -> u32
    ensures { Explained (checked (record {
      kind = kind;
      mask = mask;
      token = token.now;
      self = me.now;
      descriptor = descriptor.now;
      policy = policy.now;
    })) kind mask result asked.new normal.new confined.new
        ruled.new granted.new allowed.new staged.new }
{
    let q = Question {
        kind,
        mask: Rights(mask),
        token,
        me,
        descriptor,
        policy,
    };
    let a = access::check(q);
    *asked = if_answered(a.status, masks::asked(kind, q.mask).0);
    show(a, normal, confined, ruled);
    tell(a, granted, allowed, staged)
}

// The answer to a question file with its masks, in the same way, and its kind.
// kept: lent numbers: the C interface.
pub fn pirasteh_why_question(
    file: &[u8],
    kind: &mut u32,
    asked: &mut u32,
    normal: &mut u32,
    confined: &mut u32,
    ruled: &mut u32,
    granted: &mut u32,
    allowed: &mut u32,
    staged: &mut u32,
) -> u32
    ensures explained { Explained (file_answer file.now)
        (file_desires file.now).kind (file_desires file.now).mask.0
        result asked.new normal.new confined.new ruled.new
        granted.new allowed.new staged.new }
    ensures kind_after { kind.new ≡ if_answered (file_answer file.now).status
        (file_desires file.now).kind }
{
    let a = questions::question(file);
    let d = questions::desired_in(file);
    *kind = if_answered(a.status, d.kind);
    *asked = if_answered(a.status, masks::asked(d.kind, d.mask).0);
    show(a, normal, confined, ruled);
    tell(a, granted, allowed, staged)
}

// The answer to a question, in the same way as `pirasteh_check`, and its trail: 11 where `trail` is
// too short for that. In `written` how many bytes; `trail` is unchanged past them, and on refusal.
// kept: the parts one by one, a lent buffer with its length and lent numbers: the C interface.
pub fn pirasteh_trail(
    kind: u32,
    mask: u32,
    token: &[u8],
    me: &[u8],
    descriptor: &[u8],
    policy: &[u8],
    trail: &mut [u8],
    written: &mut usize,
    granted: &mut u32,
    allowed: &mut u32,
    staged: &mut u32,
) -> u32
    ensures { Followed (in_buffer (length trail.old) (report_of (record {
      kind = kind;
      mask = mask;
      token = token.now;
      self = me.now;
      descriptor = descriptor.now;
      policy = policy.now;
    }))) trail.old trail.new written.new result
        granted.new allowed.new staged.new }
{
    let q = Question {
        kind,
        mask: Rights(mask),
        token,
        me,
        descriptor,
        policy,
    };
    let t = access::trail(q, trail);
    *written = t.length;
    tell(t.answer, granted, allowed, staged)
}

// The answer to a question file and its trail, in the same way.
// kept: a lent buffer with its length and lent numbers: the C interface.
pub fn pirasteh_trail_question(
    file: &[u8],
    trail: &mut [u8],
    written: &mut usize,
    granted: &mut u32,
    allowed: &mut u32,
    staged: &mut u32,
) -> u32
    ensures { Followed (in_buffer (length trail.old)
        (file_report file.now)) trail.old trail.new
        written.new result granted.new allowed.new staged.new }
{
    let t = questions::trail_question(file, trail);
    *written = t.length;
    tell(t.answer, granted, allowed, staged)
}

// A conversion's status, and in `written` its length; 0 on refusal.
// kept: a status and 0: the C interface.
fn convert(c: Result<usize, tokens::Refusal>, written: &mut usize) -> u32
    ensures { converted_by c ≡ record { status = result; length = written.new } }
{
    match c {
        Ok(n) => {
            *written = n;
            0
        }
        Err(e) => {
            *written = 0;
            e.number()
        }
    }
}

// The flat listing of a packed token record, written to `out`: the status, and in `written` how
// many bytes. `out` is unchanged past them, and on refusal.
// kept: a lent buffer with its length: the C interface.
pub fn pirasteh_list(token: &[u8], out: &mut [u8], written: &mut usize) -> u32
    ensures { Handed (fitted (length out.old) (as_listing token.now))
        out.old out.new written.new result }
{
    convert(tokens::to_listing(token, out), written)
}

// The packed token record of a flat listing, in the same way.
// kept: a lent buffer with its length: the C interface.
pub fn pirasteh_pack(listing: &[u8], out: &mut [u8], written: &mut usize) -> u32
    ensures { Handed (fitted (length out.old) (as_record listing.now))
        out.old out.new written.new result }
{
    convert(tokens::to_record(listing, out), written)
}
