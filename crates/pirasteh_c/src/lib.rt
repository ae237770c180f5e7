// The functions of `pirasteh` as C calls them. Each hands on what it is passed and answers what it is
// answered, and says the same of it; nothing is decided here.
#![tactic(auto)]

ghost use Rattle.std.specs.Prelude.{◌≡◌, length};
ghost use Rattle.records.specs.Converters.{as_listing, as_record, fitted};
ghost use Rattle.access.specs.Status.{checked};
ghost use Rattle.questions.specs.QuestionFile.{file_answer, file_desires, file_report};
ghost use Rattle.access.specs.Reported.{report_of, in_buffer};
ghost use Rattle.pirasteh.specs.Told.{Told, Handed};
ghost use Rattle.pirasteh.specs.Explained.{if_answered, Explained};
ghost use Rattle.pirasteh.specs.Followed.{Followed};

// The answer to a question: the status, and in the lent numbers the granted mask, allowed (1 or 0)
// and the staging flag (1 or 0); all three are 0 on refusal.
// kept: beside the function of this name in `pirasteh`: the C interface.
#[unsafe(no_mangle)]
pub extern "C" fn pirasteh_check(
    kind: u32,
    mask: u32,
    token: &[u8],
    me: &[u8],
    descriptor: &[u8],
    policy: &[u8],
    granted: &mut u32,
    allowed: &mut u32,
    staged: &mut u32,
) -> u32
    ensures { Told (checked (record {
      kind = kind;
      mask = mask;
      token = token.now;
      self = me.now;
      descriptor = descriptor.now;
      policy = policy.now;
    })) result granted.new allowed.new staged.new }
{
    pirasteh::pirasteh_check(
        kind, mask, token, me, descriptor, policy, granted, allowed, staged,
    )
}

// The answer to a question file, in the same way.
// kept: beside the function of this name in `pirasteh`: the C interface.
#[unsafe(no_mangle)]
pub extern "C" fn pirasteh_question(
    file: &[u8],
    granted: &mut u32,
    allowed: &mut u32,
    staged: &mut u32,
) -> u32
    ensures { Told (file_answer file.now) result
        granted.new allowed.new staged.new }
{
    pirasteh::pirasteh_question(file, granted, allowed, staged)
}

// The answer to a question with its masks: beside what `pirasteh_check` says, in the lent numbers
// the bits asked for, and of these those after normal evaluation, after confinement and after
// policy; all are 0 on refusal.
// kept: beside the function of this name in `pirasteh`: the C interface.
#[unsafe(no_mangle)]
pub extern "C" fn pirasteh_why(
    kind: u32,
    mask: u32,
    token: &[u8],
    me: &[u8],
    descriptor: &[u8],
    policy: &[u8],
    asked: &mut u32,
    normal: &mut u32,
    confined: &mut u32,
    ruled: &mut u32,
    granted: &mut u32,
    allowed: &mut u32,
    staged: &mut u32,
) -> u32
    ensures { Explained (checked (record {
      kind = kind;
      mask = mask;
      token = token.now;
      self = me.now;
      descriptor = descriptor.now;
      policy = policy.now;
    })) kind mask result asked.new normal.new confined.new
        ruled.new granted.new allowed.new staged.new }
{
    pirasteh::pirasteh_why(
        kind, mask, token, me, descriptor, policy, asked, normal, confined, ruled, granted,
        allowed, staged,
    )
}

// The answer to a question file with its masks, in the same way, and its kind.
// kept: beside the function of this name in `pirasteh`: the C interface.
#[unsafe(no_mangle)]
pub extern "C" fn pirasteh_why_question(
    file: &[u8],
    kind: &mut u32,
    asked: &mut u32,
    normal: &mut u32,
    confined: &mut u32,
    ruled: &mut u32,
    granted: &mut u32,
    allowed: &mut u32,
    staged: &mut u32,
) -> u32
    ensures explained { Explained (file_answer file.now)
        (file_desires file.now).kind (file_desires file.now).mask.0
        result asked.new normal.new confined.new ruled.new
        granted.new allowed.new staged.new }
    ensures kind_after { kind.new ≡ if_answered (file_answer file.now).status
        (file_desires file.now).kind }
{
    pirasteh::pirasteh_why_question(
        file, kind, asked, normal, confined, ruled, granted, allowed, staged,
    )
}

// The answer to a question, in the same way as `pirasteh_check`, and its trail: 11 where `trail` is
// too short for that. In `written` how many bytes; `trail` is unchanged past them, and on refusal.
// kept: beside the function of this name in `pirasteh`: the C interface.
#[unsafe(no_mangle)]
pub extern "C" fn pirasteh_trail(
    kind: u32,
    mask: u32,
    token: &[u8],
    me: &[u8],
    descriptor: &[u8],
    policy: &[u8],
    trail: &mut [u8],
    written: &mut usize,
    granted: &mut u32,
    allowed: &mut u32,
    staged: &mut u32,
) -> u32
    ensures { Followed (in_buffer (length trail.old) (report_of (record {
      kind = kind;
      mask = mask;
      token = token.now;
      self = me.now;
      descriptor = descriptor.now;
      policy = policy.now;
    }))) trail.old trail.new written.new result
        granted.new allowed.new staged.new }
{
    pirasteh::pirasteh_trail(
        kind, mask, token, me, descriptor, policy, trail, written, granted, allowed, staged,
    )
}

// The answer to a question file and its trail, in the same way.
// kept: beside the function of this name in `pirasteh`: the C interface.
#[unsafe(no_mangle)]
pub extern "C" fn pirasteh_trail_question(
    file: &[u8],
    trail: &mut [u8],
    written: &mut usize,
    granted: &mut u32,
    allowed: &mut u32,
    staged: &mut u32,
) -> u32
    ensures { Followed (in_buffer (length trail.old)
        (file_report file.now)) trail.old trail.new
        written.new result granted.new allowed.new staged.new }
{
    pirasteh::pirasteh_trail_question(file, trail, written, granted, allowed, staged)
}

// The flat listing of a packed token record, written to `out`: the status, and in `written` how
// many bytes. `out` is unchanged past them, and on refusal.
// kept: beside the function of this name in `pirasteh`: the C interface.
#[unsafe(no_mangle)]
pub extern "C" fn pirasteh_list(token: &[u8], out: &mut [u8], written: &mut usize) -> u32
    ensures { Handed (fitted (length out.old) (as_listing token.now))
        out.old out.new written.new result }
{
    pirasteh::pirasteh_list(token, out, written)
}

// The packed token record of a flat listing, in the same way.
// kept: beside the function of this name in `pirasteh`: the C interface.
#[unsafe(no_mangle)]
pub extern "C" fn pirasteh_pack(listing: &[u8], out: &mut [u8], written: &mut usize) -> u32
    ensures { Handed (fitted (length out.old) (as_record listing.now))
        out.old out.new written.new result }
{
    pirasteh::pirasteh_pack(listing, out, written)
}
