// What is found for a kind, and the answer read off for a mask.
ghost use Rattle.std.specs.Prelude.{◌≡◌};
ghost use Rattle.answers.specs.Granted.{allowed_of, answer_of, flagged, refused};

use lists::Rights;
use masks::Tally;

// The bits after normal evaluation, after confinement and after policy, those on which a rule's
// effective and staged results differ, and whether a rule that applies has an effective SACL, and a
// staged one. It does not depend on the desired mask.
#[derive(Clone, Copy)]
pub struct Found {
    pub normal: Rights,
    pub confined: Rights,
    pub ruled: Rights,
    pub differ: Rights,
    pub has_sacl: bool,
    pub has_staged_sacl: bool,
}

// The page's status number; of the asked bits those after normal evaluation, after confinement and
// after policy, and those granted; allowed yes or no, and the staging flag.
#[derive(Clone, Copy)]
pub struct Answer {
    pub status: u32,
    pub normal: Rights,
    pub confined: Rights,
    pub ruled: Rights,
    pub granted: Rights,
    pub allowed: bool,
    pub staged: bool,
}

// An answer that is refused with a number: "On refusal mask 0, allowed no, flag clear"; "A refusal
// zeroes all four" masks.
// kept: a status number in each answer, for C is handed it, and `bad_input` and `refused_check` of
// promises/proofs/Promises.antt speak of it; `access::Refusal` stands behind it.
pub fn refused(status: u32) -> Answer
    ensures { result ≡ refused status }
{
    let none = Tally::NONE;
    Answer {
        status,
        normal: none,
        confined: none,
        ruled: none,
        granted: none,
        allowed: false,
        staged: false,
    }
}

// Whether every explicit bit is granted and, where the maximum was asked, any bit at all.
fn is_allowed(kind: u32, mask: Rights, granted: Rights) -> bool
    ensures { result ≡ allowed_of kind mask.0 granted.0 }
{
    let wanted = masks::explicit(kind, mask);
    granted.0 & wanted.0 == wanted.0 && (mask.0 & Tally::MAXIMUM.0 == 0 || granted.0 != 0)
}

// The answer for a mask, of a question that is not refused.
pub fn read_off(kind: u32, mask: Rights, f: Found) -> Answer
    ensures { result ≡ answer_of kind mask.0 f }
{
    let asked = masks::asked(kind, mask);
    let normal = Rights(asked.0 & f.normal.0);
    let confined = Rights(asked.0 & f.confined.0);
    let ruled = Rights(asked.0 & f.ruled.0);
    Answer {
        status: 0,
        normal,
        confined,
        ruled,
        granted: ruled,
        allowed: is_allowed(kind, mask, ruled),
        staged: asked.0 & f.differ.0 != 0,
    }
}

// The answer, with the staging flag raised where staged audit says so.
pub fn flagged(a: Answer, raised: bool) -> Answer
    ensures { result ≡ flagged a raised }
{
    Answer {
        staged: a.staged || raised,
        ..a
    }
}
