// One rule of a policy: its five sections, judged by shape. Each of its lists is scanned once.
ghost use Rattle.std.specs.Prelude.{◌≡◌, IfSome};
ghost use Rattle.policy.specs.Policy.{Placed, rule_at, found, alien};
ghost use Rattle.policy.specs.ByLengths.{rule_by_lengths, whole};

use crate::sections::{acl_section, applies_section, bytes_of, maybe_acl, section_at};
use conditions::Fault;
use lists::Extent;

// A rule: the place after it, whether it was found to hold what is not read in this edition, and where
// its five sections stand. A rule that is found by lengths alone was not asked: `unread` is false.
// kept: `unread` false where it was not asked, and places without their policy: `Rule` stands so in
// `rule_at` and `rule_by_lengths` of specs; `Placed` ties it to a policy in as many words as a holder.
#[derive(Clone, Copy)]
pub struct Rule {
    pub next: usize,
    pub unread: bool,
    pub applies: Extent,
    pub effective: Extent,
    pub sacl: Extent,
    pub staged: Extent,
    pub staged_sacl: Extent,
}

// Whether what was scanned holds something foreign: a token or an entry. None where it is broken.
fn alien(x: Result<(), Fault>) -> Option<bool>
    ensures { result ≡ alien x }
{
    match x {
        Ok(()) => Some(false),
        Err(Fault::Foreign) => Some(true),
        Err(Fault::Broken) => None,
    }
}

// The five sections from a place: applies_to, effective DACL, effective SACL, staged DACL, staged
// SACL. None where one does not fit.
fn sections_at(s: &[u8], at: usize) -> Option<Rule>
    ensures value { result ≡ whole (rule_by_lengths s.now at) }
    ensures placed { IfSome result (λ r. Placed s.now r) }
{
    let applies = section_at(s, at)?;
    let effective = section_at(s, applies.to)?;
    let sacl = section_at(s, effective.to)?;
    let staged = section_at(s, sacl.to)?;
    let staged_sacl = section_at(s, staged.to)?;
    Some(Rule {
        next: staged_sacl.to,
        unread: false,
        applies,
        effective,
        sacl,
        staged,
        staged_sacl,
    })
}

// The rule at a place. Refused: a section that does not fit, an applies_to that is too long or
// broken, a list that is misshapen.
pub(crate) fn rule_at(s: &[u8], at: usize) -> Option<Rule>
    ensures value { result ≡ found (rule_at s.now at) }
    ensures placed { IfSome result (λ r. Placed s.now r) }
{
    let r = sections_at(s, at)?;
    let applies = alien(applies_section(bytes_of(s, r.applies)))?;
    let effective = alien(acl_section(bytes_of(s, r.effective), true))?;
    alien(maybe_acl(bytes_of(s, r.sacl), false))?;
    let staged = alien(maybe_acl(bytes_of(s, r.staged), true))?;
    alien(maybe_acl(bytes_of(s, r.staged_sacl), false))?;
    Some(Rule {
        unread: applies | effective | staged,
        ..r
    })
}
