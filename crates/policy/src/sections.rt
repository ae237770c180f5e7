// The sections of a policy and what stands in them, at places of lent bytes.
ghost use Rattle.std.specs.Prelude.{◌≡◌, IfSome};
ghost use Rattle.conditions.specs.Scanning.{scan_result};
ghost use Rattle.policy.specs.Policy.{section_at, fitting, bytes_of, Lies, acl_section};
ghost use Rattle.policy.specs.Policy.{maybe_acl, applies_section};

use conditions::Fault;
use lists::Extent;

// The section whose length stands at `at`, where it fits.
#[tactic(auto, unfolding(crate::specs::Policy::section_at))]
pub(crate) fn section_at(s: &[u8], at: usize) -> Option<Extent>
    ensures value { result ≡ fitting (section_at s.now at) }
    ensures lies { IfSome result (λ x. Lies s.now x) }
{
    if s.len() < 4 || s.len() - 4 < at {
        return None;
    }
    let n = base::u32_at(s, at) as usize;
    let from = at + 4;
    if s.len() - from < n {
        return None;
    }
    Some(Extent { from, to: from + n })
}

// The bytes of a section.
// kept: each crate cuts its own parts: a public function may ask nothing of its caller, and this asks
// that the section lies in the policy.
pub(crate) fn bytes_of(s: &[u8], x: Extent) -> &[u8]
    requires { Lies s.now x }
    ensures { result.now ≡ bytes_of s.now x }
{
    &s[x.from..x.to]
}

// What the entries of an ACL section are. "An ACL section's length equals its ACL's size."
// kept: `deep` is a truth, here and below, as in the definitions `acl_section` and `maybe_acl`.
pub(crate) fn acl_section(l: &[u8], deep: bool) -> Result<(), Fault>
    ensures { result ≡ scan_result (acl_section deep l.now) }
{
    let Some(e) = lists::acl_end(l, 0) else {
        return Err(Fault::Broken);
    };
    if e != l.len() {
        return Err(Fault::Broken);
    }
    lists::scan_entries(l, deep)
}

// The same of a section that may be empty.
#[tactic(auto, unfolding(crate::specs::Policy::maybe_acl))]
pub(crate) fn maybe_acl(l: &[u8], deep: bool) -> Result<(), Fault>
    ensures { result ≡ scan_result (maybe_acl deep l.now) }
{
    if l.is_empty() {
        return Ok(());
    }
    acl_section(l, deep)
}

// What an applies_to is: no bytes, or an expression. "applies_to (at most 65,536)"
#[tactic(auto, unfolding(crate::specs::Policy::applies_section))]
pub(crate) fn applies_section(l: &[u8]) -> Result<(), Fault>
    ensures { result ≡ scan_result (applies_section l.now) }
{
    if l.is_empty() {
        return Ok(());
    }
    if 65536 < l.len() {
        return Err(Fault::Broken);
    }
    conditions::judge(l)
}
