// The judge of a flat listing: its shape over the whole, then the token rules. One walk by places.
ghost use Rattle.std.specs.Prelude.{◌≡◌, true, ℕ, ◌≤◌, length, IfSome, IfOk};
ghost use Rattle.base.specs.Bytes.{part, same};
ghost use Rattle.sids.specs.Sid.{virtual};
ghost use Rattle.records.specs.Token.{confined};
ghost use Rattle.records.specs.Fields.{many, group_at, confinement_at, people_at, ended};
ghost use Rattle.records.specs.FlatListing.{flat_identity, flat_reader, read_listing};
ghost use Rattle.records.specs.TokenRules.{virtual_group, all_restricted};
ghost use Rattle.tokens.specs.Judging.{judged_by, judged_of, told, walked, seen_by, seen_of};
ghost use Rattle.tokens.specs.Judging.{confinement_breaks, rest_breaks};

use crate::refusal::Refusal;

// The place after what was read, and whether it breaks a token rule.
#[derive(Clone, Copy)]
pub struct Walk {
    pub next: usize,
    pub breaks: bool,
}

// The same of capabilities, and whether S-1-15-2-2 stands among them.
#[derive(Clone, Copy)]
pub struct Capabilities {
    pub next: usize,
    pub breaks: bool,
    pub listed: bool,
}

// Whether the identity from `from` to `to` is S-1-3-4 or S-1-5-10.
fn is_virtual(s: &[u8], from: usize, to: usize) -> bool
    requires { (from ≤ to) × (to ≤ length s.now) }
    ensures { result ≡ virtual (part s.now from to) }
{
    sids::is_virtual(&s[from..to])
}

// Whether the identity from `from` to `to` is S-1-15-2-2.
fn is_restricted(s: &[u8], from: usize, to: usize) -> bool
    requires { (from ≤ to) × (to ≤ length s.now) }
    ensures { result ≡ same (part s.now from to) all_restricted }
{
    let all_restricted = [1u8, 2, 0, 0, 0, 0, 0, 15, 2, 0, 0, 0, 2, 0, 0, 0];
    base::same(&s[from..to], &all_restricted)
}

// As many groups from `at`.
// kept: that a place lies in the listing is said of each walk, since a place that held its listing
// would be longer to make and to say.
fn judge_groups(s: &[u8], at: usize, n: u32) -> Option<Walk>
    requires { at ≤ length s.now }
    ensures result_value { walked result ≡ told virtual_group (many (group_at flat_reader) n s.now at) }
    ensures next_in_bounds { IfSome result (λ r. r.next ≤ length s.now) }
{
    let mut next = at;
    let mut breaks = false;
    for _ in 0..n {
        let e = sids::sid_end(s, next)?;
        if s.len() - e < 4 {
            return None;
        }
        breaks |= is_virtual(s, next, e);
        next = e + 4;
    }
    Some(Walk { next, breaks })
}

// As many capabilities from `at`.
// kept: beside `judge_groups`, since `seen_by` asks for S-1-15-2-2 too, and `walked` does not.
fn judge_capabilities(s: &[u8], at: usize, n: u32) -> Option<Capabilities>
    requires { at ≤ length s.now }
    ensures result_value { seen_by result ≡ told seen_of (many flat_identity n s.now at) }
    ensures next_in_bounds { IfSome result (λ r. r.next ≤ length s.now) }
{
    let mut next = at;
    let mut breaks = false;
    let mut listed = false;
    for _ in 0..n {
        let e = sids::sid_end(s, next)?;
        breaks |= is_virtual(s, next, e);
        listed |= is_restricted(s, next, e);
        next = e;
    }
    Some(Capabilities {
        next,
        breaks,
        listed,
    })
}

// The confinement identity and at most 64 capabilities, S-1-15-2-2 among them.
fn judge_confinement(s: &[u8], at: usize) -> Option<Walk>
    requires { at ≤ length s.now }
    ensures result_value { walked result ≡ told confinement_breaks (confinement_at flat_reader true s.now at) }
    ensures next_in_bounds { IfSome result (λ r. r.next ≤ length s.now) }
{
    let e = sids::sid_end(s, at)?;
    if s.len() - e < 4 {
        return None;
    }
    let n = base::u32_at(s, e);
    if 64 < n {
        return None;
    }
    let w = judge_capabilities(s, e + 4, n)?;
    Some(Walk {
        next: w.next,
        breaks: is_virtual(s, at, e) | w.breaks | !w.listed,
    })
}

// What follows the groups: the confinement, or nothing, and then no exemption.
fn judge_rest(s: &[u8], at: usize, flags: u32) -> Option<Walk>
    requires { at ≤ length s.now }
    ensures result_value { walked result ≡ told (rest_breaks flags) (confinement_at flat_reader (confined flags) s.now at) }
    ensures next_in_bounds { IfSome result (λ r. r.next ≤ length s.now) }
{
    if flags & 1 == 0 {
        return Some(Walk {
            next: at,
            breaks: flags & 2 != 0,
        });
    }
    judge_confinement(s, at)
}

// From the user on, for any privileges: the place of the confinement identity.
fn judge_people(s: &[u8], flags: u32) -> Result<usize, Refusal>
    requires { 12 ≤ length s.now }
    ensures by_index { (p : ℕ) → judged_by result ≡ judged_of (ended s.now (people_at flat_reader flags p s.now 12)) }
    ensures confined_at_in_bounds { IfOk result (λ n. n ≤ length s.now) }
{
    let Some(e) = sids::sid_end(s, 12) else {
        return Err(Refusal::Misshapen);
    };
    if s.len() - e < 4 {
        return Err(Refusal::Misshapen);
    }
    let n = base::u32_at(s, e);
    if 256 < n {
        return Err(Refusal::Misshapen);
    }
    let Some(g) = judge_groups(s, e + 4, n) else {
        return Err(Refusal::Misshapen);
    };
    let Some(w) = judge_rest(s, g.next, flags) else {
        return Err(Refusal::Misshapen);
    };
    if w.next != s.len() {
        return Err(Refusal::Misshapen);
    }
    if is_virtual(s, 12, e) | g.breaks | w.breaks {
        return Err(Refusal::BreaksRule);
    }
    Ok(g.next)
}

// The whole listing: the place of its confinement identity, or of the end where there is none. It
// is misshapen, or its token breaks a token rule.
pub fn judge(s: &[u8]) -> Result<usize, Refusal>
    ensures value { judged_by result ≡ judged_of (read_listing s.now) }
    ensures confined_at_in_bounds { IfOk result (λ n. n ≤ length s.now) }
{
    if s.len() < 12 {
        return Err(Refusal::Misshapen);
    }
    let flags = base::u32_at(s, 0);
    if 3 < flags {
        return Err(Refusal::Misshapen);
    }
    judge_people(s, flags)
}
