// Conditional expressions in the profile: their shape, read token by token from the left; the first
// fault decides.
ghost use Rattle.std.specs.Prelude.{◌≡◌, ◌≤◌, ◌<◌, ◌+◌, ℕ, List, Bool, false, length, IfSome, Err};
ghost use Rattle.base.specs.Bytes.{byte_at, found};
ghost use Rattle.conditions.specs.Condition.{Item, enclosed_end, literal_end, in_profile, stray};
ghost use Rattle.conditions.specs.Condition.{asks, literals, literal, composite, answered, step_at};
ghost use Rattle.conditions.specs.Condition.{told_by, outcome_by, shape};
ghost use Rattle.conditions.specs.Scanning.{scan_result, weighed};
ghost use Rattle.conditions.specs.Stack.{coded, step_of, Steps};

use crate::fault::Fault;
use crate::padding::zeros;
use crate::stack::{Operand, Stack, Step, ended, negated, paired, push};

// Who answers the tests of an expression: what a test, by its byte, is told of a list of SIDs.
pub trait Tests {
    ghost told: { Self → ℕ → List ℕ → Bool };

    fn tell(&self, b: u8, list: &[u8]) -> bool
        ensures { result ≡ told self.now b list.now };
}

// The place after what the length behind the token at `at` encloses, where it fits.
// kept: the clause `inside` here and below: a name for it would take the same three numbers.
fn enclosed_end(s: &[u8], at: usize) -> Option<usize>
    ensures value { result ≡ found (enclosed_end s.now at) }
    ensures inside { IfSome result (λ e. (at + 5 ≤ e) × (e ≤ length s.now)) }
{
    if s.len() < 5 || s.len() - 5 < at {
        return None;
    }
    let n = base::u32_at(s, at + 1) as usize;
    if s.len() - (at + 5) < n {
        return None;
    }
    Some(at + 5 + n)
}

// The place after the SID literal at `at`, where one stands.
pub fn literal_end(s: &[u8], at: usize) -> Option<usize>
    ensures value { result ≡ found (literal_end s.now at) }
    ensures inside { IfSome result (λ e. (at + 5 ≤ e) × (e ≤ length s.now)) }
{
    let e = enclosed_end(s, at)?;
    if sids::is_sid(&s[at + 5..e]) {
        Some(e)
    } else {
        None
    }
}

// Whether a byte asks for membership.
fn asks(b: u8) -> bool
    ensures { result ≡ asks b }
{
    matches!(b, 0x89 | 0x8b | 0x90 | 0x92)
}

// Whether a byte is a token of the profile, padding too.
fn in_profile(b: u8) -> bool
    ensures { result ≡ in_profile b }
{
    matches!(b, 0 | 0x50 | 0x51) || asks(b) || matches!(b, 0xa0 | 0xa1 | 0xa2)
}

// What a byte is that stands in a composite where 0x51 should.
fn stray(b: u8) -> Fault
    ensures { Err result ≡ scan_result (stray b) }
{
    if in_profile(b) {
        Fault::Broken
    } else {
        Fault::Foreign
    }
}

// What a composite encloses: SID literals back to back, or the first fault.
// kept: `meets` of passes walks them too, but compares; this tells what a stray byte is.
fn literals(c: &[u8]) -> Result<(), Fault>
    ensures { result ≡ scan_result (literals c.now) }
{
    let mut at = 0;
    // kept: each literal says where the next begins, so there is no range to go over.
    while at < c.len() {
        if c[at] != 0x51 {
            return Err(stray(c[at]));
        }
        let Some(e) = literal_end(c, at) else {
            return Err(Fault::Broken);
        };
        at = e;
    }
    Ok(())
}

// A SID literal is a list of one.
fn literal(s: &[u8], at: usize, word: u64) -> Step
    ensures { Steps word (literal s.now at) result }
{
    let Some(e) = literal_end(s, at) else {
        return Err(Fault::Broken);
    };
    push(word, Operand::Sids(at, e), e)
}

// A composite is the list of the SIDs that it encloses.
fn composite(s: &[u8], at: usize, word: u64) -> Step
    ensures { Steps word (composite s.now at) result }
{
    let Some(e) = enclosed_end(s, at) else {
        return Err(Fault::Broken);
    };
    literals(&s[at + 5..e])?;
    push(word, Operand::Sids(at + 5, e), e)
}

// One of the four tests of membership: takes a list, and gives what `who` tells of it.
fn test<T: Tests>(s: &[u8], b: u8, m: Stack, next: usize, who: &T) -> Step
    requires { (m.from ≤ m.to) × (m.to ≤ length s.now) }
    ensures { (st : List Item) → m ≡ coded st →
        result ≡ step_of (answered (told_by (T.told who.now) s.now b st) next st) }
{
    if m.word % 4 != 3 {
        return Err(Fault::Broken);
    }
    let told = who.tell(b, &s[m.from..m.to]);
    push(m.word / 4, Operand::Truth(told), next)
}

// One token, where one stands.
fn token<T: Tests>(s: &[u8], at: usize, m: Stack, who: &T) -> Step
    requires one { at < length s.now }
    requires inside { (m.from ≤ m.to) × (m.to ≤ length s.now) }
    ensures { (st : List Item) → m ≡ coded st →
        result ≡ step_of
        (step_at (told_by (T.told who.now) s.now (byte_at s.now at) st) s.now at st) }
{
    let b = s[at];
    match b {
        0x51 => literal(s, at, m.word),
        0x50 => composite(s, at, m.word),
        0x89 | 0x8b | 0x90 | 0x92 => test(s, b, m, at + 1, who),
        0xa0 => paired(true, m.word, at + 1),
        0xa1 => paired(false, m.word, at + 1),
        0xa2 => negated(m.word, at + 1),
        _ => Err(Fault::Foreign),
    }
}

// What an expression comes to, token by token from the left; `who` answers its tests.
pub fn weigh<T: Tests>(s: &[u8], who: &T) -> Result<bool, Fault>
    ensures { result ≡ weighed (outcome_by (told_by (T.told who.now) s.now) s.now) }
{
    if base::u32_at(s, 0) != 0x7874_7261 {
        return Err(Fault::Broken);
    }
    let mut m = Stack {
        word: 0,
        from: 0,
        to: 0,
    };
    let mut at: usize = 4;
    // kept: each token says where the next begins, so there is no range to go over.
    while at < s.len() {
        if s[at] == 0 {
            if zeros(&s[at..]) {
                return ended(m.word);
            }
            return Err(Fault::Broken);
        }
        let (next, after) = token(s, at, m, who)?;
        at = next;
        m = after;
    }
    ended(m.word)
}

// Nobody: every test is told false.
struct Nobody;

impl Tests for Nobody {
    ghost told = { λ who b list. false };

    fn tell(&self, _b: u8, _list: &[u8]) -> bool {
        false
    }
}

// What the bytes after an entry's SID, or of an applies_to section, are.
pub fn judge(s: &[u8]) -> Result<(), Fault>
    ensures { result ≡ scan_result (shape s.now) }
{
    weigh(s, &Nobody)?;
    Ok(())
}
