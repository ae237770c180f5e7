// One list and its entries, at places of lent bytes. What an identity is stands in `sids`,
// what a condition is in `conditions`.
ghost use Rattle.std.specs.Prelude.{◌≡◌, ◌||◌, ◌+◌, ◌≤◌, ◌<◌, length, eqb, IfSome};
ghost use Rattle.base.specs.Bytes.{found};
ghost use Rattle.conditions.specs.Scanning.{scan_result};
ghost use Rattle.lists.specs.Acl.{acl_end, head_end, callback, named, judges, holds, entry_end};
ghost use Rattle.lists.specs.Acl.{content_of, scan_of, ace_at, stands};
ghost use Rattle.lists.specs.Simple.{fits_as, simple};

use conditions::Fault;
use sids::sid_end;

// A rights mask. A group's attribute word is another type, so that the two cannot change places.
#[derive(Clone, Copy)]
pub struct Rights(pub u32);

// An allow, deny or callback entry: its SID stands from `from` to `to`, and `next` is the place
// after the entry. Between the two stands the condition of a callback entry, or spare bytes of
// another, or nothing.
#[derive(Clone, Copy)]
pub struct Ace {
    // kept: a number: `ace_by_length` does not ask the type, so an enum needs a case for any other.
    pub kind: u8,
    pub flags: u8,
    pub mask: Rights,
    pub from: usize,
    pub to: usize,
    pub next: usize,
}

// "revision 2 or 4"
fn is_revision(b: u8) -> bool
    ensures { result ≡ (eqb b 2 || eqb b 4) }
{
    matches!(b, 2 | 4)
}

// The place after the ACL whose heading stands at `at`, if it is well shaped and fits.
// kept: the clause `inside` here and below: a name for it would take the same three numbers.
pub fn acl_end(s: &[u8], at: usize) -> Option<usize>
    ensures value { result ≡ found (acl_end s.now at) }
    ensures inside { IfSome result (λ e. (at + 8 ≤ e) × (e ≤ length s.now)) }
{
    if s.len() < 8 || s.len() - 8 < at || !is_revision(s[at]) {
        return None;
    }
    let n = base::u16_at(s, at + 2) as usize;
    if n < 8 || s.len() - at < n {
        return None;
    }
    Some(at + n)
}

// The place after the entry whose heading stands at `at`, if that is well shaped and fits. Its body
// is not judged.
// kept: apart from `acl_end`: the two test other fields by other bounds.
fn head_end(l: &[u8], at: usize) -> Option<usize>
    ensures value { result ≡ found (head_end l.now at) }
    ensures inside { IfSome result (λ e. (at + 4 ≤ e) × (e ≤ length l.now)) }
{
    if l.len() < 4 || l.len() - 4 < at {
        return None;
    }
    let n = base::u16_at(l, at + 2) as usize;
    if n % 4 != 0 || n < 4 || l.len() - at < n {
        return None;
    }
    Some(at + n)
}

// Whether the entry from `at` to `e` holds a mask and one SID. What follows the SID is not asked.
// Its bytes are those of the list, so that only its own end is asked for.
// kept: by the tests of `sid_end` and not by a call, which took longer: docs/DECISIONS.md, entry 46.
// kept: the clause on `at` and `e` here and below: a name for it would take the same two and the list.
fn holds(l: &[u8], at: usize, e: usize) -> bool
    requires { (at ≤ e) × (e ≤ length l.now) }
    ensures { result ≡ holds l.now at e }
{
    if e - at < 16 {
        return false;
    }
    if l[at + 8] != 1 {
        return false;
    }
    let n = usize::from(l[at + 9]);
    if 15 < n {
        return false;
    }
    let k = at + 16 + 4 * n;
    k <= e
}

// Whether a type is 9 or 10: allow or deny with a condition.
pub fn is_callback(kind: u8) -> bool
    ensures { result ≡ callback kind }
{
    matches!(kind, 9 | 10)
}

// Whether an entry of a type holds a mask and one SID.
fn is_named(kind: u8) -> bool
    ensures { result ≡ named kind }
{
    kind < 2 || is_callback(kind)
}

// Whether that an entry of a type holds a mask and one SID is judged: in a DACL, where `deep`, of
// all types that hold them, in a SACL of type 2.
fn is_judged(kind: u8, deep: bool) -> bool
    ensures { result ≡ judges deep kind }
{
    if deep { is_named(kind) } else { kind == 2 }
}

// The place after the entry at `at`, if one stands there; `deep` in a DACL.
// kept: `deep`, a truth, here and below: the definitions ask it (`entry_end`, `scan_of`, `simple`).
pub fn entry_end(l: &[u8], at: usize, deep: bool) -> Option<usize>
    ensures value { result ≡ found (entry_end deep l.now at) }
    ensures inside { IfSome result (λ e. (at + 4 ≤ e) × (e ≤ length l.now)) }
{
    let e = head_end(l, at)?;
    if !is_judged(l[at], deep) {
        return Some(e);
    }
    if holds(l, at, e) { Some(e) } else { None }
}

// What the entry from `at` to `e` holds: a foreign type, a condition that is judged where `deep`,
// or nothing that could be wrong.
fn content(l: &[u8], at: usize, e: usize, deep: bool) -> Result<(), Fault>
    requires at_lt_e { (at < e) × (e ≤ length l.now) }
    requires at_value { entry_end deep l.now at ≡ e }
    ensures { result ≡ scan_result (content_of deep l.now at e) }
{
    let kind = l[at];
    if kind < 2 {
        return Ok(());
    }
    if !is_callback(kind) {
        return Err(Fault::Foreign);
    }
    if !deep {
        return Ok(());
    }
    let from = sid_end(l, at + 8).unwrap();
    conditions::judge(&l[from..e])
}

// What the entries of the list's own bytes are, one by one.
// kept: `is_simple` steps by headings, this by judged entries, the reader by entries with a SID; an
// iterator would take the step as a closure, and be longer than the three loops.
fn scan_all(l: &[u8], deep: bool) -> Result<(), Fault>
    ensures { result ≡ scan_result (scan_of deep l.now) }
{
    let mut alien = false;
    let mut at: usize = 8;
    for _ in 0..base::u16_at(l, 4) {
        let Some(e) = entry_end(l, at, deep) else {
            return Err(Fault::Broken);
        };
        alien = match content(l, at, e, deep) {
            Ok(()) => alien,
            Err(Fault::Foreign) => true,
            Err(Fault::Broken) => return Err(Fault::Broken),
        };
        at = e;
    }
    if alien { Err(Fault::Foreign) } else { Ok(()) }
}

// Whether the entry from `at` to `e` holds a mask and one SID, where `deep`; else that is not
// asked.
fn fits(l: &[u8], at: usize, e: usize, deep: bool) -> bool
    requires { (at ≤ e) × (e ≤ length l.now) }
    ensures { result ≡ fits_as deep l.now at e }
{
    !deep || holds(l, at, e)
}

// Whether all entries have type 0 or 1 and are well shaped. Most lists are so.
fn is_simple(l: &[u8], deep: bool) -> bool
    ensures { result ≡ simple deep l.now }
{
    let mut at: usize = 8;
    for _ in 0..base::u16_at(l, 4) {
        let Some(e) = head_end(l, at) else {
            return false;
        };
        if 1 < l[at] || !fits(l, at, e, deep) {
            return false;
        }
        at = e;
    }
    true
}

// What the entries of the list's own bytes are; deep in a DACL. A list with conditions, with other
// types or with a fault is walked once more from the front.
pub fn scan_entries(l: &[u8], deep: bool) -> Result<(), Fault>
    ensures { result ≡ scan_result (scan_of deep l.now) }
{
    if is_simple(l, deep) {
        return Ok(());
    }
    scan_all(l, deep)
}

// The entry with a SID at a place of its list, if one stands there. A condition is not judged here.
pub fn ace_at(l: &[u8], at: usize) -> Option<Ace>
    ensures value { result ≡ stands (ace_at l.now at) }
    ensures inside { IfSome result (λ a.
        (a.from ≤ a.to) × ((a.to ≤ a.next) × (a.next ≤ length l.now))) }
{
    let e = entry_end(l, at, true)?;
    let kind = l[at];
    if !is_named(kind) {
        return None;
    }
    let to = sid_end(l, at + 8).unwrap();
    let mask = base::u32_at(l, at + 4);
    Some(Ace {
        kind,
        flags: l[at + 1],
        mask: Rights(mask),
        from: at + 8,
        to,
        next: e,
    })
}
