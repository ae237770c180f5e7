// The self-relative descriptor: its shape, and its parts as the very bytes lent.
ghost use Rattle.std.specs.Prelude.{◌≡◌, length, Ok, IfOk, leb};
ghost use Rattle.lists.specs.Descriptor.{Piece, heading, sid_piece, acl_piece, judged, parts_of};
ghost use Rattle.lists.specs.Descriptor.{owner_of, group_of, sacl_of, dacl_of, part_in};
ghost use Rattle.lists.specs.Handed.{piece_result, place_in, alien_in, handed, Within};

use crate::acl::{acl_end, scan_entries};
use conditions::Fault;
use sids::sid_end;

// Why a descriptor is refused; the page's numbers are 6, 7 and 8.
#[derive(Clone, Copy, PartialEq, Eq)]
pub enum Refusal {
    Misshapen,
    Ownerless,
    ForeignEntry,
}

// From a place up to another; empty where both are 0.
// kept: 0 and 0 for an absent part: it is an empty part then (document 01), and `Parts` says so.
#[derive(Clone, Copy)]
pub struct Extent {
    pub from: usize,
    pub to: usize,
}

impl Extent {
    // Its bytes, or none where it does not lie inside.
    pub fn bytes<'a>(self, d: &'a [u8]) -> &'a [u8]
        ensures { result.now ≡ part_in d.now self.from self.to }
    {
        if self.to < self.from || d.len() < self.to {
            return &d[0..0];
        }
        &d[self.from..self.to]
    }

    // Whether it holds no byte.
    pub fn is_empty(self) -> bool
        ensures { result ≡ leb self.to self.from }
    {
        self.to <= self.from
    }
}

// Where each part of a descriptor stands. `null`: the DACL is absent.
#[derive(Clone, Copy)]
pub struct Descriptor {
    // kept: a flag beside `dacl`: an absent part is an empty slice (document 01), and a null DACL is
    // walked as a list without entries; `Parts` of specs has the flag.
    pub null: bool,
    pub owner: Extent,
    pub group: Extent,
    pub sacl: Extent,
    pub dacl: Extent,
}

// A part that an offset names: where it stands, and whether it is a list with something foreign.
#[derive(Clone, Copy)]
struct Found {
    place: Extent,
    alien: bool,
}

// "20 to 65,535 bytes; revision 1; control bit 0x8000 set"
fn heading(d: &[u8]) -> bool
    ensures { result ≡ heading d.now }
{
    if d.len() < 20 || 65535 < d.len() || d[0] != 1 {
        return false;
    }
    base::u16_at(d, 2) & 0x8000 != 0
}

// The identity that an offset names, if it names one.
fn sid_piece(d: &[u8], off: usize) -> Result<Option<Found>, Refusal>
    ensures { result ≡ piece_result (sid_piece d.now off) }
{
    if off == 0 {
        return Ok(None);
    }
    if off < 20 {
        return Err(Refusal::Misshapen);
    }
    let Some(to) = sid_end(d, off) else {
        return Err(Refusal::Misshapen);
    };
    Ok(Some(Found {
        place: Extent { from: off, to },
        alien: false,
    }))
}

// The list that an offset names, where it is to be followed; deep in a DACL.
// kept: `followed` and `deep`, two truths: the definition `acl_piece` takes both.
fn acl_piece(d: &[u8], followed: bool, at: usize, deep: bool) -> Result<Option<Found>, Refusal>
    ensures { result ≡ piece_result (acl_piece deep d.now followed at) }
{
    if !followed {
        return Ok(None);
    }
    if at < 20 {
        return Err(Refusal::Misshapen);
    }
    let Some(to) = acl_end(d, at) else {
        return Err(Refusal::Misshapen);
    };
    let place = Extent { from: at, to };
    match scan_entries(&d[at..to], deep) {
        Ok(()) => Ok(Some(Found {
            place,
            alien: false,
        })),
        Err(Fault::Foreign) => Ok(Some(Found { place, alien: true })),
        Err(Fault::Broken) => Err(Refusal::Misshapen),
    }
}

// Where a part stands; empty where it is absent.
fn place_of(p: Option<Found>) -> Extent
    ensures { result ≡ place_in p }
{
    p.map_or(Extent { from: 0, to: 0 }, |f| f.place)
}

// Whether a part is a list with something foreign.
fn is_alien(p: Option<Found>) -> bool
    ensures { result ≡ alien_in p }
{
    p.is_some_and(|f| f.alien)
}

// What the four parts come to.
fn judged(
    o: Option<Found>,
    g: Option<Found>,
    s: Option<Found>,
    a: Option<Found>,
) -> Result<Descriptor, Refusal>
    ensures { (x y z w : Piece) → Ok o ≡ piece_result x → Ok g ≡ piece_result y
        → Ok s ≡ piece_result z → Ok a ≡ piece_result w → result ≡ handed (judged x y z w) }
{
    let Some(owner) = o else {
        return Err(Refusal::Ownerless);
    };
    if is_alien(a) {
        return Err(Refusal::ForeignEntry);
    }
    Ok(Descriptor {
        null: a.is_none(),
        owner: owner.place,
        group: place_of(g),
        sacl: place_of(s),
        dacl: place_of(a),
    })
}

// Reads a whole descriptor: each list once.
pub fn read(d: &[u8]) -> Result<Descriptor, Refusal>
    ensures value { result ≡ handed (parts_of d.now) }
    ensures inside { IfOk result (λ p. Within (length d.now) p) }
{
    if !heading(d) {
        return Err(Refusal::Misshapen);
    }
    let control = base::u16_at(d, 2);
    let o = sid_piece(d, base::u32_at(d, 4) as usize)?;
    let g = sid_piece(d, base::u32_at(d, 8) as usize)?;
    let s = acl_piece(
        d,
        control & 0x0010 != 0,
        base::u32_at(d, 12) as usize,
        false,
    )?;
    let a = acl_piece(d, control & 0x0004 != 0, base::u32_at(d, 16) as usize, true)?;
    judged(o, g, s, a)
}

// The bytes of an extent, or an empty part where it does not lie inside.
// kept: beside `Extent::bytes`: docs/PAGE.md names `part`.
pub fn part(d: &[u8], x: Extent) -> &[u8]
    ensures { result.now ≡ part_in d.now x.from x.to }
{
    x.bytes(d)
}

// The bytes of the owner; none where the read refused. So with the three others.
// kept: four that are alike: one over the part takes an enum with its match, or a closure with its
// contract, and is longer than these.
pub fn owner(d: &[u8]) -> &[u8]
    ensures { result.now ≡ owner_of d.now }
{
    match read(d) {
        Ok(p) => p.owner.bytes(d),
        Err(_) => &d[0..0],
    }
}

pub fn group(d: &[u8]) -> &[u8]
    ensures { result.now ≡ group_of d.now }
{
    match read(d) {
        Ok(p) => p.group.bytes(d),
        Err(_) => &d[0..0],
    }
}

pub fn sacl(d: &[u8]) -> &[u8]
    ensures { result.now ≡ sacl_of d.now }
{
    match read(d) {
        Ok(p) => p.sacl.bytes(d),
        Err(_) => &d[0..0],
    }
}

pub fn dacl(d: &[u8]) -> &[u8]
    ensures { result.now ≡ dacl_of d.now }
{
    match read(d) {
        Ok(p) => p.dacl.bytes(d),
        Err(_) => &d[0..0],
    }
}
