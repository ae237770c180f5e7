// The two kinds and their rights: generic bits mapped, entries cut, questions judged.
ghost use Rattle.std.specs.Prelude.{◌≡◌, cond};
ghost use Rattle.masks.specs.KindsAndMasks.{right, all_bits, mapped, entry_mask};
ghost use Rattle.masks.specs.KindsAndMasks.{legal, explicit, asked};

use crate::tally::Tally;
use lists::Rights;

// "One table of two rows and four columns serves all mapping": read, write, execute, all.
const TABLE: [[u32; 4]; 2] = [
    [0x120089, 0x120116, 0x1200A0, 0x1F01FF],
    [0x20019, 0x20006, 0x20019, 0xF003F],
];

// The rights of a kind: what each generic bit stands for.
#[derive(Clone, Copy)]
struct KindRights {
    read: Rights,
    write: Rights,
    execute: Rights,
    all: Rights,
}

impl KindRights {
    // The rights of a kind: row 0 for a file, 1 for a key.
    #[tactic(auto, unfolding(crate::specs::KindsAndMasks::right))]
    fn of(kind: u32) -> KindRights
        ensures read { result.read.0 ≡ right kind 0 }
        ensures write { result.write.0 ≡ right kind 1 }
        ensures execute { result.execute.0 ≡ right kind 2 }
        ensures all { result.all.0 ≡ right kind 3 }
    {
        let table = TABLE;
        let [read, write, execute, all] = if kind == 2 { table[1] } else { table[0] };
        KindRights {
            read: Rights(read),
            write: Rights(write),
            execute: Rights(execute),
            all: Rights(all),
        }
    }
}

// The right, where the test holds; else none.
pub fn when(holds: bool, right: Rights) -> Rights
    ensures { result.0 ≡ cond holds right.0 0 }
{
    if holds { right } else { Tally::NONE }
}

// The kind's all bits.
// kept: a kind is a number, here and below: `all_bits`, `mapped` and `asked` are public and answer
// for every number, and an enum would be a narrower type.
pub fn all_bits(kind: u32) -> Rights
    ensures { result.0 ≡ all_bits kind }
{
    KindRights::of(kind).all
}

// The mask with its generic bits turned into the kind's rights.
#[tactic(auto, unfolding(crate::specs::KindsAndMasks::mapped))]
pub fn mapped(kind: u32, m: Rights) -> Rights
    ensures { result.0 ≡ mapped kind m.0 }
{
    let rights = KindRights::of(kind);
    let read = when(m.0 & Tally::GENERIC_READ.0 != 0, rights.read);
    let write = when(m.0 & Tally::GENERIC_WRITE.0 != 0, rights.write);
    let execute = when(m.0 & Tally::GENERIC_EXECUTE.0 != 0, rights.execute);
    let all = when(m.0 & Tally::GENERIC_ALL.0 != 0, rights.all);
    Rights((m.0 & Tally::NOT_GENERIC.0) | (read.0 | (write.0 | (execute.0 | all.0))))
}

// An entry's mask: mapped, then cut to the kind's all bits.
#[tactic(auto, unfolding(crate::specs::KindsAndMasks::entry_mask))]
pub fn entry_mask(kind: u32, m: Rights) -> Rights
    ensures { result.0 ≡ entry_mask kind m.0 }
{
    Rights(mapped(kind, m).0 & all_bits(kind).0)
}

// Whether a question may ask these bits.
#[tactic(auto, unfolding(crate::specs::KindsAndMasks::legal))]
pub fn legal(kind: u32, m: Rights) -> bool
    ensures { result ≡ legal kind m.0 }
{
    let may = Tally::SPECIAL.0 | all_bits(kind).0;
    may & m.0 == m.0
}

// The explicit bits of a question: its mapped mask without the bit that asks for the maximum.
#[tactic(auto, unfolding(crate::specs::KindsAndMasks::explicit))]
pub fn explicit(kind: u32, m: Rights) -> Rights
    ensures { result.0 ≡ explicit kind m.0 }
{
    Rights(mapped(kind, m).0 & !Tally::MAXIMUM.0)
}

// The asked bits: the explicit ones, and with the maximum the kind's all bits.
#[tactic(auto, unfolding(crate::specs::KindsAndMasks::asked))]
pub fn asked(kind: u32, m: Rights) -> Rights
    ensures { result.0 ≡ asked kind m.0 }
{
    let all = when(m.0 & Tally::MAXIMUM.0 != 0, all_bits(kind));
    Rights(explicit(kind, m).0 | all.0)
}
