// "The entry reader keeps the list it was opened on and its place in that list." A struct of these
// two, and thin functions over it; the work is `held`, on the list, and `step_at`, on the list and a
// place.
// How many entries are left is not kept beside the place. Bytes after the last entry are accepted,
// so opening walks the list once, by its own count, and the reader holds the list up to its last
// entry: there it ends. A step then reads one entry, and a whole reading is linear.
#![tactic(auto)]

ghost use Rattle.std.specs.Prelude.{◌≡◌};
ghost use Rattle.reader.specs.Reading.{end_from, held, step_at, next_place, shown};
ghost use Rattle.base.specs.Bytes.{u16_at};

use lists::{Ace, Extent};

// The list that it was opened on, up to its last entry, and its place in that list.
#[derive(Clone, Copy)]
pub struct Entries<'a> {
    pub list: &'a [u8],
    pub at: usize,
}

// The place after the last entry of a list.
fn end(list: &[u8]) -> usize
    ensures { result ≡ end_from list.now (u16_at list.now 4) 8 }
{
    let mut p: usize = 8;
    for _ in 0..base::u16_at(list, 4) {
        let Some(a) = lists::ace_at(list, p) else {
            return p;
        };
        p = a.next;
    }
    p
}

// The list up to its last entry, without the bytes after it.
pub fn held(list: &[u8]) -> &[u8]
    ensures { result.now ≡ held list.now }
{
    let all = Extent {
        from: 0,
        to: end(list),
    };
    all.bytes(list)
}

// What stands at a place of a held list: one of its entries with a SID, or the end.
pub fn step_at(list: &[u8], at: usize) -> Option<Ace>
    ensures { result ≡ shown (step_at list.now at) }
{
    lists::ace_at(list, at)
}

// The place after what stands at a place; at the end, the same place.
pub fn next_place(list: &[u8], at: usize) -> usize
    ensures { result ≡ next_place list.now at }
{
    match step_at(list, at) {
        Some(a) => a.next,
        None => at,
    }
}

impl<'a> Entries<'a> {
    // A reader of the list, at its first entry's place. The one walk over the whole list.
    pub fn opened(list: &'a [u8]) -> Entries<'a>
        ensures { (result.list.now ≡ held list.now) × (result.at ≡ 8) }
    {
        Entries {
            list: held(list),
            at: 8,
        }
    }

    // A reader put together again of its list, which is a held one, and its place in that list.
    pub fn placed(list: &'a [u8], at: usize) -> Entries<'a>
        ensures { (result.list ≡ list.entry) × (result.at ≡ at) }
    {
        Entries { list, at }
    }

    // What stands at the reader's place.
    pub fn current(self) -> Option<Ace>
        ensures { result ≡ shown (step_at self.entry.list.now self.entry.at) }
    {
        step_at(self.list, self.at)
    }

    // The reader of the same list, past what stands at its place. It does not leave the end.
    pub fn stepped(self) -> Entries<'a>
        ensures { (result.list ≡ self.entry.list)
            × (result.at ≡ next_place self.entry.list.now self.entry.at) }
    {
        let at = next_place(self.list, self.at);
        Entries {
            list: self.list,
            at,
        }
    }

    // The list that the reader holds.
    pub fn list(self) -> &'a [u8]
        ensures { result ≡ self.entry.list }
    {
        self.list
    }

    // Its place in that list.
    pub fn place(self) -> usize
        ensures { result ≡ self.entry.at }
    {
        self.at
    }
}

// The first entry of a list, by a reader opened on it.
pub fn first(list: &[u8]) -> Option<Ace>
    ensures { result ≡ shown (step_at (held list.now) 8) }
{
    Entries::opened(list).current()
}

// What follows on what stands at a place of a held list, by a reader that is put there and stepped.
pub fn after(list: &[u8], at: usize) -> Option<Ace>
    ensures { result ≡ shown (step_at list.now (next_place list.now at)) }
{
    Entries::placed(list, at).stepped().current()
}
