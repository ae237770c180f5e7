// The events of a SACL, one by one: measuring, writing and comparing share this walk.
ghost use Rattle.std.specs.Prelude.{◌≡◌, ◌<◌, length};
ghost use Rattle.passes.specs.Crowds.{shown_in};
ghost use Rattle.audit.specs.Events.{events_in};

use crate::entry::entry_at;
use crate::firing::Asked;
use lists::Rights;

// An event: its source, its entry's number and its mask as stored.
#[derive(Clone, Copy)]
pub struct Event {
    pub source: u32,
    pub entry: u32,
    pub mask: Rights,
}

// The events of a SACL in stored order. `entry` is the number of the next entry, which stands at
// `place`; `count` is how many entries there are in all.
#[derive(Clone, Copy)]
pub struct Events<'a> {
    asked: Asked<'a>,
    list: &'a [u8],
    source: u32,
    count: u32,
    entry: u32,
    place: usize,
}

impl<'a> Events<'a> {
    ghost use Rattle.audit.specs.Walking.{events_left};

    pub(crate) fn of(asked: Asked<'a>, list: &'a [u8], source: u32) -> Events<'a>
        ensures left { events_left result ≡ events_in asked.entry.sought
            (shown_in asked.entry.crowd) asked.entry.crowd.hits source list.now }
        ensures few { length (events_left result) < 65536 }
    {
        Events {
            asked,
            list,
            source,
            count: base::u16_at(list, 4),
            entry: 0,
            place: 8,
        }
    }
}

impl<'a> Iterator for Events<'a> {
    ghost use Rattle.std.specs.Iterator.{item_count};
    ghost use Rattle.audit.specs.Walking.{events_left, GivesEvent};

    type Item = Event;

    ghost next_gives = { GivesEvent };

    ghost remaining = { item_count events_left };

    fn next(&mut self) -> Option<Event> {
        // kept: the place goes along with the number, and `events_left` speaks of both, so the iterator
        // counts by itself.
        while self.entry < self.count {
            let read = entry_at(self.list, self.place)?;
            let entry = self.entry;
            self.entry += 1;
            self.place = read.next;
            if let Some(x) = read.audit {
                if self.asked.fires(self.list, x) {
                    return Some(Event {
                        source: self.source,
                        entry,
                        mask: x.mask,
                    });
                }
            }
        }
        None
    }
}
