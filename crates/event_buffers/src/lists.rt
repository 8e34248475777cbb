// Events of some kinds, a list for each.

ghost use Rattle.std.specs.Prelude.{◌≡◌, ◌↔◌, true, false, IsErrOf, ◌==◌, ◌++◌, [], ◌∷◌, get_or, map, IsTrue, OnOk, OnErr};
ghost use Rattle.std.specs.List.{list_all};
ghost use Rattle.kinds.specs.Res.{event_number};
ghost use Rattle.model.specs.Lists.{has, update_at};
ghost use Rattle.model.specs.state.Events.{queue_of, unread, can_send, send_all};
ghost use Rattle.model.specs.shown.Input.{unread_of};
ghost use Rattle.model.specs.shown.Outcome.{events_sent};
ghost use Rattle.model.specs.shown.Overlay.{queues_after, has_event_numbers};
ghost use Rattle.event_buffers.specs.Lists.{ListValue, lists_of, place_in, can_send_in_turn, sent_in_turn, with_event};

use crate::buffers::Events;
use crate::queue::SendFault;
use kinds::Event;
use std::alloc::{AllocError, Global};
use std::marker::Model;

/// Events of one kind, in order. Contracts see the kind by number, and the values.
#[derive(Drop)]
pub struct EventList {
    kind: Event,
    values: Vec<i64>,
}

impl Model for EventList {
    ghost use Rattle.kinds.specs.Res.{event_number};
    ghost use Rattle.event_buffers.specs.Lists.{ListValue};

    ghost Value = { ListValue };

    ghost view = { λ l. record { kind = event_number l.kind; values = l.values.items } };
}

impl EventList {
    // No event of a kind.
    fn empty(alloc: Global, kind: Event) -> Self
        ensures { result ≡ record { kind = event_number kind; values = [] } }
    {
        EventList {
            kind,
            values: Vec::new(alloc),
        }
    }

    // Forgets the events, and is of a kind from now on. The room stays.
    fn reopen(&mut self, kind: Event)
        ensures { self.new ≡ record { kind = event_number kind; values = [] } }
    {
        self.kind = kind;
        self.values.clear();
    }

    // Adds the kept events of the kind from a cursor on.
    fn add_unread(&mut self, cursor: u64, events: &Events) -> Result<(), AllocError>
        ensures { OnOk result (self.new
            ≡ record {
              kind = self.old.kind;
              values = self.old.values
                  ++ unread (queue_of events.now self.old.kind) cursor;
            }) }
    {
        let unread = events.unread(self.kind, cursor);
        self.values.extend_from_slice(unread.older)?;
        self.values.extend_from_slice(unread.newer)?;
        Ok(())
    }

    // Whether these are events of a kind.
    fn is_of(&self, kind: Event) -> bool
        ensures { result ≡ self.now.kind == event_number kind }
    {
        self.kind.number() == kind.number()
    }

    // The values.
    fn values(&self) -> &[i64]
        ensures { result.now ≡ self.now.values }
    {
        self.values.as_slice()
    }

    // Adds an event. A refused one changes nothing.
    fn push(&mut self, value: i64) -> Result<(), AllocError>
        ensures ok { OnOk result (self.new
            ≡ record { kind = self.old.kind; values = self.old.values ++ value ∷ [] }) }
        ensures err { OnErr result (self.new ≡ self.old) }
    {
        self.values.push(value)?;
        Ok(())
    }
}

/// Events of some kinds, a list for each, in the order in which the kinds are named. Contracts see the kinds by
/// number, and the lists. Earlier lists are kept as scratch: an opening takes no memory once it was opened for as
/// many kinds and events.
#[derive(Drop)]
pub struct EventLists {
    lists: Vec<EventList>,
    spare: Vec<EventList>,
}

impl Model for EventLists {
    ghost use Rattle.event_buffers.specs.Lists.{ListsValue, lists_of};

    ghost Value = { ListsValue };

    ghost view = { λ e. lists_of e.lists.items };
}

impl EventLists {
    /// No list. Allocates nothing.
    pub fn new(alloc: Global) -> Self
        ensures { result ≡ record { kinds = []; values = [] } }
    {
        EventLists {
            lists: Vec::new(alloc),
            spare: Vec::new(alloc),
        }
    }

    /// Opens an empty list for each of these kinds, in the room of the lists that were. After an error it is to be opened again.
    pub fn open_empty(&mut self, alloc: Global, kinds: &[Event]) -> Result<(), AllocError>
        ensures { OnOk result (self.new
            ≡ record {
              kinds = map event_number kinds.now;
              values = map (λ kind. []) (map
                  event_number kinds.now);
            }) }
    {
        self.put_away(kinds.len())?;
        for kind in kinds {
            let list = self.take_list(alloc, *kind);
            self.lists.push(list)?;
        }
        Ok(())
    }

    /// Opens a list for each of these kinds, with the earlier lists as scratch. It has the kept events of the kind
    /// from a cursor on, in order. Where there is no cursor, from the first number on. After an error it is to be
    /// opened again.
    pub fn open_unread(
        &mut self,
        alloc: Global,
        kinds: &[Event],
        cursors: &[u64],
        events: &Events,
    ) -> Result<(), AllocError>
        ensures { OnOk result (self.new
            ≡ record {
              kinds = map event_number kinds.now;
              values = unread_of events.now (map event_number kinds.now) cursors.now;
            }) }
    {
        self.put_away(kinds.len())?;
        for (place, kind) in kinds.iter().enumerate() {
            let mut list = self.take_list(alloc, *kind);
            list.add_unread(cursor_at(cursors, place), events)?;
            self.lists.push(list)?;
        }
        Ok(())
    }

    // Puts every list away. From then on there is room for so many lists, and to put them away.
    #[inline(always)]
    fn put_away(&mut self, count: usize) -> Result<(), AllocError>
        ensures { OnOk result (self.new ≡ record { kinds = []; values = [] }) }
    {
        if count == 0 && self.lists.is_empty() {
            return Ok(());
        }
        self.put_each_away(count)
    }

    // The same list by list: the last first, so that each is taken at its place again.
    #[inline(never)]
    fn put_each_away(&mut self, count: usize) -> Result<(), AllocError>
        ensures { OnOk result (self.new ≡ record { kinds = []; values = [] }) }
    {
        while let Some(list) = self.lists.pop() {
            self.spare.push(list)?;
        }
        self.lists.reserve(count)?;
        self.spare.reserve(count.saturating_sub(self.spare.len()))?;
        Ok(())
    }

    // A list without events for a kind: one that was put away last, where there is one.
    fn take_list(&mut self, alloc: Global, kind: Event) -> EventList
        ensures list { result ≡ record { kind = event_number kind; values = [] } }
        ensures lists { self.new ≡ self.old }
    {
        let Some(mut list) = self.spare.pop() else {
            return EventList::empty(alloc, kind);
        };
        list.reopen(kind);
        list
    }

    /// The events of a kind, by its first list. None where it has no list.
    pub fn of_kind(&self, kind: Event) -> &[i64]
        ensures { result.now ≡ events_sent self.now.kinds self.now.values (event_number kind) }
    {
        match place_of(self.lists.as_slice(), kind) {
            Some(place) => self.lists[place].values(),
            None => &[],
        }
    }

    /// Adds an event to the first list of its kind. A refused one changes nothing.
    pub fn push(&mut self, kind: Event, value: i64) -> Result<(), AllocError>
        requires { IsTrue (has (event_number kind) self.old.kinds) }
        ensures ok { OnOk result (self.new
            ≡ record {
              kinds = self.old.kinds;
              values = with_event self.old.kinds (event_number kind) value
                  self.old.values;
            }) }
        ensures err { OnErr result (self.new ≡ self.old) }
    {
        match place_of(self.lists.as_slice(), kind) {
            Some(place) => {
                let list = &mut self.lists[place];
                list.push(value)
            }
            None => unreachable!(),
        }
    }

    /// Sends the events, of each kind those of its first list. Where one gets no number none is sent; where an allocation fails those of some
    /// kinds may have been.
    pub fn send(&self, events: &mut Events) -> Result<(), SendFault>
        ensures ok { OnOk result (events.new
            ≡ queues_after (events_sent self.now.kinds self.now.values) events.old) }
        ensures spent { IsErrOf result SendFault.NumbersSpent
            ↔ (has_event_numbers (events_sent self.now.kinds self.now.values) events.old ≡ false) }
    {
        if self.lists.is_empty() {
            return Ok(());
        }
        if !self.can_send(events) {
            return Err(SendFault::NumbersSpent);
        }
        match self.send_every(events) {
            Ok(()) => Ok(()),
            Err(_) => Err(SendFault::Memory),
        }
    }

    // Whether the events of every kind get numbers.
    fn can_send(&self, events: &Events) -> bool
        ensures { result
            ≡ has_event_numbers (events_sent self.now.kinds self.now.values) events.now }
    {
        events.prove_law();
        self.can_send_each(&Event::ALL, events)
    }

    // Whether the events of each of these kinds get numbers.
    fn can_send_each(&self, kinds: &[Event], events: &Events) -> bool
        ensures { result
            ≡ list_all
            (λ kind. can_send (events_sent self.now.kinds self.now.values (event_number kind))
            (queue_of events.now (event_number kind)))
            kinds.now }
    {
        kinds.iter().all(|kind| self.can_send_of(*kind, events))
    }

    // Whether the events of a kind get numbers.
    fn can_send_of(&self, kind: Event, events: &Events) -> bool
        ensures { result
            ≡ can_send (events_sent self.now.kinds self.now.values (event_number kind)) (queue_of
            events.now (event_number kind)) }
    {
        events.can_send(kind, self.of_kind(kind))
    }

    // Sends the events of every kind, which all get numbers.
    fn send_every(&self, events: &mut Events) -> Result<(), AllocError>
        requires { has_event_numbers (events_sent self.now.kinds self.now.values) events.old
            ≡ true }
        ensures { OnOk result (events.new
            ≡ queues_after (events_sent self.now.kinds self.now.values) events.old) }
    {
        events.prove_law();
        self.send_each(&Event::ALL, events)
    }

    // Sends the events of each of these kinds, which all get numbers.
    fn send_each(&self, kinds: &[Event], events: &mut Events) -> Result<(), AllocError>
        requires { can_send_in_turn (events_sent self.now.kinds self.now.values)
            (map event_number kinds.now) events.old
            ≡ true }
        ensures { OnOk result (events.new
            ≡ sent_in_turn (events_sent self.now.kinds self.now.values)
            (map event_number kinds.now) events.old) }
    {
        let Some((kind, others)) = kinds.split_first() else {
            return Ok(());
        };
        self.send_of(*kind, events)?;
        self.send_each(others, events)
    }

    // Sends the events of a kind, which all get numbers.
    fn send_of(&self, kind: Event, events: &mut Events) -> Result<(), AllocError>
        requires { can_send (events_sent self.now.kinds self.now.values (event_number kind))
            (queue_of events.old (event_number kind))
            ≡ true }
        ensures { OnOk result (events.new
            ≡ update_at (event_number kind)
            (send_all (events_sent self.now.kinds self.now.values (event_number kind)))
            events.old) }
    {
        events.send_numbered(kind, self.of_kind(kind))
    }
}

// The cursor at a place, 0 past the end.
fn cursor_at(cursors: &[u64], place: usize) -> u64
    ensures { result ≡ get_or cursors.now place 0 }
{
    match cursors.get(place) {
        Some(cursor) => *cursor,
        None => 0,
    }
}

// The place of the first list of a kind.
fn place_of(lists: &[EventList], kind: Event) -> Option<usize>
    ensures { result ≡ place_in (map (λ (l : ListValue). l.kind) lists.now) (event_number kind) }
{
    for (place, list) in lists.iter().enumerate() {
        if list.is_of(kind) {
            return Some(place);
        }
    }
    None
}
