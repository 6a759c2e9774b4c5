//! What takes events.

ghost use Rattle.std.specs.Prelude.{◌≡◌, ◌≤◌, [], length};
ghost use Rattle.poison_mem.specs.Short.{ShortLogState, short_logged};

use crate::event::Event;
use arrayvec::ArrayVec;
use std::marker::Model;

/// What takes events. Its value is a state, which each event moves.
pub trait EventLog {
    ghost use Rattle.std.specs.Prelude.{◌≡◌};
    ghost use Rattle.poison_mem.specs.declared.event.Event.{Event};

    /// The state after an event.
    ghost logged: { Self → Event → Self };

    /// Takes one more event.
    fn log(&mut self, e: Event)
        ensures { self.new ≡ logged self.old e };
}

/// A log that keeps nothing.
#[derive(Clone, Copy, Debug, Default, PartialEq, Eq)]
pub struct NoLog;

impl EventLog for NoLog {
    ghost logged = { λ s _. s };

    fn log(&mut self, _e: Event) {}
}

/// The first 64 events, and how many came after them.
#[derive(Drop)]
pub struct ShortLog {
    events: ArrayVec<Event, 64>,
    rest: u64,
}

impl Model for ShortLog {
    ghost use Rattle.poison_mem.specs.Short.{ShortLogState};

    ghost Value = { ShortLogState };

    ghost view = { λ log. record { events = log.events.items; rest = log.rest } };
}

impl ShortLog {
    /// A log that has taken nothing.
    pub fn new() -> ShortLog
        ensures { result ≡ record { events = []; rest = 0 } }
    {
        ShortLog {
            events: ArrayVec::new(),
            rest: 0,
        }
    }

    /// The first events, in order, at most 64.
    pub fn events(&self) -> &[Event]
        ensures value { result.now ≡ self.now.events }
        ensures fits { length result.now ≤ 64 }
    {
        self.events.as_slice()
    }

    /// The number of events that came after those. It stays at 2^64 - 1.
    pub fn rest(&self) -> u64
        ensures { result ≡ self.now.rest }
    {
        self.rest
    }
}

impl EventLog for ShortLog {
    ghost logged = { short_logged };

    fn log(&mut self, e: Event) {
        if self.events.is_full() {
            self.rest = self.rest.saturating_add(1);
        } else {
            self.events.push(e);
        }
    }
}
