ghost use Rattle.std.specs.Prelude.{◌≡◌, ◌+◌, ◌^◌, ◌<◌, ◌≤◌, ◌↔◌, [], ◌∷◌, ◌++◌, length, OnOk, OnErr, IsTrue, slice_get, Some};

use crate::reply::Reply;
use crate::request::Request;
use kte_text::Batch;
use std::alloc::{AllocError, Global};
use std::marker::Model;

/// A request with its reply.
#[derive(Debug, Drop)]
pub struct Event {
    /// Whose request it is: the editor has seat 0.
    pub seat: u32,
    /// What was asked.
    pub request: Request,
    /// What was replied.
    pub reply: Reply,
}

/// What came of a request.
#[derive(Debug, Drop)]
pub struct Step {
    /// The reply to it.
    pub reply: Reply,
    /// The primitives that were made for it, in order.
    pub made: Batch,
}

/// Events in the order in which they took effect.
///
/// Contracts see the events, and for how many more there is room already.
#[derive(Debug, Drop)]
pub struct Journal {
    pub(crate) events: Vec<Event>,
}

impl Model for Journal {
    ghost use Rattle.std.specs.Prelude.{◌-◌, vec_len};
    ghost use Rattle.std.specs.Vec.{vec_capacity};
    ghost use Rattle.kte_core.specs.Events.{Events};

    ghost Value = { Events };

    ghost view = { λ journal. record {
      events = journal.events.items;
      room = vec_capacity journal.events - vec_len journal.events;
    } };
}

impl Journal {
    /// Returns an empty journal. This does not allocate.
    pub fn new(alloc: Global) -> Journal
        ensures { result.events ≡ [] }
    {
        Journal {
            events: Vec::new(alloc),
        }
    }

    /// Adds an event at the end. After an error no event was added.
    pub fn push(&mut self, event: Event) -> Result<(), AllocError>
        ensures ok { OnOk result (self.new.events ≡ self.old.events ++ event ∷ []) }
        ensures err { OnErr result (self.new.events ≡ self.old.events) }
    {
        self.events.push(event)?;
        Ok(())
    }

    /// Makes room for `n` more events. Room never shrinks, even on error.
    pub(crate) fn reserve(&mut self, n: u64) -> Result<(), AllocError>
        ensures ok { OnOk result (n ≤ self.new.room) }
        ensures grows { self.old.room ≤ self.new.room }
        ensures same { self.new.events ≡ self.old.events }
    {
        let n = usize::try_from(n).map_err(|_| AllocError)?;
        self.events.reserve(n)
    }

    /// Adds an event at the end, for which there is room. This does not allocate.
    pub(crate) fn note(&mut self, seat: u32, request: Request, reply: Reply)
        requires { 1 ≤ self.old.room }
        ensures events { self.new.events
            ≡ self.old.events ++ record { seat = seat; request = request; reply = reply } ∷ [] }
        ensures room { self.new.room + 1 ≡ self.old.room }
    {
        self.events.push_reserved(Event {
            seat,
            request,
            reply,
        });
    }

    /// Returns the number of events.
    pub fn len(&self) -> u64
        ensures count { result ≡ length self.now.events }
        ensures short { result < 2 ^ 63 }
    {
        self.events.len() as u64
    }

    /// Returns whether there is no event.
    pub fn is_empty(&self) -> bool
        ensures { IsTrue result ↔ (self.now.events ≡ []) }
    {
        self.events.is_empty()
    }

    /// Returns event `n`, counted from 0.
    pub fn get(&self, n: u64) -> &Event
        requires { n < length self.now.events }
        ensures { slice_get self.now.events n ≡ Some result.now }
    {
        &self.events[n as usize]
    }
}
