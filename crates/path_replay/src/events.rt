//! Lists of events.

ghost use Rattle.std.specs.Prelude.{◌≡◌, [], ◌∷◌, ◌++◌, length, OnOk};
ghost use Rattle.std.specs.List.{slice_get};
ghost use Rattle.path_replay.specs.declared.event.Event.TheVariants.{Submit};

use crate::event::Event;
use crate::kept_event::KeptEvent;
use edit_log::{Edit, EditList};
use std::alloc::{AllocError, Global};
use std::marker::Model;

/// A list of events, with their edits packed. Contracts see the events.
#[derive(Drop)]
pub struct Events {
    events: Vec<KeptEvent>,
    edits: EditList,
}

impl Model for Events {
    ghost use Rattle.std.specs.Prelude.{List, All, length};
    ghost use Rattle.path_replay.specs.declared.event.Event.{Event};
    ghost use Rattle.path_replay.specs.KeptEvents.{events_of, IsPlaced};

    ghost Value = { List Event };

    ghost view = { λ list. events_of list.edits.edits list.events.items };

    ghost invariant = { λ list. All (IsPlaced (length list.edits.edits)) list.events.items };
}

impl Events {
    ghost use Rattle.path_replay.specs.KeptEvents.{event_of, IsPlaced};

    /// No events. They take no memory.
    pub fn new(alloc: Global) -> Events
        ensures { result ≡ [] }
    {
        Events {
            events: Vec::new(alloc),
            edits: EditList::new(alloc),
        }
    }

    /// Adds an event at the end.
    ///
    /// # Errors
    ///
    /// `AllocError` where memory runs out.
    pub fn push(&mut self, event: Event) -> Result<(), AllocError>
        ensures { OnOk result (self.new ≡ self.old ++ event ∷ []) }
    {
        match event {
            Event::Submit { pass, edit } => self.push_submit(pass, &edit),
            Event::Look { pass } => self.push_other(KeptEvent::Look { pass }),
            Event::Query { pass, start, goal } => {
                self.push_other(KeptEvent::Query { pass, start, goal })
            }
            Event::Begin { pass } => self.push_other(KeptEvent::Begin { pass }),
            Event::Row { pass } => self.push_other(KeptEvent::Row { pass }),
            Event::Publish { pass } => self.push_other(KeptEvent::Publish { pass }),
            Event::Halt { pass } => self.push_other(KeptEvent::Halt { pass }),
        }
    }

    /// Adds an event that submits an edit.
    fn push_submit(&mut self, pass: u32, edit: &Edit) -> Result<(), AllocError>
        ensures { OnOk result (self.new ≡ self.old ++ Submit pass edit.now ∷ []) }
    {
        self.edits.reserve_one()?;
        self.events.reserve(1)?;
        let place = self.edits.len();
        self.edits.push_reserved(edit);
        self.events.push_reserved(KeptEvent::Submit { pass, place });
        Ok(())
    }

    /// Adds an event that has no edit.
    fn push_other(&mut self, event: KeptEvent) -> Result<(), AllocError>
        requires { IsPlaced 0 event }
        ensures { OnOk result (self.new ≡ self.old ++ event_of [] event ∷ []) }
    {
        self.events.push(event)?;
        Ok(())
    }

    /// How many events there are.
    pub fn len(&self) -> usize
        ensures { result ≡ length self.now }
    {
        self.events.len()
    }

    /// The event at that place; `None` exactly past the end.
    pub fn get(&self, place: usize) -> Option<Event>
        ensures { result ≡ slice_get self.now place }
    {
        let event = match *self.events.get(place)? {
            KeptEvent::Submit { pass, place } => Event::Submit {
                pass,
                edit: self.edits.get(place)?,
            },
            KeptEvent::Look { pass } => Event::Look { pass },
            KeptEvent::Query { pass, start, goal } => Event::Query { pass, start, goal },
            KeptEvent::Begin { pass } => Event::Begin { pass },
            KeptEvent::Row { pass } => Event::Row { pass },
            KeptEvent::Publish { pass } => Event::Publish { pass },
            KeptEvent::Halt { pass } => Event::Halt { pass },
        };
        Some(event)
    }
}
