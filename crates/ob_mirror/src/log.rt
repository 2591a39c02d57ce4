//! A log that contracts alone read.

ghost use Rattle.std.specs.Prelude.{◌≡◌, List, [], ◌∷◌, ◌++◌};
ghost use Rattle.std.specs.Borrow.{ftrue};
ghost use Rattle.ob_store.specs.declared.event.Event.{Event};

use ob_store::Event;
use std::marker::Model;

/// Events, the oldest first, that contracts alone read. It has no bytes.
#[derive(Drop)]
pub struct Log {
    pub ghost events: { List Event },
}

impl Model for Log {
    ghost also_owns = { λ _. ftrue };
}

impl Log {
    /// No events.
    pub fn new() -> Log
        ensures { result.events ≡ [] }
    {
        Log {}
    }

    /// One event more.
    pub fn noted(&self, _event: &Event) -> Log
        ensures { result.events ≡ self.now.events ++ _event.now ∷ [] }
    {
        Log {}
    }

    /// These events, and those of another log.
    pub fn joined(&self, _more: &Log) -> Log
        ensures { result.events ≡ self.now.events ++ _more.now.events }
    {
        Log {}
    }
}
