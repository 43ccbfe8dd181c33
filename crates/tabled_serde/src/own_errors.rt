//! `OwnErrors`: which errors are of a value, and not of its events.
ghost use Rattle.std.specs.Prelude.{IfErr, List, OnOk, Some, map, ℕ, ⊤};
ghost use Rattle.tabled_serde.specs.Errors.{IsOwn};
ghost use Rattle.tabled_serde.specs.Events.{event_of};

use crate::event::{EventError, Events};
use serde::Serialize;

/// Which errors are of a value, and not of its events. Each type with `Serialize` has it.
///
/// `own_error` holds of a value and of the field and the message of an error that the value returns
/// when it is sent. `serde` says nothing of such errors, so at a known type it holds of all. But a
/// function over any type doesn't know that: it returns `RowError::Custom` only where `send` did.
pub trait OwnErrors: Serialize {
    ghost own_error: { Self → List ℕ → List ℕ → Type 0 };

    /// Writes the events of the value by its `serialize`, and returns the error of that.
    fn send(&self, events: &mut Events) -> Result<(), EventError>
        ensures written { OnOk result (Self.writes self.now
            (Some (map event_of events.old.steps.items))
            (Some (map event_of events.new.steps.items))) }
        ensures own { IfErr result (IsOwn (own_error self.now)) };
}

impl<T: Serialize> OwnErrors for T {
    ghost own_error = { λ value field message. ⊤ };

    fn send(&self, events: &mut Events) -> Result<(), EventError> {
        self.serialize(events)
    }
}
