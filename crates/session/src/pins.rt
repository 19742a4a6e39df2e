//! The pins of a session.

ghost use Rattle.std.specs.Prelude.{◌≡◌, IfErr};
ghost use Rattle.session_model.specs.Responses.{pin_response};
ghost use Rattle.session.specs.Performs.{Performs};

use crate::answer::Answer;
use crate::error::CommandError;
use crate::kept::{NamedPin, find_pin};
use crate::session::Session;
use session_model::{Fault, MOST_KEPT};

impl Session {
    /// Names the last version.
    pub(crate) fn take_pin<'a>(&mut self, name: &'a [u8]) -> Result<Answer<'a>, CommandError>
        ensures performed { Performs (pin_response name.now self.old) result self.old self.new }
        ensures kept { IfErr result (λ _. self.new ≡ self.old) }
    {
        if self.store.is_none() {
            return Err(CommandError::Fault(Fault::Order));
        }
        if find_pin(&self.pins, name).is_some() {
            return Err(CommandError::Fault(Fault::Name));
        }
        if self.pins.len() >= MOST_KEPT {
            return Err(CommandError::Fault(Fault::TooMany));
        }
        let name_kept = Vec::from_slice(self.alloc, name)?;
        let Some(store) = &mut self.store else {
            unreachable!()
        };
        let pin = store.pin()?;
        let version = pin.version();
        let number = version.number();
        let edges = version.edge_count();
        self.pins.push(NamedPin {
            name: name_kept,
            pin,
        })?;
        Ok(Answer::PinTaken {
            name,
            number,
            edges,
        })
    }
}
