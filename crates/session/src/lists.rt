//! The lists of a session: all edges of a pin with the numbers of a program.

ghost use Rattle.session_model.specs.Session.{Session as SessionState};
ghost use Rattle.session_model.specs.Responses.{list_response, listed_response};
ghost use Rattle.session.specs.Kept.{program_of, past_of};
ghost use Rattle.session.specs.Performs.{Performs};

use crate::answer::Answer;
use crate::error::CommandError;
use crate::kept::{find_pin, find_program};
use crate::listing::Listing;
use crate::session::Session;
use map_model::EDGE_BYTES;
use session_model::Fault;
use std::sync::Arc;
use store::Pin;
use verifier::Verified;

/// What a list is asked for: a program and a pin by their names.
#[derive(Clone, Copy)]
pub(crate) struct Names<'a> {
    pub program: &'a [u8],
    pub pin: &'a [u8],
}

/// Lists the edges of a pin, where both are there. It runs nothing: the edges are run as they are listed.
fn list_found<'a>(
    names: &Names<'a>,
    argument: Vec<u8>,
    program: Option<&Arc<Verified>>,
    pin: Option<&Pin>,
) -> Result<Answer<'a>, CommandError>
    ensures { (s : SessionState) → Performs (listed_response names.now.program.now names.now.pin.now argument.items
        (program_of program.entry) (past_of pin.entry) s) result s s }
{
    let (Some(program), Some(pin)) = (program, pin) else {
        return Err(CommandError::Fault(Fault::Name));
    };
    if argument.len() + EDGE_BYTES != usize::from(program.image().record_length()) {
        return Err(CommandError::Fault(Fault::ArgumentLength));
    }
    let edges = pin.version().edge_count();
    let listing = Listing::new(pin.share()?, Arc::try_clone(program)?, argument);
    Ok(Answer::EdgesListed {
        program: names.program,
        pin: names.pin,
        edges,
        listing,
    })
}

impl Session {
    /// Lists the edges of a pin with the numbers of a program.
    pub(crate) fn list_program<'a>(
        &self,
        names: &Names<'a>,
        argument: Vec<u8>,
    ) -> Result<Answer<'a>, CommandError>
        ensures { Performs (list_response names.now.program.now names.now.pin.now argument.items self.now) result
            self.now self.now }
    {
        let Some(_store) = &self.store else {
            return Err(CommandError::Fault(Fault::Order));
        };
        let program = find_program(&self.programs, names.program);
        let pin = find_pin(&self.pins, names.pin);
        list_found(names, argument, program, pin)
    }
}
