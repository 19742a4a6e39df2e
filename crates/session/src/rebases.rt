//! The epochs of a session's graph.

ghost use Rattle.std.specs.Prelude.{◌≡◌, IfErr};
ghost use Rattle.session_model.specs.Responses.{rebase_response};
ghost use Rattle.session.specs.Performs.{Performs};

use crate::answer::Answer;
use crate::error::CommandError;
use crate::session::Session;
use past_model::SERVED_EPOCHS;
use session_model::Fault;
use std::sync::Wait;

impl Session {
    /// Makes the last version's graph the base of a new epoch. A held batch stays held.
    pub(crate) fn rebase<'a, R: Wait>(&mut self, rt: &R) -> Result<Answer<'a>, CommandError>
        ensures performed { Performs (rebase_response self.old) result self.old self.new }
        ensures kept { IfErr result (λ _. self.new ≡ self.old) }
    {
        let Some(store) = &mut self.store else {
            return Err(CommandError::Fault(Fault::Order));
        };
        if store.epoch() >= SERVED_EPOCHS {
            return Err(CommandError::Fault(Fault::EpochsFull));
        }
        let epoch = store.epoch() + 1;
        let edges = store.rebase(rt)?;
        Ok(Answer::Rebased { epoch, edges })
    }
}
