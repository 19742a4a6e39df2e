//! Where a session's graph keeps neighbours.

ghost use Rattle.std.specs.Prelude.{◌≡◌, IfErr};
ghost use Rattle.session_model.specs.Responses.{home_response};
ghost use Rattle.session.specs.Performs.{Performs};

use crate::answer::Answer;
use crate::error::CommandError;
use crate::session::Session;
use session_model::Fault;

impl Session {
    /// Reports where the last version keeps a vertex's neighbours, and how many they are.
    pub(crate) fn report_home<'a>(&mut self, vertex: u64) -> Result<Answer<'a>, CommandError>
        ensures performed { Performs (home_response vertex self.old) result self.old self.new }
        ensures kept { IfErr result (λ _. self.new ≡ self.old) }
    {
        let Some(store) = &mut self.store else {
            return Err(CommandError::Fault(Fault::Order));
        };
        if vertex >= u64::from(store.vertex_count()) {
            return Err(CommandError::Fault(Fault::Range));
        }
        let pin = store.pin()?;
        let version = pin.version();
        Ok(Answer::HomeReported {
            vertex,
            home: version.home(vertex),
            degree: version.degree(vertex),
        })
    }
}
