//! What is shown: a version and the history's word for it.
use crate::recorded::Recorded;
use left_right::Absorb;
use std::alloc::AllocError;

/// The version that readers are shown.
#[derive(Drop)]
pub(crate) struct Shown {
    pub version: Recorded,
}

impl Absorb<Recorded> for Shown {
    type State = Recorded;

    ghost state = { λ s. s.version };

    ghost applied = { λ _ version. version };

    fn absorb_first(&mut self, operation: &Recorded, _other: &Shown) -> Result<(), AllocError> {
        self.version = operation.share()?;
        Ok(())
    }

    fn absorb_second(&mut self, operation: Recorded, _other: &Shown) -> Result<(), Recorded> {
        self.version = operation;
        Ok(())
    }
}
