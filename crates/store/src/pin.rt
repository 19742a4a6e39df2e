//! A hold on a version.
ghost use Rattle.std.specs.Prelude.{◌≡◌, IfOk};

use crate::recorded::Recorded;
use std::alloc::AllocError;
use std::marker::Model;
use version::Version;

/// A hold on one version, which stays as it is while later ones are published. Contracts see it as the version's
/// moment.
pub struct Pin {
    version: Recorded,
}

impl Drop for Pin {
    // Written out, so that crates above prove a call here, and not the drop of each part.
    fn drop(self) {
        let Pin { version: _version } = self;
    }
}

impl Model for Pin {
    ghost use Rattle.history.specs.Moment.{Moment};

    ghost Value = { Moment };

    ghost view = { λ p. p.version };
}

impl Pin {
    /// A hold on this version.
    pub(crate) fn on(version: Recorded) -> Pin
        ensures { result ≡ version }
    {
        Pin { version }
    }

    /// The version that it holds.
    pub fn version(&self) -> &Version
        ensures { result.now ≡ self.now.past }
    {
        self.version.version()
    }

    /// Another hold on the same version. `AllocError` where the version cannot have one owner more.
    pub fn share(&self) -> Result<Pin, AllocError>
        ensures { IfOk result (λ pin. pin ≡ self.now) }
    {
        Ok(Pin {
            version: self.version.share()?,
        })
    }
}
