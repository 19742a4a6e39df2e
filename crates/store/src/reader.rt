//! The ends at which versions are pinned.
ghost use Rattle.std.specs.Prelude.{◌≡◌, ◌⊎◌, IfOk, IfErr};
ghost use Rattle.history.specs.Moment.{OneStore, Begins};
ghost use Rattle.store.specs.Ties.{PinsAsEvent};

use crate::board::{NoPlace, PinError, Viewer};
use crate::pin::Pin;
use crate::receipt::Receipt;
use std::marker::Model;

/// One that holds versions, in a thread of its own. Contracts see it as the moment that it saw last.
pub struct Reader {
    side: Viewer,
}

impl Drop for Reader {
    // Written out, so that crates above prove a call here, and not the drop of each part.
    fn drop(self) {
        let Reader { side: _side } = self;
    }
}

impl Model for Reader {
    ghost use Rattle.history.specs.Moment.{Moment};

    ghost Value = { Moment };

    ghost view = { λ r. r.side };
}

impl Reader {
    /// The reader on this side of the board.
    pub(crate) fn at(side: Viewer) -> Reader
        ensures { result ≡ side }
    {
        Reader { side }
    }

    /// A hold on the version that is shown at a moment of this call. It continues what this reader saw or learned,
    /// and is what it saw last. Nobody is waited for. After an error the reader is as it was: `Closed` once the
    /// publisher has ended, `NoShare` where the version cannot have one owner more.
    pub fn pin(&mut self) -> Result<Pin, PinError>
        ensures begins { IfOk result (λ pin. Begins self.old pin) }
        ensures seen { IfOk result (λ pin. self.new ≡ pin) }
        ensures event { IfOk result (λ pin. PinsAsEvent self.old pin) }
        ensures failed { IfErr result (λ _. self.new ≡ self.old) }
    {
        match self.side.pin() {
            Ok(version) => Ok(Pin::on(version)),
            Err(error) => Err(error),
        }
    }

    /// Learns that a version of this store was published: from now on, what is pinned continues it.
    pub fn learn(&mut self, receipt: &Receipt)
        requires { OneStore self.old receipt.now.moment }
        ensures one { (self.new ≡ self.old) ⊎ (self.new ≡ receipt.now.moment) }
        ensures this { Begins self.old self.new }
        ensures that { Begins receipt.now.moment self.new }
    {
        self.side.learn(receipt.version());
    }

    /// Another reader, which has seen as much. It can go to another thread. There are places for 16 readers, and it is
    /// refused where they are taken, or where another thread was in the way.
    pub fn another(&mut self) -> Result<Reader, NoPlace>
        ensures other { IfOk result (λ other. other ≡ self.old) }
        ensures same { self.new ≡ self.old }
    {
        match self.side.another() {
            Ok(side) => Ok(Reader { side }),
            Err(none) => Err(none),
        }
    }
}
