//! The publisher's side: what is shown next.
ghost use Rattle.std.specs.Prelude.{◌≡◌, None, IfOk, IfErr};
ghost use Rattle.history.specs.Moment.{Begins};
ghost use Rattle.store.specs.Showing.{with_waiting, after_show};

use crate::board::rule::{Look, Writer};
use crate::recorded::Recorded;
use std::alloc::AllocError;
use std::marker::Model;
use std::mem;
use std::sync::Wait;

/// The side of the board on which versions are shown. It has to be ended by `close`.
pub(crate) struct Board {
    // It is there, but while a version is shown.
    pub(super) writer: Option<Writer>,
}

impl Model for Board {
    ghost use Rattle.std.specs.Prelude.{drop, MatchOption};
    ghost use Rattle.left_right.specs.Sides.{view as board_view_of};
    ghost use Rattle.store.specs.Showing.{Showing, seen_as, IsBoard};

    ghost Value = { Showing };

    ghost view = { λ b. seen_as b.writer (λ w. w.desk.shown.value.version) (λ w. drop w.behind w.log.items) };

    ghost invariant = { λ b. MatchOption b.writer ⊥ (λ w. IsBoard w.desk.shown.value.version
        (drop w.behind w.log.items) (board_view_of w.desk.place)) };
}

impl Board {
    /// Hands in the version that is to be shown next. It comes back where there is no memory.
    pub(crate) fn append(&mut self, version: Recorded) -> Result<(), Recorded>
        requires free { self.old.waiting ≡ None }
        requires later { Begins self.old.shown version }
        ensures ok { IfOk result (λ _. self.new ≡ with_waiting self.old version) }
        ensures back { IfErr result (λ back. back ≡ version) }
        ensures same { IfErr result (λ _. self.new ≡ self.old) }
    {
        let Some(writer) = &mut self.writer else {
            unreachable!()
        };
        writer.append(version)
    }

    /// Shows what waits, once no reader is at the copy that is to be shown. After an error, readers are shown
    /// what they were, and the same waits.
    pub(crate) fn show<R: Wait>(&mut self, rt: &R) -> Result<(), AllocError>
        ensures ok { IfOk result (λ _. self.new ≡ after_show self.old) }
        ensures same { IfErr result (λ _. self.new ≡ self.old) }
    {
        let Some(writer) = self.writer.take() else {
            unreachable!()
        };
        let (writer, answer) = writer.publish_as::<Look, R>(rt);
        match mem::replace(&mut self.writer, Some(writer)) {
            None => {}
            Some(_) => unreachable!(),
        }
        answer
    }

    /// Ends the board. From then on readers are answered so.
    pub(crate) fn close<R: Wait>(self, rt: &R) {
        let Board { writer } = self;
        if let Some(writer) = writer {
            let _ = writer.take(rt);
        }
    }
}
