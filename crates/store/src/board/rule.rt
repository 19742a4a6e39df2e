//! The rule of the board, as its calls name it.
use crate::board::board_view::BoardView;
use crate::board::shown::Shown;
use crate::recorded::Recorded;
use atomic_table::{Join, Split};
use crossbeam_utils::rule::{Outcome, Protocol};

/// Each moment that a pass knows begins the one that is shown.
pub(crate) struct Grows;

impl Protocol<Shown, BoardView> for Grows {
    ghost use Rattle.store.specs.BoardViews.{stranger};
    ghost use Rattle.store.specs.BoardRule.{Keeps};

    ghost holds = { λ s. Keeps s.version };

    ghost first = { stranger };
}

/// A step that shows a version, or looks at it.
pub(crate) struct Look;

impl Outcome<Shown, BoardView> for Look {
    ghost use Rattle.store.specs.BoardRule.{Looks};

    ghost then = { λ v x y w. Looks v x.version y.version w };
}

/// Another pass is given what this one knows.
pub(crate) struct Notes;

impl Split<BoardView> for Notes {
    ghost left = { λ v. v };

    ghost right = { λ v. v };
}

impl Join<BoardView> for Notes {
    ghost use Rattle.store.specs.BoardViews.{stranger};

    ghost both = { λ _ w. w };

    ghost spent = { stranger };
}

/// The writer's side of the board.
pub(crate) type Writer = left_right::writer::Writer<Shown, Recorded, BoardView, Grows>;

/// A reader's side of the board.
pub(crate) type Inner = left_right::reader::Reader<Shown, BoardView, Grows>;
