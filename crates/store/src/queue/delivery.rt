//! The rule of the queue, as its calls name it.
use crate::queue::message::Message;
use crate::queue::queue_view::QueueView;
use crossbeam_queue::protocol::{Join, Lesson, Outcome, Protocol, Split};
use crossbeam_queue::{Pass, RuledArrayQueue};

/// Of each feed, what was taken and what the queue holds are what it put, in order.
pub(crate) struct Delivery;

impl Protocol<Message, QueueView> for Delivery {
    ghost use Rattle.store.specs.QueueViews.{newcomer};
    ghost use Rattle.store.specs.QueueRule.{Keeps};

    ghost holds = { Keeps };

    ghost first = { newcomer };
}

/// The only pass says how many vertices there are.
pub(crate) struct Say;

impl Outcome<Message, QueueView> for Say {
    ghost use Rattle.std.specs.Prelude.{◌≡◌};
    ghost use Rattle.store.specs.QueueViews.{opener};

    ghost then = { λ v x w. w ≡ opener x.vertex_count };
}

/// It takes that out again, and all can begin.
pub(crate) struct Begin;

impl Outcome<Message, QueueView> for Begin {
    ghost use Rattle.std.specs.Prelude.{◌≡◌, []};
    ghost use Rattle.store.specs.QueueViews.{taker};

    ghost then = { λ v x w. w ≡ taker v.vertex_count [] 0 [] };
}

/// A feed puts a batch.
pub(crate) struct Put;

impl Outcome<Message, QueueView> for Put {
    ghost use Rattle.store.specs.QueueRule.{Puts};

    ghost then = { Puts };
}

impl Lesson<Message, QueueView> for Put {
    ghost use Rattle.store.specs.QueueRule.{Waits};

    ghost fact = { λ v items. Waits v items };
}

/// A batch is taken.
pub(crate) struct Take;

impl Outcome<Message, QueueView> for Take {
    ghost use Rattle.store.specs.QueueRule.{Takes};

    ghost then = { Takes };
}

impl Lesson<Message, QueueView> for Take {
    ghost use Rattle.store.specs.QueueRule.{Left, entries_of};

    ghost fact = { λ v items. Left v (entries_of items) };
}

/// A pass for the next feed.
pub(crate) struct NewFeed;

impl Split<QueueView> for NewFeed {
    ghost use Rattle.std.specs.Prelude.{◌+◌, []};
    ghost use Rattle.store.specs.QueueViews.{taker, feeder};

    ghost left = { λ v. taker v.vertex_count v.taken (v.made + 1) v.ended };

    ghost right = { λ v. feeder v.vertex_count v.made [] };
}

/// A feed has ended.
pub(crate) struct EndFeed;

impl Join<QueueView> for EndFeed {
    ghost use Rattle.store.specs.QueueViews.{after_end, spent_view};

    ghost both = { λ v w. after_end v w.sent };

    ghost spent = { spent_view };
}

/// The queue of batches.
pub(crate) type Queue = RuledArrayQueue<Message, QueueView, Delivery>;

/// What one end of it knows.
pub(crate) type Seat = Pass<Message, QueueView>;
