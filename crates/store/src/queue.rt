//! The queue between feeds and the publisher: feeds put batches, in threads of their own, and one end takes them.
mod delivery;
mod ending;
mod message;
mod opening;
mod queue_view;
mod receiver;
mod sender;

pub(crate) use self::receiver::Receiver;
pub(crate) use opening::{Opened, open_queue};
pub(crate) use sender::Sender;
