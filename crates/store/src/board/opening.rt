//! How a board begins, with its first reader.
ghost use Rattle.std.specs.Prelude.{◌≡◌, true, [], drop, IfOk};
ghost use Rattle.left_right.specs.Sides.{view as board_view_of};
ghost use Rattle.crossbeam_queue.specs.Passes.{view as member_of, IsPassOf};
ghost use Rattle.store.specs.BoardViews.{board_view};
ghost use Rattle.store.specs.Pool.{member, maker};
ghost use Rattle.store.specs.Showing.{showing};

use crate::board::board::Board;
use crate::board::pool::{Back, Membership, Pool, Seed};
use crate::board::rule::{Inner, Look, Notes, Writer};
use crate::board::shown::Shown;
use crate::board::viewer::Viewer;
use crate::recorded::Recorded;
use std::alloc::{AllocError, Global};
use std::sync::{Arc, Wait};
use store_model::READERS;

/// A board that shows this version, and a reader. There can be 16 readers at once.
pub(crate) fn open_board<R: Wait>(
    alloc: Global,
    version: &Recorded,
    rt: &R,
) -> Result<(Board, Viewer), AllocError>
    ensures board { IfOk result (λ ends. ends.0 ≡ showing version.now) }
    ensures reader { IfOk result (λ ends. ends.1 ≡ version.now) }
{
    let (pool, mut membership) = Pool::ruled(alloc, usize::from(READERS))?;
    let pool = Arc::new(alloc, pool)?;
    let mut writer = open_writer(alloc, version, rt)?;
    let (known, count) = version.known();
    match seat_all(&mut writer, &pool, &mut membership) {
        Ok(inner) => Ok((
            Board {
                writer: Some(writer),
            },
            Viewer {
                vertex_count: version.vertex_count(),
                count,
                known,
                inner: Some(inner),
                pool,
                membership,
            },
        )),
        Err(full) => {
            let _ = writer.take(rt);
            Err(full)
        }
    }
}

// A writer that shows this version. One version has waited and was shown, so that it has room for each that is to wait later.
fn open_writer<R: Wait>(alloc: Global, version: &Recorded, rt: &R) -> Result<Writer, AllocError>
    ensures shown { IfOk result (λ w. w.desk.shown.value.version ≡ version.now) }
    ensures none { IfOk result (λ w. drop w.behind w.log.items ≡ []) }
    ensures known { IfOk result (λ w. board_view_of w.desk.place ≡ board_view version.now) }
{
    let first = Shown {
        version: version.share()?,
    };
    let second = Shown {
        version: version.share()?,
    };
    let waiting = version.share()?;
    let mut writer = Writer::new(alloc, first, second, usize::from(READERS))?;
    let room = writer.append(waiting);
    let (writer, shown) = writer.publish_as::<Look, R>(rt);
    match (room, shown) {
        (Ok(()), Ok(())) => Ok(writer),
        _ => {
            let _ = writer.take(rt);
            Err(AllocError)
        }
    }
}

// Makes all readers. One is handed out, and the others wait in the pool.
fn seat_all(
    writer: &mut Writer,
    pool: &Pool,
    membership: &mut Membership,
) -> Result<Inner, AllocError>
    requires pass { IsPassOf pool.now membership.old × (member_of membership.old ≡ maker) }
    requires knows { (board_view_of writer.old.desk.place).knows ≡ true }
    ensures knows { IfOk result (λ inner. board_view_of inner.place ≡ board_view_of writer.old.desk.place) }
    ensures pass { IfOk result (λ _. IsPassOf pool.now membership.new) }
    ensures member { IfOk result (λ _. member_of membership.new
        ≡ member (board_view_of writer.old.desk.place).version) }
    ensures shown { IfOk result (λ _. writer.new.desk.shown ≡ writer.old.desk.shown) }
    ensures log { IfOk result (λ _. (writer.new.log ≡ writer.old.log) × (writer.new.behind ≡ writer.old.behind)) }
    ensures known { IfOk result (λ _. board_view_of writer.new.desk.place ≡ board_view_of writer.old.desk.place) }
{
    let mine = taught(writer)?;
    let first = taught(writer)?;
    pool.try_push_as::<Seed>(membership, first)
        .map_err(|_| AllocError)?;
    'seats: for _ in 2..READERS {
        let next = taught(writer)?;
        pool.try_push_as::<Back>(membership, next)
            .map_err(|_| AllocError)?;
    }
    Ok(mine)
}

// A reader that knows what the writer knows.
fn taught(writer: &mut Writer) -> Result<Inner, AllocError>
    ensures knows { IfOk result (λ inner. board_view_of inner.place ≡ board_view_of writer.old.desk.place) }
    ensures shown { writer.new.desk.shown ≡ writer.old.desk.shown }
    ensures log { (writer.new.log ≡ writer.old.log) × (writer.new.behind ≡ writer.old.behind) }
    ensures known { board_view_of writer.new.desk.place ≡ board_view_of writer.old.desk.place }
{
    let mut inner = writer.factory().reader()?;
    inner.learn::<Notes>(writer.tell::<Notes>());
    Ok(inner)
}
