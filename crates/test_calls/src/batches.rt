//! A batch in its ranges, below the number of edits from which threads sort them, at it, and at the most; and the greatest batch on
//! the greatest graph that is served.
use batch_apply::{ApplyError, apply_batch, split};
use past_model::{Batch, Edit, SERVED_VERTICES};
use shard_table::Table;
use std::alloc::{AllocError, Global};
use std::sync::Wait;
use std::test::Fail;
use std::thread::Threads;
use workers::{Crew, OpenGate, Workers};

// So many insertions, each out of a vertex that is so much above the one before.
fn spread(alloc: Global, count: u32, apart: u32) -> Result<Batch, AllocError> {
    let mut edits = Vec::new(alloc);
    for number in 0..count {
        edits.push(Edit::Insert(apart.saturating_mul(number), number))?;
    }
    Batch::new(alloc, edits)
}

// How many pieces a batch has, and the range of its last one, with how many edits.
fn pieces_of<R: Threads + Sync>(
    rt: &R,
    alloc: Global,
    batch: &Batch,
) -> Result<(usize, Option<(u32, usize)>), ApplyError> {
    let pieces = split(rt, alloc, batch)?;
    let last = match pieces.last() {
        Some((range, edits)) => Some((*range, edits.len())),
        None => None,
    };
    Ok((pieces.len(), last))
}

#[test]
fn a_batch_is_split(rt: HostRuntime) -> Result<(), Fail> {
    for (count, apart, wanted) in [
        (0, 1, (0, None)),
        (2_047, 1, (8, Some((7, 255)))),
        (2_048, 1, (8, Some((7, 256)))),
        (65_536, 16, (4_096, Some((4_095, 16)))),
        (65_536, 0, (1, Some((0, 65_536)))),
        (65_537, 1, (257, Some((256, 1)))),
        (3, 1 << 30, (3, Some((8_388_608, 1)))),
    ] {
        let batch = spread(rt.alloc(), count, apart)?;
        let pieces = pieces_of(&rt, rt.alloc(), &batch);
        assert_eq!(rt; pieces, Ok(wanted), "{count} by {apart}");
    }
    Ok(())
}

// How many edges a batch adds to the greatest graph that is served, by four workers.
fn added<R: Threads + Wait>(rt: &R, alloc: Global, batch: &Batch) -> Result<u64, ApplyError> {
    let table = Table::empty(alloc, SERVED_VERTICES)?;
    let crew = Crew {
        rt,
        workers: Workers::new(4).unwrap_or(Workers::one()),
        gate: &OpenGate,
    };
    let applied = apply_batch(&crew, alloc, &table, batch);
    let Crew {
        rt: _,
        workers: _,
        gate: _,
    } = crew;
    let (_, counts) = applied?;
    Ok(counts.added)
}

#[test]
fn the_most_edits_on_the_greatest_graph(rt: HostRuntime) -> Result<(), Fail> {
    let batch = spread(rt.alloc(), 65_536, 16)?;
    assert_eq!(rt; added(&rt, rt.alloc(), &batch), Ok(65_536));
    Ok(())
}
