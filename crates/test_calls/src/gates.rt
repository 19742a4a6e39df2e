//! Workers are inside at once: those of a batch, of a publication and of a map, as many as there are pieces for them. Those of
//! a script are tried by `scripts`.
use crate::edits::batch_of;
use crate::runs::program_of;
use crate::shop::{Shop, pin_of};
use batch_apply::{ApplyError, apply_batch};
use edge_map::{Crew, MapError, MapRequest, Pin, Reduction, Verified, map_edges};
use past_model::{Batch, Edit};
use shard_table::Table;
use std::alloc::{AllocError, Global};
use std::sync::Wait;
use std::test::Fail;
use std::thread::Threads;
use workers::{HoldingGate, Workers};

/// How many workers there are, and how many of four pieces are inside at once.
const CREWS: [(u8, u64); 4] = [(2, 2), (3, 3), (4, 4), (16, 4)];

/// Each of four pieces was entered once and left once, and none waited in vain.
const ALL_FOUR: [u64; 3] = [0x1111, 0x1111, 0];

/// How often each piece was entered and left, a digit of 16 for each, and how many waited in vain.
fn seen(gate: &HoldingGate) -> [u64; 3] {
    [gate.entered(), gate.left(), gate.in_vain()]
}

// An edit of each of four ranges of 256 vertices.
fn four_ranges(alloc: Global) -> Result<Batch, AllocError> {
    let edits = [
        Edit::Insert(0, 1),
        Edit::Insert(300, 1),
        Edit::Insert(600, 1),
        Edit::Insert(1_000, 1),
    ];
    batch_of(alloc, &edits)
}

// How many edges a batch adds.
fn added<R: Threads + Wait>(
    crew: &Crew<'_, R, HoldingGate>,
    alloc: Global,
) -> Result<u64, ApplyError> {
    let batch = four_ranges(alloc)?;
    let table = Table::empty(alloc, 1_024)?;
    let (_, counts) = apply_batch(crew, alloc, &table, &batch)?;
    Ok(counts.added)
}

#[test]
fn of_a_batch(rt: HostRuntime) {
    for (count, inside) in CREWS {
        let gate = HoldingGate::until(inside);
        let crew = Crew {
            rt: &rt,
            workers: Workers::new(count).unwrap_or(Workers::one()),
            gate: &gate,
        };
        let told = added(&crew, rt.alloc());
        let Crew {
            rt: _,
            workers: _,
            gate: _,
        } = crew;
        assert_eq!(rt; told, Ok(4));
        assert_eq!(rt; seen(&gate), ALL_FOUR, "{count}");
    }
}

// How many edges a publication adds.
fn published<R: Threads + Wait>(
    rt: &R,
    alloc: Global,
    workers: Workers,
    gate: &HoldingGate,
) -> Result<Option<u64>, Fail> {
    let batch = four_ranges(alloc)?;
    let mut shop = Shop::open(rt, alloc, 1_024)?;
    shop.submit(rt, 0, batch);
    let told = shop.step_by(rt, workers, gate);
    shop.close(rt);
    Ok(told?.map(|receipt| receipt.added()))
}

#[test]
fn of_a_publication(rt: HostRuntime) -> Result<(), Fail> {
    for (count, inside) in CREWS {
        let gate = HoldingGate::until(inside);
        let workers = Workers::new(count).unwrap_or(Workers::one());
        let told = published(&rt, rt.alloc(), workers, &gate)?;
        assert_eq!(rt; told, Some(4));
        assert_eq!(rt; seen(&gate), ALL_FOUR, "{count}");
    }
    Ok(())
}

// The vertices of four pieces, 64 for each.
fn four_pieces(alloc: Global) -> Result<Vec<u32>, AllocError> {
    let mut frontier = Vec::new(alloc);
    for vertex in 0..256 {
        frontier.push(vertex)?;
    }
    Ok(frontier)
}

// How many edges are mapped over a frontier.
fn mapped<R: Threads + Wait>(
    crew: &Crew<'_, R, HoldingGate>,
    alloc: Global,
    pin: &Pin,
    program: &Verified,
    frontier: &[u32],
) -> Result<u64, MapError> {
    let request = MapRequest {
        program,
        argument: &[],
        frontier,
        reduction: Reduction::Sum,
    };
    let told = map_edges(crew, alloc, pin, &request)?;
    Ok(told.edges)
}

#[test]
fn of_a_map(rt: HostRuntime) -> Result<(), Fail> {
    let pin = pin_of(&rt, rt.alloc(), 256, &[Edit::Insert(200, 7)])?;
    let program = program_of(rt.alloc(), "target|16|61100400000000009500000000000000")?;
    let frontier = four_pieces(rt.alloc())?;
    for (count, inside) in CREWS {
        let gate = HoldingGate::until(inside);
        let crew = Crew {
            rt: &rt,
            workers: Workers::new(count).unwrap_or(Workers::one()),
            gate: &gate,
        };
        let told = mapped(&crew, rt.alloc(), &pin, &program, &frontier);
        let Crew {
            rt: _,
            workers: _,
            gate: _,
        } = crew;
        assert_eq!(rt; told, Ok(1));
        assert_eq!(rt; seen(&gate), ALL_FOUR, "{count}");
    }
    Ok(())
}
