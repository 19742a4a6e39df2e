//! A map over a long frontier, by the call that has a row for each of its vertices. The one with rows for sources is tried by
//! `test_script_rows`.
use crate::runs::program_of;
use crate::shop::pin_of;
use edge_map::{
    Crew, MapError, MapRequest, OpenGate, Pin, Reduction, Verified, Workers, map_edges,
};
use std::alloc::{AllocError, Global};
use std::sync::Wait;
use std::test::Fail;
use std::thread::Threads;
use store::Edit;

// How many vertices the graph has, all of which are in the frontier.
const VERTICES: u32 = 10_000;

// The frontier, and an edge from each vertex n of it to 7 n + 3 modulo 10,000: each vertex is a target once.
fn ring(alloc: Global) -> Result<(Vec<u32>, Vec<Edit>), AllocError> {
    let mut all = Vec::new(alloc);
    let mut edits = Vec::new(alloc);
    for vertex in 0..VERTICES {
        all.push(vertex)?;
        edits.push(Edit::Insert(vertex, (7 * vertex + 3) % VERTICES))?;
    }
    Ok((all, edits))
}

// How many edges a frontier has, their numbers together, and how many rows, by four workers.
fn mapped<R: Threads + Wait>(
    rt: &R,
    alloc: Global,
    pin: &Pin,
    program: &Verified,
    frontier: &[u32],
) -> Result<(u64, u64, usize), MapError> {
    let workers = Workers::new(4).unwrap_or(Workers::one());
    let crew = Crew {
        rt,
        workers,
        gate: &OpenGate,
    };
    let request = MapRequest {
        program,
        argument: &[],
        frontier,
        reduction: Reduction::Sum,
    };
    let told = map_edges(&crew, alloc, pin, &request);
    let Crew {
        rt: _,
        workers: _,
        gate: _,
    } = crew;
    let told = told?;
    Ok((told.edges, told.total, told.rows.len()))
}

// Each target is the number of its edge: 0 to 9,999.
#[test]
fn a_long_frontier(rt: HostRuntime) -> Result<(), Fail> {
    let (all, edits) = ring(rt.alloc())?;
    let pin = pin_of(&rt, rt.alloc(), VERTICES, &edits)?;
    let program = program_of(rt.alloc(), "target|16|61100400000000009500000000000000")?;
    let told = mapped(&rt, rt.alloc(), &pin, &program, &all);
    assert_eq!(rt; told, Ok((10_000, 49_995_000, 10_000)));
    Ok(())
}
