//! A batch by two workers, a list of events, a program that is mapped over edges by two workers, and a list of edges.
use crate::stop::Stop;
use batch_apply::{ApplyError, apply_batch};
use bpf_image::Image;
use edge_map::{Crew, MapError, MapRequest, Pin, Reduction, Verified, list_edges, map_edges};
use past_model::{Batch, Edit};
use shard_table::{Table, shard_of};
use std::alloc::{AllocError, Global};
use std::sync::Wait;
use std::thread::Threads;
use store::{Ends, OpenGate, Store, Workers};
use stream_core::{Event, Reply, run, shards};
use verifier::verify;
use workers::HoldingGate;

// How many vertices the graphs have: three ranges.
const VERTICES: u32 = 600;

// How many of them are mapped: two pieces.
const MAPPED: u32 = 128;

// What is left of these edits are the edges 0-1, 3-2 and 300-7, of two ranges.
fn batch_of(alloc: Global) -> Result<Batch, AllocError> {
    let edits = [
        Edit::Insert(0, 1),
        Edit::Insert(300, 7),
        Edit::Insert(3, 5),
        Edit::Insert(3, 2),
        Edit::Remove(3, 5),
    ];
    Batch::new(alloc, Vec::from_slice(alloc, &edits)?)
}

fn two_workers() -> Workers {
    Workers::new(2).unwrap_or(Workers::one())
}

/// The batch by two workers.
pub(crate) fn apply<R: Threads + Wait>(rt: &R, alloc: Global) -> Result<(), Stop> {
    let Ok(table) = Table::empty(alloc, VERTICES) else {
        return Err(Stop::NotBegun);
    };
    let Ok(batch) = batch_of(alloc) else {
        return Err(Stop::NotBegun);
    };
    // A gate that holds nobody and lets a worker begin for each range.
    let gate = HoldingGate::until(0);
    let crew = Crew {
        rt,
        workers: two_workers(),
        gate: &gate,
    };
    let applied = apply_batch(&crew, alloc, &table, &batch);
    let Crew {
        rt: _,
        workers: _,
        gate: _,
    } = crew;
    match applied {
        Ok((_, counts)) if counts.added == 3 && counts.removed == 0 => Ok(()),
        Err(ApplyError::OutOfMemory | ApplyError::WorkerRefused) => Err(Stop::NotApplied),
        _ => Err(Stop::Wrong),
    }
}

// The batch is submitted, taken, done and published, the store is rebased, and a reader's run is lent the neighbours of vertex 3.
fn events_of(alloc: Global) -> Result<Vec<Event>, AllocError> {
    Ok(vec![in alloc;
        Event::Submit {
            feed: 1,
            batch: batch_of(alloc)?
        },
        Event::Take,
        Event::Part { range: 0 },
        Event::Part { range: 1 },
        Event::Publish,
        Event::Rebase,
        Event::Pin {
            reader: 2,
            vertex: 3
        },
        Event::Lend { reader: 2 },
        Event::Lend { reader: 2 },
    ]?)
}

/// The events, one after another.
pub(crate) fn run_events(alloc: Global) -> Result<(), Stop> {
    let Ok(events) = events_of(alloc) else {
        return Err(Stop::NotBegun);
    };
    let Ok((world, replies)) = run(alloc, VERTICES, &events) else {
        return Err(Stop::NotRun);
    };
    let degree = cursors::degree(shard_of(shards(&world), 300), 300);
    let is_right = degree == 1 && replies.len() == 9 && replies[8] == Reply::End;
    if is_right { Ok(()) } else { Err(Stop::Wrong) }
}

// The program that exits with an edge's target.
fn program_of(alloc: Global) -> Option<Verified> {
    let code = [0x61, 0x10, 4, 0, 0, 0, 0, 0, 0x95, 0, 0, 0, 0, 0, 0, 0];
    let code = code.to_vec(alloc).ok()?;
    verify(alloc, Image::new(16, code).ok()?).ok()
}

fn vertices_below(alloc: Global, count: u32) -> Result<Vec<u32>, AllocError> {
    let mut all = Vec::new(alloc);
    for vertex in 0..count {
        all.push(vertex)?;
    }
    Ok(all)
}

// The program over the edges of the first vertices.
fn map<R: Threads + Wait>(
    rt: &R,
    alloc: Global,
    pin: &Pin,
    program: &Verified,
) -> Result<(), Stop> {
    let Ok(frontier) = vertices_below(alloc, MAPPED) else {
        return Err(Stop::NotBegun);
    };
    let crew = Crew {
        rt,
        workers: two_workers(),
        gate: &OpenGate,
    };
    let request = MapRequest {
        program,
        argument: &[],
        frontier: &frontier,
        reduction: Reduction::Sum,
    };
    let mapped = map_edges(&crew, alloc, pin, &request);
    let Crew {
        rt: _,
        workers: _,
        gate: _,
    } = crew;
    match mapped {
        Ok(out) if out.edges == 2 && out.total == 3 && out.rows.len() == MAPPED as usize => Ok(()),
        Err(MapError::OutOfMemory | MapError::WorkerRefused) => Err(Stop::NotMapped),
        _ => Err(Stop::Wrong),
    }
}

// All edges, in one block. After a refusal the list is as it was, so that the block comes the second time.
fn list(alloc: Global, pin: &Pin, program: &Verified) -> Result<(), Stop> {
    let Ok(mut edges) = list_edges(pin, program, &[]) else {
        return Err(Stop::Wrong);
    };
    let mut block = Vec::new(alloc);
    let stop = match edges.next_block(alloc, &mut block) {
        Ok(()) => Ok(()),
        Err(AllocError) => {
            if edges.next_block(alloc, &mut block).is_err() {
                return Err(Stop::Wrong);
            }
            Err(Stop::NotListed)
        }
    };
    if block.len() == 3 && block[2].number == 7 {
        stop
    } else {
        Err(Stop::Wrong)
    }
}

/// Lists and maps the edges of a store's first version.
pub(crate) fn list_and_map<R: Threads + Wait>(rt: &R, alloc: Global) -> Result<(), Stop> {
    let (Ok(batch), Some(program)) = (batch_of(alloc), program_of(alloc)) else {
        return Err(Stop::NotBegun);
    };
    let Ok(ends) = Store::new(VERTICES, rt, alloc) else {
        return Err(Stop::NotBegun);
    };
    let Ends {
        mut publisher,
        mut feeds,
        mut reader,
    } = ends;
    let is_submitted = feeds[0].submit(batch, rt).is_ok();
    let is_published = matches!(publisher.step(rt, Workers::one(), &OpenGate), Ok(Some(_)));
    let told = match reader.pin() {
        Ok(pin) if is_submitted && is_published => {
            match list(alloc, &pin, &program) {
                Ok(()) => map(rt, alloc, &pin, &program),
                Err(stop) => Err(stop),
            }
        }
        _ => Err(Stop::NotBegun),
    };
    let _finished = publisher.finish(feeds, rt);
    told
}
