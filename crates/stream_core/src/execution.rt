//! One event after another.
ghost use Rattle.std.specs.Prelude.{◌≡◌, ◌≤◌, IfOk, OnErr};
ghost use Rattle.past_model.specs.declared.limits.TheConstants.{MOST_VERTICES};
ghost use Rattle.past_model.specs.Past.{graph_of};
ghost use Rattle.shard_table.specs.Table.{IsTable, parts_of};
ghost use Rattle.store_model.specs.Core.{opening_core};
ghost use Rattle.store_model.specs.Events.{Steps, Ran};

use crate::world::World;
use shards::Shard;
use std::alloc::{AllocError, Global};
use std::sync::Arc;
use store_model::{Event, Reply};

/// Does one event, and answers it. An event that cannot happen is `Refused` and changes nothing. After
/// an error, which comes if there is no memory for what the event makes, and after 2^64 - 1 publications, nothing is changed
/// either.
pub fn step(world: &mut World, event: Event) -> Result<Reply, AllocError>
    ensures ok { IfOk result (λ reply. Steps world.old event reply world.new) }
    ensures err { OnErr result (world.new ≡ world.old) }
{
    if !world.can(&event) {
        return Ok(Reply::Refused);
    }
    match event {
        Event::Submit { feed, batch } => {
            world.submit(feed, batch)?;
            Ok(Reply::Done)
        }
        Event::Take => {
            world.take()?;
            Ok(Reply::Done)
        }
        Event::Part { range } => {
            world.part(range)?;
            Ok(Reply::Done)
        }
        Event::Publish => {
            world.publish()?;
            Ok(Reply::Done)
        }
        Event::Rebase => {
            world.rebase()?;
            Ok(Reply::Done)
        }
        Event::Pin { reader, vertex } => {
            world.pin(reader, vertex)?;
            Ok(Reply::Done)
        }
        Event::Lend { reader } => world.lend(reader),
    }
}

/// A store of a graph of so many vertices, from 1 to 268,435,456, after these events, and what each was
/// answered. It fails where there is no memory for what an event makes.
pub fn run(
    alloc: Global,
    vertex_count: u32,
    events: &[Event],
) -> Result<(World, Vec<Reply>), AllocError>
    requires some { 1 ≤ vertex_count }
    requires most { vertex_count ≤ MOST_VERTICES }
    ensures { IfOk result (λ end. Ran (opening_core vertex_count) events.now end.1.items end.0) }
{
    let mut world = World::new(alloc, vertex_count)?;
    let mut replies = Vec::new(alloc);
    for event in events {
        let reply = step(&mut world, event.share()?)?;
        replies.push(reply)?;
    }
    Ok((world, replies))
}

/// The shards that were published last: exactly the graph of the log.
pub fn shards(world: &World) -> &[Arc<Shard>]
    ensures { IsTable (graph_of world.now.past) (parts_of result.now) }
{
    world.shards()
}
