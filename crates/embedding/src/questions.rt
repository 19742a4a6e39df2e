//! What is asked of a version.
ghost use Rattle.std.specs.Prelude.{◌≡◌, Some, None, if◌then◌else◌};
ghost use Rattle.graph_model.specs.Graph.{degree};
ghost use Rattle.graph_model.specs.Views.{is_edge};
ghost use Rattle.past_model.specs.Past.{graph_of};
ghost use Rattle.embedding.specs.declared.statuses.TheConstants.{DONE};
ghost use Rattle.embedding.specs.Holding.{OnVersion, HoldsVersion};
ghost use Rattle.embedding.specs.Batches.{IsHandedOut};
ghost use Rattle.embedding.specs.Questions.{info_of, answer_of, IsNeighbour};

use crate::handle::{Handle, hand_out};
use crate::held::Held;
use crate::statuses::{DONE, NO_MEMORY, NO_NEIGHBOUR, OTHER_KIND};
use std::alloc::Global;
use std::sync::Arc;

/// What a version is.
#[repr(C)]
#[derive(Clone, Copy, Debug, PartialEq, Eq)]
pub struct Info {
    /// How many batches of its epoch were applied before it and with it.
    pub number: u64,
    /// How many edges it has.
    pub edges: u64,
    /// How many epochs ended before it.
    pub epoch: u64,
    /// How many vertices it has.
    pub vertices: u32,
}

/// Writes another handle of the version that a handle holds.
pub fn share_version_held(alloc: Global, held: &Held, out: &mut Handle) -> u32
    ensures { OnVersion (Some held.now) result (out.new.held ≡ out.old.held)
        (λ p. IsHandedOut result (HoldsVersion out.new.held p) (out.new.held ≡ out.old.held)) }
{
    match held {
        Held::Version(version) => match Arc::try_clone(version) {
            Ok(version) => hand_out(alloc, Held::Version(version), out),
            Err(_) => NO_MEMORY,
        },
        Held::Store(_) => OTHER_KIND,
        Held::Program(_) => OTHER_KIND,
    }
}

/// Writes what the version is.
pub fn info_held(held: &Held, info: &mut Info) -> u32
    ensures { OnVersion (Some held.now) result (info.new ≡ info.old)
        (λ p. (result ≡ DONE) × (info.new ≡ info_of p)) }
{
    match held {
        Held::Version(version) => {
            *info = Info {
                number: version.number(),
                edges: version.edge_count(),
                epoch: version.epoch(),
                vertices: version.vertex_count(),
            };
            DONE
        }
        Held::Store(_) => OTHER_KIND,
        Held::Program(_) => OTHER_KIND,
    }
}

/// Writes how many neighbours a vertex has. A vertex outside has none.
pub fn degree_held(held: &Held, vertex: u32, count: &mut u32) -> u32
    ensures { OnVersion (Some held.now) result (count.new ≡ count.old)
        (λ p. (result ≡ DONE) × (count.new ≡ degree (graph_of p) vertex)) }
{
    match held {
        Held::Version(version) => {
            *count = version.degree(u64::from(vertex));
            DONE
        }
        Held::Store(_) => OTHER_KIND,
        Held::Program(_) => OTHER_KIND,
    }
}

/// Writes 1 where there is an edge from a vertex to another, and else 0.
pub fn has_edge_held(held: &Held, source: u32, target: u32, answer: &mut u32) -> u32
    ensures { OnVersion (Some held.now) result (answer.new ≡ answer.old)
        (λ p. (result ≡ DONE) × (answer.new ≡ answer_of (is_edge (graph_of p) source target))) }
{
    match held {
        Held::Version(version) => {
            *answer = if version.has_edge(u64::from(source), u64::from(target)) {
                1
            } else {
                0
            };
            DONE
        }
        Held::Store(_) => OTHER_KIND,
        Held::Program(_) => OTHER_KIND,
    }
}

/// Writes the neighbour at a place of a vertex's neighbours, from 0. `NO_NEIGHBOUR`, and nothing is written, exactly past
/// their end.
pub fn neighbour_held(held: &Held, vertex: u32, place: u32, neighbour: &mut u32) -> u32
    ensures { OnVersion (Some held.now) result (neighbour.new ≡ neighbour.old)
        (λ p. IsNeighbour (graph_of p) vertex place result neighbour.old neighbour.new) }
{
    match held {
        Held::Version(version) => {
            match version.neighbour(u64::from(vertex), u64::from(place)) {
                Some(target) => {
                    *neighbour = target;
                    DONE
                }
                None => NO_NEIGHBOUR,
            }
        }
        Held::Store(_) => OTHER_KIND,
        Held::Program(_) => OTHER_KIND,
    }
}
