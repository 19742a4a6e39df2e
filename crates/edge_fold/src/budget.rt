//! How much work a call may do.
ghost use Rattle.std.specs.Prelude.{◌≡◌, ◌+◌, ◌-◌, ◌*◌, ◌<◌, ◌≤◌};
ghost use Rattle.past_model.specs.declared.limits.TheConstants.{MOST_VERTICES};
ghost use Rattle.verifier.specs.Walks.{longest};

use verifier::Verified;

/// What an edge costs beside its run: its record, and its part in the reduction.
pub const EDGE_COST: u64 = 4;

/// What a vertex of a frontier costs beside its edges.
pub const VERTEX_COST: u64 = 16;

/// Takes from a budget what was done.
#[inline(always)]
pub(crate) fn pay(budget: &mut u64, cost: u64)
    ensures { budget.new ≡ budget.old - cost }
{
    *budget = budget.saturating_sub(cost);
}

/// The most that so many edges cost.
#[inline(always)]
fn most_for(program: &Verified, count: usize) -> u64
    requires { count ≤ MOST_VERTICES }
    ensures { result ≡ (longest program.now + EDGE_COST) * count }
{
    (u64::from(program.bound()) + EDGE_COST) * count as u64
}

/// What so many edges of a block cost: for each the program's actions, or its bound if that is less, and the cost beside.
#[inline(always)]
pub(crate) fn cost_in_block(program: &Verified, count: usize) -> u64
    requires { count ≤ MOST_VERTICES }
    ensures most { result ≤ (longest program.now + EDGE_COST) * count }
    ensures least { EDGE_COST * count ≤ result }
{
    cost_alone(
        program,
        count,
        (program.actions().len() as u64).saturating_mul(count as u64),
    )
}

/// What so many edges cost whose runs passed over so many units together.
#[inline(always)]
pub(crate) fn cost_alone(program: &Verified, count: usize, passed: u64) -> u64
    requires { count ≤ MOST_VERTICES }
    ensures most { result ≤ (longest program.now + EDGE_COST) * count }
    ensures least { EDGE_COST * count ≤ result }
{
    let beside = EDGE_COST * count as u64;
    passed.saturating_add(beside).min(most_for(program, count))
}

/// How many of some edges surely cost no more than what is left; one at least.
#[inline(always)]
pub(crate) fn edges_within(left: u64, program: &Verified, edges: usize) -> usize
    requires { 0 < edges }
    ensures some { 0 < result }
    ensures few { result ≤ edges }
{
    let dearest = u64::from(program.bound()) + EDGE_COST;
    if dearest.saturating_mul(edges as u64) <= left {
        return edges;
    }
    ((left / dearest) as usize).min(edges).max(1)
}
