//! Calls of helpers: what a program asks of the graph that it runs on.
ghost use Rattle.std.specs.Prelude.{◌≡◌, ℕ, ◌/◌, ◌≤◌, ◌≤ℤ◌, pos, List, IsTrue, length};
ghost use Rattle.bpf_isa.specs.declared.instruction.Instruction.TheVariants.{CallHelper};
ghost use Rattle.bpf_isa.specs.declared.limits.TheConstants.{MOST_UNITS};
ghost use Rattle.bpf_image.specs.declared.limits.TheConstants.{MOST_RECORD_LENGTH};
ghost use Rattle.graph_model.specs.Views.{neighbour_words, neighbours_among, word_bytes};
ghost use Rattle.bpf_image.specs.declared.lengths.Lengths.{Lengths};
ghost use Rattle.bpf_model.specs.State.{with_value, without_values, lent};
ghost use Rattle.bpf_model.specs.Helpers.{is_room, with_answer, helper_effect, write_neighbours};
ghost use Rattle.bpf_model.specs.Step.{Goes, effect};
ghost use Rattle.bpf_machine.specs.Seen.{values_of, state_of, answer, Keeps};

use crate::machine::Machine;
use crate::memory::write_refusal;
use crate::stores::store_bytes;
use crate::turn::Turn;
use bpf_isa::Register;
use bpf_model::{Helper, MOST_GATHER_BYTES, TrapKind};
use graph_model::GraphView;

/// The answer where a vertex has no neighbour at a place. It is no vertex.
const NO_NEIGHBOUR: u64 = u64::MAX;

/// The registers after the call of a helper: R1 to R5 are unset.
fn registers_behind(registers: &[Option<u64>; 11], value: u64) -> [Option<u64>; 11]
    ensures { values_of result ≡ with_value (without_values (values_of registers.now) 1 5) 0 value }
{
    [
        Some(value),
        None,
        None,
        None,
        None,
        None,
        registers[6],
        registers[7],
        registers[8],
        registers[9],
        registers[10],
    ]
}

/// Goes on after the call of a helper that has answered.
fn go_on_with(machine: &mut Machine, value: u64) -> Turn
    requires { machine.old.pc ≤ℤ pos MOST_UNITS }
    ensures went { result ≡ Turn.Went }
    ensures step { (bytes table : List ℕ)
        → Goes (with_answer (state_of machine.old bytes table) value)
        ≡ answer result (state_of machine.new bytes table) }
{
    machine.registers = registers_behind(&machine.registers, value);
    machine.pc += 1;
    Turn::Went
}

/// How many neighbours a vertex has.
fn degree<G: GraphView>(machine: &mut Machine, graph: &G) -> Turn
    requires { machine.old.pc ≤ℤ pos MOST_UNITS }
    ensures { (lengths : Lengths) (bytes table : List ℕ)
        → helper_effect lengths (G.graph graph.now) Helper.Degree (state_of machine.old bytes table)
        ≡ answer result (state_of machine.new bytes table) }
{
    let Some(vertex) = machine.register(Register::R1) else {
        return Turn::Trapped(TrapKind::UnsetRegister);
    };
    go_on_with(machine, u64::from(graph.degree(vertex)))
}

/// Whether there is an edge between two vertices.
fn has_edge<G: GraphView>(machine: &mut Machine, graph: &G) -> Turn
    requires { machine.old.pc ≤ℤ pos MOST_UNITS }
    ensures { (lengths : Lengths) (bytes table : List ℕ)
        → helper_effect lengths (G.graph graph.now) Helper.HasEdge (state_of machine.old bytes table)
        ≡ answer result (state_of machine.new bytes table) }
{
    let Some(source) = machine.register(Register::R1) else {
        return Turn::Trapped(TrapKind::UnsetRegister);
    };
    let Some(target) = machine.register(Register::R2) else {
        return Turn::Trapped(TrapKind::UnsetRegister);
    };
    go_on_with(machine, u64::from(graph.has_edge(source, target)))
}

/// The neighbour of a vertex at a place.
fn neighbour<G: GraphView>(machine: &mut Machine, graph: &G) -> Turn
    requires { machine.old.pc ≤ℤ pos MOST_UNITS }
    ensures { (lengths : Lengths) (bytes table : List ℕ)
        → helper_effect lengths (G.graph graph.now) Helper.Neighbour (state_of machine.old bytes table)
        ≡ answer result (state_of machine.new bytes table) }
{
    let Some(vertex) = machine.register(Register::R1) else {
        return Turn::Trapped(TrapKind::UnsetRegister);
    };
    let Some(place) = machine.register(Register::R2) else {
        return Turn::Trapped(TrapKind::UnsetRegister);
    };
    let value = match graph.neighbour(vertex, place) {
        Some(target) => u64::from(target),
        None => NO_NEIGHBOUR,
    };
    go_on_with(machine, value)
}

/// What gather is asked for: the neighbours of a vertex from a place on, at so many bytes of memory.
#[derive(Drop)]
struct Request {
    vertex: u64,
    first: u64,
    address: u64,
    room: u64,
}

/// Whether gather may be lent so many bytes.
fn may_be_lent(room: u64) -> bool
    ensures { result ≡ is_room room }
{
    room % 4 == 0 && 4 <= room && room <= MOST_GATHER_BYTES as u64
}

/// Fills a slice of so many bytes with the neighbours that are asked for, and returns how many they are.
fn fill<G: GraphView>(graph: &G, request: &Request, words: &mut [u8]) -> u32
    requires room { IsTrue (is_room request.now.room) }
    requires length { length words.old ≡ request.now.room }
    ensures words { words.new
        ≡ word_bytes (neighbour_words (G.graph graph.now) request.now.vertex request.now.first (request.now.room / 4)) }
    ensures count { result
        ≡ neighbours_among (G.graph graph.now) request.now.vertex request.now.first (request.now.room / 4) }
{
    graph.gather(request.vertex, request.first, words)
}

/// Writes neighbours to memory, where all bytes are allowed, and goes on.
fn write<G: GraphView>(
    machine: &mut Machine,
    bytes: &mut [u8],
    table: &[u8],
    graph: &G,
    request: &Request,
) -> Turn
    requires pc { machine.old.pc ≤ℤ pos MOST_UNITS }
    requires record { length bytes.old ≤ MOST_RECORD_LENGTH }
    requires room { IsTrue (is_room request.now.room) }
    ensures step { write_neighbours (lent bytes.old table.now) (G.graph graph.now)
        (state_of machine.old bytes.old table.now)
        request.now.vertex request.now.first request.now.address request.now.room
        ≡ answer result (state_of machine.new bytes.new table.now) }
    ensures kept { Keeps result bytes.old bytes.new }
{
    let mut buffer = [0; MOST_GATHER_BYTES];
    let words = &mut buffer[..request.room as usize];
    let count = fill(graph, request, words);
    let frames = machine.live_frames();
    if !store_bytes(&mut machine.stack, frames, bytes, request.address, words) {
        return Turn::Trapped(write_refusal(table, request.address, request.room));
    }
    go_on_with(machine, u64::from(count))
}

/// The neighbours of a vertex from a place on, in memory.
fn gather<G: GraphView>(machine: &mut Machine, bytes: &mut [u8], table: &[u8], graph: &G) -> Turn
    requires pc { machine.old.pc ≤ℤ pos MOST_UNITS }
    requires record { length bytes.old ≤ MOST_RECORD_LENGTH }
    ensures step { helper_effect (lent bytes.old table.now) (G.graph graph.now) Helper.Gather
        (state_of machine.old bytes.old table.now)
        ≡ answer result (state_of machine.new bytes.new table.now) }
    ensures kept { Keeps result bytes.old bytes.new }
{
    let Some(vertex) = machine.register(Register::R1) else {
        return Turn::Trapped(TrapKind::UnsetRegister);
    };
    let Some(first) = machine.register(Register::R2) else {
        return Turn::Trapped(TrapKind::UnsetRegister);
    };
    let Some(address) = machine.register(Register::R3) else {
        return Turn::Trapped(TrapKind::UnsetRegister);
    };
    let Some(room) = machine.register(Register::R4) else {
        return Turn::Trapped(TrapKind::UnsetRegister);
    };
    if !may_be_lent(room) {
        return Turn::Trapped(TrapKind::RoomNotAllowed);
    }
    let request = Request {
        vertex,
        first,
        address,
        room,
    };
    write(machine, bytes, table, graph, &request)
}

/// A call of the helper that has this number, if one has it.
pub(crate) fn call_helper<G: GraphView>(
    machine: &mut Machine,
    bytes: &mut [u8],
    table: &[u8],
    graph: &G,
    number: i32,
) -> Turn
    requires pc { machine.old.pc ≤ℤ pos MOST_UNITS }
    requires record { length bytes.old ≤ MOST_RECORD_LENGTH }
    ensures step { effect (lent bytes.old table.now) (G.graph graph.now) (CallHelper number)
        (state_of machine.old bytes.old table.now)
        ≡ answer result (state_of machine.new bytes.new table.now) }
    ensures kept { Keeps result bytes.old bytes.new }
{
    match Helper::of(number) {
        None => Turn::Trapped(TrapKind::UnknownHelper),
        Some(Helper::Degree) => degree(machine, graph),
        Some(Helper::HasEdge) => has_edge(machine, graph),
        Some(Helper::Neighbour) => neighbour(machine, graph),
        Some(Helper::VertexCount) => go_on_with(machine, u64::from(graph.vertex_count())),
        Some(Helper::Gather) => gather(machine, bytes, table, graph),
    }
}
