//! What a program may ask of its graph.
ghost use Rattle.std.specs.Prelude.{◌≡◌};
ghost use Rattle.bpf_model.specs.Helpers.{helper_of};

/// What a program may ask of the graph that it runs on. A program calls it by its number, with its
/// arguments in R1 and the registers after it, and finds the answer in R0.
#[derive(Clone, Copy, Debug, PartialEq, Eq)]
pub enum Helper {
    /// How many neighbours the vertex R1 has.
    Degree = 1,
    /// Whether there is an edge from the vertex R1 to the vertex R2: 1 or 0.
    HasEdge = 2,
    /// The neighbour of the vertex R1 at the place R2, from 0; 2^64 - 1 where there is none.
    Neighbour = 3,
    /// How many vertices the graph has.
    VertexCount = 4,
    /// The neighbours of the vertex R1 from the place R2 on, written as 32-bit words to the R4 bytes from
    /// address R3 on; R0 is how many they are.
    Gather = 5,
}

impl Helper {
    /// The helper of a number, if there is one.
    pub fn of(number: i32) -> Option<Helper>
        ensures { result ≡ helper_of number }
    {
        match number {
            1 => Some(Helper::Degree),
            2 => Some(Helper::HasEdge),
            3 => Some(Helper::Neighbour),
            4 => Some(Helper::VertexCount),
            5 => Some(Helper::Gather),
            _ => None,
        }
    }
}
