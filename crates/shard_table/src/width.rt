//! How many shards the blocks of a table have.
ghost use Rattle.std.specs.Prelude.{◌≡◌, ◌*◌, ◌/◌, ◌%◌, ◌^◌, ◌<◌, ◌≤◌};
ghost use Rattle.past_model.specs.declared.limits.TheConstants.{MOST_RANGES};
ghost use Rattle.shard_table.specs.declared.width.TheConstants.{MOST_SHARDS};

/// How many shards a block has at least, if others follow it.
const LEAST_SHARDS: usize = 32;

/// How many shards a block has at most.
const MOST_SHARDS: usize = 1_024;

/// How many shards a full block of a table has: a power of two, so that a shard is found without a division.
#[derive(Clone, Copy)]
pub(crate) struct Width {
    power: u32,
    /// The number.
    pub(crate) shards: usize,
    ghost short: { power ≤ 10 },
    ghost is: { shards ≡ 2 ^ power },
    ghost some: { 0 < shards },
    ghost most: { shards ≤ MOST_SHARDS },
}

impl Width {
    /// The width of a table of so many ranges: the least, from `LEAST_SHARDS` on, by which it has no more blocks than a block
    /// has shards. So a table that is made of another copies as many owners of blocks as of shards.
    pub(crate) fn of(ranges: usize) -> Width
        requires { ranges ≤ MOST_RANGES }
        ensures least { LEAST_SHARDS ≤ result.shards }
        ensures enough { ranges ≤ result.shards * result.shards }
        ensures narrow { LEAST_SHARDS < result.shards → result.shards * result.shards < 4 * ranges }
    {
        let (power, shards) = if ranges <= 1_024 {
            (5, LEAST_SHARDS)
        } else if ranges <= 4_096 {
            (6, 64)
        } else if ranges <= 16_384 {
            (7, 128)
        } else if ranges <= 65_536 {
            (8, 256)
        } else if ranges <= 262_144 {
            (9, 512)
        } else {
            (10, MOST_SHARDS)
        };
        Width { power, shards }
    }

    /// The number of the block in which the shard of a range stands.
    pub(crate) fn block_of(self, range: usize) -> usize
        ensures { result ≡ range / self.shards }
    {
        range >> self.power
    }

    /// The place of that shard in its block.
    pub(crate) fn place_of(self, range: usize) -> usize
        ensures { result ≡ range % self.shards }
    {
        range & (self.shards - 1)
    }
}
