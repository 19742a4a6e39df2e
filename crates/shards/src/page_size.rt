//! How many vertices the pages of a shard have.
ghost use Rattle.std.specs.Prelude.{◌≡◌, ◌/◌, ◌%◌, ◌^◌, ◌<◌, ◌≤◌, ◌↔◌, IsTrue};
ghost use Rattle.shards.specs.declared.pages.TheConstants.{PAGE_VERTICES};
ghost use Rattle.shards.specs.PageSizes.{Suits};

/// How many vertices each page of a shard has but the last: a power of two, so that a list is found without a division.
///
/// A page with an edit is copied whole, so the longer the lists are, the fewer a page has. Every page costs some memory and a
/// step to find it, so it has no fewer than that asks for.
#[derive(Clone, Copy)]
pub(crate) struct PageSize {
    power: u8,
    /// The number.
    pub(crate) vertices: u8,
    ghost short: { power ≤ 6 },
    ghost is: { vertices ≡ 2 ^ power },
    ghost some: { 0 < vertices },
    ghost most: { vertices ≤ PAGE_VERTICES },
}

impl PageSize {
    /// The size where no list has a word.
    pub(crate) fn greatest() -> PageSize
        ensures { result.vertices ≡ PAGE_VERTICES }
    {
        PageSize {
            power: 6,
            vertices: 64,
        }
    }

    /// The size for so many words of so many vertices, by which a page has some 4 to 8 KB.
    pub(crate) fn of(words: usize, vertices: usize) -> PageSize
        requires { 0 < vertices }
        ensures { Suits result.power (words / vertices) }
    {
        let each = words / vertices;
        let (power, vertices) = if each < 9 {
            (6, 64)
        } else if each < 40 {
            (5, 32)
        } else if each < 96 {
            (4, 16)
        } else if each < 256 {
            (3, 8)
        } else {
            (2, 4)
        };
        PageSize { power, vertices }
    }

    /// Whether pages of this size still do for so many words of so many vertices. Between the words for which one size is
    /// chosen and those at which it is left lies a third of a limit upwards and half of one downwards, so that no stream of edits
    /// changes it again and again.
    pub(crate) fn is_kept(self, words: usize, vertices: usize) -> bool
        requires { 0 < vertices }
        ensures { IsTrue result ↔ Suits self.power (words / vertices) }
    {
        let each = words / vertices;
        match self.power {
            6 => each < 12,
            5 => 6 <= each && each < 54,
            4 => 20 <= each && each < 128,
            3 => 48 <= each && each < 342,
            _ => 128 <= each,
        }
    }

    /// The number of the page in which a vertex's list stands.
    pub(crate) fn page_of(self, vertex: usize) -> usize
        ensures { result ≡ vertex / self.vertices }
    {
        vertex >> self.power
    }

    /// The place of that list in its page.
    pub(crate) fn place_of(self, vertex: usize) -> usize
        ensures { result ≡ vertex % self.vertices }
    {
        vertex & (usize::from(self.vertices) - 1)
    }
}
