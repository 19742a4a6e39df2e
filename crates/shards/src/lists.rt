//! The lists of a range's vertices, each in its home.
ghost use Rattle.std.specs.Prelude.{◌≡◌, ◌<◌, ◌≤◌, [], length, replicate, slice_index_or, IfOk, IfSome};
ghost use Rattle.shards.specs.declared.pages.TheConstants.{PAGE_VERTICES};
ghost use Rattle.past_model.specs.declared.home.Home.TheVariants.{Block, Gapped, Tree};
ghost use Rattle.past_model.specs.Homes.{IsHomeOf};
ghost use Rattle.word_sets.specs.Words.{IsSet, has_word};
ghost use Rattle.shards.specs.declared.lists.Place.TheVariants.{Nowhere, InShort, InBlock, InArray, InTree};
ghost use Rattle.shards.specs.declared.short_blocks.TheConstants.{SHORT_PLACES};
ghost use Rattle.vertex_block.specs.declared.block.TheConstants.{PLACES};
ghost use Rattle.shards.specs.Lists.{AreKept, AreSame, IsThere, IsPushed, list_at, rows_of, homes_of, home_of};
ghost use Rattle.shards.specs.Lent.{IsLentAt};
ghost use Rattle.word_sets.specs.declared.places.TheConstants.{WORD_LIMIT};

use crate::pages::PAGE_VERTICES;
use crate::short_blocks::{SHORT_PLACES, ShortBlocks};
use arrayvec::ArrayVec;
use gapped_array::GappedArray;
use neighbour_btree::NeighbourTree;
use past_model::Home;
use std::alloc::{AllocError, Global};
use std::mem;
use vertex_block::VertexBlock;
use word_sets::place;

/// Where a vertex's list stands.
#[derive(Clone, Copy, Default)]
pub(crate) enum Place {
    /// Nowhere: its home is a block, and it is empty.
    #[default]
    Nowhere,
    /// In the short block of this number.
    InShort(u8),
    /// In the block of this number.
    InBlock(u8),
    /// In the array, at the vertex of this number.
    InArray(u8),
    /// In the tree of this number.
    InTree(u8),
}

/// The lists of vertices, in their order. None is there twice.
#[derive(Drop)]
pub(crate) struct Lists {
    /// Where each vertex's list stands.
    pub places: ArrayVec<Place, PAGE_VERTICES>,
    /// The blocks of lists of few words.
    pub shorts: ShortBlocks,
    /// The blocks of the other lists at home in theirs.
    pub blocks: Vec<VertexBlock>,
    /// The array, in which each vertex has a list.
    pub array: GappedArray,
    /// The trees.
    pub trees: Vec<NeighbourTree>,
}

// The words from a place on.
fn rest_from(words: &[u32], place: u32) -> &[u32]
    ensures { IsLentAt words.now place result.now }
{
    match words.get(place as usize..) {
        None => &[],
        Some(rest) => rest,
    }
}

impl Lists {
    /// No list. It takes no memory.
    pub(crate) fn new(alloc: Global) -> Lists
        ensures kept { AreKept result }
        ensures rows { rows_of result ≡ [] }
        ensures homes { homes_of result ≡ [] }
    {
        Lists {
            places: ArrayVec::new(),
            shorts: ShortBlocks::new(alloc),
            blocks: Vec::new(alloc),
            array: GappedArray::empty(alloc),
            trees: Vec::new(alloc),
        }
    }

    /// Lists of so many vertices, all of them empty. They take no memory.
    pub(crate) fn empty(alloc: Global, vertices: usize) -> Lists
        requires few { vertices ≤ PAGE_VERTICES }
        ensures kept { AreKept result }
        ensures rows { rows_of result ≡ replicate vertices [] }
        ensures homes { homes_of result ≡ replicate vertices Block }
    {
        let mut lists = Lists::new(alloc);
        for _ in 0..vertices {
            lists.push_nowhere();
        }
        lists
    }

    /// Takes all lists away, and keeps their room.
    pub(crate) fn clear(&mut self)
        ensures kept { AreKept self.new }
        ensures rows { rows_of self.new ≡ [] }
        ensures homes { homes_of self.new ≡ [] }
    {
        self.places.clear();
        self.shorts.clear();
        self.blocks.clear();
        self.array.clear();
        self.trees.clear();
    }

    /// Where a vertex's list stands.
    pub(crate) fn place(&self, vertex: usize) -> Place
        requires kept { AreKept self.now }
        requires inside { vertex < length (rows_of self.now) }
        ensures list { slice_index_or (rows_of self.now) vertex [] ≡ list_at self.now result }
        ensures home { slice_index_or (homes_of self.now) vertex Block ≡ home_of result }
        ensures there { IsThere self.now result }
        ensures own { slice_index_or self.now.places.items vertex Nowhere ≡ result }
    {
        self.places[vertex]
    }

    // A short block's words.
    fn short(&self, number: u8) -> &[u32]
        requires kept { AreKept self.now }
        requires inside { number < length self.now.shorts.ends.items }
        ensures words { result.now ≡ list_at self.now (InShort number) }
        ensures set { IsSet result.now }
        ensures short { length result.now ≤ SHORT_PLACES }
    {
        self.shorts.words(usize::from(number))
    }

    // A block's words.
    fn block(&self, number: u8) -> &[u32]
        requires { number < length self.now.blocks.items }
        ensures words { result.now ≡ list_at self.now (InBlock number) }
        ensures set { IsSet result.now }
        ensures fits { length result.now ≤ PLACES }
    {
        self.blocks[usize::from(number)].as_slice()
    }

    // A run's words in the array.
    fn run(&self, number: u8) -> &[u32]
        requires { IsThere self.now (InArray number) }
        ensures words { result.now ≡ list_at self.now (InArray number) }
        ensures set { IsSet result.now }
    {
        self.array.words(number)
    }

    // A tree.
    fn tree(&self, number: u8) -> &NeighbourTree
        requires { number < length self.now.trees.items }
        ensures { result.now ≡ list_at self.now (InTree number) }
    {
        &self.trees[usize::from(number)]
    }

    /// The tree in which a vertex's list stands, if that is its home.
    pub(crate) fn tree_of(&self, vertex: usize) -> Option<&NeighbourTree>
        requires kept { AreKept self.now }
        requires inside { vertex < length (rows_of self.now) }
        ensures list { IfSome result (λ tree. tree.now ≡ slice_index_or (rows_of self.now) vertex []) }
        ensures home { IfSome result (λ _. slice_index_or (homes_of self.now) vertex Block ≡ Tree) }
    {
        match self.place(vertex) {
            Place::Nowhere => None,
            Place::InShort(_) => None,
            Place::InBlock(_) => None,
            Place::InArray(_) => None,
            Place::InTree(number) => Some(self.tree(number)),
        }
    }

    /// A vertex's words, if its list is at home in its block.
    pub(crate) fn words_in_block(&self, vertex: usize) -> Option<&[u32]>
        requires kept { AreKept self.now }
        requires inside { vertex < length (rows_of self.now) }
        ensures words { IfSome result (λ words. words.now ≡ slice_index_or (rows_of self.now) vertex []) }
        ensures few { IfSome result (λ words. length words.now ≤ PLACES) }
    {
        match self.place(vertex) {
            Place::Nowhere => Some(&[]),
            Place::InShort(number) => Some(self.short(number)),
            Place::InBlock(number) => Some(self.block(number)),
            Place::InArray(_) => None,
            Place::InTree(_) => None,
        }
    }

    /// The home of a vertex's list.
    pub(crate) fn home(&self, vertex: usize) -> Home
        requires kept { AreKept self.now }
        requires inside { vertex < length (rows_of self.now) }
        ensures { result ≡ slice_index_or (homes_of self.now) vertex Block }
    {
        match self.place(vertex) {
            Place::Nowhere => Home::Block,
            Place::InShort(_) => Home::Block,
            Place::InBlock(_) => Home::Block,
            Place::InArray(_) => Home::Gapped,
            Place::InTree(_) => Home::Tree,
        }
    }

    /// How many words a vertex's list has.
    // A program may ask it for each edge, where a call of its own counts.
    #[inline(always)]
    pub(crate) fn degree(&self, vertex: usize) -> u32
        requires kept { AreKept self.now }
        requires inside { vertex < length (rows_of self.now) }
        ensures value { result ≡ length (slice_index_or (rows_of self.now) vertex []) }
        ensures small { result ≤ WORD_LIMIT }
    {
        match self.place(vertex) {
            Place::Nowhere => 0,
            Place::InShort(number) => self.short(number).len() as u32,
            Place::InBlock(number) => self.block(number).len() as u32,
            Place::InArray(number) => self.run(number).len() as u32,
            Place::InTree(number) => self.tree(number).len(),
        }
    }

    /// Whether a vertex's list has a word.
    pub(crate) fn contains(&self, vertex: usize, word: u32) -> bool
        requires kept { AreKept self.now }
        requires inside { vertex < length (rows_of self.now) }
        requires word { word < WORD_LIMIT }
        ensures { result ≡ has_word word (slice_index_or (rows_of self.now) vertex []) }
    {
        match self.place(vertex) {
            Place::Nowhere => false,
            Place::InShort(number) => place(self.short(number), word).is_ok(),
            Place::InBlock(number) => place(self.block(number), word).is_ok(),
            Place::InArray(number) => place(self.run(number), word).is_ok(),
            Place::InTree(number) => self.tree(number).contains(word),
        }
    }

    /// How many vertices have a list.
    pub(crate) fn count(&self) -> usize
        ensures rows { result ≡ length (rows_of self.now) }
        ensures homes { result ≡ length (homes_of self.now) }
        ensures few { result ≤ PAGE_VERTICES }
    {
        self.places.len()
    }

    /// Puts a vertex's words into a list in place of what it held.
    pub(crate) fn read(&self, vertex: usize, words: &mut Vec<u32>) -> Result<(), AllocError>
        requires kept { AreKept self.now }
        requires inside { vertex < length (rows_of self.now) }
        ensures { IfOk result (λ _. words.new.items ≡ slice_index_or (rows_of self.now) vertex []) }
    {
        words.clear();
        let degree = self.degree(vertex) as usize;
        while words.len() < degree {
            words.extend_from_slice(self.lent_at(vertex, words.len() as u32))?;
        }
        Ok(())
    }

    /// A vertex's words from a place on, as many as lie side by side in its home.
    // As a call it takes 36 instructions more, and a run makes one for each vertex.
    #[inline(always)]
    pub(crate) fn lent_at(&self, vertex: usize, place: u32) -> &[u32]
        requires kept { AreKept self.now }
        requires inside { vertex < length (rows_of self.now) }
        ensures { IsLentAt (slice_index_or (rows_of self.now) vertex []) place result.now }
    {
        match self.place(vertex) {
            Place::Nowhere => &[],
            Place::InShort(number) => rest_from(self.short(number), place),
            Place::InBlock(number) => rest_from(self.block(number), place),
            Place::InArray(number) => rest_from(self.run(number), place),
            Place::InTree(number) => {
                let tree = self.tree(number);
                if place < tree.len() {
                    tree.slice_at(place)
                } else {
                    &[]
                }
            }
        }
    }

    // A list of no word in its block. It takes no block.
    fn push_nowhere(&mut self)
        requires kept { AreKept self.old }
        requires room { length (rows_of self.old) < PAGE_VERTICES }
        ensures pushed { IsPushed self.old self.new [] Block }
        ensures blocks { self.new.blocks.items ≡ self.old.blocks.items }
    {
        self.places.push(Place::Nowhere);
    }

    // A list in a short block.
    fn push_short(&mut self, words: &[u32]) -> Result<(), AllocError>
        requires kept { AreKept self.old }
        requires room { length (rows_of self.old) < PAGE_VERTICES }
        requires set { IsSet words.now }
        requires short { length words.now ≤ SHORT_PLACES }
        ensures pushed { IfOk result (λ _. IsPushed self.old self.new words.now Block) }
        ensures blocks { self.new.blocks.items ≡ self.old.blocks.items }
    {
        let number = self.shorts.ends.len() as u8;
        self.shorts.push(words)?;
        self.places.push(Place::InShort(number));
        Ok(())
    }

    // A list in a block.
    fn push_block(&mut self, block: VertexBlock) -> Result<(), AllocError>
        requires kept { AreKept self.old }
        requires room { length (rows_of self.old) < PAGE_VERTICES }
        ensures { IfOk result (λ _. IsPushed self.old self.new block Block) }
    {
        let number = self.blocks.len() as u8;
        self.blocks.push(block)?;
        self.places.push(Place::InBlock(number));
        Ok(())
    }

    // A list in the array.
    fn push_run(&mut self, words: &[u32]) -> Result<(), AllocError>
        requires kept { AreKept self.old }
        requires room { length (rows_of self.old) < PAGE_VERTICES }
        requires set { IsSet words.now }
        ensures pushed { IfOk result (λ _. IsPushed self.old self.new words.now Gapped) }
        ensures blocks { self.new.blocks.items ≡ self.old.blocks.items }
    {
        let number = self.array.vertex_count() as u8;
        self.array.push(words)?;
        self.places.push(Place::InArray(number));
        Ok(())
    }

    // A list in a tree.
    fn push_tree(&mut self, tree: NeighbourTree) -> Result<(), AllocError>
        requires kept { AreKept self.old }
        requires room { length (rows_of self.old) < PAGE_VERTICES }
        ensures pushed { IfOk result (λ _. IsPushed self.old self.new tree Tree) }
        ensures blocks { self.new.blocks.items ≡ self.old.blocks.items }
    {
        let number = self.trees.len() as u8;
        self.trees.push(tree)?;
        self.places.push(Place::InTree(number));
        Ok(())
    }

    /// Puts a list after the others, in this home. A block of its own is for more words than a short one has places for.
    pub(crate) fn push(
        &mut self,
        alloc: Global,
        home: Home,
        words: &[u32],
    ) -> Result<(), AllocError>
        requires kept { AreKept self.old }
        requires room { length (rows_of self.old) < PAGE_VERTICES }
        requires set { IsSet words.now }
        requires fits { IsHomeOf home (length words.now) }
        ensures pushed { IfOk result (λ _. IsPushed self.old self.new words.now home) }
        ensures short { length words.now ≤ SHORT_PLACES → self.new.blocks.items ≡ self.old.blocks.items }
    {
        match home {
            Home::Block => {
                if words.is_empty() {
                    self.push_nowhere();
                    return Ok(());
                }
                if words.len() <= SHORT_PLACES {
                    return self.push_short(words);
                }
                self.push_block(VertexBlock::of(words))
            }
            Home::Gapped => self.push_run(words),
            Home::Tree => self.push_tree(NeighbourTree::of(alloc, words)?),
        }
    }

    // Puts the words of a tree after the others, copied by way of a list into another home.
    fn push_words_of(
        &mut self,
        alloc: Global,
        home: Home,
        tree: &NeighbourTree,
        words: &mut Vec<u32>,
    ) -> Result<(), AllocError>
        requires kept { AreKept self.old }
        requires room { length (rows_of self.old) < PAGE_VERTICES }
        requires fits { IsHomeOf home (length tree.now) }
        ensures { IfOk result (λ _. IsPushed self.old self.new tree.now home) }
    {
        words.clear();
        let degree = tree.len() as usize;
        while words.len() < degree {
            words.extend_from_slice(tree.slice_at(words.len() as u32))?;
        }
        self.push(alloc, home, words)
    }

    /// Puts the words of a tree after the others, in this home: as this very tree, or in a home that is made of them.
    /// `words` is lent for that.
    pub(crate) fn push_moved(
        &mut self,
        alloc: Global,
        home: Home,
        tree: NeighbourTree,
        words: &mut Vec<u32>,
    ) -> Result<(), AllocError>
        requires kept { AreKept self.old }
        requires room { length (rows_of self.old) < PAGE_VERTICES }
        requires fits { IsHomeOf home (length tree) }
        ensures { IfOk result (λ _. IsPushed self.old self.new tree home) }
    {
        match home {
            Home::Tree => self.push_tree(tree),
            Home::Block => self.push_words_of(alloc, home, &tree, words),
            Home::Gapped => self.push_words_of(alloc, home, &tree, words),
        }
    }

    /// Puts a list of others after these, in its home. A block and a run are copied as memory, a tree is
    /// shared.
    pub(crate) fn push_kept(&mut self, old: &Lists, vertex: usize) -> Result<(), AllocError>
        requires kept { AreKept self.old }
        requires room { length (rows_of self.old) < PAGE_VERTICES }
        requires others { AreKept old.now }
        requires inside { vertex < length (rows_of old.now) }
        ensures { IfOk result (λ _. IsPushed self.old self.new (slice_index_or (rows_of old.now) vertex [])
            (slice_index_or (homes_of old.now) vertex Block)) }
    {
        match old.place(vertex) {
            Place::Nowhere => {
                self.push_nowhere();
                Ok(())
            }
            Place::InShort(number) => self.push_short(old.short(number)),
            Place::InBlock(number) => self.push_block(old.blocks[usize::from(number)]),
            Place::InArray(number) => self.push_run(old.run(number)),
            Place::InTree(number) => self.push_tree(old.tree(number).share()?),
        }
    }

    /// The same lists in no more room than they need. These keep theirs, and are to be cleared.
    pub(crate) fn taken(&mut self, alloc: Global) -> Result<Lists, AllocError>
        requires { AreKept self.old }
        ensures { IfOk result (λ lists. AreSame self.old lists) }
    {
        let places = mem::replace(&mut self.places, ArrayVec::new());
        let shorts = self.shorts.taken(alloc)?;
        let blocks = Vec::from_slice(alloc, &self.blocks)?;
        let array = self.array.copy(alloc)?;
        let trees = mem::replace(&mut self.trees, Vec::new(alloc));
        Ok(Lists {
            places,
            shorts,
            blocks,
            array,
            trees,
        })
    }
}
