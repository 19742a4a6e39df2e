//! The array and its calls.
ghost use Rattle.std.specs.Prelude.{◌≡◌, ◌<◌, ◌≤◌, ◌+◌, ◌*◌, ◌↔◌, ◌++◌, ◌∷◌, ◌⊎◌, [], length, not, replicate, None, Some, IsTrue, IsNone, IfOk, OnOk, OnErr, slice_index_or, slice_set};
ghost use Rattle.word_sets.specs.Words.{IsSet, has_word, with_word, without_word};
ghost use Rattle.gapped_array.specs.Table.{IsOpen, list_at};

use crate::cells::{append, put_word, take_word, with_room, words_of};
use crate::packing::{pack, surplus};
use crate::run::{Run, SEGMENT, VERTICES};
use std::alloc::{AllocError, Global};
use std::marker::Model;
use word_sets::{WORD_LIMIT, place};

/// For each of at most 256 vertices a set of words, or none. Clauses see it as the list of these, in the vertices'
/// order; a set is the ascending list of its words.
pub struct GappedArray {
    cells: Vec<u32>,
    segments: u32,
    runs: Vec<Option<Run>>,
}

impl Drop for GappedArray {
    // Written out, so that crates above prove a call here, and not the drop of each part.
    fn drop(self) {
        let GappedArray {
            cells: _cells,
            segments: _segments,
            runs: _runs,
        } = self;
    }
}

impl Model for GappedArray {
    ghost use Rattle.std.specs.Prelude.{List, ℕ, Option};
    ghost use Rattle.gapped_array.specs.Runs.{IsArray, lists_in};

    ghost Value = { List (Option (List ℕ)) };

    ghost view = { λ a. lists_in a.cells.items a.runs.items };

    ghost invariant = { λ a. IsArray a.cells.items a.segments a.runs.items };
}

impl GappedArray {
    /// The array of no vertex. It takes no memory.
    pub fn empty(alloc: Global) -> GappedArray
        ensures { result ≡ [] }
    {
        GappedArray {
            cells: Vec::new(alloc),
            segments: 0,
            runs: Vec::new(alloc),
        }
    }

    /// The array of 256 vertices, of which none has a list.
    pub fn new(alloc: Global) -> Result<GappedArray, AllocError>
        ensures { IfOk result (λ array. array ≡ replicate VERTICES None) }
    {
        let mut runs = Vec::new(alloc);
        runs.resize(VERTICES, None)?;
        Ok(GappedArray {
            cells: Vec::new(alloc),
            segments: 0,
            runs,
        })
    }

    /// Another array of the same lists, with no room beyond its cells.
    pub fn copy(&self, alloc: Global) -> Result<GappedArray, AllocError>
        ensures { IfOk result (λ array. array ≡ self.now) }
    {
        Ok(GappedArray {
            cells: Vec::from_slice(alloc, &self.cells)?,
            segments: self.segments,
            runs: Vec::from_slice(alloc, &self.runs)?,
        })
    }

    /// Makes room for so many segments more, so that lists which fit there are opened without more memory.
    pub fn reserve(&mut self, segments: usize) -> Result<(), AllocError>
        ensures { self.new ≡ self.old }
    {
        self.cells.reserve(segments.saturating_mul(SEGMENT))
    }

    /// How many vertices it has.
    pub fn vertex_count(&self) -> usize
        ensures value { result ≡ length self.now }
        ensures few { result ≤ VERTICES }
    {
        self.runs.len()
    }

    /// Whether a vertex has a list. One that the array does not have has none.
    pub fn is_open(&self, vertex: u8) -> bool
        ensures answer { IsTrue result ↔ IsOpen self.now vertex }
        ensures vertices { length self.now ≤ VERTICES }
    {
        let vertex = usize::from(vertex);
        vertex < self.runs.len() && self.runs[vertex].is_some()
    }

    /// A vertex's words, ascending. They lie in one slice.
    pub fn words(&self, vertex: u8) -> &[u32]
        requires { IsOpen self.now vertex }
        ensures words { result.now ≡ list_at self.now vertex }
        ensures set { IsSet result.now }
    {
        match self.runs[vertex as usize] {
            None => unreachable!(),
            Some(run) => words_of(&self.cells, run),
        }
    }

    /// Opens a vertex's list, which is empty. It takes no memory.
    pub fn open_run(&mut self, vertex: u8)
        requires inside { vertex < length self.old }
        requires closed { IsNone (slice_index_or self.old vertex None) }
        ensures { self.new ≡ slice_set self.old vertex (Some []) }
    {
        self.runs[vertex as usize] = Some(Run {
            segment: 0,
            segments: 0,
            count: 0,
        });
    }

    /// Opens a vertex's list with these words. They go after all others, into segments without a place free but
    /// in the last. After an error the array is as it was.
    pub fn open_with(&mut self, vertex: u8, words: &[u32]) -> Result<(), AllocError>
        requires inside { vertex < length self.old }
        requires closed { IsNone (slice_index_or self.old vertex None) }
        requires set { IsSet words.now }
        ensures ok { OnOk result (self.new ≡ slice_set self.old vertex (Some words.now)) }
        ensures err { OnErr result (self.new ≡ self.old) }
    {
        if words.is_empty() {
            self.open_run(vertex);
            return Ok(());
        }
        let segments = segments_for(words);
        if u32::MAX - self.segments < segments {
            return Err(AllocError);
        }
        append(&mut self.cells, words, SEGMENT * segments as usize)?;
        self.runs[vertex as usize] = Some(Run {
            segment: self.segments,
            segments,
            count: words.len() as u32,
        });
        self.segments += segments;
        Ok(())
    }

    /// Takes one vertex more, after the others, and opens its list with these words. After an error the others are
    /// as they were, and the one more may be there without a list.
    pub fn push(&mut self, words: &[u32]) -> Result<(), AllocError>
        requires room { length self.old < VERTICES }
        requires set { IsSet words.now }
        ensures ok { OnOk result (self.new ≡ self.old ++ Some words.now ∷ []) }
        ensures err { OnErr result ((self.new ≡ self.old) ⊎ (self.new ≡ self.old ++ None ∷ [])) }
    {
        let vertex = self.vertex_count() as u8;
        self.push_closed()?;
        self.open_with(vertex, words)?;
        Ok(())
    }

    // One vertex more, after the others, without a list.
    fn push_closed(&mut self) -> Result<(), AllocError>
        requires { length self.old < VERTICES }
        ensures ok { OnOk result (self.new ≡ self.old ++ None ∷ []) }
        ensures err { OnErr result (self.new ≡ self.old) }
    {
        self.runs.push(None)?;
        Ok(())
    }

    /// Takes all vertices away, and keeps the room.
    pub fn clear(&mut self)
        ensures { self.new ≡ [] }
    {
        self.cells.clear();
        self.segments = 0;
        self.runs.clear();
    }

    /// Closes a vertex's list, whatever it holds. It takes no memory.
    pub fn close_run(&mut self, vertex: u8)
        requires { IsOpen self.old vertex }
        ensures { self.new ≡ slice_set self.old vertex None }
    {
        self.runs[vertex as usize] = None;
        if VERTICES < surplus(self.segments, &self.runs) as usize {
            self.segments = pack(&mut self.cells, self.segments, &mut self.runs);
        }
    }

    /// Puts a word into a vertex's list, and answers whether it was not there. After an error the array is as it
    /// was.
    pub fn insert(&mut self, vertex: u8, word: u32) -> Result<bool, AllocError>
        requires word { word < WORD_LIMIT }
        requires open { IsOpen self.old vertex }
        ensures ok { OnOk result
            (self.new ≡ slice_set self.old vertex (Some (with_word word (list_at self.old vertex)))) }
        ensures changed { IfOk result (λ changed. changed ≡ not (has_word word (list_at self.old vertex))) }
        ensures err { OnErr result (self.new ≡ self.old) }
    {
        let Some(run) = self.runs[vertex as usize] else {
            unreachable!()
        };
        let Err(at) = place(words_of(&self.cells, run), word) else {
            return Ok(false);
        };
        let run = with_room(&mut self.cells, self.segments, run)?;
        let from = SEGMENT * run.segment as usize;
        put_word(&mut self.cells, from, run.count as usize, at, word);
        self.segments = self.segments.max(run.segment + run.segments);
        self.runs[vertex as usize] = Some(Run {
            count: run.count + 1,
            ..run
        });
        Ok(true)
    }

    /// Takes a word out of a vertex's list, and answers whether it was there. It takes no memory.
    pub fn remove(&mut self, vertex: u8, word: u32) -> bool
        requires { IsOpen self.old vertex }
        ensures words { self.new ≡ slice_set self.old vertex (Some (without_word word (list_at self.old vertex))) }
        ensures changed { result ≡ has_word word (list_at self.old vertex) }
    {
        let Some(run) = self.runs[vertex as usize] else {
            unreachable!()
        };
        let Ok(at) = place(words_of(&self.cells, run), word) else {
            return false;
        };
        let from = SEGMENT * run.segment as usize;
        take_word(&mut self.cells, from, run.count as usize, at);
        self.runs[vertex as usize] = Some(Run {
            count: run.count - 1,
            ..run
        });
        true
    }
}

// How many segments a set's words fill.
fn segments_for(words: &[u32]) -> u32
    requires { IsSet words.now }
    ensures room { length words.now ≤ SEGMENT * result }
    ensures filled { SEGMENT * result < length words.now + SEGMENT }
    ensures fits { SEGMENT * result ≤ WORD_LIMIT }
{
    words.len().div_ceil(SEGMENT) as u32
}
