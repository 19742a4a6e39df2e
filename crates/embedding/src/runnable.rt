//! A program with the memory of its runs.
ghost use Rattle.std.specs.Prelude.{◌≡◌, ◌+◌, ◌-◌, ◌*◌, ◌^◌, ◌%◌, ◌<◌, ◌≤◌, ◌⊎◌, ◌++◌, IfOk, ℕ, List, length, take, drop, slice_range};
ghost use Rattle.past_model.specs.Past.{graph_of};
ghost use Rattle.past_model.specs.declared.limits.TheConstants.{MOST_VERTICES};
ghost use Rattle.graph_model.specs.Graph.{edge_count, numbers_below};
ghost use Rattle.map_model.specs.EdgeMap.{all_with, reduction_of_numbers};
ghost use Rattle.map_model.specs.Parts.{IsPlace, IsBefore, IsSoFar, HasBegun, numbers_before, pair_numbers, values_for};
ghost use Rattle.map_model.specs.PushParts.{pushed_edges, IsPushedSoFar, HasBegunPush};
ghost use Rattle.verifier.specs.Walks.{longest};
ghost use Rattle.edge_fold.specs.declared.budget.TheConstants.{EDGE_COST};
ghost use Rattle.embedding.specs.Lent.{FitRecords, lent_of};
ghost use Rattle.embedding.specs.Parts.{least_of, most_of};

use edge_fold::{
    Mapped, Memory, Pairs, Progress, Request, map_some, map_whole, number_edges, number_pairs,
    number_some, push_some, push_whole,
};
use std::alloc::{AllocError, Global};
use std::marker::Model;
use std::sync::Arc;
use verifier::Verified;
use version::Version;

/// What a host lends the runs of a program besides their edges.
#[derive(Clone, Copy)]
pub struct Lent<'a> {
    /// What each record has after the edge.
    pub argument: &'a [u8],
    /// At most 8 columns, each with a number for each vertex. After the argument each record has of each column in turn the number
    /// of the edge's source and that of its target.
    pub columns: &'a [&'a [u64]],
}

/// What a program runs on: the edges of a version, each with the same argument and columns.
#[derive(Clone, Copy)]
pub struct Edges<'a> {
    /// The version whose edges they are.
    pub version: &'a Version,
    /// What each run is lent besides its edge.
    pub lent: Lent<'a>,
}

/// A verified program, and the memory in which the runs by one handle work. The memory is made once: a run over few edges costs less
/// than making it. Contracts see the program alone: the memory has its table, and no run depends on what else it held before. No run
/// takes memory besides. A run over some edges asks that what it is lent fits the record.
pub struct Runnable {
    program: Arc<Verified>,
    memory: Box<Memory>,
}

impl Drop for Runnable {
    // Written out, so that crates above prove a call here, and not the drop of each part.
    fn drop(self) {
        let Runnable {
            program: _program,
            memory: _memory,
        } = self;
    }
}

impl Model for Runnable {
    ghost use Rattle.std.specs.Arc.{arc_value};
    ghost use Rattle.bpf_image.specs.Program.{Program};
    ghost use Rattle.std.specs.Prelude.{box_value};
    ghost use Rattle.edge_fold.specs.Kept.{IsFor};

    ghost Value = { Program };

    ghost view = { λ r. arc_value r.program };

    // The memory is one for this program.
    ghost invariant = { λ r. IsFor (arc_value r.program) (box_value r.memory) };
}

impl Runnable {
    /// A program with a memory of its own.
    pub fn new(alloc: Global, program: Verified) -> Result<Runnable, AllocError>
        ensures { IfOk result (λ runnable. runnable ≡ program) }
    {
        let memory = Box::new(alloc, Memory::for_program(&program))?;
        Ok(Runnable {
            program: Arc::new(alloc, program)?,
            memory,
        })
    }

    /// The same program with another memory.
    pub fn share(&self, alloc: Global) -> Result<Runnable, AllocError>
        ensures { IfOk result (λ runnable. runnable ≡ self.now) }
    {
        let memory = Box::new(alloc, Memory::for_program(&self.program))?;
        Ok(Runnable {
            program: Arc::try_clone(&self.program)?,
            memory,
        })
    }

    /// The length of a record of its runs.
    pub fn record_length(&self) -> u16
        ensures { result ≡ self.now.record_length }
    {
        self.program.image().record_length()
    }

    /// Runs it on each edge of the vertices of a frontier, and reduces the numbers: it writes a value for each vertex, and answers the
    /// progress at the end, which has what all have together.
    pub fn map(&mut self, on: &Edges<'_>, request: &Request<'_>, values: &mut [u64]) -> Progress
        requires lent { FitRecords self.old (lent_of on.now.lent) }
        requires few { length request.now.frontier.now ≤ MOST_VERTICES }
        requires long { length values.old ≡ length request.now.frontier.now }
        ensures program { self.new ≡ self.old }
        ensures values { let p = self.old in let g = graph_of on.now.version.now in
            values.new ≡ values_for p (longest p) g request.now.reduction
            (lent_of on.now.lent) request.now.frontier.now }
        ensures edges { let p = self.old in let g = graph_of on.now.version.now in
            result.edges ≡ length (all_with p (longest p) g (lent_of on.now.lent) request.now.frontier.now) }
        ensures total { let p = self.old in let g = graph_of on.now.version.now in result.total
            ≡ reduction_of_numbers request.now.reduction
            (all_with p (longest p) g (lent_of on.now.lent) request.now.frontier.now) }
    {
        let mapped = Mapped {
            version: on.version,
            program: &self.program,
            argument: on.lent.argument,
            columns: on.lent.columns,
        };
        map_whole(&mut self.memory, &mapped, request, values)
    }

    /// Goes on with a run over a frontier, as far as the budget goes: one edge or vertex at least, if any is left.
    pub fn map_some(
        &mut self,
        on: &Edges<'_>,
        request: &Request<'_>,
        progress: &mut Progress,
        values: &mut [u64],
    )
        requires lent { FitRecords self.old (lent_of on.now.lent) }
        requires few { length request.now.frontier.now ≤ MOST_VERTICES }
        requires long { length values.old ≡ length request.now.frontier.now }
        requires place { IsPlace (graph_of on.now.version.now) request.now.frontier.now progress.old }
        ensures program { self.new ≡ self.old }
        ensures so_far { let p = self.old in let g = graph_of on.now.version.now in let f = request.now.frontier.now in
            HasBegun p (longest p) g request.now.reduction (lent_of on.now.lent) f progress.old values.old
            → IsSoFar p (longest p) g request.now.reduction (lent_of on.now.lent) f progress.new values.new }
        ensures place { IsPlace (graph_of on.now.version.now) request.now.frontier.now progress.new }
        ensures on { progress.old.vertex < length request.now.frontier.now → IsBefore progress.old progress.new }
        ensures rest { drop (progress.new.vertex + 1) values.new ≡ drop (progress.new.vertex + 1) values.old }
        ensures stops { (progress.new.vertex ≡ length request.now.frontier.now) ⊎ (progress.new.budget ≡ 0) }
        ensures cost { let most = most_of (graph_of on.now.version.now) self.old (lent_of on.now.lent)
            request.now.frontier.now in
            progress.old.budget + most progress.old ≤ progress.new.budget + most progress.new }
        ensures falls { let least = least_of (graph_of on.now.version.now) self.old (lent_of on.now.lent)
            request.now.frontier.now in
            progress.new.budget ≤ progress.old.budget + least progress.old - least progress.new }
    {
        let mapped = Mapped {
            version: on.version,
            program: &self.program,
            argument: on.lent.argument,
            columns: on.lent.columns,
        };
        map_some(&mut self.memory, &mapped, request, progress, values);
    }

    /// Runs it on each edge of the vertices of a frontier, and reduces the number of each into the place of its target. It answers the
    /// progress at the end, which has what all have together.
    pub fn push(&mut self, on: &Edges<'_>, request: &Request<'_>, values: &mut [u64]) -> Progress
        requires lent { FitRecords self.old (lent_of on.now.lent) }
        requires few { length request.now.frontier.now ≤ MOST_VERTICES }
        requires long { length values.old ≡ (graph_of on.now.version.now).vertex_count }
        ensures program { self.new ≡ self.old }
        ensures values { let p = self.old in let g = graph_of on.now.version.now in values.new
            ≡ pushed_edges p (longest p) g request.now.reduction
            (lent_of on.now.lent) request.now.frontier.now values.old }
        ensures edges { let p = self.old in let g = graph_of on.now.version.now in
            result.edges ≡ length (all_with p (longest p) g (lent_of on.now.lent) request.now.frontier.now) }
        ensures total { let p = self.old in let g = graph_of on.now.version.now in result.total
            ≡ reduction_of_numbers request.now.reduction
            (all_with p (longest p) g (lent_of on.now.lent) request.now.frontier.now) }
    {
        let mapped = Mapped {
            version: on.version,
            program: &self.program,
            argument: on.lent.argument,
            columns: on.lent.columns,
        };
        push_whole(&mut self.memory, &mapped, request, values)
    }

    /// Goes on with a push over a frontier, as far as the budget goes: one edge or vertex at least, if any is left.
    pub fn push_some(
        &mut self,
        on: &Edges<'_>,
        request: &Request<'_>,
        progress: &mut Progress,
        values: &mut [u64],
    )
        requires lent { FitRecords self.old (lent_of on.now.lent) }
        requires few { length request.now.frontier.now ≤ MOST_VERTICES }
        requires long { length values.old ≡ (graph_of on.now.version.now).vertex_count }
        requires place { IsPlace (graph_of on.now.version.now) request.now.frontier.now progress.old }
        ensures program { self.new ≡ self.old }
        ensures so_far { let p = self.old in let g = graph_of on.now.version.now in let f = request.now.frontier.now in
            (first : List ℕ) → HasBegunPush p (longest p) g request.now.reduction
            (lent_of on.now.lent) f progress.old first values.old
            → IsPushedSoFar p (longest p) g request.now.reduction
            (lent_of on.now.lent) f progress.new first values.new }
        ensures place { IsPlace (graph_of on.now.version.now) request.now.frontier.now progress.new }
        ensures on { progress.old.vertex < length request.now.frontier.now → IsBefore progress.old progress.new }
        ensures stops { (progress.new.vertex ≡ length request.now.frontier.now) ⊎ (progress.new.budget ≡ 0) }
        ensures cost { let most = most_of (graph_of on.now.version.now) self.old (lent_of on.now.lent)
            request.now.frontier.now in
            progress.old.budget + most progress.old ≤ progress.new.budget + most progress.new }
        ensures falls { let least = least_of (graph_of on.now.version.now) self.old (lent_of on.now.lent)
            request.now.frontier.now in
            progress.new.budget ≤ progress.old.budget + least progress.old - least progress.new }
    {
        let mapped = Mapped {
            version: on.version,
            program: &self.program,
            argument: on.lent.argument,
            columns: on.lent.columns,
        };
        push_some(&mut self.memory, &mapped, request, progress, values);
    }

    /// Writes the number of each edge of a version.
    pub fn number(&mut self, on: &Edges<'_>, numbers: &mut [u64])
        requires lent { FitRecords self.old (lent_of on.now.lent) }
        requires long { length numbers.old ≡ edge_count (graph_of on.now.version.now) }
        ensures program { self.new ≡ self.old }
        ensures numbers { let p = self.old in let g = graph_of on.now.version.now in
            numbers.new ≡ all_with p (longest p) g (lent_of on.now.lent) (numbers_below g.vertex_count) }
    {
        let mapped = Mapped {
            version: on.version,
            program: &self.program,
            argument: on.lent.argument,
            columns: on.lent.columns,
        };
        number_edges(&mapped, &mut self.memory, numbers);
    }

    /// Writes the numbers of the next edges of a frontier, as far as the budget and the room go, and answers how many: one edge or
    /// vertex at least, if any is left and there is room.
    pub fn number_some(
        &mut self,
        on: &Edges<'_>,
        frontier: &[u32],
        progress: &mut Progress,
        numbers: &mut [u64],
    ) -> usize
        requires lent { FitRecords self.old (lent_of on.now.lent) }
        requires few { length frontier.now ≤ MOST_VERTICES }
        requires place { IsPlace (graph_of on.now.version.now) frontier.now progress.old }
        ensures program { self.new ≡ self.old }
        ensures numbers { let p = self.old in let g = graph_of on.now.version.now in
            numbers_before p (longest p) g (lent_of on.now.lent) frontier.now progress.new
            ≡ numbers_before p (longest p) g (lent_of on.now.lent) frontier.now progress.old
            ++ take result numbers.new }
        ensures rest { drop result numbers.new ≡ drop result numbers.old }
        ensures room { result ≤ length numbers.old }
        ensures edges { progress.new.edges ≡ (progress.old.edges + result) % 2 ^ 64 }
        ensures total { progress.new.total ≡ progress.old.total }
        ensures place { IsPlace (graph_of on.now.version.now) frontier.now progress.new }
        ensures on { progress.old.vertex < length frontier.now → 0 < length numbers.old
            → IsBefore progress.old progress.new }
        ensures stops { (progress.new.vertex ≡ length frontier.now) ⊎ (progress.new.budget ≡ 0) ⊎ (result
            ≡ length numbers.old) }
        ensures cost { let most = most_of (graph_of on.now.version.now) self.old (lent_of on.now.lent) frontier.now in
            progress.old.budget + most progress.old ≤ progress.new.budget + most progress.new }
        ensures falls { let least = least_of (graph_of on.now.version.now) self.old
            (lent_of on.now.lent) frontier.now in
            progress.new.budget ≤ progress.old.budget + least progress.old - least progress.new }
    {
        let mapped = Mapped {
            version: on.version,
            program: &self.program,
            argument: on.lent.argument,
            columns: on.lent.columns,
        };
        number_some(&mut self.memory, &mapped, frontier, progress, numbers)
    }

    /// Writes the numbers of the next pairs, as far as the budget goes: one at least, if any is left.
    pub fn number_pairs(
        &mut self,
        on: &Edges<'_>,
        pairs: &Pairs<'_>,
        progress: &mut Progress,
        numbers: &mut [u64],
    )
        requires lent { FitRecords self.old (lent_of on.now.lent) }
        requires few { length pairs.now.sources.now < 2 ^ 32 }
        requires long { length numbers.old ≡ length pairs.now.sources.now }
        requires place { progress.old.vertex ≤ length pairs.now.sources.now }
        ensures program { self.new ≡ self.old }
        ensures numbers { let p = self.old in let g = graph_of on.now.version.now in
            let a = progress.old.vertex in let b = progress.new.vertex in
            take b numbers.new ≡ take a numbers.old ++ pair_numbers p (longest p) g (lent_of on.now.lent)
            (slice_range pairs.now.sources.now a b) (slice_range pairs.now.targets.now a b) }
        ensures rest { drop progress.new.vertex numbers.new ≡ drop progress.new.vertex numbers.old }
        ensures edges { progress.new.edges ≡ (progress.old.edges +
            (progress.new.vertex - progress.old.vertex)) % 2 ^ 64 }
        ensures total { progress.new.total ≡ progress.old.total }
        ensures place { progress.new.place ≡ progress.old.place }
        ensures inside { progress.new.vertex ≤ length pairs.now.sources.now }
        ensures back { progress.old.vertex ≤ progress.new.vertex }
        ensures on { progress.old.vertex < length pairs.now.sources.now → progress.old.vertex < progress.new.vertex }
        ensures stops { (progress.new.vertex ≡ length pairs.now.sources.now) ⊎ (progress.new.budget ≡ 0) }
        ensures cost { let k = longest self.old + EDGE_COST in
            progress.old.budget + k * progress.old.vertex ≤ progress.new.budget + k * progress.new.vertex }
        ensures falls { progress.new.budget ≤ progress.old.budget + EDGE_COST * progress.old.vertex - EDGE_COST *
            progress.new.vertex }
    {
        let mapped = Mapped {
            version: on.version,
            program: &self.program,
            argument: on.lent.argument,
            columns: on.lent.columns,
        };
        number_pairs(&mut self.memory, &mapped, pairs, progress, numbers);
    }
}
