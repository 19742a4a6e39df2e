//! The laws of handles and their calls. Each function does nothing: its contract is the law.
ghost use Rattle.handle_model.specs.Laws.{SubmissionsAre, PublicationsAre, RebasesAre, RangesAre, TakingsAre, PinsAre, LendsAre, EachToItsOwn, WovenPublications};
ghost use Rattle.handle_model.specs.Histories.{HistoriesAreRuns, AllSeeOpening};

/// A submission whose batch names vertices is the event of its name: the feed has sent that batch more.
pub fn submissions_are()
    ensures { SubmissionsAre }
{}

/// Publishing the next batch is taking it, unless it is held, editing each of its ranges once, in any order, and
/// publishing: what is published is longer by it.
pub fn publications_are()
    ensures { PublicationsAre }
{}

/// A rebase is the event of its name: what is held still is, and nothing leaves the queue.
pub fn rebases_are()
    ensures { RebasesAre }
{}

/// Each batch has a list of the ranges of its edits, each once.
pub fn ranges_are()
    ensures { RangesAre }
{}

/// Taking a batch and not publishing it is the event of its name; of a batch that was held before it is no event.
pub fn takings_are()
    ensures { TakingsAre }
{}

/// A pin of the version which the reader saw last, or of one which that is before, has its place as an event among those of
/// others, whatever they are. Its cursor has all the vertex's neighbours to lend.
pub fn pins_are()
    ensures { PinsAre }
{}

/// A slice that a cursor lends, and its end, are the events of their names.
pub fn lends_are()
    ensures { LendsAre }
{}

/// What a handle sees is changed by its own calls alone.
pub fn each_to_its_own()
    ensures { EachToItsOwn }
{}

/// Whatever events of others come between those of a publication, the same batch is published.
pub fn woven_publications()
    ensures { WovenPublications }
{}

/// If the queue has room for each batch and gives the first that waits, calls of feeds and publisher are a list of events,
/// whatever their order: each law of lists of events holds for them.
pub fn histories_are_runs()
    ensures { HistoriesAreRuns }
{}

/// Feeds and publisher see a new store.
pub fn all_see_opening()
    ensures { AllSeeOpening }
{}
