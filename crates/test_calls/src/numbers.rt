//! The numbers of errors, as the documents have them, and the words that they print.
use batch_apply::ApplyError;
use edge_map::MapError;
use service::ServeError;
use std::alloc::Global;
use std::fmt::Display;
use std::test::Fail;
use store::{PinError, PublishError, RebaseError, StoreError, SubmitCause};

#[test]
fn of_stores(rt: HostRuntime) {
    let opening = [StoreError::VertexCount as u8, StoreError::OutOfMemory as u8];
    assert_eq!(rt; opening, [1, 2]);
    let submitting = [
        SubmitCause::Full as u8,
        SubmitCause::VertexRange as u8,
        SubmitCause::TooManyEdits as u8,
    ];
    assert_eq!(rt; submitting, [1, 2, 3]);
    let publishing = [
        PublishError::OutOfMemory as u8,
        PublishError::LogFull as u8,
        PublishError::WorkerRefused as u8,
    ];
    assert_eq!(rt; publishing, [1, 2, 3]);
    let rebasing = [
        RebaseError::OutOfMemory as u8,
        RebaseError::EpochsFull as u8,
    ];
    assert_eq!(rt; rebasing, [1, 2]);
    let pinning = [PinError::Closed as u8, PinError::NoShare as u8];
    assert_eq!(rt; pinning, [1, 2]);
}

#[test]
fn of_batches_maps_and_scripts(rt: HostRuntime) {
    let applying = [
        ApplyError::VertexRange as u8,
        ApplyError::TooManyEdits as u8,
        ApplyError::OutOfMemory as u8,
        ApplyError::WorkerRefused as u8,
    ];
    assert_eq!(rt; applying, [1, 2, 3, 4]);
    let mapping = [
        MapError::ArgumentLength as u8,
        MapError::Frontier as u8,
        MapError::OutOfMemory as u8,
        MapError::WorkerRefused as u8,
    ];
    assert_eq!(rt; mapping, [1, 2, 3, 4]);
    let serving = [
        ServeError::Read as u8,
        ServeError::Write as u8,
        ServeError::OutOfMemory as u8,
        ServeError::WorkerRefused as u8,
        ServeError::Store as u8,
    ];
    assert_eq!(rt; serving, [1, 2, 3, 4, 5]);
}

// The text that an error prints.
fn text_of<E: Display>(alloc: Global, error: &E) -> Result<String, Fail> {
    let text = format!(in alloc; "{}", error)?;
    Ok(text)
}

#[test]
fn words_of_stores(rt: HostRuntime) -> Result<(), Fail> {
    assert_eq!(rt;
        text_of(rt.alloc(), &StoreError::VertexCount)?.as_str(),
        "the number of vertices is not from 1 to 1048576"
    );
    assert_eq!(rt;
        text_of(rt.alloc(), &StoreError::OutOfMemory)?.as_str(),
        "out of memory"
    );
    assert_eq!(rt;
        text_of(rt.alloc(), &SubmitCause::Full)?.as_str(),
        "64 batches wait in the queue"
    );
    assert_eq!(rt;
        text_of(rt.alloc(), &SubmitCause::VertexRange)?.as_str(),
        "an edit names a vertex that the graph does not have"
    );
    assert_eq!(rt;
        text_of(rt.alloc(), &SubmitCause::TooManyEdits)?.as_str(),
        "there are more than 65536 edits"
    );
    assert_eq!(rt;
        text_of(rt.alloc(), &PublishError::OutOfMemory)?.as_str(),
        "out of memory"
    );
    assert_eq!(rt;
        text_of(rt.alloc(), &PublishError::LogFull)?.as_str(),
        "4096 batches were published, and there is room for no more before a rebase"
    );
    assert_eq!(rt;
        text_of(rt.alloc(), &PublishError::WorkerRefused)?.as_str(),
        "a worker could not be started"
    );
    assert_eq!(rt;
        text_of(rt.alloc(), &PinError::Closed)?.as_str(),
        "the store is closed"
    );
    assert_eq!(rt;
        text_of(rt.alloc(), &PinError::NoShare)?.as_str(),
        "the version cannot have one owner more"
    );
    Ok(())
}

#[test]
fn words_of_rebases(rt: HostRuntime) -> Result<(), Fail> {
    assert_eq!(rt;
        text_of(rt.alloc(), &RebaseError::OutOfMemory)?.as_str(),
        "out of memory"
    );
    assert_eq!(rt;
        text_of(rt.alloc(), &RebaseError::EpochsFull)?.as_str(),
        "1024 rebases were published, and there is room for no more"
    );
    Ok(())
}

#[test]
fn words_of_batches_maps_and_scripts(rt: HostRuntime) -> Result<(), Fail> {
    assert_eq!(rt;
        text_of(rt.alloc(), &ApplyError::VertexRange)?.as_str(),
        "an edit names a vertex that the graph does not have"
    );
    assert_eq!(rt;
        text_of(rt.alloc(), &ApplyError::TooManyEdits)?.as_str(),
        "there are more than 65536 edits"
    );
    assert_eq!(rt;
        text_of(rt.alloc(), &ApplyError::OutOfMemory)?.as_str(),
        "out of memory"
    );
    assert_eq!(rt;
        text_of(rt.alloc(), &ApplyError::WorkerRefused)?.as_str(),
        "a worker could not be started"
    );
    assert_eq!(rt;
        text_of(rt.alloc(), &MapError::ArgumentLength)?.as_str(),
        "the argument does not have the record's length less 16 bytes"
    );
    assert_eq!(rt;
        text_of(rt.alloc(), &MapError::Frontier)?.as_str(),
        "the frontier does not ascend, or has a vertex outside the graph"
    );
    assert_eq!(rt;
        text_of(rt.alloc(), &MapError::OutOfMemory)?.as_str(),
        "out of memory"
    );
    assert_eq!(rt;
        text_of(rt.alloc(), &MapError::WorkerRefused)?.as_str(),
        "a worker could not be started"
    );
    assert_eq!(rt;
        text_of(rt.alloc(), &ServeError::Read)?.as_str(),
        "a read failed"
    );
    assert_eq!(rt;
        text_of(rt.alloc(), &ServeError::Write)?.as_str(),
        "a write failed"
    );
    assert_eq!(rt;
        text_of(rt.alloc(), &ServeError::OutOfMemory)?.as_str(),
        "out of memory"
    );
    assert_eq!(rt;
        text_of(rt.alloc(), &ServeError::WorkerRefused)?.as_str(),
        "a worker could not be started"
    );
    assert_eq!(rt;
        text_of(rt.alloc(), &ServeError::Store)?.as_str(),
        "a version cannot have one owner more"
    );
    Ok(())
}
