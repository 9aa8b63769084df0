//! The texts of progress: lines for a log, and the line of a terminal.

use std::alloc::{AllocError, Global};

/// A line with the number of bytes read, and the length of the input if it is known.
pub(crate) fn progress_line(
    alloc: Global,
    read: u64,
    size: Option<u64>,
) -> Result<String, AllocError> {
    match size {
        Some(size) => format!(in alloc; "hdt: read {read} of {size} bytes\n"),
        None => format!(in alloc; "hdt: read {read} bytes\n"),
    }
}

/// How many percent of a size have been read.
pub(crate) fn percentage(read: u64, size: u64) -> u128 {
    u128::from(read) * 100 / u128::from(size.max(1))
}

/// What a terminal shows while the input is read: the megabytes read, and if the length of the input is known, their
/// percentage and the megabytes of the input.
pub(crate) fn reading_text(
    alloc: Global,
    read: u64,
    size: Option<u64>,
) -> Result<String, AllocError> {
    let read_mb = read / 1_000_000;
    match size {
        Some(size) => {
            let percent = percentage(read, size);
            let size_mb = size / 1_000_000;
            format!(in alloc; "hdt: reading {percent}%, {read_mb} of {size_mb} MB")
        }
        None => format!(in alloc; "hdt: reading, {read_mb} MB"),
    }
}

/// What a terminal shows after the input was read: what is done now, and a number of megabytes.
pub(crate) fn phase_text(alloc: Global, phase: &str, bytes: u64) -> Result<String, AllocError> {
    let megabytes = bytes / 1_000_000;
    format!(in alloc; "hdt: {phase}, {megabytes} MB")
}

/// The number of a batch, from 1, and the megabytes of all batches that have been written to scratch files.
pub(crate) fn batch_text(alloc: Global, number: u64, bytes: u64) -> Result<String, AllocError> {
    let megabytes = bytes / 1_000_000;
    format!(in alloc; "hdt: batch {number}, {megabytes} MB")
}

/// How much of the merge of all batches is done.
pub(crate) fn merge_text(alloc: Global, percent: u128) -> Result<String, AllocError> {
    format!(in alloc; "hdt: merge {percent}%")
}
