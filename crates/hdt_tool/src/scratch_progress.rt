//! Reporting the progress of `build` and `merge` with `--memory`: the batches that are written to scratch files, and
//! then how much of these files has been read again.

use crate::progress_text::percentage;
use crate::session::{REPORT_INTERVAL, Session};
use std::cell::Cell;

/// Counts the bytes of scratch files, and reports them at intervals. All batches are written before any is read.
#[derive(Drop)]
pub(crate) struct ScratchProgress<'a> {
    session: &'a Session<'a>,
    /// The number of batches so far. Input is read between two of them.
    batches: Cell<u64>,
    /// The number of bytes written so far.
    written: Cell<u64>,
    /// How many of these have been read.
    read: Cell<u64>,
    /// The number of bytes, written and read, at which the next report is due.
    next: Cell<u64>,
    /// The greatest percentage so far.
    percent: Cell<u128>,
}

impl<'a> ScratchProgress<'a> {
    /// Nothing has been written.
    pub(crate) fn new(session: &'a Session<'a>) -> ScratchProgress<'a> {
        ScratchProgress {
            session,
            batches: Cell::new(0),
            written: Cell::new(0),
            read: Cell::new(0),
            next: Cell::new(REPORT_INTERVAL),
            percent: Cell::new(0),
        }
    }

    /// Counts bytes that were written.
    pub(crate) fn count_written(&self, bytes: usize) {
        if self.session.take_new_input() {
            self.batches.set(self.batches.get().saturating_add(1));
        }
        self.written
            .set(self.written.get().saturating_add(bytes as u64));
        self.report();
    }

    /// Counts bytes that were read for the first time.
    pub(crate) fn count_read(&self, bytes: usize) {
        self.read.set(self.read.get().saturating_add(bytes as u64));
        self.report();
    }

    /// Reports what is done, if that is due.
    fn report(&self) {
        let (written, read) = (self.written.get(), self.read.get());
        let bytes = written.saturating_add(read);
        if bytes < self.next.get() {
            return;
        }
        self.next.set(bytes.saturating_add(REPORT_INTERVAL));
        if read == 0 {
            self.session.show_batch(self.batches.get(), written);
            return;
        }
        // More is written while the batches are merged, so the percentage can also fall.
        let percent = percentage(read, written);
        if percent > self.percent.get() {
            self.percent.set(percent);
            self.session.show_merge(percent);
        }
    }
}
