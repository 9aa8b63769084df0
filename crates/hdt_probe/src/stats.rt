//! Call counts of a reader or a writer.

/// Call counts of a reader or a writer.
#[derive(Clone, Copy)]
pub struct Stats {
    /// The number of calls.
    pub calls: u64,
    /// The number of bytes that it gave or took.
    pub bytes: u64,
    /// The number of calls after it had reported its end.
    pub after_end: u64,
    /// The number of calls after it had failed.
    pub after_failure: u64,
    /// The number of flushes.
    pub flushes: u64,
    /// The length of the shortest buffer, or `u64::MAX` if there was no call.
    pub smallest: u64,
    /// The length of the longest buffer.
    pub largest: u64,
    /// Whether it has reported its end.
    pub has_ended: bool,
    /// Whether it has failed.
    pub has_failed: bool,
}

impl Stats {
    /// Returns the counts before the first call.
    pub fn new() -> Stats {
        Stats {
            calls: 0,
            bytes: 0,
            after_end: 0,
            after_failure: 0,
            flushes: 0,
            smallest: u64::MAX,
            largest: 0,
            has_ended: false,
            has_failed: false,
        }
    }

    /// Counts a call with a buffer of this length.
    pub fn count(&mut self, len: usize) {
        self.calls = self.calls.saturating_add(1);
        if self.has_ended {
            self.after_end = self.after_end.saturating_add(1);
        }
        if self.has_failed {
            self.after_failure = self.after_failure.saturating_add(1);
        }
        self.smallest = self.smallest.min(len as u64);
        self.largest = self.largest.max(len as u64);
    }

    /// Counts bytes that it gave or took.
    pub fn add_bytes(&mut self, count: usize) {
        self.bytes = self.bytes.saturating_add(count as u64);
    }
}
