//! The last lines of an input that cannot be read twice.

use crate::error_context::nth_line;
use std::alloc::{AllocError, Global};

/// The current line and the unread bytes of an input that cannot be read twice. More may be read only if no complete
/// line is left.
#[derive(Drop)]
pub(crate) struct RecentLines {
    bytes: Vec<u8>,
    /// The number of lines before these bytes; `None` if it is not known any more.
    lines_before: Option<u64>,
}

impl RecentLines {
    /// The beginning of an input.
    pub(crate) fn new(alloc: Global) -> RecentLines {
        RecentLines {
            bytes: Vec::new(alloc),
            lines_before: Some(0),
        }
    }

    /// Keeps a piece that was read. The lines that were complete before are dropped.
    pub(crate) fn push(&mut self, piece: &[u8]) {
        if let Some(before) = self.lines_before {
            self.lines_before = match self.replace_lines(piece) {
                Ok(Some(count)) => Some(before.saturating_add(count)),
                _ => None,
            };
        }
    }

    /// Drops the complete lines, and appends a piece. Returns the number of lines dropped, or `None` if one of them
    /// ends with a carriage return alone.
    fn replace_lines(&mut self, piece: &[u8]) -> Result<Option<u64>, AllocError> {
        let complete = match self
            .bytes
            .as_slice()
            .iter()
            .rposition(|byte| *byte == b'\n')
        {
            Some(last) => last.saturating_add(1),
            None => 0,
        };
        let complete = complete.min(self.bytes.len());
        let count = line_count(&self.bytes[..complete]);
        self.bytes.drain(..complete);
        self.bytes.extend_from_slice(piece)?;
        Ok(count)
    }

    /// The line with a number, from 1, if it is kept.
    pub(crate) fn line(&self, alloc: Global, number: u64) -> Option<Vec<u8>> {
        let number = number.checked_sub(self.lines_before?)?;
        nth_line(alloc, self.bytes.as_slice(), number).ok()
    }
}

/// How often a byte occurs.
fn occurrences(wanted: u8, bytes: &[u8]) -> u64 {
    let mut count = 0u64;
    'bytes: for &byte in bytes {
        count = count.wrapping_add(u64::from(byte == wanted));
    }
    count
}

/// Whether a carriage return is followed by anything but a line feed.
fn has_bare_return(bytes: &[u8]) -> bool {
    let mut last = 0;
    'bytes: for &byte in bytes {
        if last == b'\r' && byte != b'\n' {
            return true;
        }
        last = byte;
    }
    false
}

/// The number of line feeds, or `None` if a line ends with a carriage return alone.
fn line_count(bytes: &[u8]) -> Option<u64> {
    if occurrences(b'\r', bytes) > 0 && has_bare_return(bytes) {
        return None;
    }
    Some(occurrences(b'\n', bytes))
}
