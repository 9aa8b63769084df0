//! Runs of strings, as one list.
ghost use Rattle.std.specs.Prelude.{◌≡◌, ◌++◌, [], ℕ, List, length, OnOk};
ghost use Rattle.hdt_build.specs.Inside.TripleRuns.{joined_runs};

use crate::packed_strings::PackedStrings;
use std::alloc::{AllocError, Global};
use std::marker::Model;

/// Runs of strings. In contracts it is the list of all strings, one run after another.
#[derive(Drop)]
pub(crate) struct StringRuns {
    runs: Vec<PackedStrings>,
    count: usize,
}

impl Model for StringRuns {
    ghost Value = { List (List ℕ) };

    ghost view = { λ s. joined_runs s.runs.items };

    ghost invariant = { λ s. s.count ≡ length (joined_runs s.runs.items) };
}

impl StringRuns {
    /// No runs.
    pub(crate) fn new(alloc: Global) -> StringRuns
        ensures { result ≡ [] }
    {
        StringRuns {
            runs: Vec::new(alloc),
            count: 0,
        }
    }

    /// The number of strings.
    pub(crate) fn len(&self) -> usize
        ensures { result ≡ length self.now }
    {
        self.count
    }

    /// Adds a run. An error may be that of too many strings for the processor.
    pub(crate) fn add(&mut self, run: PackedStrings) -> Result<(), AllocError>
        ensures { OnOk result (self.new ≡ self.old ++ run) }
    {
        let Some(count) = self.count.checked_add(run.len()) else {
            return Err(AllocError);
        };
        self.runs.push(run)?;
        self.count = count;
        Ok(())
    }

    /// The runs.
    pub(crate) fn runs(&self) -> &[PackedStrings]
        ensures { joined_runs result.now ≡ self.now }
    {
        self.runs.as_slice()
    }
}
