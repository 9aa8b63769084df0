//! The records of batches: ascending runs on scratch.
ghost use Rattle.std.specs.Prelude.{◌≡◌, ◌++◌, [], IfOk, OnOk};
ghost use Rattle.hdt_build.specs.Inside.Batches.{grouped};
ghost use Rattle.hdt_build.specs.Inside.TripleRuns.{joined_runs};

use crate::chunks::{count_of, push_item};
use crate::scratch::Scratch;
use crate::string_tape::StringTape;
use std::alloc::{AllocError, Global};
use std::marker::Model;

/// The records of a batch, in ascending runs. In contracts it is the list of all of them, one run after another.
#[derive(Drop)]
pub(crate) struct RecordRuns<S: Scratch> {
    runs: Vec<StringTape<S>>,
}

impl<S: Scratch> Model for RecordRuns<S> {
    ghost use Rattle.std.specs.Prelude.{ℕ, List};
    ghost use Rattle.hdt_build.specs.Inside.TripleRuns.{joined_runs};

    ghost Value = { List (List ℕ) };

    ghost view = { λ r. joined_runs r.runs.items };
}

impl<S: Scratch> RecordRuns<S> {
    /// No records.
    #[tactic(auto, unfolding(crate::specs::Inside::TripleRuns::joined_runs))]
    pub(crate) fn new(alloc: Global) -> RecordRuns<S>
        ensures { result ≡ [] }
    {
        RecordRuns {
            runs: Vec::new(alloc),
        }
    }
}

impl<S: Scratch + Drop> RecordRuns<S> {
    /// Adds a run.
    #[tactic(auto, using(crate::proofs::TripleRuns::joined_more))]
    pub(crate) fn push(&mut self, run: StringTape<S>) -> Result<(), AllocError>
        ensures { OnOk result (self.new ≡ self.old ++ run) }
    {
        push_item(&mut self.runs, run)
    }
}

/// Appends runs to others.
fn append_runs<S: Scratch + Drop>(
    out: &mut Vec<StringTape<S>>,
    runs: Vec<StringTape<S>>,
) -> Result<(), AllocError>
    ensures { OnOk result (out.new.items ≡ out.old.items ++ runs.items) }
{
    for run in runs {
        push_item(out, run)?;
    }
    Ok(())
}

/// The runs of all batches, one batch after another, and the number of those of each batch.
pub(crate) fn split_runs<S: Scratch + Drop>(
    alloc: Global,
    records: Vec<RecordRuns<S>>,
) -> Result<(Vec<StringTape<S>>, Vec<usize>), AllocError>
    ensures groups { IfOk result (λ made. grouped made.1.items made.0.items ≡ records.items) }
    ensures joined { IfOk result (λ made. joined_runs made.0.items ≡ joined_runs records.items) }
{
    let mut runs = Vec::new(alloc);
    let mut counts = Vec::new(alloc);
    for batch in records {
        let RecordRuns { runs: own } = batch;
        counts.push(count_of(&own))?;
        append_runs(&mut runs, own)?;
    }
    Ok((runs, counts))
}
