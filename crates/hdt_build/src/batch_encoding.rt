//! The sections and the ID triples of batches on scratch.
ghost use Rattle.std.specs.Prelude.{◌≡◌, ◌≤◌, ◌<◌, ◌++◌, [], ℕ, List, length, slice_index_or, IfOk, IfSome};
ghost use Rattle.hdt_dict.specs.Strings.{SameMembers};
ghost use Rattle.hdt_triples.specs.Order.{AreAscending};
ghost use Rattle.hdt_build.specs.Inside.Batches.{AreEncodedBatches, AreIdLists, grouped, joined_mapped};
ghost use Rattle.hdt_build.specs.Inside.TripleRuns.{joined_runs};

use crate::chunks::{count_of, push_item};
use crate::distribution::distribute;
use crate::four_sections::FinishedSections;
use crate::number_tape::{NumberTape, NumberWriter};
use crate::record_merging::{MergedRecords, merged_records};
use crate::record_runs::{RecordRuns, split_runs};
use crate::scratch::Scratch;
use crate::tape_merging::merge_triple_runs;
use crate::triple_runs::{all_numbers, push_mapped};
use crate::triple_tape::{TripleTape, TripleWriter};
use std::alloc::Global;

/// So many empty lists.
fn new_lists<S: Scratch + Drop>(
    alloc: Global,
    scratch: &mut S,
    chunk_len: usize,
    count: usize,
) -> Result<Vec<NumberWriter<S>>, S::Error>
    ensures long { IfOk result (λ made. length made.items ≡ count) }
    ensures none { IfOk result (λ made. (b : ℕ) → b < count → slice_index_or made.items b [] ≡ []) }
{
    let mut made = Vec::new(alloc);
    for _ in 0..count {
        let list = NumberWriter::new(alloc, scratch.fresh()?, chunk_len);
        push_item(&mut made, list)?;
    }
    Ok(made)
}

/// The same lists, after what is left of each was written.
fn finished_lists<S: Scratch + Drop>(
    alloc: Global,
    lists: Vec<NumberWriter<S>>,
) -> Result<Vec<NumberTape<S>>, S::Error>
    ensures { IfOk result (λ made. S.IsKnown → made.items ≡ lists.items) }
{
    let mut made = Vec::new(alloc);
    for list in lists {
        push_item(&mut made, list.finish()?)?;
    }
    Ok(made)
}

/// The triples of each batch as ascending runs of ID triples, given the IDs of the records of each run, and the number
/// of the runs of each batch. None if an index is that of no record.
fn mapped_runs<S: Scratch + Drop>(
    alloc: Global,
    scratch: &mut S,
    chunk_len: usize,
    triples: &[TripleTape<S>],
    counts: &[usize],
    lists: &[NumberTape<S>],
) -> Result<Option<Vec<TripleTape<S>>>, S::Error>
    ensures { IfOk result (λ found. IfSome found (λ made. S.IsKnown
        → SameMembers (joined_runs made.items) (joined_mapped triples.now (grouped counts.now lists.now)))) }
{
    let mut made = Vec::new(alloc);
    let mut rest = lists;
    for at in 0..counts.len() {
        let count = counts[at];
        if at >= triples.len() || count > rest.len() {
            return Ok(None);
        }
        let (own, later) = rest.split_at(count);
        let Some(ids) = all_numbers(alloc, own)? else {
            return Ok(None);
        };
        if !push_mapped(alloc, scratch, chunk_len, &triples[at], &ids, &mut made)? {
            return Ok(None);
        }
        rest = later;
    }
    Ok(Some(made))
}

/// The list of the IDs of the records of each run.
fn id_lists<S: Scratch + Drop>(
    alloc: Global,
    scratch: &mut S,
    chunk_len: usize,
    shared: u64,
    numbers: &NumberTape<S>,
    events: &NumberTape<S>,
    count: usize,
) -> Result<Option<Vec<NumberWriter<S>>>, S::Error>
    ensures { IfOk result (λ found. IfSome found (λ made. AreIdLists S.IsKnown count shared numbers.now events.now
        made.items)) }
{
    let mut lists = new_lists(alloc, scratch, chunk_len, count)?;
    if distribute(alloc, events, numbers, shared, &mut lists)? {
        return Ok(Some(lists));
    }
    Ok(None)
}

/// The triples of all batches as one ascending list of ID triples, given the IDs of the records of each.
fn merged_triples<S: Scratch + Drop>(
    alloc: Global,
    scratch: &mut S,
    chunk_len: usize,
    triples: Vec<TripleTape<S>>,
    counts: &[usize],
    lists: Vec<NumberWriter<S>>,
) -> Result<Option<TripleTape<S>>, S::Error>
    ensures ascending { IfOk result (λ found. IfSome found (λ made. S.IsKnown → AreAscending made)) }
    ensures same { IfOk result (λ found. IfSome found (λ made. S.IsKnown
        → SameMembers made (joined_mapped triples.items (grouped counts.now lists.items)))) }
{
    let lists = finished_lists(alloc, lists)?;
    let found = mapped_runs(alloc, scratch, chunk_len, &triples, counts, &lists)?;
    drop(lists);
    drop(triples);
    let Some(runs) = found else {
        return Ok(None);
    };
    let out = TripleWriter::new(alloc, scratch.fresh()?, chunk_len);
    merge_triple_runs(alloc, runs.as_slice(), out)
}

/// The sections and the triples of batches.
#[derive(Drop)]
pub(crate) struct EncodedBatches<S: Scratch> {
    pub(crate) sections: FinishedSections<S>,
    pub(crate) triples: TripleTape<S>,
}

/// The sections and the triples of batches. None if the scratch does not have what was written to it.
pub(crate) fn encode_batches<S: Scratch + Drop>(
    alloc: Global,
    scratch: &mut S,
    chunk_len: usize,
    records: Vec<RecordRuns<S>>,
    triples: Vec<TripleTape<S>>,
    block_size: u32,
) -> Result<Option<EncodedBatches<S>>, S::Error>
    requires { 1 ≤ block_size }
    ensures { IfOk result (λ found. IfSome found (λ made. AreEncodedBatches S.IsKnown block_size records.items
        triples.items made.sections made.triples)) }
{
    let (runs, counts) = split_runs(alloc, records)?;
    let found = merged_records(alloc, scratch, chunk_len, &runs, block_size)?;
    let count = count_of(&runs);
    drop(runs);
    let Some(merged) = found else {
        return Ok(None);
    };
    let MergedRecords {
        sections,
        numbers,
        events,
    } = merged;
    let shared = sections.shared_len();
    let found = id_lists(alloc, scratch, chunk_len, shared, &numbers, &events, count)?;
    drop(numbers);
    drop(events);
    let Some(lists) = found else {
        return Ok(None);
    };
    let Some(triples) = merged_triples(alloc, scratch, chunk_len, triples, &counts, lists)? else {
        return Ok(None);
    };
    Ok(Some(EncodedBatches { sections, triples }))
}
