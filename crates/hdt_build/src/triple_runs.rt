//! The triples of a batch as ascending runs.
ghost use Rattle.std.specs.Prelude.{◌≡◌, ◌++◌, map, IfOk, IfSome, IsFalse, IsTrue};
ghost use Rattle.hdt_dict.specs.Strings.{SameMembers};
ghost use Rattle.hdt_build.specs.Graph.{mapped_triple};
ghost use Rattle.hdt_build.specs.Inside.TripleRuns.{joined_runs};

use crate::chunks::push_item;
use crate::number_tape::NumberTape;
use crate::scratch::Scratch;
use crate::triple_tape::{TripleTape, TripleTapeReader, TripleWriter};
use crate::triples::sort_dedup_triples;
use std::alloc::Global;

/// Appends all numbers of a list; returns whether there were so few.
fn append_numbers<S: Scratch>(
    alloc: Global,
    numbers: &NumberTape<S>,
    out: &mut Vec<u64>,
) -> Result<bool, S::Error>
    ensures { IfOk result (λ done. IsTrue done → S.IsKnown → out.new.items ≡ out.old.items ++ numbers.now) }
{
    let mut reader = numbers.reader(alloc);
    'numbers: for _ in 0..u64::MAX {
        let Some(number) = reader.next()? else {
            return Ok(true);
        };
        push_item(out, number)?;
    }
    Ok(false)
}

/// All numbers of lists, one list after another.
pub(crate) fn all_numbers<S: Scratch>(
    alloc: Global,
    lists: &[NumberTape<S>],
) -> Result<Option<Vec<u64>>, S::Error>
    ensures { IfOk result (λ found. IfSome found (λ made. S.IsKnown → made.items ≡ joined_runs lists.now)) }
{
    let mut made = Vec::new(alloc);
    for list in lists {
        if !append_numbers(alloc, list, &mut made)? {
            return Ok(None);
        }
    }
    Ok(Some(made))
}

/// Maps the components of a triple through a list; none if one of them is no index of it.
fn mapped(triple: (u64, u64, u64), ids: &[u64]) -> Option<(u64, u64, u64)>
    ensures { IfSome result (λ t. t ≡ mapped_triple ids.now ids.now ids.now triple) }
{
    let (s, p, o) = triple;
    let len = ids.len() as u64;
    if s >= len || p >= len || o >= len {
        return None;
    }
    Some((ids[s as usize], ids[p as usize], ids[o as usize]))
}

/// Replaces a list by the next triples, `most` or fewer, with their components mapped through a list, and returns
/// whether there may be more. None if a component is no index of that list.
fn take_mapped<S: Scratch>(
    reader: &mut TripleTapeReader<'_, S>,
    ids: &[u64],
    most: usize,
    part: &mut Vec<(u64, u64, u64)>,
) -> Result<Option<bool>, S::Error>
    ensures more { IfOk result (λ found. IfSome found (λ more. IsTrue more → S.IsKnown → part.new.items
        ++ map (mapped_triple ids.now ids.now ids.now) reader.new
        ≡ map (mapped_triple ids.now ids.now ids.now) reader.old)) }
    ensures last { IfOk result (λ found. IfSome found (λ more. IsFalse more → S.IsKnown
        → part.new.items ≡ map (mapped_triple ids.now ids.now ids.now) reader.old)) }
{
    part.clear();
    'triples: while part.len() < most {
        let Some(triple) = reader.next()? else {
            return Ok(Some(false));
        };
        let Some(triple) = mapped(triple, ids) else {
            return Ok(None);
        };
        push_item(part, triple)?;
    }
    Ok(Some(true))
}

/// Writes triples after others.
pub(crate) fn written<S: Scratch + Drop>(
    triples: &[(u64, u64, u64)],
    out: TripleWriter<S>,
) -> Result<TripleTape<S>, S::Error>
    ensures { IfOk result (λ made. S.IsKnown → made ≡ out ++ triples.now) }
{
    let mut writer = out;
    for triple in triples {
        writer.push(*triple)?;
    }
    writer.finish()
}

/// Appends ascending runs of the triples of a batch, whose components are indices of the batch's records, as ID
/// triples. `ids` has the IDs of the records. False if a component is no index.
pub(crate) fn push_mapped<S: Scratch + Drop>(
    alloc: Global,
    scratch: &mut S,
    chunk_len: usize,
    triples: &TripleTape<S>,
    ids: &[u64],
    runs: &mut Vec<TripleTape<S>>,
) -> Result<bool, S::Error>
    ensures { IfOk result (λ done. IsTrue done → S.IsKnown → SameMembers (joined_runs runs.new.items)
        (joined_runs runs.old.items ++ map (mapped_triple ids.now ids.now ids.now) triples.now)) }
{
    // Each triple of a run takes 24 bytes while they are sorted.
    let most = chunk_len.saturating_mul(16).max(1);
    let mut part = Vec::new(alloc);
    let mut reader = triples.reader(alloc);
    'runs: for _ in 0..u64::MAX {
        let Some(more) = take_mapped(&mut reader, ids, most, &mut part)? else {
            return Ok(false);
        };
        sort_dedup_triples(&mut part);
        let out = TripleWriter::new(alloc, scratch.fresh()?, chunk_len);
        push_item(runs, written(&part, out)?)?;
        if !more {
            return Ok(true);
        }
    }
    Ok(false)
}
