//! The triples of a file as one batch.
ghost use Rattle.std.specs.Prelude.{◌≡◌, ◌<◌, ◌+◌, ◌^◌, ◌++◌, [], ℕ, false, true, length, map, slice_index_or};
ghost use Rattle.std.specs.Prelude.{IfOk, IfSome, IsTrue, OnOk};
ghost use Rattle.hdt_dict.specs.Dictionary.{role_strings};
ghost use Rattle.hdt_file.specs.Graph.{IsGraph, layout_view};
ghost use Rattle.hdt_build.specs.Inside.Batches.{IsBatchOf, IsUsedIndex, indices_of, record_triple, records_of};
ghost use Rattle.hdt_build.specs.Inside.Records.{record_of};
ghost use Rattle.hdt_build.specs.Layouts.{denoted_by};
ghost use Rattle.hdt_build.specs.Relabelling.{relabelled, relabelled_triples};
ghost use Rattle.hdt_wire.specs.declared.Role.TheVariants as roles;

use crate::batches::put_record;
use crate::merged_triples::ANY;
use crate::record_runs::RecordRuns;
use crate::role_flags::set_flag;
use crate::scratch::Scratch;
use crate::string_tape::StringWriter;
use crate::triple_tape::{TripleTape, TripleWriter};
use crate::window_strings::relabel;
use hdt_dict::Role;
use hdt_file::Layout;
use std::alloc::{AllocError, Global};

/// Replaces `out` by the record of a string with the prefix before its label.
fn put_relabelled(
    alloc: Global,
    prefix: &[u8],
    role: Role,
    string: &[u8],
    text: &mut Vec<u8>,
    out: &mut Vec<u8>,
) -> Result<(), AllocError>
    ensures { OnOk result (out.new.items ≡ record_of role (relabelled prefix.now string.now)) }
{
    text.clear();
    text.extend_from_slice(string)?;
    relabel(alloc, prefix, text)?;
    put_record(text, role, out)
}

/// The run of the next record: a new one if a section begins with it, and then the other one is added to the list.
fn run_from<S: Scratch + Drop>(
    alloc: Global,
    scratch: &mut S,
    chunk_len: usize,
    run: StringWriter<S>,
    begins: bool,
    runs: &mut RecordRuns<S>,
) -> Result<StringWriter<S>, S::Error>
    ensures { IfOk result (λ next. S.IsKnown → runs.new ++ next ≡ runs.old ++ run) }
{
    if !begins {
        return Ok(run);
    }
    runs.push(run.finish()?)?;
    Ok(StringWriter::new(alloc, scratch.fresh()?, chunk_len))
}

/// Writes the records of a role, with the prefix before the labels of their strings, a run for each section. The runs
/// ascend, as the strings of a section do: those that begin with `_:` stay together, in their order.
fn write_records<S: Scratch + Drop>(
    alloc: Global,
    prefix: &[u8],
    layout: &Layout<'_>,
    role: Role,
    scratch: &mut S,
    chunk_len: usize,
    runs: &mut RecordRuns<S>,
) -> Result<(), S::Error>
    ensures { OnOk result (S.IsKnown
        → runs.new ≡ runs.old ++ records_of prefix.now (layout_view layout.now) role) }
{
    let [_, shared, _, _, _] = layout.lens();
    let mut text = Vec::new(alloc);
    let mut record = Vec::new(alloc);
    let mut run = StringWriter::new(alloc, scratch.fresh()?, chunk_len);
    let mut strings = layout.strings(alloc, role);
    'strings: while let Some(id) = strings.next()? {
        let begins = id.saturating_sub(1) == shared;
        run = run_from(alloc, scratch, chunk_len, run, begins, runs)?;
        put_relabelled(
            alloc,
            prefix,
            role,
            strings.string(),
            &mut text,
            &mut record,
        )?;
        run.push(&record)?;
    }
    runs.push(run.finish()?)?;
    Ok(())
}

/// The index of the record of each ID of a triple: first those of the predicates, then the subjects, then the objects.
fn indices(predicates: u64, subjects: u64, triple: (u64, u64, u64)) -> (u64, u64, u64)
    ensures { result ≡ indices_of predicates subjects triple }
{
    let (s, p, o) = triple;
    (
        predicates.wrapping_add(s.wrapping_sub(1)),
        p.wrapping_sub(1),
        predicates
            .wrapping_add(subjects)
            .wrapping_add(o.wrapping_sub(1)),
    )
}

/// Whether all flags are set.
fn are_set(flags: &[bool]) -> bool
    ensures { IsTrue result → (k : ℕ) → k < length flags.now → slice_index_or flags.now k false ≡ true }
{
    for at in 0..flags.len() {
        if !flags[at] {
            return false;
        }
    }
    true
}

/// Writes the triples of a file, as indices of `count` records. None if one of the records is not used.
fn write_triples<S: Scratch + Drop>(
    alloc: Global,
    layout: &Layout<'_>,
    count: usize,
    out: TripleWriter<S>,
) -> Result<Option<TripleTape<S>>, S::Error>
    requires { S.IsKnown → out ≡ [] }
    ensures is { IfOk result (λ found. IfSome found (λ made. S.IsKnown
        → made ≡ map (indices_of (length (role_strings (layout_view layout.now).dictionary roles.Predicate))
        (length (role_strings (layout_view layout.now).dictionary roles.Subject))) (layout_view layout.now).triples)) }
    ensures used { IfOk result (λ found. IfSome found (λ made. S.IsKnown
        → (k : ℕ) → k < count → IsUsedIndex made k)) }
{
    let predicates = layout.count(Role::Predicate);
    let subjects = layout.count(Role::Subject);
    let mut out = out;
    let mut used = Vec::from_elem(alloc, false, count)?;
    let mut matches = layout.search(ANY);
    'triples: while let Some(triple) = matches.next() {
        let (s, p, o) = indices(predicates, subjects, triple);
        set_flag(&mut used, s);
        set_flag(&mut used, p);
        set_flag(&mut used, o);
        out.push((s, p, o))?;
    }
    if !are_set(&used) {
        return Ok(None);
    }
    Ok(Some(out.finish()?))
}

/// The number of the strings of all roles; an error if there are too many for the processor.
fn record_count(layout: &Layout<'_>) -> Result<usize, AllocError>
    ensures is { IfOk result (λ n. n
        ≡ length (role_strings (layout_view layout.now).dictionary roles.Predicate)
        + length (role_strings (layout_view layout.now).dictionary roles.Subject)
        + length (role_strings (layout_view layout.now).dictionary roles.Object)) }
    ensures fits { IfOk result (λ n. n < 2 ^ 64) }
{
    let predicates = layout.count(Role::Predicate);
    let subjects = layout.count(Role::Subject);
    let objects = layout.count(Role::Object);
    let Some(nodes) = predicates.checked_add(subjects) else {
        return Err(AllocError);
    };
    match nodes.checked_add(objects) {
        Some(count) => Ok(count as usize),
        None => Err(AllocError),
    }
}

/// The records of a file, with the prefix before the labels of their strings, and its triples as indices of them. None
/// if the file has a string that no triple uses.
pub(crate) fn file_batch<S: Scratch + Drop>(
    alloc: Global,
    prefix: &[u8],
    layout: &Layout<'_>,
    scratch: &mut S,
    chunk_len: usize,
) -> Result<Option<(RecordRuns<S>, TripleTape<S>)>, S::Error>
    requires { IsGraph (layout_view layout.now) }
    ensures { IfOk result (λ found. IfSome found (λ made. S.IsKnown → IsBatchOf (map record_triple
        (relabelled_triples prefix.now (denoted_by (layout_view layout.now)))) made.0 made.1)) }
{
    let count = record_count(layout)?;
    let out = TripleWriter::new(alloc, scratch.fresh()?, chunk_len);
    let Some(triples) = write_triples(alloc, layout, count, out)? else {
        return Ok(None);
    };
    let mut runs = RecordRuns::new(alloc);
    write_records(
        alloc,
        prefix,
        layout,
        Role::Predicate,
        scratch,
        chunk_len,
        &mut runs,
    )?;
    write_records(
        alloc,
        prefix,
        layout,
        Role::Subject,
        scratch,
        chunk_len,
        &mut runs,
    )?;
    write_records(
        alloc,
        prefix,
        layout,
        Role::Object,
        scratch,
        chunk_len,
        &mut runs,
    )?;
    Ok(Some((runs, triples)))
}
