//! Triples in batches on scratch.
ghost use Rattle.std.specs.Prelude.{◌≡◌, ◌<◌, ◌++◌, ◌∷◌, [], ℕ, List, length, IfOk, IfSome, IsFalse, IsTrue, OnOk};
ghost use Rattle.hdt_triples.specs.TripleSequences.{Triple};
ghost use Rattle.hdt_file.specs.Graph.{IsGraph, layout_view};
ghost use Rattle.hdt_build.specs.Inside.Batches.{AreBatches, IsBatchOf, IsUsedIndex};
ghost use Rattle.hdt_build.specs.Inside.Collecting.{IsValidCollector, collected_triples};
ghost use Rattle.hdt_build.specs.Inside.Filtering.{AreFlagsOfRoles};
ghost use Rattle.hdt_build.specs.Inside.Records.{record_of};
ghost use Rattle.hdt_build.specs.Layouts.{denoted_by};
ghost use Rattle.hdt_build.specs.Relabelling.{relabelled_triples};

use crate::chunks::{fail_if, push_item};
use crate::collector::TripleCollector;
use crate::dedup::dedup_strings;
use crate::file_batch::file_batch;
use crate::packed_strings::PackedStrings;
use crate::record_runs::RecordRuns;
use crate::role_flags::{RoleFlags, flags_of_slice};
use crate::scratch::Scratch;
use crate::string_tape::{StringTape, StringWriter};
use crate::triple_runs::written;
use crate::triple_tape::{TripleTape, TripleWriter};
use crate::triples::map_ids;
use hdt_dict::Role;
use hdt_file::Layout;
use std::alloc::{AllocError, Global};
use std::marker::Model;
use std::mem;

/// Replaces `out` by the record of a string with a role.
#[tactic(auto, using(std::proofs::Common::append_assoc))]
pub(crate) fn put_record(text: &[u8], role: Role, out: &mut Vec<u8>) -> Result<(), AllocError>
    ensures { OnOk result (out.new.items ≡ record_of role text.now) }
{
    let number = match role {
        Role::Predicate => 1,
        Role::Object => 2,
        Role::Subject => 3,
    };
    out.clear();
    out.extend_from_slice(text)?;
    out.push(0)?;
    out.push(number)?;
    Ok(())
}

/// Whether an index has a flag in some role.
fn has_flag(flags: &RoleFlags, at: usize) -> bool
    requires subjects { at < length flags.now.subjects.items }
    requires predicates { at < length flags.now.predicates.items }
    requires objects { at < length flags.now.objects.items }
    ensures { IsTrue result → (ids : List Triple) (n : ℕ) → AreFlagsOfRoles ids n flags.now → IsUsedIndex ids at }
{
    if flags.subjects[at] {
        return true;
    }
    if flags.predicates[at] {
        return true;
    }
    flags.objects[at]
}

/// Whether triples have each index less than `count`.
fn are_all_used(
    alloc: Global,
    triples: &[(u64, u64, u64)],
    count: usize,
) -> Result<bool, AllocError>
    ensures { IfOk result (λ all. IsTrue all → (k : ℕ) → k < count → IsUsedIndex triples.now k) }
{
    let flags = flags_of_slice(alloc, triples, count)?;
    for at in 0..count {
        if !has_flag(&flags, at) {
            return Ok(false);
        }
    }
    Ok(true)
}

/// The records of a batch in ascending order, each once, and its triples as indices of them. None if a record is not
/// used, which is not reached. No proof says so.
fn sorted_batch(
    alloc: Global,
    collector: TripleCollector,
) -> Result<Option<(PackedStrings, Vec<(u64, u64, u64)>)>, AllocError>
    requires { IsValidCollector collector }
    ensures { IfOk result
        (λ found. IfSome found (λ made. IsBatchOf (collected_triples collector) made.0 made.1.items)) }
{
    let (list, mut triples) = collector.into_parts(alloc)?;
    let (records, ranks) = dedup_strings(alloc, &list)?;
    drop(list);
    let indices = ranks.as_slice();
    map_ids(&mut triples, indices, indices, indices);
    if !are_all_used(alloc, triples.as_slice(), records.len())? {
        return Ok(None);
    }
    Ok(Some((records, triples)))
}

/// Writes strings after others.
fn written_strings<S: Scratch + Drop>(
    alloc: Global,
    strings: &PackedStrings,
    out: StringWriter<S>,
) -> Result<StringTape<S>, S::Error>
    ensures { IfOk result (λ made. S.IsKnown → made ≡ out ++ strings.now) }
{
    let mut writer = out;
    let mut reader = strings.reader(alloc);
    'strings: while reader.next()? {
        writer.push(reader.text())?;
    }
    writer.finish()
}

/// Writes a batch: its records and its triples. None if a record is not used, which is not reached.
fn written_batch<S: Scratch + Drop>(
    alloc: Global,
    collector: TripleCollector,
    scratch: &mut S,
    chunk_len: usize,
) -> Result<Option<(RecordRuns<S>, TripleTape<S>)>, S::Error>
    requires { IsValidCollector collector }
    ensures { IfOk result (λ found. IfSome found
        (λ made. S.IsKnown → IsBatchOf (collected_triples collector) made.0 made.1)) }
{
    let Some((records, triples)) = sorted_batch(alloc, collector)? else {
        return Ok(None);
    };
    let out = StringWriter::new(alloc, scratch.fresh()?, chunk_len);
    let mut runs = RecordRuns::new(alloc);
    runs.push(written_strings(alloc, &records, out)?)?;
    let out = TripleWriter::new(alloc, scratch.fresh()?, chunk_len);
    let triples = written(triples.as_slice(), out)?;
    Ok(Some((runs, triples)))
}

/// The triples so far. In contracts it is the list of them; after an error it is empty.
#[derive(Drop)]
pub(crate) struct Batches<S: Scratch> {
    alloc: Global,
    /// It gives the scratch of each list.
    scratch: S,
    /// The least length of a chunk in bytes, but for the last one of a list.
    chunk_len: usize,
    /// The current batch: triples of records.
    collector: TripleCollector,
    /// The records of each finished batch.
    records: Vec<RecordRuns<S>>,
    /// The triples of each finished batch, as indices of its records.
    triples: Vec<TripleTape<S>>,
    /// The records of a triple.
    subject: Vec<u8>,
    predicate: Vec<u8>,
    object: Vec<u8>,
    /// Whether a call failed. Then each later one fails.
    has_failed: bool,
}

impl<S: Scratch> Model for Batches<S> {
    ghost use Rattle.std.specs.Prelude.{◌≡◌, ◌++◌, [], List, cond, false};
    ghost use Rattle.hdt_file.specs.Denoted.{StringTriple};
    ghost use Rattle.hdt_build.specs.Inside.Batches.{HaveRecords, batch_triples, plain_triples};
    ghost use Rattle.hdt_build.specs.Inside.Collecting.{collected_triples};

    ghost Value = { List StringTriple };

    ghost view = { λ b. cond b.has_failed [] (plain_triples (batch_triples b.records.items b.triples.items)
        ++ plain_triples (collected_triples b.collector)) };

    ghost invariant = { λ b. b.has_failed ≡ false
        → HaveRecords S.IsKnown b.records.items b.triples.items b.collector };
}

impl<S: Scratch + Drop> Batches<S> {
    /// No triples. Each list on scratch has chunks of at least so many bytes, but for its last one.
    pub(crate) fn new(alloc: Global, scratch: S, chunk_len: usize) -> Result<Batches<S>, AllocError>
        ensures { IfOk result (λ made. made ≡ []) }
    {
        Ok(Batches {
            alloc,
            scratch,
            chunk_len,
            collector: TripleCollector::new(alloc)?,
            records: Vec::new(alloc),
            triples: Vec::new(alloc),
            subject: Vec::new(alloc),
            predicate: Vec::new(alloc),
            object: Vec::new(alloc),
            has_failed: false,
        })
    }

    /// Adds a triple to the current batch. After an error each later call fails.
    pub(crate) fn add(&mut self, s: &[u8], p: &[u8], o: &[u8]) -> Result<(), AllocError>
        ensures { OnOk result (self.new ≡ self.old ++ (s.now, p.now, o.now) ∷ []) }
    {
        fail_if(self.has_failed)?;
        self.has_failed = true;
        put_record(s, Role::Subject, &mut self.subject)?;
        put_record(p, Role::Predicate, &mut self.predicate)?;
        put_record(o, Role::Object, &mut self.object)?;
        let (s, p, o) = (
            self.subject.as_slice(),
            self.predicate.as_slice(),
            self.object.as_slice(),
        );
        self.collector.add(self.alloc, s, p, o)?;
        self.has_failed = false;
        Ok(())
    }

    /// Whether there are no triples.
    pub(crate) fn is_empty(&self) -> bool
        ensures none { IsTrue result → self.now ≡ [] }
        ensures some { IsFalse result → S.IsKnown → 0 < length self.now }
    {
        if self.has_failed {
            return true;
        }
        if !self.records.is_empty() {
            return false;
        }
        self.collector.is_empty()
    }

    /// The number of finished batches.
    pub(crate) fn count(&self) -> usize {
        self.records.len()
    }

    /// An estimate of the bytes that the current batch takes, also while it is sorted.
    pub(crate) fn memory(&self) -> usize {
        self.collector.memory()
    }

    /// The scratch, and the records and the triples of each batch. None if there are triples that were not flushed, or
    /// after an error.
    pub(crate) fn into_parts(self) -> Option<(S, Vec<RecordRuns<S>>, Vec<TripleTape<S>>)>
        ensures { IfSome result (λ made. S.IsKnown → AreBatches made.1.items made.2.items self) }
    {
        let Batches {
            alloc: _,
            scratch,
            chunk_len: _,
            collector,
            records,
            triples,
            subject: _,
            predicate: _,
            object: _,
            has_failed,
        } = self;
        if has_failed {
            return None;
        }
        if !collector.is_empty() {
            return None;
        }
        Some((scratch, records, triples))
    }

    /// Writes the current batch, and begins a new one. False if it has a record that is not used, which is not reached.
    pub(crate) fn flush(&mut self) -> Result<bool, S::Error>
        ensures { IfOk result (λ done. IsTrue done → S.IsKnown → self.new ≡ self.old) }
    {
        fail_if(self.has_failed)?;
        if self.collector.is_empty() {
            return Ok(true);
        }
        self.has_failed = true;
        let next = TripleCollector::new(self.alloc)?;
        let collector = mem::replace(&mut self.collector, next);
        let Some((records, triples)) = written_batch(
            self.alloc,
            collector,
            &mut self.scratch,
            self.chunk_len,
        )?
        else {
            return Ok(false);
        };
        push_item(&mut self.records, records)?;
        push_item(&mut self.triples, triples)?;
        self.has_failed = false;
        Ok(true)
    }

    /// Adds the triples of a file as a batch, with the prefix before the labels of their strings. Returns false, with
    /// no triple added, if the file has a string that no triple uses, or if there are triples that were not flushed.
    pub(crate) fn add_file(
        &mut self,
        alloc: Global,
        prefix: &[u8],
        layout: &Layout<'_>,
    ) -> Result<bool, S::Error>
        requires { IsGraph (layout_view layout.now) }
        ensures added { IfOk result (λ done. IsTrue done → S.IsKnown
            → self.new ≡ self.old ++ relabelled_triples prefix.now (denoted_by (layout_view layout.now))) }
        ensures none { IfOk result (λ done. IsFalse done → S.IsKnown → self.new ≡ self.old) }
    {
        fail_if(self.has_failed)?;
        if !self.collector.is_empty() {
            return Ok(false);
        }
        self.has_failed = true;
        let found = file_batch(alloc, prefix, layout, &mut self.scratch, self.chunk_len)?;
        if let Some((records, triples)) = found {
            push_item(&mut self.records, records)?;
            push_item(&mut self.triples, triples)?;
            self.has_failed = false;
            return Ok(true);
        }
        self.has_failed = false;
        Ok(false)
    }
}
