//! Building one file of several documents or files, with scratch for what does not fit into memory.
ghost use Rattle.std.specs.Prelude.{◌≡◌, ◌≢◌, ◌<◌, ◌+◌, ◌++◌, ◌∷◌, [], List, IfOk, IfErr, IsFalse, IsTrue, OnOk};
ghost use Rattle.std.specs.Prelude.{length};
ghost use Rattle.std.specs.Io.KnownBytes.{IsAtEnd};
ghost use Rattle.hdt_wire.specs.Counted.{inner, failures};
ghost use Rattle.hdt_dict.specs.Strings.{IsDictionaryString};
ghost use Rattle.hdt_file.specs.Denoted.{StringTriple};
ghost use Rattle.hdt_file.specs.Graph.{IsGraph, layout_view};
ghost use Rattle.hdt_build.specs.Built.{WritesTriples};
ghost use Rattle.hdt_build.specs.Documents.{AddsDocument, IsDocumentWith};
ghost use Rattle.hdt_build.specs.Layouts.{denoted_by};
ghost use Rattle.hdt_build.specs.Options.{AreValidOptions};
ghost use Rattle.hdt_build.specs.Reading.{IfBuildFault, IsBuild, IsBuildFaultOf, ReadFailed};
ghost use Rattle.hdt_build.specs.Relabelling.{relabelled_triples};

use crate::batch_file::write_batches;
use crate::batches::Batches;
use crate::fault::{BuildFault, ScratchFault};
use crate::layout_triples::collect_layout;
use crate::options::{Options, Report, are_valid_options};
use crate::reading::{Collector, collect_triples};
use crate::scratch::Scratch;
use hdt_file::Layout;
use hdt_wire::Counted;
use std::alloc::{AllocError, Global};
use std::io::{Read, Write};
use std::marker::Model;

/// Batches, each of which is written when it takes so much memory.
#[derive(Drop)]
struct LimitedBatches<S: Scratch> {
    batches: Batches<S>,
    /// The limit of [`Batches::memory`] in bytes.
    limit: usize,
}

/// Writes the current batch.
fn flush<S: Scratch + Drop>(batches: &mut Batches<S>) -> Result<(), ScratchFault<S::Error>>
    ensures same { OnOk result (S.IsKnown → batches.new ≡ batches.old) }
    ensures memory { IfErr result (IfBuildFault (λ e. e ≡ BuildFault.OutOfMemory)) }
{
    match batches.flush() {
        Ok(true) => Ok(()),
        Ok(false) => Err(ScratchFault::Damaged),
        Err(error) => Err(ScratchFault::Scratch(error)),
    }
}

/// Adds the triples of a file, as [`Batches::add_file`] does.
fn add_file<S: Scratch + Drop>(
    alloc: Global,
    prefix: &[u8],
    layout: &Layout<'_>,
    batches: &mut Batches<S>,
) -> Result<bool, ScratchFault<S::Error>>
    requires { IsGraph (layout_view layout.now) }
    ensures added { IfOk result (λ done. IsTrue done → S.IsKnown
        → batches.new ≡ batches.old ++ relabelled_triples prefix.now (denoted_by (layout_view layout.now))) }
    ensures none { IfOk result (λ done. IsFalse done → S.IsKnown → batches.new ≡ batches.old) }
    ensures memory { IfErr result (IfBuildFault (λ e. e ≡ BuildFault.OutOfMemory)) }
{
    match batches.add_file(alloc, prefix, layout) {
        Ok(added) => Ok(added),
        Err(error) => Err(ScratchFault::Scratch(error)),
    }
}

impl<S: Scratch + Drop> Collector for LimitedBatches<S> {
    type Error = S::Error;

    ghost IsKnown = { S.IsKnown };

    ghost IsSound = { λ _. Unit {0} };

    ghost triples = { λ b. b.batches };

    fn collect(
        &mut self,
        _alloc: Global,
        s: &[u8],
        p: &[u8],
        o: &[u8],
    ) -> Result<(), ScratchFault<S::Error>> {
        self.batches.add(s, p, o)?;
        if self.batches.memory() < self.limit {
            return Ok(());
        }
        flush(&mut self.batches)
    }
}

/// The number of batches from which on files are added in windows. A file that is one batch has up to six lists of
/// records, and each list that is read has a chunk in memory.
const MAX_FILE_BATCHES: usize = 64;

/// Adds the triples of a file in windows.
fn in_windows<S: Scratch + Drop>(
    alloc: Global,
    prefix: &[u8],
    layout: &Layout<'_>,
    memory: usize,
    batches: Batches<S>,
) -> Result<Batches<S>, ScratchFault<S::Error>>
    requires { IsGraph (layout_view layout.now) }
    ensures added { IfOk result (λ made. S.IsKnown
        → made ≡ batches ++ relabelled_triples prefix.now (denoted_by (layout_view layout.now))) }
    ensures memory { IfErr result (IfBuildFault (λ e. e ≡ BuildFault.OutOfMemory)) }
{
    let limit = memory / 2;
    let mut limited = LimitedBatches { batches, limit };
    collect_layout(alloc, prefix, layout, memory, &mut limited)?;
    let LimitedBatches { batches, limit: _ } = limited;
    Ok(batches)
}

/// Adds the triples of a file: as one batch, or else in windows.
fn with_file<S: Scratch + Drop>(
    alloc: Global,
    prefix: &[u8],
    layout: &Layout<'_>,
    memory: usize,
    batches: Batches<S>,
) -> Result<Batches<S>, ScratchFault<S::Error>>
    requires { IsGraph (layout_view layout.now) }
    ensures added { IfOk result (λ made. S.IsKnown
        → made ≡ batches ++ relabelled_triples prefix.now (denoted_by (layout_view layout.now))) }
    ensures memory { IfErr result (IfBuildFault (λ e. e ≡ BuildFault.OutOfMemory)) }
{
    if batches.count() >= MAX_FILE_BATCHES {
        return in_windows(alloc, prefix, layout, memory, batches);
    }
    let mut batches = batches;
    flush(&mut batches)?;
    if add_file(alloc, prefix, layout, &mut batches)? {
        return Ok(batches);
    }
    in_windows(alloc, prefix, layout, memory, batches)
}

/// The length of a chunk of scratch in bytes, given the memory. Each chunk has an entry in a table in memory, and each
/// batch that is read has a chunk there: with these lengths both take little.
fn chunk_len(memory: usize) -> usize {
    (memory / 1024).clamp(16, 16_384)
}

/// Builds the file of N-Triples documents and HDT files that are added one after another, as
/// [`DocumentBuilder`](crate::DocumentBuilder) and [`Merger`](crate::Merger) do, but with scratch for what does not fit
/// into memory. In contracts it is the list of the triples.
#[derive(Drop)]
pub struct ScratchBuilder<S: Scratch> {
    batches: Batches<S>,
    memory: usize,
}

impl<S: Scratch> Model for ScratchBuilder<S> {
    ghost use Rattle.std.specs.Prelude.{List};
    ghost use Rattle.hdt_file.specs.Denoted.{StringTriple};
    ghost use Rattle.hdt_build.specs.Reading.{HasDictionaryStrings};

    ghost Value = { List StringTriple };

    ghost view = { λ b. b.batches };

    ghost invariant = { λ b. S.IsKnown → HasDictionaryStrings b.batches };
}

impl<S: Scratch + Drop> ScratchBuilder<S> {
    /// A builder without triples. It is to use about so many bytes of memory, and `scratch` for what does not fit.
    pub fn new(alloc: Global, memory: usize, scratch: S) -> Result<ScratchBuilder<S>, AllocError>
        ensures { IfOk result (λ made. made ≡ []) }
    {
        let batches = Batches::new(alloc, scratch, chunk_len(memory))?;
        Ok(ScratchBuilder { batches, memory })
    }

    /// Adds the triples of an N-Triples document of up to 2^63 - 1 bytes, with `prefix` before the label of each blank
    /// node, and returns whether it has any. The prefix is UTF-8 without zero bytes. With an empty one a label is the
    /// same node as in what was added before; a prefix of its own keeps the document's nodes apart. After an error the
    /// builder is dropped. Time: one pass over the lines, and sorting each batch of triples.
    ///
    /// # Errors
    ///
    /// Those of the lines, as [`ScratchFault::Build`]; those of the scratch.
    pub fn with_document<R: Read>(
        self,
        alloc: Global,
        prefix: &[u8],
        input: &mut Counted<R>,
    ) -> Result<(ScratchBuilder<S>, bool), ScratchFault<S::Error>>
        requires { IsDictionaryString prefix.now }
        // If the contents of scratch are known, the triples of the document were added.
        ensures added { IfOk result (λ made. S.IsKnown → AddsDocument prefix.now (R.remaining (inner input.old)) self
            made.0 made.1) }
        // The input is a document; the reader is at its end.
        ensures document { IfOk result (λ made. IsDocumentWith (R.remaining (inner input.old)) made.1) }
        ensures end { OnOk result (IsAtEnd (R.remaining (inner input.new))) }
        // An error of building is the first one of the input: of a line, or out of memory.
        ensures fault { IfErr result (IfBuildFault (IsBuildFaultOf (R.remaining (inner input.old))
            (R.remaining (inner input.new)))) }
        ensures some { IfErr result (IfBuildFault (λ e. e ≢ BuildFault.NoTriples)) }
        // The reader failed in this call, once, if the error says so; else it has not failed.
        ensures read { IfErr result (λ e. IsBuild ReadFailed e → failures input.new ≡ failures input.old + 1) }
        ensures reader_reported { IfErr result (λ e. (IsBuild ReadFailed e → ⊥)
            → failures input.new ≡ failures input.old) }
        ensures reader_unfailed { OnOk result (failures input.new ≡ failures input.old) }
    {
        let ScratchBuilder { batches, memory } = self;
        let limited = LimitedBatches {
            batches,
            limit: memory / 2,
        };
        let (limited, has_blank_nodes) = collect_triples(alloc, prefix, input, limited)?;
        let LimitedBatches { batches, limit: _ } = limited;
        Ok((ScratchBuilder { batches, memory }, has_blank_nodes))
    }

    /// Adds the triples of a file, with `prefix` before the label of each blank node, as
    /// [`Merger::with_prefix`](crate::Merger::with_prefix) does. The layout is one that `Layout::read` of hdt_file
    /// returned: `layouts_are_graphs` says that it is a graph. It is not needed after the call. The prefix is UTF-8
    /// without zero bytes. After an error the builder is dropped.
    ///
    /// Time: one pass over the strings and the triples, if each string is used and there are fewer than 64 batches;
    /// later each part of the triples is sorted. Else the triples are read in windows of at most memory / 512 triples,
    /// or fewer if their strings are long. For each window the blocks that its strings are in are decoded, each once,
    /// and its IDs are sorted; so a window takes at most the time of decoding all strings. Each batch of triples is
    /// sorted.
    ///
    /// # Errors
    ///
    /// [`BuildFault::OutOfMemory`], as [`ScratchFault::Build`]; those of the scratch.
    pub fn with_layout(
        self,
        alloc: Global,
        prefix: &[u8],
        layout: &Layout<'_>,
    ) -> Result<ScratchBuilder<S>, ScratchFault<S::Error>>
        requires prefix { IsDictionaryString prefix.now }
        requires graph { IsGraph (layout_view layout.now) }
        // If the contents of scratch are known, the triples of the file were added, and there is at least one.
        ensures added { IfOk result (λ made. S.IsKnown
            → made ≡ self ++ relabelled_triples prefix.now (denoted_by (layout_view layout.now))) }
        ensures some { IfOk result (λ made. S.IsKnown → 0 < length made) }
        // The only error of building is that memory ran out.
        ensures fault { IfErr result (IfBuildFault (λ e. e ≡ BuildFault.OutOfMemory)) }
    {
        let ScratchBuilder { batches, memory } = self;
        let batches = with_file(alloc, prefix, layout, memory, batches)?;
        Ok(ScratchBuilder { batches, memory })
    }

    /// Returns whether there are no triples.
    pub fn is_empty(&self) -> bool
        ensures none { IsTrue result → self.now ≡ [] }
        ensures some { IsFalse result → S.IsKnown → 0 < length self.now }
    {
        self.batches.is_empty()
    }

    /// Writes the canonical file of all triples in pieces: the one that [`DocumentBuilder`](crate::DocumentBuilder)
    /// makes of the same documents, and [`Merger`](crate::Merger) of the same files. There must be a triple. Returns
    /// the writer and the counts of the file. After an error what was written is no file, and the writer is dropped.
    ///
    /// # Errors
    ///
    /// [`BuildFault::BadOptions`] if the block size is not 1 to 65,535, or the base is not an absolute IRI, with
    /// nothing written; [`BuildFault::Write`] if the writer failed, with the number of bytes that were written;
    /// [`BuildFault::OutOfMemory`]; those of the scratch.
    pub fn finish<W: Write + Drop>(
        self,
        alloc: Global,
        options: &Options,
        out: Counted<W>,
    ) -> Result<(Counted<W>, Report), ScratchFault<S::Error>>
        // There is at least one triple.
        requires { S.IsKnown → 0 < length self }
        // If the contents of scratch are known, the canonical file of all triples under the options was written.
        ensures written { IfOk result (λ made. S.IsKnown
            → WritesTriples options.now self (W.contents (inner out)) (W.contents (inner made.0)) made.1) }
        // The writer has not failed.
        ensures writer_unfailed { IfOk result (λ made. S.IsKnown → failures made.0 ≡ failures out) }
        // The options are valid, or this is the error.
        ensures right { OnOk result (AreValidOptions options.now) }
        ensures bad { (AreValidOptions options.now → ⊥)
            → IfErr result (λ e. e ≡ ScratchFault.Build BuildFault.BadOptions) }
    {
        if !are_valid_options(options) {
            return Err(ScratchFault::Build(BuildFault::BadOptions));
        }
        let ScratchBuilder { batches, memory } = self;
        let mut batches = batches;
        flush(&mut batches)?;
        write_batches(alloc, batches, chunk_len(memory), options, out)
    }
}
