//! Building a file from N-Triples.
ghost use Rattle.std.specs.Prelude.{◌≡◌, ◌≢◌, ◌<◌, ◌+◌, ◌↔◌, ℕ, length, IfOk, IfErr, OnOk, IsErrOf};
ghost use Rattle.std.specs.Io.KnownBytes.{IsAtEnd};
ghost use Rattle.hdt_wire.specs.Counted.{inner, failures};
ghost use Rattle.hdt_build.specs.Built.{IsBuilt, Builds, WritesBuilt, WritesBuiltPrefix};
ghost use Rattle.hdt_build.specs.Inside.Collecting.{collected_triples, IsValidCollector};
ghost use Rattle.hdt_build.specs.Options.{AreValidOptions};
ghost use Rattle.hdt_build.specs.Reading.{HasDictionaryStrings, IsBuildFaultOf, ReadFailed};

use crate::collector::TripleCollector;
use crate::encoding::encode_graph;
use crate::fault::BuildFault;
use crate::file::encode_file;
use crate::header::header_body;
use crate::options::{Options, Report, are_valid_options};
use crate::reading::read_triples;
use hdt_wire::Counted;
use std::alloc::{AllocError, Global};
use std::io::{Read, Write};

/// Encodes the graph of collected triples as its canonical file; returns the bytes and the counts.
pub(crate) fn built(
    alloc: Global,
    collector: TripleCollector,
    options: &Options,
) -> Result<(Vec<u8>, Report), AllocError>
    requires sound { IsValidCollector collector }
    requires texts { HasDictionaryStrings (collected_triples collector) }
    requires some { 0 < length (collected_triples collector) }
    requires right { AreValidOptions options.now }
    ensures { IfOk result (λ made. IsBuilt options.now (collected_triples collector) made.0.items made.1) }
{
    let (list, ids) = collector.into_parts(alloc)?;
    let encoded = encode_graph(alloc, list, ids, options.block_size)?;
    let header = header_body(alloc, options.base.as_slice(), encoded.triples.len() as u64)?;
    encode_file(alloc, header.as_slice(), encoded)
}

/// Builds the canonical file of an N-Triples document's graph in memory. Returns its bytes and its counts. The input
/// may have up to 2^63 - 1 bytes. The order of the lines, duplicates and comments make no difference.
///
/// Time: one pass over the lines, and sorting the strings and the triples, whatever the strings are. Memory: each
/// distinct string once for all roles (again if the cache loses it) with some 50 bytes of overhead; 24 bytes for the
/// triple of each line; the sections; and the file.
///
/// ```rust
/// let document: &[u8] = b"<http://a/s> <http://a/p> \"one\"@en .\n";
/// let mut input = Counted::new(document);
/// let (bytes, report) = build_bytes(alloc, &mut input, &options)?;
/// ```
///
/// # Errors
///
/// [`BuildFault::BadOptions`], before anything is read; then those of the lines, and [`BuildFault::NoTriples`];
/// [`BuildFault::OutOfMemory`] only if memory ran out. Never [`BuildFault::Write`].
pub fn build_bytes<R: Read>(
    alloc: Global,
    input: &mut Counted<R>,
    options: &Options,
) -> Result<(Vec<u8>, Report), BuildFault>
    // The input is a document; this is the canonical file of its graph under the options, and its counts.
    ensures found { IfOk result (λ made. Builds options.now (R.remaining (inner input.old)) made.0.items made.1) }
    // The options are valid, and the reader is at its end.
    ensures right { OnOk result (AreValidOptions options.now) }
    ensures end { OnOk result (IsAtEnd (R.remaining (inner input.new))) }
    // BadOptions is returned exactly if the options are not valid, and then nothing was read.
    ensures bad { IsErrOf result BuildFault.BadOptions ↔ (AreValidOptions options.now → ⊥) }
    ensures unread { IsErrOf result BuildFault.BadOptions → input.new ≡ input.old }
    // Any other error is the first one of the input.
    ensures fault { IfErr result (λ e. e ≢ BuildFault.BadOptions
        → IsBuildFaultOf (R.remaining (inner input.old)) (R.remaining (inner input.new)) e) }
    // The reader failed in this call, once, if the error says so; else it has not failed.
    ensures read { IfErr result (λ e. ReadFailed e → failures input.new ≡ failures input.old + 1) }
    ensures reader_reported { IfErr result (λ e. (ReadFailed e → ⊥) → failures input.new ≡ failures input.old) }
    ensures reader_unfailed { OnOk result (failures input.new ≡ failures input.old) }
{
    if !are_valid_options(options) {
        return Err(BuildFault::BadOptions);
    }
    let empty = TripleCollector::new(alloc)?;
    let (collector, _) = read_triples(alloc, &[], input, empty)?;
    if collector.is_empty() {
        return Err(BuildFault::NoTriples);
    }
    Ok(built(alloc, collector, options)?)
}

/// Builds the canonical file of an N-Triples document's graph, as [`build_bytes`] does, and then writes it. Nothing is
/// written before the file is complete in memory.
///
/// # Errors
///
/// Those of [`build_bytes`], with nothing written; [`BuildFault::Write`] if the writer failed, with the number of bytes
/// that were written.
pub fn build<R: Read, W: Write>(
    alloc: Global,
    input: &mut Counted<R>,
    out: &mut Counted<W>,
    options: &Options,
) -> Result<Report, BuildFault>
    // The input is a document, and the canonical file of its graph under the options was written.
    ensures written { IfOk result
        (WritesBuilt options.now (R.remaining (inner input.old)) (W.contents (inner out.old))
        (W.contents (inner out.new))) }
    // The options are valid, and the reader is at its end.
    ensures right { OnOk result (AreValidOptions options.now) }
    ensures end { OnOk result (IsAtEnd (R.remaining (inner input.new))) }
    // BadOptions is returned exactly if the options are not valid, and then nothing was read.
    ensures bad { IsErrOf result BuildFault.BadOptions ↔ (AreValidOptions options.now → ⊥) }
    ensures unread { IsErrOf result BuildFault.BadOptions → input.new ≡ input.old }
    // Any other error, except a failed write, is the first one of the input.
    ensures fault { IfErr result (λ e. e ≢ BuildFault.BadOptions → ((n : ℕ) → e ≢ BuildFault.Write n)
        → IsBuildFaultOf (R.remaining (inner input.old)) (R.remaining (inner input.new)) e) }
    // The reader failed in this call, once, if the error says so; else it has not failed.
    ensures read { IfErr result (λ e. ReadFailed e → failures input.new ≡ failures input.old + 1) }
    ensures reader_reported { IfErr result (λ e. (ReadFailed e → ⊥) → failures input.new ≡ failures input.old) }
    ensures reader_unfailed { OnOk result (failures input.new ≡ failures input.old) }
    // The writer failed in this call, once, after exactly the first n bytes.
    ensures write { IfErr result (λ e. (n : ℕ) → e ≡ BuildFault.Write n → (failures out.new ≡ failures out.old + 1)
        × WritesBuiltPrefix options.now (R.remaining (inner input.old)) (W.contents (inner out.old))
        (W.contents (inner out.new)) n) }
    // Without an error it has not failed, and at any other error nothing was written.
    ensures writer_unfailed { OnOk result (failures out.new ≡ failures out.old) }
    ensures unwritten { IfErr result (λ e. ((n : ℕ) → e ≢ BuildFault.Write n) → out.new ≡ out.old) }
{
    let (bytes, report) = build_bytes(alloc, input, options)?;
    match out.write_all(bytes.as_slice()) {
        Ok(()) => Ok(report),
        Err(count) => Err(BuildFault::Write(count)),
    }
}
