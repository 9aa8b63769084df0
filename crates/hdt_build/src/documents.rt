//! Building one file of several documents.
ghost use Rattle.std.specs.Prelude.{◌≡◌, ◌≢◌, ◌<◌, ◌+◌, ◌↔◌, ℕ, [], List, IfOk, IfErr, IsErrOf, IsFalse, IsTrue, OnOk};
ghost use Rattle.std.specs.Prelude.{length};
ghost use Rattle.std.specs.Io.KnownBytes.{IsAtEnd};
ghost use Rattle.hdt_wire.specs.Counted.{inner, failures};
ghost use Rattle.hdt_dict.specs.Strings.{IsDictionaryString};
ghost use Rattle.hdt_file.specs.Denoted.{StringTriple};
ghost use Rattle.hdt_build.specs.Built.{IsBuilt};
ghost use Rattle.hdt_build.specs.Documents.{AddsDocument};
ghost use Rattle.hdt_build.specs.Inside.Collecting.{collected_triples, IsValidBuilder};
ghost use Rattle.hdt_build.specs.Options.{AreValidOptions};
ghost use Rattle.hdt_build.specs.Reading.{IsBuildFaultOf, ReadFailed};

use crate::building::built;
use crate::collector::TripleCollector;
use crate::fault::{BuildFault, MergeFault};
use crate::options::{Options, Report, are_valid_options};
use crate::reading::read_triples;
use hdt_wire::Counted;
use std::alloc::{AllocError, Global};
use std::io::Read;
use std::marker::Model;

/// Builds the file of N-Triples documents that are added one after another. Memory: that of
/// [`build_bytes`](crate::build_bytes) for all of them.
///
/// ```rust
/// let builder = DocumentBuilder::new(alloc)?;
/// let (builder, _) = builder.with_document(alloc, b"f0_", &mut first)?;
/// let (builder, _) = builder.with_document(alloc, b"f1_", &mut second)?;
/// let (file, report) = builder.finish(alloc, &options)?;
/// ```
#[derive(Drop)]
pub struct DocumentBuilder {
    collector: TripleCollector,
}

impl Model for DocumentBuilder {
    ghost Value = { List StringTriple };

    ghost view = { λ b. collected_triples b.collector };

    ghost invariant = { λ b. IsValidBuilder b.collector };
}

impl DocumentBuilder {
    /// A builder without triples.
    pub fn new(alloc: Global) -> Result<DocumentBuilder, AllocError>
        ensures { IfOk result (λ made. made ≡ []) }
    {
        let collector = TripleCollector::new(alloc)?;
        Ok(DocumentBuilder { collector })
    }

    /// Adds the triples of an N-Triples document of up to 2^63 - 1 bytes, with `prefix` before the label of each blank
    /// node, and returns whether it has any. The prefix is UTF-8 without zero bytes. With an empty one a label is the
    /// same node as in what was added before; a prefix of its own keeps the document's nodes apart. After an error the
    /// builder is dropped. Time: one pass over the lines.
    ///
    /// # Errors
    ///
    /// Those of the lines; [`BuildFault::OutOfMemory`] only if memory ran out.
    pub fn with_document<R: Read>(
        self,
        alloc: Global,
        prefix: &[u8],
        input: &mut Counted<R>,
    ) -> Result<(DocumentBuilder, bool), BuildFault>
        requires { IsDictionaryString prefix.now }
        // The input is a document, and its triples were added; the reader is at its end.
        ensures added { IfOk result (λ made. AddsDocument prefix.now (R.remaining (inner input.old)) self made.0
            made.1) }
        ensures end { OnOk result (IsAtEnd (R.remaining (inner input.new))) }
        // An error is the first one of the input: of a line, or out of memory.
        ensures fault { IfErr result (IsBuildFaultOf (R.remaining (inner input.old)) (R.remaining (inner input.new))) }
        ensures some { IfErr result (λ e. e ≢ BuildFault.NoTriples) }
        // The reader failed in this call, once, if the error says so; else it has not failed.
        ensures read { IfErr result (λ e. ReadFailed e → failures input.new ≡ failures input.old + 1) }
        ensures reader_reported { IfErr result (λ e. (ReadFailed e → ⊥) → failures input.new ≡ failures input.old) }
        ensures reader_unfailed { OnOk result (failures input.new ≡ failures input.old) }
    {
        let DocumentBuilder { collector } = self;
        let (collector, has_blank_nodes) = read_triples(alloc, prefix, input, collector)?;
        Ok((DocumentBuilder { collector }, has_blank_nodes))
    }

    /// Returns whether there are no triples.
    pub fn is_empty(&self) -> bool
        ensures none { IsTrue result → self.now ≡ [] }
        ensures some { IsFalse result → 0 < length self.now }
    {
        self.collector.is_empty()
    }

    /// Returns the canonical file of all triples, and its counts. There must be a triple.
    ///
    /// # Errors
    ///
    /// Those of [`merge_bytes`](crate::merge_bytes).
    pub fn finish(self, alloc: Global, options: &Options) -> Result<(Vec<u8>, Report), MergeFault>
        // There is at least one triple.
        requires { 0 < length self }
        // Returns the canonical file of all triples under the options, and its counts.
        ensures made { IfOk result (λ made. IsBuilt options.now self made.0.items made.1) }
        // BadOptions is returned exactly if the options are not valid.
        ensures bad { IsErrOf result MergeFault.BadOptions ↔ (AreValidOptions options.now → ⊥) }
        // There is no writer that could fail.
        ensures unwritten { IfErr result (λ e. (n : ℕ) → e ≢ MergeFault.Write n) }
    {
        if !are_valid_options(options) {
            return Err(MergeFault::BadOptions);
        }
        let DocumentBuilder { collector } = self;
        Ok(built(alloc, collector, options)?)
    }
}
