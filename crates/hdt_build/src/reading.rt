//! Reading an N-Triples document.
ghost use Rattle.std.specs.Prelude.{◌≡◌, ◌+◌, ◌≢◌, ◌++◌, ◌∷◌, [], List, Ok, IfOk, IfErr, OnOk};
ghost use Rattle.std.specs.Io.KnownBytes.{IsAtEnd};
ghost use Rattle.hdt_wire.specs.Counted.{inner, failures};
ghost use Rattle.hdt_terms.specs.declared.fault.LineReason.TheVariants as reasons;
ghost use Rattle.hdt_build.specs.Inside.Collecting.{collected_triples, IsValidCollector};
ghost use Rattle.hdt_terms.specs.Split.{prefix_label};
ghost use Rattle.hdt_dict.specs.Strings.{IsDictionaryString};
ghost use Rattle.hdt_file.specs.Denoted.{StringTriple};
ghost use Rattle.hdt_build.specs.Documents.{AddsDocument, IsDocumentWith};
ghost use Rattle.hdt_build.specs.Reading.{HasDictionaryStrings, IfBuildFault, IsBuild, IsBuildFaultOf, IsConvertedTo};
ghost use Rattle.hdt_build.specs.Reading.{ReadFailed};

use crate::collector::TripleCollector;
use crate::fault::{BuildFault, ScratchFault};
use crate::labels::{has_blank_node, with_prefix};
use hdt_terms::{
    LineFault, LineReason, Lines, strings_are_texts, text_encodes_one_term, triples_so_far,
};
use hdt_wire::Counted;
use std::alloc::{AllocError, Global};
use std::io::Read;

/// The greatest length of an input in bytes.
const MAX_INPUT_LEN: u64 = 9_223_372_036_854_775_807;

/// Converts an error of a line into one of building.
fn build_fault(fault: LineFault) -> BuildFault
    ensures { IsConvertedTo fault result }
{
    match fault.reason {
        LineReason::OutOfMemory => BuildFault::OutOfMemory,
        _ => BuildFault::Line(fault),
    }
}

/// What takes triples one after another. After an error it is dropped.
pub(crate) trait Collector {
    /// An error of its scratch, if it has any.
    type Error;

    /// That the triples are known; see `Scratch`.
    ghost IsKnown: { Type 0 };

    /// That triples can be added.
    ghost IsSound: { Self → Type 0 };

    /// The triples so far, if they are known.
    ghost triples: { Self → List StringTriple };

    /// Adds a triple.
    fn collect(
        &mut self,
        alloc: Global,
        s: &[u8],
        p: &[u8],
        o: &[u8],
    ) -> Result<(), ScratchFault<Self::Error>>
        requires { IsSound self.old }
        ensures graph { OnOk result (IsKnown → triples self.new ≡ triples self.old ++ (s.now, p.now, o.now) ∷ []) }
        ensures sound { OnOk result (IsSound self.new) }
        ensures memory { IfErr result (IfBuildFault (λ e. e ≡ BuildFault.OutOfMemory)) };
}

impl Collector for TripleCollector {
    type Error = AllocError;

    ghost IsKnown = { Unit {0} };

    ghost IsSound = { IsValidCollector };

    ghost triples = { collected_triples };

    fn collect(
        &mut self,
        alloc: Global,
        s: &[u8],
        p: &[u8],
        o: &[u8],
    ) -> Result<(), ScratchFault<AllocError>> {
        Ok(self.add(alloc, s, p, o)?)
    }
}

/// Adds a triple, with the prefix before the labels of its blank nodes. After an error, drop the collector.
fn add_prefixed<C: Collector>(
    alloc: Global,
    prefix: &[u8],
    s: &[u8],
    p: &[u8],
    o: &[u8],
    collector: &mut C,
) -> Result<(), ScratchFault<C::Error>>
    requires { C.IsSound collector.old }
    ensures graph { OnOk result (C.IsKnown → C.triples collector.new ≡ C.triples collector.old
        ++ (prefix_label prefix.now s.now, p.now, prefix_label prefix.now o.now) ∷ []) }
    ensures sound { OnOk result (C.IsSound collector.new) }
    ensures memory { IfErr result (IfBuildFault (λ e. e ≡ BuildFault.OutOfMemory)) }
{
    if prefix.is_empty() {
        return collector.collect(alloc, s, p, o);
    }
    let s = with_prefix(alloc, prefix, s)?;
    let o = with_prefix(alloc, prefix, o)?;
    collector.collect(alloc, s.as_slice(), p, o.as_slice())
}

/// Adds all triples of a document, up to its end or its first error, with a prefix before the labels of its blank
/// nodes. Returns whether it has any.
pub(crate) fn collect_triples<C: Collector + Drop, R: Read>(
    alloc: Global,
    prefix: &[u8],
    input: &mut Counted<R>,
    collector: C,
) -> Result<(C, bool), ScratchFault<C::Error>>
    requires sound { C.IsSound collector }
    requires texts { C.IsKnown → HasDictionaryStrings (C.triples collector) }
    requires prefix { IsDictionaryString prefix.now }
    ensures found { IfOk result (λ read. C.IsKnown → AddsDocument prefix.now (R.remaining (inner input.old))
        (C.triples collector) (C.triples read.0) read.1) }
    ensures document { IfOk result (λ read. IsDocumentWith (R.remaining (inner input.old)) read.1) }
    ensures sound { IfOk result (λ read. C.IsSound read.0) }
    ensures texts { IfOk result (λ read. C.IsKnown → HasDictionaryStrings (C.triples read.0)) }
    ensures end { OnOk result (IsAtEnd (R.remaining (inner input.new))) }
    ensures fault { IfErr result (IfBuildFault (IsBuildFaultOf (R.remaining (inner input.old))
        (R.remaining (inner input.new)))) }
    ensures read { IfErr result (λ e. IsBuild ReadFailed e → failures input.new ≡ failures input.old + 1) }
    ensures reader_reported { IfErr result (λ e. (IsBuild ReadFailed e → ⊥) → failures input.new ≡ failures input.old) }
    ensures some { IfErr result (IfBuildFault (λ e. e ≢ BuildFault.NoTriples)) }
    ensures reader_unfailed { OnOk result (failures input.new ≡ failures input.old) }
{
    triples_so_far();
    strings_are_texts();
    text_encodes_one_term();
    let mut lines = Lines::new(alloc, MAX_INPUT_LEN)?;
    let mut collector = collector;
    let mut has_blank_nodes = false;
    let mut s = Vec::new(alloc);
    let mut p = Vec::new(alloc);
    let mut o = Vec::new(alloc);
    'triples: loop {
        match lines.next_strings(input, &mut s, &mut p, &mut o) {
            Ok(true) => {
                let (s, p, o) = (s.as_slice(), p.as_slice(), o.as_slice());
                has_blank_nodes = has_blank_node(has_blank_nodes, s, o);
                add_prefixed(alloc, prefix, s, p, o, &mut collector)?;
            }
            Ok(false) => return Ok((collector, has_blank_nodes)),
            Err(fault) => return Err(ScratchFault::Build(build_fault(fault))),
        }
    }
}

/// [`collect_triples`] in memory.
pub(crate) fn read_triples<R: Read>(
    alloc: Global,
    prefix: &[u8],
    input: &mut Counted<R>,
    collector: TripleCollector,
) -> Result<(TripleCollector, bool), BuildFault>
    requires sound { IsValidCollector collector }
    requires texts { HasDictionaryStrings (collected_triples collector) }
    requires prefix { IsDictionaryString prefix.now }
    ensures found { IfOk result (λ read. AddsDocument prefix.now (R.remaining (inner input.old))
        (collected_triples collector) (collected_triples read.0) read.1) }
    ensures sound { IfOk result (λ read. IsValidCollector read.0) }
    ensures texts { IfOk result (λ read. HasDictionaryStrings (collected_triples read.0)) }
    ensures end { OnOk result (IsAtEnd (R.remaining (inner input.new))) }
    ensures fault { IfErr result (IsBuildFaultOf (R.remaining (inner input.old)) (R.remaining (inner input.new))) }
    ensures read { IfErr result (λ e. ReadFailed e → failures input.new ≡ failures input.old + 1) }
    ensures reader_reported { IfErr result (λ e. (ReadFailed e → ⊥) → failures input.new ≡ failures input.old) }
    ensures some { IfErr result (λ e. e ≢ BuildFault.NoTriples) }
    ensures reader_unfailed { OnOk result (failures input.new ≡ failures input.old) }
{
    match collect_triples(alloc, prefix, input, collector) {
        Ok(read) => Ok(read),
        Err(ScratchFault::Build(fault)) => Err(fault),
        // A collector in memory has no other error.
        Err(_) => Err(BuildFault::OutOfMemory),
    }
}
