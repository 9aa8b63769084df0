//! The file of batches on scratch, written in pieces.
ghost use Rattle.std.specs.Prelude.{◌≡◌, ◌<◌, ◌≤◌, ◌++◌, ℕ, List, length, IfOk, Ok};
ghost use Rattle.hdt_wire.specs.Control.{control};
ghost use Rattle.hdt_wire.specs.Counted.{inner, failures};
ghost use Rattle.hdt_wire.specs.declared.control.Kind.TheVariants as kinds;
ghost use Rattle.hdt_front.specs.Canonical.{canonical};
ghost use Rattle.hdt_dict.specs.Writing.{AreSections, canonical_dictionary, mapping};
ghost use Rattle.hdt_file.specs.Denoted.{StringTriple};
ghost use Rattle.hdt_build.specs.Built.{WritesTriples};
ghost use Rattle.hdt_build.specs.Canonical.{canonical_file, canonical_head};
ghost use Rattle.hdt_build.specs.Graph.{IsEncodedGraph};
ghost use Rattle.hdt_build.specs.Options.{AreValidOptions};
ghost use Rattle.hdt_build.specs.Inside.Groups.{HaveSize, lists_of_states};
ghost use Rattle.hdt_build.specs.Inside.Output.{Puts};
ghost use Rattle.hdt_build.specs.Inside.ScratchSequences.{AreMeasures};

use crate::batch_encoding::{EncodedBatches, encode_batches};
use crate::batches::Batches;
use crate::fault::{BuildFault, ScratchFault};
use crate::file::{counted_report, put_head};
use crate::four_sections::FinishedSections;
use crate::header::header_body;
use crate::options::{Options, Report};
use crate::output::Output;
use crate::scratch::Scratch;
use crate::scratch_sequences::{TripleMeasures, measure, put_triples};
use crate::triple_tape::TripleTape;
use hdt_wire::{Counted, Kind, put_control};
use std::alloc::{AllocError, Global};
use std::io::Write;

/// The head of a file, and the control information of its dictionary.
#[tactic(auto, using(hdt_dict::specs::Laws::Writing::mapping_no_zero))]
fn head_bytes(alloc: Global, header: &[u8]) -> Result<Vec<u8>, AllocError>
    ensures { IfOk result (λ made. made.items ≡ canonical_head header.now ++ control kinds.Dictionary mapping) }
{
    let mut bytes = Vec::new(alloc);
    put_head(alloc, header, &mut bytes)?;
    put_control(Kind::Dictionary, b"mapping=1;", &mut bytes)?;
    Ok(bytes)
}

/// Writes the head of a file, and the control information of its dictionary.
fn put_start<W: Write + Drop>(
    alloc: Global,
    header: &[u8],
    out: Output<W>,
) -> Result<Output<W>, BuildFault>
    ensures { IfOk result (λ made. Puts out made (canonical_head header.now ++ control kinds.Dictionary mapping)) }
{
    let mut out = out;
    let bytes = head_bytes(alloc, header)?;
    out.put(bytes.as_slice())?;
    Ok(out)
}

/// Writes four sections.
fn put_sections<S: Scratch, W: Write + Drop>(
    alloc: Global,
    sections: &FinishedSections<S>,
    out: Output<W>,
) -> Result<Output<W>, ScratchFault<S::Error>>
    ensures { IfOk result (λ made. S.IsKnown → (n : ℕ) → HaveSize n sections.now → Puts out made
        (canonical n sections.now.shared.strings ++ (canonical n sections.now.subjects.strings
        ++ (canonical n sections.now.predicates.strings ++ canonical n sections.now.objects.strings)))) }
{
    let out = sections.shared.put(alloc, out)?;
    let out = sections.subjects.put(alloc, out)?;
    let out = sections.predicates.put(alloc, out)?;
    sections.objects.put(alloc, out)
}

/// Writes the file of sections and triples.
fn put_file<S: Scratch, W: Write + Drop>(
    alloc: Global,
    header: &[u8],
    sections: &FinishedSections<S>,
    triples: &TripleTape<S>,
    measures: &TripleMeasures,
    out: Output<W>,
) -> Result<Output<W>, ScratchFault<S::Error>>
    ensures { IfOk result (λ made. S.IsKnown → AreMeasures triples.now measures.now → 0 < length triples.now
        → (n : ℕ) → HaveSize n sections.now
        → Puts out made (canonical_file header.now n (lists_of_states sections.now) triples.now)) }
{
    let out = put_start(alloc, header, out)?;
    let out = put_sections(alloc, sections, out)?;
    put_triples(alloc, triples, measures, out)
}

/// The result of a call of scratch, with its error.
pub(crate) fn of_scratch<T, E>(outcome: Result<T, E>) -> Result<T, ScratchFault<E>>
    ensures { IfOk result (λ value. outcome ≡ Ok value) }
{
    match outcome {
        Ok(value) => Ok(value),
        Err(error) => Err(ScratchFault::Scratch(error)),
    }
}

/// Writes the file of sections and triples, and returns its counts.
fn write_file<S: Scratch, W: Write + Drop>(
    alloc: Global,
    sections: &FinishedSections<S>,
    triples: &TripleTape<S>,
    options: &Options,
    out: Counted<W>,
) -> Result<(Counted<W>, Report), ScratchFault<S::Error>>
    requires valid { AreSections (lists_of_states sections.now) }
    requires blocks { HaveSize options.now.block_size sections.now }
    ensures written { IfOk result (λ made. S.IsKnown → (g : List StringTriple) → 0 < length g
        → IsEncodedGraph g (lists_of_states sections.now) triples.now
        → WritesTriples options.now g (W.contents (inner out)) (W.contents (inner made.0)) made.1) }
    ensures writer_unfailed { IfOk result (λ made. S.IsKnown → failures made.0 ≡ failures out) }
{
    let measures = of_scratch(measure(alloc, triples))?;
    if measures.triples == 0 {
        return Err(ScratchFault::Damaged);
    }
    let header = header_body(alloc, options.base.as_slice(), measures.triples)?;
    let out = Output::new(out);
    let out = put_file(alloc, header.as_slice(), sections, triples, &measures, out)?;
    let report = counted_report(measures.triples, sections.lens(), out.len());
    Ok((out.into_inner(), report))
}

/// The sections and the triples of batches, of which none is unfinished.
fn encoded_batches<S: Scratch + Drop>(
    alloc: Global,
    batches: Batches<S>,
    chunk_len: usize,
    block_size: u32,
) -> Result<EncodedBatches<S>, ScratchFault<S::Error>>
    requires { 1 ≤ block_size }
    ensures valid { IfOk result (λ made. AreSections (lists_of_states made.sections)) }
    ensures blocks { IfOk result (λ made. HaveSize block_size made.sections) }
    ensures encoded { IfOk result (λ made. S.IsKnown
        → IsEncodedGraph batches (lists_of_states made.sections) made.triples) }
{
    let Some((mut scratch, records, triples)) = batches.into_parts() else {
        return Err(ScratchFault::Damaged);
    };
    match encode_batches(alloc, &mut scratch, chunk_len, records, triples, block_size) {
        Ok(Some(encoded)) => Ok(encoded),
        Ok(None) => Err(ScratchFault::Damaged),
        Err(error) => Err(ScratchFault::Scratch(error)),
    }
}

/// Writes the canonical file of the triples of batches, of which none is unfinished, and returns its counts. There must
/// be a triple.
pub(crate) fn write_batches<S: Scratch + Drop, W: Write + Drop>(
    alloc: Global,
    batches: Batches<S>,
    chunk_len: usize,
    options: &Options,
    out: Counted<W>,
) -> Result<(Counted<W>, Report), ScratchFault<S::Error>>
    requires { AreValidOptions options.now }
    ensures written { IfOk result (λ made. S.IsKnown → 0 < length batches
        → WritesTriples options.now batches (W.contents (inner out)) (W.contents (inner made.0)) made.1) }
    ensures writer_unfailed { IfOk result (λ made. S.IsKnown → failures made.0 ≡ failures out) }
{
    let encoded = encoded_batches(alloc, batches, chunk_len, options.block_size)?;
    write_file(alloc, &encoded.sections, &encoded.triples, options, out)
}
