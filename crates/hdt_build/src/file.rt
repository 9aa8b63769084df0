//! The bytes of a file in canonical form.
ghost use Rattle.std.specs.Prelude.{◌≡◌, ◌<◌, ◌++◌, ◌∷◌, [], ℕ, List, length, IfOk, OnOk};
ghost use Rattle.hdt_triples.specs.TripleSequences.{Triple};
ghost use Rattle.hdt_dict.specs.Dictionary.{SectionLists};
ghost use Rattle.hdt_dict.specs.Writing.{AreSections, canonical_dictionary};
ghost use Rattle.hdt_triples.specs.Order.{AreWritable};
ghost use Rattle.hdt_build.specs.Built.{report_of};
ghost use Rattle.hdt_build.specs.Canonical.{canonical_head, canonical_file};
ghost use Rattle.hdt_build.specs.Inside.Rewriting.{HaveBlockSize, lists_of_sections};
ghost use Rattle.hdt_build.specs.Inside.Sequences.{AreSequencesOf};

use crate::encoding::{EncodedGraph, MergedGraph};
use crate::header::length_property;
use crate::options::Report;
use crate::sections::SectionWriters;
use hdt_dict::finish_dictionary;
use hdt_triples::put_triples;
use hdt_wire::{Kind, put_control};
use std::alloc::{AllocError, Global};

/// Appends the head of a file: the global control information, that of the header, and the header body. An error may
/// leave its first bytes.
#[tactic(auto, using(crate::proofs::Heads::length_no_zero, std::proofs::Common::append_assoc), unfolding(crate::specs::Canonical::canonical_head))]
pub(crate) fn put_head(alloc: Global, header: &[u8], out: &mut Vec<u8>) -> Result<(), AllocError>
    ensures { OnOk result (out.new.items ≡ out.old.items ++ canonical_head header.now) }
{
    let properties = length_property(alloc, header.len() as u64)?;
    put_control(Kind::Global, b"", out)?;
    put_control(Kind::Header, properties.as_slice(), out)?;
    out.extend_from_slice(header)?;
    Ok(())
}

/// The head and the dictionary of a file. The sections are freed.
#[tactic(auto, using(std::proofs::Common::append_assoc))]
pub(crate) fn head_and_dictionary(
    alloc: Global,
    header: &[u8],
    sections: SectionWriters,
) -> Result<Vec<u8>, AllocError>
    requires sections { AreSections (lists_of_sections sections) }
    requires blocks { HaveBlockSize sections.shared.block_size sections }
    ensures { IfOk result (λ bytes. bytes.items ≡ canonical_head header.now
        ++ canonical_dictionary sections.shared.block_size (lists_of_sections sections)) }
{
    let mut bytes = Vec::new(alloc);
    put_head(alloc, header, &mut bytes)?;
    let SectionWriters {
        shared,
        subjects,
        predicates,
        objects,
    } = sections;
    finish_dictionary(shared, subjects, predicates, objects, &mut bytes)?;
    Ok(bytes)
}

/// The counts of a file, given the numbers of its triples, of the strings of its sections, and of its bytes.
#[tactic(auto, unfolding(crate::specs::Built::report_of))]
pub(crate) fn counted_report(triples: u64, lens: [u64; 4], bytes: u64) -> Report
    ensures { (d : SectionLists) (ts : List Triple) (all : List ℕ)
        → lens ≡ length d.shared ∷ length d.subjects ∷ length d.predicates ∷ length d.objects ∷ []
        → triples ≡ length ts → bytes ≡ length all → result ≡ report_of d ts all }
{
    let [shared, subjects, predicates, objects] = lens;
    Report {
        triples,
        shared,
        subjects,
        predicates,
        objects,
        bytes,
    }
}

/// The counts of a file, given the numbers of strings of its sections.
pub(crate) fn report_of(triples: &[(u64, u64, u64)], lens: [u64; 4], bytes: &[u8]) -> Report
    ensures { (d : SectionLists) → lens ≡ length d.shared ∷ length d.subjects ∷ length d.predicates ∷ length d.objects
        ∷ [] → result ≡ report_of d triples.now bytes.now }
{
    counted_report(triples.len() as u64, lens, bytes.len() as u64)
}

/// The bytes of the canonical file of a header body, four sections and ID triples, and its counts.
#[tactic(auto, using(std::proofs::Common::append_assoc), unfolding(crate::specs::Canonical::canonical_file))]
pub(crate) fn encode_file(
    alloc: Global,
    header: &[u8],
    encoded: EncodedGraph,
) -> Result<(Vec<u8>, Report), AllocError>
    requires sections { AreSections (lists_of_sections encoded.sections) }
    requires triples { AreWritable encoded.triples.items }
    requires blocks { HaveBlockSize encoded.sections.shared.block_size encoded.sections }
    ensures bytes { IfOk result (λ made. made.0.items
        ≡ canonical_file header.now encoded.sections.shared.block_size
        (lists_of_sections encoded.sections) encoded.triples.items) }
    ensures report { IfOk result (λ made. made.1
        ≡ report_of (lists_of_sections encoded.sections) encoded.triples.items made.0.items) }
{
    let EncodedGraph { sections, triples } = encoded;
    let lens = sections.lens();
    let mut bytes = head_and_dictionary(alloc, header, sections)?;
    put_triples(alloc, triples.as_slice(), &mut bytes)?;
    let report = report_of(triples.as_slice(), lens, bytes.as_slice());
    Ok((bytes, report))
}

/// As [`encode_file`], of the sequences of triples.
#[tactic(auto, using(std::proofs::Common::append_assoc), unfolding(crate::specs::Canonical::canonical_file))]
pub(crate) fn encode_merged_file(
    alloc: Global,
    header: &[u8],
    encoded: MergedGraph,
) -> Result<(Vec<u8>, Report), AllocError>
    requires sections { AreSections (lists_of_sections encoded.sections) }
    requires pairs { 0 < length encoded.triples.bitmap_y.items }
    requires triples { 0 < length encoded.triples.bitmap_z.items }
    requires blocks { HaveBlockSize encoded.sections.shared.block_size encoded.sections }
    ensures bytes { IfOk result (λ made. (ts : List Triple) → AreSequencesOf ts encoded.triples
        → made.0.items ≡ canonical_file header.now encoded.sections.shared.block_size
        (lists_of_sections encoded.sections) ts) }
    ensures report { IfOk result (λ made. (ts : List Triple) → AreSequencesOf ts encoded.triples
        → made.1 ≡ report_of (lists_of_sections encoded.sections) ts made.0.items) }
{
    let MergedGraph { sections, triples } = encoded;
    let lens = sections.lens();
    let count = triples.len();
    let mut bytes = head_and_dictionary(alloc, header, sections)?;
    triples.put(&mut bytes)?;
    let report = counted_report(count as u64, lens, bytes.len() as u64);
    Ok((bytes, report))
}
