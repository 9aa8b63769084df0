//! Comparing a file with its canonical form, part by part.
ghost use Rattle.std.specs.Prelude.{◌≡◌, ◌++◌, ◌↔◌, ◌<◌, ◌≤◌, ℕ, length, take, drop, slice_index_or, IfOk};
ghost use Rattle.std.specs.Prelude.{OnOk, IsTrue, []};
ghost use Rattle.hdt_wire.specs.Control.{HasNoZero};
ghost use Rattle.hdt_front.specs.Canonical.{canonical};
ghost use Rattle.hdt_front.specs.Section.{AreSectionStrings};
ghost use Rattle.hdt_dict.specs.Dictionary.{role_strings};
ghost use Rattle.hdt_dict.specs.Writing.{AreSections, canonical_dictionary};
ghost use Rattle.hdt_triples.specs.Writing.{canonical_triples};
ghost use Rattle.hdt_file.specs.Graph.{layout_view};
ghost use Rattle.hdt_build.specs.Canonical.{canonical_head, canonical_file};
ghost use Rattle.hdt_build.specs.Inside.Comparing.{IsRestAfter, dictionary_control, section_list};
ghost use Rattle.hdt_build.specs.Inside.Rewriting.{section_role};

use crate::file::put_head;
use crate::retained::section_role;
use crate::triple_sequences::sequences_of_layout;
use hdt_dict::{RoleIter, SectionId};
use hdt_file::Layout;
use hdt_front::SectionWriter;
use hdt_wire::{Kind, put_control};
use std::alloc::{AllocError, Global};

/// The rest of bytes that begin with a part.
fn rest_after<'a>(bytes: &'a [u8], part: &[u8]) -> Option<&'a [u8]>
    ensures { IsRestAfter part.now bytes.now result }
{
    if bytes.len() < part.len() {
        return None;
    }
    let (front, rest) = bytes.split_at(part.len());
    if front == part { Some(rest) } else { None }
}

/// The rest after the head of a canonical file with this header body.
fn rest_after_head<'a>(
    alloc: Global,
    header: &[u8],
    bytes: &'a [u8],
) -> Result<Option<&'a [u8]>, AllocError>
    ensures { IfOk result (IsRestAfter (canonical_head header.now) bytes.now) }
{
    let mut part = Vec::new(alloc);
    put_head(alloc, header, &mut part)?;
    Ok(rest_after(bytes, part.as_slice()))
}

/// Skips strings of a role.
fn skip_strings(strings: &mut RoleIter<'_>, count: u64) -> Result<(), AllocError>
    ensures { OnOk result (strings.new.ahead ≡ drop count strings.old.ahead) }
{
    'strings: for at in 0..count {
        strings.next()?;
    }
    Ok(())
}

/// Adds the next strings of a role to a section.
fn push_strings(
    strings: &mut RoleIter<'_>,
    count: u64,
    out: &mut SectionWriter,
) -> Result<(), AllocError>
    requires within { count ≤ length strings.old.ahead }
    requires texts { (k : ℕ) → k < count → HasNoZero (slice_index_or strings.old.ahead k []) }
    ensures { OnOk result (out.new
        ≡ record out.old { strings = out.old.strings ++ take count strings.old.ahead }) }
{
    'strings: for at in 0..count {
        strings.next()?;
        out.push(strings.string())?;
    }
    Ok(())
}

/// Returns how many strings of its role precede those of a section, and their number.
fn section_range(layout: &Layout<'_>, section: SectionId) -> (u64, u64)
    ensures within { result.1
        ≤ length (drop result.0 (role_strings (layout_view layout.now).dictionary (section_role section))) }
    ensures strings { take result.1
        (drop result.0 (role_strings (layout_view layout.now).dictionary (section_role section)))
        ≡ section_list (layout_view layout.now).dictionary section }
{
    let [_, shared, subjects, predicates, objects] = layout.lens();
    match section {
        SectionId::Shared => (0, shared),
        SectionId::Subjects => (shared, subjects),
        SectionId::Predicates => (0, predicates),
        SectionId::Objects => (shared, objects),
    }
}

/// Writes the strings of a section in canonical form.
fn write_section(
    alloc: Global,
    layout: &Layout<'_>,
    section: SectionId,
    block_size: u32,
) -> Result<SectionWriter, AllocError>
    requires strings { AreSectionStrings (section_list (layout_view layout.now).dictionary section) }
    requires block { 1 ≤ block_size }
    ensures { IfOk result (λ made. made ≡ record {
      block_size = block_size;
      strings = section_list (layout_view layout.now).dictionary section;
    }) }
{
    let (skipped, count) = section_range(layout, section);
    let mut strings = layout.strings(alloc, section_role(section));
    skip_strings(&mut strings, skipped)?;
    let mut out = SectionWriter::new(alloc, block_size);
    push_strings(&mut strings, count, &mut out)?;
    Ok(out)
}

/// The rest after the canonical form of a section.
fn rest_after_section<'a>(
    alloc: Global,
    layout: &Layout<'_>,
    section: SectionId,
    block_size: u32,
    bytes: &'a [u8],
) -> Result<Option<&'a [u8]>, AllocError>
    requires strings { AreSectionStrings (section_list (layout_view layout.now).dictionary section) }
    requires block { 1 ≤ block_size }
    ensures { IfOk result (IsRestAfter (canonical block_size (section_list (layout_view layout.now).dictionary section))
        bytes.now) }
{
    let written = write_section(alloc, layout, section, block_size)?;
    let mut part = Vec::new(alloc);
    written.finish(&mut part)?;
    Ok(rest_after(bytes, part.as_slice()))
}

/// The rest after the control information of a canonical dictionary.
#[tactic(auto, using(hdt_dict::specs::Laws::Writing::mapping_no_zero))]
fn rest_after_mapping<'a>(alloc: Global, bytes: &'a [u8]) -> Result<Option<&'a [u8]>, AllocError>
    ensures { IfOk result (IsRestAfter dictionary_control bytes.now) }
{
    let mut part = Vec::new(alloc);
    put_control(Kind::Dictionary, b"mapping=1;", &mut part)?;
    Ok(rest_after(bytes, part.as_slice()))
}

/// The rest after the canonical form of the dictionary. Only one section is in memory at a time.
fn rest_after_dictionary<'a>(
    alloc: Global,
    layout: &Layout<'_>,
    block_size: u32,
    bytes: &'a [u8],
) -> Result<Option<&'a [u8]>, AllocError>
    requires sections { AreSections (layout_view layout.now).dictionary }
    requires block { 1 ≤ block_size }
    ensures { IfOk result (IsRestAfter (canonical_dictionary block_size (layout_view layout.now).dictionary)
        bytes.now) }
{
    let Some(rest) = rest_after_mapping(alloc, bytes)? else {
        return Ok(None);
    };
    let Some(rest) = rest_after_section(alloc, layout, SectionId::Shared, block_size, rest)? else {
        return Ok(None);
    };
    let Some(rest) = rest_after_section(alloc, layout, SectionId::Subjects, block_size, rest)?
    else {
        return Ok(None);
    };
    let Some(rest) = rest_after_section(alloc, layout, SectionId::Predicates, block_size, rest)?
    else {
        return Ok(None);
    };
    rest_after_section(alloc, layout, SectionId::Objects, block_size, rest)
}

/// Whether bytes are the canonical form of the triples of a file.
fn are_canonical_triples(
    alloc: Global,
    layout: &Layout<'_>,
    bytes: &[u8],
) -> Result<bool, AllocError>
    requires { 0 < length (layout_view layout.now).triples }
    ensures { IfOk result (λ same. IsTrue same ↔ (bytes.now ≡ canonical_triples (layout_view layout.now).triples)) }
{
    let sequences = sequences_of_layout(alloc, layout)?;
    let mut part = Vec::new(alloc);
    sequences.put(&mut part)?;
    Ok(bytes == part.as_slice())
}

/// Whether bytes are the canonical file of a header body, and of the dictionary and the triples of a file. It stops at
/// the first part that differs.
pub(crate) fn is_canonical_file(
    alloc: Global,
    header: &[u8],
    layout: &Layout<'_>,
    block_size: u32,
    bytes: &[u8],
) -> Result<bool, AllocError>
    requires sections { AreSections (layout_view layout.now).dictionary }
    requires some { 0 < length (layout_view layout.now).triples }
    requires block { 1 ≤ block_size }
    ensures { IfOk result (λ same. IsTrue same ↔ (bytes.now ≡ canonical_file header.now block_size
        (layout_view layout.now).dictionary (layout_view layout.now).triples)) }
{
    let Some(rest) = rest_after_head(alloc, header, bytes)? else {
        return Ok(false);
    };
    let Some(rest) = rest_after_dictionary(alloc, layout, block_size, rest)? else {
        return Ok(false);
    };
    are_canonical_triples(alloc, layout, rest)
}
