//! Writing a section in canonical form.
ghost use Rattle.std.specs.Prelude.{◌≡◌, ◌≤◌, ◌++◌, length, IfOk, OnOk, OnErr};
ghost use Rattle.hdt_front.specs.Section.{AreSectionStrings, IsSectionAt};
ghost use Rattle.hdt_front.specs.Canonical.{texts, borrowed_texts, canonical, canonical_parts};

use crate::section_writer::SectionWriter;
use std::alloc::{AllocError, Global};

/// Appends the canonical section of borrowed strings, as [`put_section`] does.
fn put_borrowed_section(
    alloc: Global,
    strings: &[&[u8]],
    block_size: u32,
    out: &mut Vec<u8>,
) -> Result<(), AllocError>
    requires strings { AreSectionStrings (borrowed_texts strings.now) }
    requires block { 1 ≤ block_size }
    ensures ok { OnOk result (out.new.items ≡ out.old.items ++ canonical block_size (borrowed_texts strings.now)) }
    // The appended bytes are a section with these strings.
    ensures section { OnOk result
        (IsSectionAt (canonical_parts block_size (borrowed_texts strings.now) (length out.old.items)) out.new.items
        (length out.old.items)) }
    ensures err { OnErr result (out.new.items ≡ out.old.items) }
{
    let mut writer = SectionWriter::new(alloc, block_size);
    for string in strings {
        writer.push(string)?;
    }
    writer.finish(out)
}

/// Returns the vectors as slices, in order. Takes time and memory linear in their number.
pub fn borrow_strings<'a>(
    alloc: Global,
    strings: &'a [Vec<u8>],
) -> Result<Vec<&'a [u8]>, AllocError>
    ensures { IfOk result (λ r. borrowed_texts r.items ≡ texts strings.now) }
{
    let mut slices = Vec::with_capacity(alloc, strings.len())?;
    for string in strings {
        slices.push(string.as_slice())?;
    }
    Ok(slices)
}

/// Appends the canonical section of the strings, with `block_size` strings per block: longest shared prefixes, block
/// offsets of the least width, padding bits 0, and the single block offset 0 if there are no strings. The strings must
/// satisfy [`are_section_strings`](crate::are_section_strings), and the block size must be at least 1. If memory
/// runs out, `out` is unchanged. Takes time linear in the total length of the strings.
pub fn put_section(
    alloc: Global,
    strings: &[Vec<u8>],
    block_size: u32,
    out: &mut Vec<u8>,
) -> Result<(), AllocError>
    requires strings { AreSectionStrings (texts strings.now) }
    requires block { 1 ≤ block_size }
    ensures ok { OnOk result (out.new.items ≡ out.old.items ++ canonical block_size (texts strings.now)) }
    // The appended bytes are a section with these strings.
    ensures section { OnOk result
        (IsSectionAt (canonical_parts block_size (texts strings.now) (length out.old.items)) out.new.items
        (length out.old.items)) }
    ensures err { OnErr result (out.new.items ≡ out.old.items) }
{
    let slices = borrow_strings(alloc, strings)?;
    put_borrowed_section(alloc, &slices, block_size, out)
}
