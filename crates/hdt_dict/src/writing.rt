//! Writing a dictionary in canonical form.
ghost use Rattle.std.specs.Prelude.{◌≡◌, ◌≤◌, ◌++◌, length, OnOk, OnErr};
ghost use Rattle.hdt_wire.specs.Control.{IsPrefixOf};
ghost use Rattle.hdt_dict.specs.Dictionary.{IsDictionaryAt};
ghost use Rattle.hdt_dict.specs.Split.{lists_of_parts, lists_of_writers};
ghost use Rattle.hdt_dict.specs.Writing.{AreSections, canonical_dictionary, canonical_dictionary_parts};

use crate::parts::Parts;
use hdt_front::{SectionWriter, put_section};
use hdt_wire::{Kind, put_control, truncate_on_error};
use std::alloc::{AllocError, Global};

/// Appends a dictionary; an error may leave its first bytes.
#[tactic(auto, using(crate::specs::Laws::Writing::mapping_no_zero), unfolding(crate::specs::Writing::canonical_dictionary, crate::specs::Split::lists_of_parts))]
fn append_dictionary(
    alloc: Global,
    parts: &Parts,
    block_size: u32,
    out: &mut Vec<u8>,
) -> Result<(), AllocError>
    requires sections { AreSections (lists_of_parts parts.now) }
    requires block { 1 ≤ block_size }
    ensures ok { OnOk result (out.new.items
        ≡ out.old.items ++ canonical_dictionary block_size (lists_of_parts parts.now)) }
    ensures err { OnErr result (IsPrefixOf out.old.items out.new.items) }
{
    put_control(Kind::Dictionary, b"mapping=1;", out)?;
    put_section(alloc, parts.shared.as_slice(), block_size, out)?;
    put_section(alloc, parts.subjects.as_slice(), block_size, out)?;
    put_section(alloc, parts.predicates.as_slice(), block_size, out)?;
    put_section(alloc, parts.objects.as_slice(), block_size, out)?;
    Ok(())
}

/// Appends the canonical dictionary of four sections: control information with the property `mapping=1;`, and the
/// sections shared, subjects, predicates and objects, with so many strings a block and the longest shared prefixes. If
/// memory runs out, `out` is unchanged. Linear time.
///
/// The strings of each list must be UTF-8 without zero bytes and strictly ascend, and none may be in two of shared,
/// subjects and objects: as [`split`](crate::split) returns them.
pub fn put_dictionary(
    alloc: Global,
    parts: &Parts,
    block_size: u32,
    out: &mut Vec<u8>,
) -> Result<(), AllocError>
    requires sections { AreSections (lists_of_parts parts.now) }
    requires block { 1 ≤ block_size }
    ensures ok { OnOk result (out.new.items
        ≡ out.old.items ++ canonical_dictionary block_size (lists_of_parts parts.now)) }
    // It is read back.
    ensures dictionary { OnOk result
        (IsDictionaryAt (canonical_dictionary_parts block_size (lists_of_parts parts.now) (length out.old.items))
        out.new.items (length out.old.items)) }
    ensures err { OnErr result (out.new.items ≡ out.old.items) }
{
    let start = out.len();
    let appended = append_dictionary(alloc, parts, block_size, out);
    truncate_on_error(appended, start, out)
}

/// Appends the dictionary of four section writers; an error may leave its first bytes.
#[tactic(auto, using(crate::specs::Laws::Writing::mapping_no_zero))]
fn append_finished(
    shared: SectionWriter,
    subjects: SectionWriter,
    predicates: SectionWriter,
    objects: SectionWriter,
    out: &mut Vec<u8>,
) -> Result<(), AllocError>
    requires sections { AreSections (lists_of_writers shared subjects predicates objects) }
    requires blocks { (subjects.block_size ≡ shared.block_size) × (predicates.block_size ≡ shared.block_size)
        × (objects.block_size ≡ shared.block_size) }
    ensures ok { OnOk result (out.new.items
        ≡ out.old.items
        ++ canonical_dictionary shared.block_size (lists_of_writers shared subjects predicates objects)) }
    ensures err { OnErr result (IsPrefixOf out.old.items out.new.items) }
{
    put_control(Kind::Dictionary, b"mapping=1;", out)?;
    shared.finish(out)?;
    subjects.finish(out)?;
    predicates.finish(out)?;
    objects.finish(out)?;
    Ok(())
}

/// Appends the canonical dictionary of four sections that were written string by string, as [`put_dictionary`] does.
/// The writers must have the same block size. Each is freed once its section is written.
pub fn finish_dictionary(
    shared: SectionWriter,
    subjects: SectionWriter,
    predicates: SectionWriter,
    objects: SectionWriter,
    out: &mut Vec<u8>,
) -> Result<(), AllocError>
    requires sections { AreSections (lists_of_writers shared subjects predicates objects) }
    requires blocks { (subjects.block_size ≡ shared.block_size) × (predicates.block_size ≡ shared.block_size)
        × (objects.block_size ≡ shared.block_size) }
    ensures ok { OnOk result (out.new.items
        ≡ out.old.items
        ++ canonical_dictionary shared.block_size (lists_of_writers shared subjects predicates objects)) }
    ensures dictionary { OnOk result
        (IsDictionaryAt (canonical_dictionary_parts shared.block_size
        (lists_of_writers shared subjects predicates objects) (length out.old.items)) out.new.items
        (length out.old.items)) }
    ensures err { OnErr result (out.new.items ≡ out.old.items) }
{
    shared.block_size_is_valid();
    let before = out.len();
    let appended = append_finished(shared, subjects, predicates, objects, out);
    truncate_on_error(appended, before, out)
}
