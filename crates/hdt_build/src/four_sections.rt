//! The four sections on scratch.
ghost use Rattle.std.specs.Prelude.{◌≡◌, ◌≤◌, ◌<◌, ◌^◌, ◌++◌, ◌∷◌, [], cond, length};
ghost use Rattle.std.specs.Prelude.{IfOk, OnOk};
ghost use Rattle.hdt_wire.specs.Control.{HasNoZero};
ghost use Rattle.hdt_build.specs.Inside.Rewriting.{IsIdOf};
ghost use Rattle.hdt_build.specs.Inside.Groups.{HaveSize, IsPredicateId, lists_of_groups, lists_of_states};

use crate::scratch::Scratch;
use crate::section_tape::{FinishedSection, SectionTape};
use std::alloc::{AllocError, Global};
use std::marker::Model;

/// Four sections that are being written. In contracts they are the block size and the strings of each.
#[derive(Drop)]
pub(crate) struct SectionTapes<S: Scratch> {
    pub(crate) shared: SectionTape<S>,
    pub(crate) subjects: SectionTape<S>,
    pub(crate) predicates: SectionTape<S>,
    pub(crate) objects: SectionTape<S>,
}

impl<S: Scratch> Model for SectionTapes<S> {
    ghost use Rattle.hdt_build.specs.Inside.Groups.{SectionStates};

    ghost Value = { SectionStates };

    ghost view = { λ s. record {
      shared = s.shared;
      subjects = s.subjects;
      predicates = s.predicates;
      objects = s.objects;
    } };
}

/// Four sections that were written. In contracts they are the block size and the strings of each.
#[derive(Drop)]
pub(crate) struct FinishedSections<S: Scratch> {
    pub(crate) shared: FinishedSection<S>,
    pub(crate) subjects: FinishedSection<S>,
    pub(crate) predicates: FinishedSection<S>,
    pub(crate) objects: FinishedSection<S>,
}

impl<S: Scratch> Model for FinishedSections<S> {
    ghost use Rattle.hdt_build.specs.Inside.Groups.{SectionStates};

    ghost Value = { SectionStates };

    ghost view = { λ s. record {
      shared = s.shared;
      subjects = s.subjects;
      predicates = s.predicates;
      objects = s.objects;
    } };
}

impl<S: Scratch> FinishedSections<S> {
    /// The number of shared strings.
    pub(crate) fn shared_len(&self) -> u64
        ensures { result ≡ length self.now.shared.strings }
    {
        self.shared.len()
    }

    /// The number of strings of each section: shared, subjects, predicates, objects.
    pub(crate) fn lens(&self) -> [u64; 4]
        ensures { result ≡ length (lists_of_states self.now).shared ∷ length (lists_of_states self.now).subjects
            ∷ length (lists_of_states self.now).predicates ∷ length (lists_of_states self.now).objects ∷ [] }
    {
        [
            self.shared.len(),
            self.subjects.len(),
            self.predicates.len(),
            self.objects.len(),
        ]
    }
}

/// Appends a string to a section; returns its ID.
pub(crate) fn write<S: Scratch>(text: &[u8], out: &mut SectionTape<S>) -> Result<u64, S::Error>
    requires { HasNoZero text.now }
    ensures written { OnOk result (out.new ≡ record out.old { strings = out.old.strings ++ text.now ∷ [] }) }
    ensures id { IfOk result (λ id. IsIdOf out.new.strings text.now id) }
    ensures few { IfOk result (λ id. id < 2 ^ 63) }
{
    out.push(text)?;
    let id = out.len();
    // Memory does not have so many strings.
    if id >= 1 << 63 {
        return Err(S::Error::from(AllocError));
    }
    Ok(id)
}

/// Appends a string to the predicates if wanted; returns its ID, or 0.
pub(crate) fn write_predicate<S: Scratch>(
    text: &[u8],
    wanted: bool,
    sections: &mut SectionTapes<S>,
) -> Result<u64, S::Error>
    requires { HasNoZero text.now }
    ensures written { OnOk result (sections.new ≡ record sections.old {
      predicates = record sections.old.predicates {
        strings = sections.old.predicates.strings ++ cond wanted (text.now ∷ []) [];
      };
    }) }
    ensures id { IfOk result (λ id. IsPredicateId (lists_of_states sections.new) text.now wanted id) }
{
    if !wanted {
        return Ok(0);
    }
    write(text, &mut sections.predicates)
}

/// A section without strings.
fn new_section<S: Scratch + Drop>(
    alloc: Global,
    scratch: &mut S,
    chunk_len: usize,
    block_size: u32,
) -> Result<SectionTape<S>, S::Error>
    requires { 1 ≤ block_size }
    ensures { IfOk result (λ made. made ≡ record { block_size = block_size; strings = [] }) }
{
    let starts = scratch.fresh()?;
    let packed = scratch.fresh()?;
    Ok(SectionTape::new(alloc, starts, packed, block_size, chunk_len))
}

/// Four sections without strings.
pub(crate) fn new_sections<S: Scratch + Drop>(
    alloc: Global,
    scratch: &mut S,
    chunk_len: usize,
    block_size: u32,
) -> Result<SectionTapes<S>, S::Error>
    requires { 1 ≤ block_size }
    ensures none { IfOk result (λ made. lists_of_states made ≡ lists_of_groups []) }
    ensures size { IfOk result (HaveSize block_size) }
{
    Ok(SectionTapes {
        shared: new_section(alloc, scratch, chunk_len, block_size)?,
        subjects: new_section(alloc, scratch, chunk_len, block_size)?,
        predicates: new_section(alloc, scratch, chunk_len, block_size)?,
        objects: new_section(alloc, scratch, chunk_len, block_size)?,
    })
}

/// Writes what is left of two sections.
fn finish_two<S: Scratch + Drop>(
    one: SectionTape<S>,
    two: SectionTape<S>,
) -> Result<(FinishedSection<S>, FinishedSection<S>), S::Error>
    ensures { IfOk result (λ made. (made.0 ≡ one) × (made.1 ≡ two)) }
{
    let one = one.finish()?;
    let two = two.finish()?;
    Ok((one, two))
}

/// Writes what is left of four sections.
pub(crate) fn finish_sections<S: Scratch + Drop>(
    sections: SectionTapes<S>,
) -> Result<FinishedSections<S>, S::Error>
    ensures { IfOk result (λ made. made ≡ sections) }
{
    let SectionTapes {
        shared,
        subjects,
        predicates,
        objects,
    } = sections;
    let (shared, subjects) = finish_two(shared, subjects)?;
    let (predicates, objects) = finish_two(predicates, objects)?;
    Ok(FinishedSections {
        shared,
        subjects,
        predicates,
        objects,
    })
}
