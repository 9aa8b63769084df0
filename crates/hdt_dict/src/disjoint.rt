//! The checks after reading the four sections: no string is in two of shared, subjects and objects.
ghost use Rattle.std.specs.Prelude.{◌≡◌, ◌||◌, [], IfOk, unwrap_or};
ghost use Rattle.hdt_wire.specs.Checks.{ReadsUnlessOom};
ghost use Rattle.hdt_front.specs.Faults.{read_fault_of};
ghost use Rattle.hdt_front.specs.Iteration.{LocatedAscend};
ghost use Rattle.hdt_front.specs.Strings.{section_of};
ghost use Rattle.hdt_front.specs.SectionIteration.{located_strings};
ghost use Rattle.hdt_dict.specs.Dictionary.{disjoint_at};
ghost use Rattle.hdt_dict.specs.Inside.Overlap.{contains_string, first_offset, located_of, strings_before};

use crate::overlap::first_common;
use hdt_front::{Cursor, ReadFault, Section};
use hdt_wire::{Fault, Reason};
use std::alloc::{AllocError, Global};

/// A cursor over a section, if there is one.
fn cursor_over<'a>(
    alloc: Global,
    section: Option<Section<'a>>,
) -> Result<Option<Cursor<'a>>, AllocError>
    ensures is { IfOk result (λ c. unwrap_or c [] ≡ located_of section.entry) }
    ensures ascends { IfOk result (λ c. LocatedAscend (unwrap_or c [])) }
{
    match section {
        Some(section) => Ok(Some(Cursor::new(alloc, &section)?)),
        None => Ok(None),
    }
}

/// The byte offset of the first string of a section that is in one of the others.
fn find_overlap(
    alloc: Global,
    shared: &Section<'_>,
    other: Option<Section<'_>>,
    section: &Section<'_>,
) -> Result<Option<usize>, AllocError>
    ensures { IfOk result (λ r. r
        ≡ first_offset (λ x. contains_string (located_strings shared.now) x || contains_string
        (located_of other.entry) x) (located_strings section.now)) }
{
    let mut list = Cursor::new(alloc, section)?;
    let mut one = Cursor::new(alloc, shared)?;
    let mut two = cursor_over(alloc, other)?;
    first_common(&mut list, &mut one, &mut two)
}

/// Checks that no string of a section is in shared, or in another section if there is one.
pub(crate) fn check_disjoint(
    alloc: Global,
    shared: &Section<'_>,
    other: Option<Section<'_>>,
    section: &Section<'_>,
) -> Result<(), ReadFault>
    ensures { ReadsUnlessOom read_fault_of (λ x. x) result
        (disjoint_at (strings_before shared.now other.entry) (section_of section.now)) }
{
    match find_overlap(alloc, shared, other, section)? {
        None => Ok(()),
        Some(place) => Err(ReadFault::Fault(Fault {
            place: place as u64,
            reason: Reason::SectionsOverlap,
        })),
    }
}
