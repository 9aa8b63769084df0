//! The sizes of a file's parts.
ghost use Rattle.std.specs.Prelude.{◌≡◌, Err, IfErr, IfOk, IfSome, Ok};
ghost use Rattle.hdt_wire.specs.Checks.{ReadsUnlessOom};
ghost use Rattle.hdt_front.specs.Strings.{section_of, strings_of};
ghost use Rattle.hdt_dict.specs.Views.{dictionary_of};
ghost use Rattle.hdt_file.specs.Faults.{open_fault_of};
ghost use Rattle.hdt_file.specs.File.{decode_file, decode_graph};
ghost use Rattle.hdt_file.specs.Graph.{parts_of_layout};
ghost use Rattle.hdt_file.specs.Info.{IsFileInfo, total_len, section_info, dictionary_info, file_info};

use crate::fault::OpenFault;
use crate::layout::Layout;
use hdt_dict::{Dictionary, SectionId};
use hdt_front::{Section, SectionIter};
use hdt_wire::{Kind, read_control};
use std::alloc::{AllocError, Global};

/// The sizes of a section of the dictionary.
#[derive(Clone, Copy, Debug, PartialEq, Eq)]
pub struct SectionInfo {
    /// The bytes of the section in the file.
    pub bytes: u64,
    /// The number of its strings.
    pub strings: u64,
    /// The number of strings of a block.
    pub block_size: u64,
    /// The sum of the lengths of its strings in bytes, decoded.
    pub string_bytes: u128,
    /// The bits of an entry of its block offsets.
    pub offset_bits: u8,
}

/// The sizes of the sections of the dictionary.
#[derive(Clone, Copy, Debug, PartialEq, Eq)]
pub struct DictionaryInfo {
    /// The strings that are subjects and objects.
    pub shared: SectionInfo,
    /// The strings that are subjects only.
    pub subjects: SectionInfo,
    /// The predicates.
    pub predicates: SectionInfo,
    /// The strings that are objects only.
    pub objects: SectionInfo,
}

/// The bits of an entry of each sequence of the triples.
#[derive(Clone, Copy, Debug, PartialEq, Eq)]
pub struct EntryBits {
    /// Bitmap Y: 1.
    pub bitmap_y: u8,
    /// Bitmap Z: 1.
    pub bitmap_z: u8,
    /// Array Y, which has the predicate of each pair of a subject and a predicate.
    pub array_y: u8,
    /// Array Z, which has the object of each triple.
    pub array_z: u8,
}

/// The sizes of a file's parts.
#[derive(Clone, Copy, Debug, PartialEq, Eq)]
pub struct FileInfo {
    /// The bytes of the file.
    pub bytes: u64,
    /// The bytes of the header body.
    pub header_bytes: u64,
    /// The number of triples.
    pub triples: u64,
    /// The sizes of the sections of the dictionary.
    pub dictionary: DictionaryInfo,
    /// The bits of an entry of each sequence of the triples.
    pub entry_bits: EntryBits,
}

/// The sum of the lengths of a section's strings in bytes.
fn string_bytes(alloc: Global, section: &Section<'_>) -> Result<u128, AllocError>
    ensures { IfOk result (λ total. total ≡ total_len (strings_of section.now)) }
{
    let mut strings = SectionIter::new(alloc, section);
    let mut total: u128 = 0;
    'strings: for i in 0..section.len() {
        strings.next()?;
        total += strings.string().len() as u128;
    }
    Ok(total)
}

/// The sizes of a section that begins at a byte offset.
#[tactic(auto, unfolding(hdt_front::specs::Strings::section_of))]
fn section_info(alloc: Global, section: &Section<'_>, at: usize) -> Result<SectionInfo, AllocError>
    ensures { IfOk result (λ info. info ≡ section_info (section_of section.now) at) }
{
    Ok(SectionInfo {
        bytes: section.end().saturating_sub(at) as u64,
        strings: section.len(),
        block_size: section.block_size(),
        string_bytes: string_bytes(alloc, section)?,
        offset_bits: section.offset_bits(),
    })
}

/// The sizes of the sections of a dictionary, the first of which begins at a byte offset.
fn dictionary_info(
    alloc: Global,
    dictionary: &Dictionary<'_>,
    at: usize,
) -> Result<DictionaryInfo, AllocError>
    ensures { IfOk result (λ info. info ≡ dictionary_info (dictionary_of dictionary.now) at) }
{
    let shared = dictionary.section(SectionId::Shared);
    let subjects = dictionary.section(SectionId::Subjects);
    let predicates = dictionary.section(SectionId::Predicates);
    let objects = dictionary.section(SectionId::Objects);
    Ok(DictionaryInfo {
        shared: section_info(alloc, shared, at)?,
        subjects: section_info(alloc, subjects, shared.end())?,
        predicates: section_info(alloc, predicates, subjects.end())?,
        objects: section_info(alloc, objects, predicates.end())?,
    })
}

/// The sizes of the parts of a file of so many bytes, the first section of which begins at a byte offset.
#[tactic(auto, unfolding(crate::specs::Graph::layout_view, crate::specs::Graph::parts_of_layout, crate::specs::Head::head_parts, hdt_triples::specs::Views::entry_widths))]
fn part_sizes(
    alloc: Global,
    layout: &Layout<'_>,
    bytes: u64,
    at: usize,
) -> Result<FileInfo, AllocError>
    ensures { IfOk result (λ info. info ≡ file_info bytes (parts_of_layout layout.now) at) }
{
    let [triples, _, _, _, _] = layout.lens();
    let (array_y, array_z) = layout.triples.entry_widths();
    Ok(FileInfo {
        bytes,
        header_bytes: layout.head.body().len() as u64,
        triples,
        dictionary: dictionary_info(alloc, &layout.dictionary, at)?,
        entry_bits: EntryBits {
            bitmap_y: 1,
            bitmap_z: 1,
            array_y,
            array_z,
        },
    })
}

/// Returns what [`file_info`] returns for the bytes that a layout was read from, which are not verified again.
///
/// # Errors
///
/// [`OpenFault::OutOfMemory`].
#[tactic(auto, unfolding(crate::specs::Graph::parts_of_layout, crate::specs::Head::head_parts, hdt_wire::specs::Control::control_view))]
pub fn layout_info(alloc: Global, layout: &Layout<'_>, bytes: &[u8]) -> Result<FileInfo, OpenFault>
    requires { decode_file bytes.now ≡ Ok (parts_of_layout layout.now) }
    ensures found { IfOk result (λ info. IsFileInfo info bytes.now) }
    ensures err { IfErr result (λ e. IfSome (open_fault_of e) (λ fault. decode_graph bytes.now ≡ Err fault)) }
{
    let control = read_control(bytes, layout.head.end(), Kind::Dictionary)?;
    Ok(part_sizes(alloc, layout, bytes.len() as u64, control.end())?)
}

/// Verifies a file as [`verify`](crate::verify) does, and returns the sizes of its parts.
///
/// Linear time in the bytes: each string is decoded once more than by `verify`. It builds no index, and holds at most
/// three strings at a time.
///
/// # Errors
///
/// The first error of the file, which is that of [`verify`](crate::verify); [`OpenFault::OutOfMemory`].
///
/// ```rust
/// let info = file_info(alloc, bytes)?;
/// let bytes_of_predicates = info.dictionary.predicates.string_bytes;
/// ```
pub fn file_info(alloc: Global, bytes: &[u8]) -> Result<FileInfo, OpenFault>
    // The bytes encode a file whose parts have these sizes.
    ensures found { IfOk result (λ info. IsFileInfo info bytes.now) }
    // If the bytes encode a file, the sizes of its parts are returned, unless memory ran out.
    ensures only { (info : FileInfo) → IsFileInfo info bytes.now
        → ReadsUnlessOom open_fault_of (λ x. x) result (Ok info) }
    // Otherwise it is the first error of the file.
    ensures err { IfErr result (λ e. IfSome (open_fault_of e) (λ fault. decode_graph bytes.now ≡ Err fault)) }
{
    layout_info(alloc, &Layout::read(alloc, bytes)?, bytes)
}
