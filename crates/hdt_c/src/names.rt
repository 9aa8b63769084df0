//! The version of the interface, and the names of reasons.
ghost use Rattle.std.specs.Prelude.{◌≡◌, ◌↔◌, Some};
ghost use Rattle.hdt_terms.specs.declared.fault.LineReason.{LineReason};
ghost use Rattle.hdt_terms.specs.Reasons.{line_reason_number};
ghost use Rattle.hdt_wire.specs.declared.fault.Reason.{Reason};
ghost use Rattle.hdt_wire.specs.Fault.{reason_number};
ghost use Rattle.hdt_c.specs.LookUps.{absent};
ghost use Rattle.hdt_c.specs.Names.{IsNoFileReason, IsNoTextReason, NamesFileReason, NamesTextReason, PutsText};

use crate::bytes::copy_into;
use crate::look_ups::ABSENT;
use hdt_terms::LineReason;
use hdt_wire::Reason;

/// The reasons of a file, in the order of their numbers.
const FILE_REASONS: [Reason; 34] = [
    Reason::Truncated,
    Reason::OverlongNumber,
    Reason::NumberTooLarge,
    Reason::NotHdt,
    Reason::WrongKind,
    Reason::Check16,
    Reason::WrongFormat,
    Reason::HeaderLength,
    Reason::TripleOrder,
    Reason::Check8,
    Reason::Check32,
    Reason::SequenceKind,
    Reason::Width,
    Reason::BitsKind,
    Reason::SectionKind,
    Reason::BlockSize,
    Reason::BlockCount,
    Reason::BlockPlace,
    Reason::PrefixTooLong,
    Reason::PackedLength,
    Reason::NotUtf8,
    Reason::StringsNotAscending,
    Reason::SectionsOverlap,
    Reason::NoTriples,
    Reason::LengthsDiffer,
    Reason::LastMark,
    Reason::MarkCount,
    Reason::SubjectRange,
    Reason::PredicateRange,
    Reason::ObjectRange,
    Reason::PredicatesNotAscending,
    Reason::ObjectsNotAscending,
    Reason::TrailingBytes,
    Reason::Unused,
];

/// The reasons of an N-Triples text, in the order of their numbers.
const TEXT_REASONS: [LineReason; 9] = [
    LineReason::Syntax,
    LineReason::NotUtf8,
    LineReason::BadEscape,
    LineReason::RelativeIri,
    LineReason::IriCharacter,
    LineReason::ZeroCharacter,
    LineReason::Read,
    LineReason::OutOfMemory,
    LineReason::TooLong,
];

/// `hdt_version`: returns the version of `c/hdt.h` that the library has: the major number times 65536, plus the minor
/// one.
#[unsafe(no_mangle)]
pub extern "C" fn hdt_version() -> u32
    ensures { result ≡ 65540 }
{
    0x0001_0004
}

/// The reason of a file with this number.
fn file_reason(number: u32) -> Option<Reason>
    ensures { (reason : Reason) → (result ≡ Some reason) ↔ (reason_number reason ≡ number) }
{
    let table = &FILE_REASONS;
    let reason = *table.get(number.checked_sub(1)? as usize)?;
    if u32::from(reason.number()) == number {
        Some(reason)
    } else {
        None
    }
}

/// The reason of an N-Triples text with this number.
fn text_reason(number: u32) -> Option<LineReason>
    ensures { (reason : LineReason) → (result ≡ Some reason) ↔ (line_reason_number reason ≡ number) }
{
    let table = &TEXT_REASONS;
    let reason = *table.get(number.checked_sub(1)? as usize)?;
    if u32::from(reason.number()) == number {
        Some(reason)
    } else {
        None
    }
}

/// Writes a name to a buffer of the caller, as many bytes as fit, and returns its length.
fn put_name(name: &str, buffer: &mut [u8]) -> u64
    ensures { PutsText name.now result buffer.old buffer.new }
{
    let bytes = name.as_bytes();
    copy_into(bytes, buffer);
    bytes.len() as u64
}

/// `hdt_reason_name`: writes the name of a reason of a file to the buffer, as many bytes as fit, and returns its
/// length, or `HDT_ABSENT` if no reason has this number.
#[unsafe(no_mangle)]
pub extern "C" fn hdt_reason_name(reason: u32, out: &mut [u8]) -> u64
    ensures named { NamesFileReason reason result out.old out.new }
    ensures none { IsNoFileReason reason → (result ≡ absent) × (out.new ≡ out.old) }
{
    match file_reason(reason) {
        Some(found) => put_name(found.name(), out),
        None => ABSENT,
    }
}

/// `hdt_text_reason_name`: the same for a reason of an N-Triples text.
#[unsafe(no_mangle)]
pub extern "C" fn hdt_text_reason_name(reason: u32, out: &mut [u8]) -> u64
    ensures named { NamesTextReason reason result out.old out.new }
    ensures none { IsNoTextReason reason → (result ≡ absent) × (out.new ≡ out.old) }
{
    match text_reason(reason) {
        Some(found) => put_name(found.name(), out),
        None => ABSENT,
    }
}
