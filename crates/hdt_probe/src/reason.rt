//! The reasons of errors, by their numbers.

use hdt_wire::Reason;

/// Reasons of numbers, control information and sequences.
fn low_reason(number: u64) -> Option<Reason> {
    match number {
        1 => Some(Reason::Truncated),
        2 => Some(Reason::OverlongNumber),
        3 => Some(Reason::NumberTooLarge),
        4 => Some(Reason::NotHdt),
        5 => Some(Reason::WrongKind),
        6 => Some(Reason::Check16),
        7 => Some(Reason::WrongFormat),
        8 => Some(Reason::HeaderLength),
        9 => Some(Reason::TripleOrder),
        10 => Some(Reason::Check8),
        11 => Some(Reason::Check32),
        12 => Some(Reason::SequenceKind),
        _ => None,
    }
}

/// Reasons of sections.
fn middle_reason(number: u64) -> Option<Reason> {
    match number {
        13 => Some(Reason::Width),
        14 => Some(Reason::BitsKind),
        15 => Some(Reason::SectionKind),
        16 => Some(Reason::BlockSize),
        17 => Some(Reason::BlockCount),
        18 => Some(Reason::BlockPlace),
        19 => Some(Reason::PrefixTooLong),
        20 => Some(Reason::PackedLength),
        21 => Some(Reason::NotUtf8),
        22 => Some(Reason::StringsNotAscending),
        23 => Some(Reason::SectionsOverlap),
        _ => None,
    }
}

/// Reasons of triples and of files.
fn high_reason(number: u64) -> Option<Reason> {
    match number {
        24 => Some(Reason::NoTriples),
        25 => Some(Reason::LengthsDiffer),
        26 => Some(Reason::LastMark),
        27 => Some(Reason::MarkCount),
        28 => Some(Reason::SubjectRange),
        29 => Some(Reason::PredicateRange),
        30 => Some(Reason::ObjectRange),
        31 => Some(Reason::PredicatesNotAscending),
        32 => Some(Reason::ObjectsNotAscending),
        33 => Some(Reason::TrailingBytes),
        34 => Some(Reason::Unused),
        _ => None,
    }
}

/// Returns the reason with this number.
pub fn reason_of(number: u64) -> Option<Reason> {
    if number < 13 {
        return low_reason(number);
    }
    if number < 24 {
        return middle_reason(number);
    }
    high_reason(number)
}
