//! The errors of a file: what is wrong, and at which byte offset.
ghost use Rattle.std.specs.Prelude.{◌≡◌};

use std::error::Error;
use std::fmt;

/// What is wrong with a file. The values are those of [`Reason::number`].
#[derive(Clone, Copy, Debug, PartialEq, Eq)]
pub enum Reason {
    /// The input ends within the item that is read, or before it.
    Truncated = 1,
    /// A VByte number has more bytes than it needs.
    OverlongNumber = 2,
    /// A VByte number is 2^64 or more.
    NumberTooLarge = 3,
    /// Control information does not begin with `$HDT`.
    NotHdt = 4,
    /// Control information is of another type than the one expected here.
    WrongKind = 5,
    /// The CRC-16 of control information does not match.
    Check16 = 6,
    /// The format is not the supported one for this type of control information.
    WrongFormat = 7,
    /// The header has no property `length`, or its value is not a decimal number below 2^64.
    HeaderLength = 8,
    /// The property `order` of the triples is not `1`.
    TripleOrder = 9,
    /// A CRC-8 does not match.
    Check8 = 10,
    /// A CRC-32C does not match.
    Check32 = 11,
    /// The type byte of a log sequence is not 1.
    SequenceKind = 12,
    /// The entries of a log sequence have more than 64 bits.
    Width = 13,
    /// The type byte of a bitmap is not 1.
    BitsKind = 14,
    /// The type byte of a dictionary section is not 2.
    SectionKind = 15,
    /// A section with strings has the block size 0.
    BlockSize = 16,
    /// The number of block offsets of a section is not that of its blocks plus one.
    BlockCount = 17,
    /// A block offset is not where its block begins.
    BlockPlace = 18,
    /// A string shares more bytes with the previous string than that has.
    PrefixTooLong = 19,
    /// The strings of a section do not end where its front-coded bytes end.
    PackedLength = 20,
    /// A string is not UTF-8.
    NotUtf8 = 21,
    /// A string is not greater than the previous one.
    StringsNotAscending = 22,
    /// A string is in two of the sections shared, subjects and objects.
    SectionsOverlap = 23,
    /// A bitmap of the triples is empty.
    NoTriples = 24,
    /// A bitmap and its log sequence differ in length.
    LengthsDiffer = 25,
    /// The last bit of a bitmap is 0.
    LastMark = 26,
    /// The number of 1-bits in bitmap Z is not the number of pairs of subject and predicate.
    MarkCount = 27,
    /// A subject ID is greater than the number of subjects.
    SubjectRange = 28,
    /// A predicate ID is 0 or greater than the number of predicates.
    PredicateRange = 29,
    /// An object ID is 0 or greater than the number of objects.
    ObjectRange = 30,
    /// A predicate ID is not greater than the previous one of the same subject.
    PredicatesNotAscending = 31,
    /// An object ID is not greater than the previous one of the same subject and predicate.
    ObjectsNotAscending = 32,
    /// Bytes follow the triples.
    TrailingBytes = 33,
    /// No triple uses a string of the dictionary in the role of its section. Only tight verification reports it.
    Unused = 34,
}

impl Reason {
    ghost use Rattle.hdt_wire.specs.Fault.{reason_number, reason_name};

    /// Returns the reason's number, 1 to 34, as in docs/FORMAT.md.
    pub fn number(self) -> u8
        ensures { result ≡ reason_number self }
    {
        self as u8
    }

    /// Returns the reason's name, as in docs/FORMAT.md.
    pub fn name(self) -> &'static str
        ensures { result.now ≡ reason_name self }
    {
        match self {
            Reason::Truncated => "Truncated",
            Reason::OverlongNumber => "OverlongNumber",
            Reason::NumberTooLarge => "NumberTooLarge",
            Reason::NotHdt => "NotHdt",
            Reason::WrongKind => "WrongKind",
            Reason::Check16 => "Check16",
            Reason::WrongFormat => "WrongFormat",
            Reason::HeaderLength => "HeaderLength",
            Reason::TripleOrder => "TripleOrder",
            Reason::Check8 => "Check8",
            Reason::Check32 => "Check32",
            Reason::SequenceKind => "SequenceKind",
            Reason::Width => "Width",
            Reason::BitsKind => "BitsKind",
            Reason::SectionKind => "SectionKind",
            Reason::BlockSize => "BlockSize",
            Reason::BlockCount => "BlockCount",
            Reason::BlockPlace => "BlockPlace",
            Reason::PrefixTooLong => "PrefixTooLong",
            Reason::PackedLength => "PackedLength",
            Reason::NotUtf8 => "NotUtf8",
            Reason::StringsNotAscending => "StringsNotAscending",
            Reason::SectionsOverlap => "SectionsOverlap",
            Reason::NoTriples => "NoTriples",
            Reason::LengthsDiffer => "LengthsDiffer",
            Reason::LastMark => "LastMark",
            Reason::MarkCount => "MarkCount",
            Reason::SubjectRange => "SubjectRange",
            Reason::PredicateRange => "PredicateRange",
            Reason::ObjectRange => "ObjectRange",
            Reason::PredicatesNotAscending => "PredicatesNotAscending",
            Reason::ObjectsNotAscending => "ObjectsNotAscending",
            Reason::TrailingBytes => "TrailingBytes",
            Reason::Unused => "Unused",
        }
    }
}

/// The first error of a file: the first check of the format that fails, and its byte offset.
#[derive(Clone, Copy, Debug, PartialEq, Eq)]
pub struct Fault {
    /// The byte offset of the error in the input, from 0.
    pub place: u64,
    /// What is wrong there.
    pub reason: Reason,
}

impl fmt::Display for Fault {
    ghost use Rattle.std.specs.Prelude.{Some};
    ghost use Rattle.hdt_wire.specs.Fault.{fault_text};

    ghost output = { λ fault. Some (fault_text fault) };

    fn fmt<W: fmt::Write>(&self, f: &mut fmt::Formatter<W>) -> fmt::Result {
        let name = self.reason.name();
        let place = self.place;
        write!(f, "{name} at {place}")
    }
}

impl Error for Fault {}
