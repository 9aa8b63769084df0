//! The errors of an HDT file. `python3 -m tools.errors --rattle` makes this of docs/ERRORS.md.

use crate::explanations::Explanation;

/// The errors of an HDT file, as docs/ERRORS.md explains them: number, name, meaning, cause and remedy.
pub(crate) const FILE_ERRORS: &[Explanation] = &[
    (
        "1",
        "Truncated",
        "The file ends before the item at the offset is complete.",
        "An interrupted download or copy, or a full disk.",
        "Download the file again. If the error stays, build it again, from its
source or from N-Triples of another program.",
    ),
    (
        "2",
        "OverlongNumber",
        "A VByte number has more bytes than it needs: its last digit is 0.",
        "The file is damaged, or the program that wrote it has a defect or uses
another encoding.",
        "Download the file again. If the error stays, build it again, from its
source or from N-Triples of another program.",
    ),
    (
        "3",
        "NumberTooLarge",
        "A VByte number is 2^64 or greater, or its first ten bytes do not end it.",
        "The program that wrote the file sets the top bit of all bytes but the
last, as LEB128 does, or the file is damaged.",
        "Download the file again. If the error stays, build it again, from its
source or from N-Triples of another program.",
    ),
    (
        "4",
        "NotHdt",
        "Control information does not begin with the four bytes $HDT.",
        "At offset 0, the input is compressed, N-Triples or a web page. At a
greater offset, the header was edited, but not its property length.",
        "Decompress the file (zcat FILE | hdt verify -), or build one from
N-Triples. Do not edit a header by hand.",
    ),
    (
        "5",
        "WrongKind",
        "Control information has another type than is expected here: 1 global, 2
header, 3 dictionary, 4 triples.",
        "The input is another program's index file, or a part is missing.",
        "Use the HDT file itself. hdt needs no index file.",
    ),
    (
        "6",
        "Check16",
        "The CRC-16 of control information does not match its bytes.",
        "Properties were edited by hand, or a transfer has converted line ends.",
        "Download the file again. If the error stays, build it again, from its
source or from N-Triples of another program.",
    ),
    (
        "7",
        "WrongFormat",
        "The format of a part is not supported. hdt reads dictionaries of four
sections, and bitmap triples.",
        "The file has quads, another kind of dictionary, or triples as a list.",
        "Download the file again. If the error stays, build it again, from its
source or from N-Triples of another program.",
    ),
    (
        "8",
        "HeaderLength",
        "The header's property length is missing, or is not a decimal number below
2^64.",
        "The file is damaged, or the program that wrote it has a defect or uses
another encoding.",
        "Download the file again. If the error stays, build it again, from its
source or from N-Triples of another program.",
    ),
    (
        "9",
        "TripleOrder",
        "The property order of the triples is not 1, which is the order subject,
predicate, object.",
        "The file is damaged, or the program that wrote it has a defect or uses
another encoding.",
        "Download the file again. If the error stays, build it again, from its
source or from N-Triples of another program.",
    ),
    (
        "10",
        "Check8",
        "The CRC-8 of the type and the lengths of a section, a log sequence or a bitmap
does not match.",
        "The file is damaged, or the program that wrote it has a defect or uses
another encoding.",
        "Download the file again. If the error stays, build it again, from its
source or from N-Triples of another program.",
    ),
    (
        "11",
        "Check32",
        "The CRC-32C of the strings of a section, or of the data of a log sequence or a
bitmap, does not match.",
        "The file is damaged, or the program that wrote it has a defect or uses
another encoding.",
        "Download the file again. If the error stays, build it again, from its
source or from N-Triples of another program.",
    ),
    (
        "12",
        "SequenceKind",
        "The type of a log sequence is not 1.",
        "The file is damaged, or the program that wrote it has a defect or uses
another encoding.",
        "Download the file again. If the error stays, build it again, from its
source or from N-Triples of another program.",
    ),
    (
        "13",
        "Width",
        "A log sequence has entries of more than 64 bits.",
        "The file is damaged, or the program that wrote it has a defect or uses
another encoding.",
        "Download the file again. If the error stays, build it again, from its
source or from N-Triples of another program.",
    ),
    (
        "14",
        "BitsKind",
        "The type of a bitmap is not 1.",
        "The file is damaged, or the program that wrote it has a defect or uses
another encoding.",
        "Download the file again. If the error stays, build it again, from its
source or from N-Triples of another program.",
    ),
    (
        "15",
        "SectionKind",
        "The type of a dictionary section is not 2, which is plain front coding.",
        "The file is damaged, or the program that wrote it has a defect or uses
another encoding.",
        "Download the file again. If the error stays, build it again, from its
source or from N-Triples of another program.",
    ),
    (
        "16",
        "BlockSize",
        "A section that has strings has the block size 0.",
        "The file is damaged, or the program that wrote it has a defect or uses
another encoding.",
        "Download the file again. If the error stays, build it again, from its
source or from N-Triples of another program.",
    ),
    (
        "17",
        "BlockCount",
        "A section does not have one block offset for each block, and one more for the
end of the last block.",
        "The file is damaged, or the program that wrote it has a defect or uses
another encoding.",
        "Download the file again. If the error stays, build it again, from its
source or from N-Triples of another program.",
    ),
    (
        "18",
        "BlockPlace",
        "A block offset is not where its block begins, or the last one is not where the
strings end.",
        "The file is damaged, or the program that wrote it has a defect or uses
another encoding.",
        "Download the file again. If the error stays, build it again, from its
source or from N-Triples of another program.",
    ),
    (
        "19",
        "PrefixTooLong",
        "A string shares more bytes with the string before than that has.",
        "The file is damaged, or the program that wrote it has a defect or uses
another encoding.",
        "Download the file again. If the error stays, build it again, from its
source or from N-Triples of another program.",
    ),
    (
        "20",
        "PackedLength",
        "The strings of a section do not end where its stored length says.",
        "The file is damaged, or the program that wrote it has a defect or uses
another encoding.",
        "Download the file again. If the error stays, build it again, from its
source or from N-Triples of another program.",
    ),
    (
        "21",
        "NotUtf8",
        "A string of the dictionary is not UTF-8. The offset is that of the string.",
        "The source was in another encoding, such as Latin-1.",
        "Convert the source (iconv -f LATIN1 -t UTF-8 IN > OUT), and build the
file again.",
    ),
    (
        "22",
        "StringsNotAscending",
        "A string of a section is not greater than the string before, compared by
unsigned bytes.",
        "The program that wrote the file sorts strings in another order, such as
that of UTF-16, or keeps duplicates.",
        "Download the file again. If the error stays, build it again, from its
source or from N-Triples of another program.",
    ),
    (
        "23",
        "SectionsOverlap",
        "A string is in two of the sections shared, subjects and objects. The offset is
that of the second one.",
        "The program that wrote the file does not move such strings to the
shared section.",
        "Download the file again. If the error stays, build it again, from its
source or from N-Triples of another program.",
    ),
    (
        "24",
        "NoTriples",
        "A bitmap of the triples is empty: the file has no triples.",
        "The file was built from an empty document.",
        "Build from a document with triples: no valid file has none.",
    ),
    (
        "25",
        "LengthsDiffer",
        "A bitmap and its log sequence have different lengths.",
        "The file is damaged, or the program that wrote it has a defect or uses
another encoding.",
        "Download the file again. If the error stays, build it again, from its
source or from N-Triples of another program.",
    ),
    (
        "26",
        "LastMark",
        "The last bit of a bitmap of the triples is 0, so its last list does not end.",
        "The program that wrote the file sets bits where lists begin, not where
they end.",
        "Download the file again. If the error stays, build it again, from its
source or from N-Triples of another program.",
    ),
    (
        "27",
        "MarkCount",
        "Bitmap Z does not have one 1-bit for each pair of a subject and a predicate.",
        "The file is damaged, or the program that wrote it has a defect or uses
another encoding.",
        "Download the file again. If the error stays, build it again, from its
source or from N-Triples of another program.",
    ),
    (
        "28",
        "SubjectRange",
        "The triples have more subjects than the dictionary.",
        "The dictionary and the triples belong to two files, or bitmap Y is
wrong.",
        "Download the file again. If the error stays, build it again, from its
source or from N-Triples of another program.",
    ),
    (
        "29",
        "PredicateRange",
        "A predicate ID is 0 or greater than the number of predicates.",
        "The program that wrote the file counts IDs from 0.",
        "Download the file again. If the error stays, build it again, from its
source or from N-Triples of another program.",
    ),
    (
        "30",
        "ObjectRange",
        "An object ID is 0 or greater than the number of objects, shared strings
included.",
        "The program that wrote the file counts IDs from 0, or without the
shared strings.",
        "Download the file again. If the error stays, build it again, from its
source or from N-Triples of another program.",
    ),
    (
        "31",
        "PredicatesNotAscending",
        "A predicate ID is not greater than the one before of the same subject.",
        "The file is damaged, or the program that wrote it has a defect or uses
another encoding.",
        "Download the file again. If the error stays, build it again, from its
source or from N-Triples of another program.",
    ),
    (
        "32",
        "ObjectsNotAscending",
        "An object ID is not greater than the one before of the same subject and
predicate.",
        "The file is damaged, or the program that wrote it has a defect or uses
another encoding.",
        "Download the file again. If the error stays, build it again, from its
source or from N-Triples of another program.",
    ),
    (
        "33",
        "TrailingBytes",
        "The file is complete at the offset, and more bytes follow.",
        "Something was appended: another file, the output of a second command,
or a line end.",
        "Cut the file at the offset: head -c OFFSET FILE > NEW makes a valid
file.",
    ),
    (
        "34",
        "Unused",
        "No triple uses a string of the dictionary in the role of its section. Only
verify --tight reports it.",
        "Triples were removed without their strings, or several files share one
dictionary.",
        "hdt rewrite FILE NEW leaves such strings out. Without --tight the file
is valid.",
    ),
];
