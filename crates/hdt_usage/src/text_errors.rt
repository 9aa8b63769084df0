//! The errors of an N-Triples text. `python3 -m tools.errors --rattle` makes this of docs/ERRORS.md.

use crate::explanations::Explanation;

/// The errors of an N-Triples text, as docs/ERRORS.md explains them: number, name, meaning, cause and remedy.
pub(crate) const TEXT_ERRORS: &[Explanation] = &[
    (
        "1",
        "Syntax",
        "The line is not N-Triples: the byte at this column is not allowed there, or
the line ends too soon (the column is then one past its end).",
        "A string without its closing quote; no dot at the end; a literal as
subject or predicate; a space in an IRI, or no >; or Turtle (@prefix, ex:a, 5)
or N-Quads.",
        "Correct the line at that column; a space in an IRI is %20. Convert
Turtle: serdi -i turtle -o ntriples IN > OUT.",
    ),
    (
        "2",
        "NotUtf8",
        "The line is not UTF-8. The column is that of the first wrong byte.",
        "The document is in another encoding, such as Latin-1 or UTF-16.",
        "Convert it: iconv -f LATIN1 -t UTF-8 IN > OUT.",
    ),
    (
        "3",
        "BadEscape",
        "A backslash begins no escape that is allowed here, or the escape is that of no
character.",
        "A single backslash, as in a Windows path; two surrogates for a
character above U+FFFF, as in JSON; in an IRI, an escape other than \\u and \\U.",
        "Write a backslash as \\\\, and a character above U+FFFF as itself or by
\\U and eight digits.",
    ),
    (
        "4",
        "RelativeIri",
        "An IRI is not absolute: it does not begin with a scheme and a colon.",
        "The document was converted from Turtle or RDF/XML without a base IRI.",
        "Convert it again with a base IRI, or write all IRIs in full.",
    ),
    (
        "5",
        "IriCharacter",
        "An escape in an IRI is that of a character that IRIs exclude, such as a space.",
        "A program escaped the character to make the IRI look valid.",
        "Write the character in percent encoding, a space as %20.",
    ),
    (
        "6",
        "ZeroCharacter",
        "A string has the character U+0000, as itself or as an escape.",
        "Binary data, or text with an end mark of C, was exported as a literal.",
        "Remove the character. No HDT file can have it, as a zero byte ends
each string.",
    ),
    (
        "7",
        "Read",
        "Reading the text failed. Only the Rattle library reports it; hdt prints
hdt: reading failed.",
        "The path is missing or a folder, the permission is missing, or the disk
or network failed.",
        "Check the path and its permissions, and try cat FILE > /dev/null.",
    ),
    (
        "8",
        "OutOfMemory",
        "Memory ran out; the text may be valid. Only the Rattle library reports it; hdt
prints hdt: out of memory.",
        "The graph does not fit into memory, or the process has a limit
(ulimit -v, a container).",
        "Raise the limit, use a machine with more memory, or build several
smaller files.",
    ),
    (
        "9",
        "TooLong",
        "The text is longer than the limit that was given: a request of hdt answer than
--longest-request, or a line of hdt build, lint or split than --longest-line.",
        "A long literal, or a text without line ends.",
        "Raise the limit, in bytes. Of a request it is 1048576 without the
option; a line has no limit then.",
    ),
];
