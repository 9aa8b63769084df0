//! The texts of help.

pub(crate) const ABOUT: &str =
    "Builds and reads RDF HDT files: RDF graphs in a compact binary form.";

pub(crate) const VERSION: &str = "1.1.0";

pub(crate) const AFTER_HELP: &str =
    "IN and FILE may be - for standard input, OUT - for standard output. A file named - is ./-.

Exit status:
  0  success
  1  invalid input, with the first error and its position on standard error; no triples to build
     from; no such term or ID; a string that has no form in N-Triples; an invalid request of
     `answer`; a faulty line for `lint`
  2  usage error, or the command would write to a file that it reads
  3  reading or writing failed; a closed pipe is a failed write
  4  out of memory

After an error message more lines follow, indented, if standard error is a terminal or with
--verbose: the path, the place and the system's reason, the line, the error's meaning, and hints.
Otherwise at most one does: the path and the system's reason if reading or writing failed, or a
hint if the input begins as a file of another kind.

If standard error is a terminal, a command shows its progress in one line once it has read 16 MiB.
The line is removed at the end. --no-progress turns it off; --progress prints lines for a log.

Beyond a limit on file size (ulimit -f) the system ends the program by the signal SIGXFSZ.
If that signal is ignored, writing fails.";

pub(crate) const BASE: &str = "http://example.org/dataset";

/// A text of help. (The table of commands has these names: with the texts it would be too large to prove.)
#[derive(Clone, Copy)]
pub(crate) enum Help {
    HeadAbout,
    HeadLongAbout,
    HeaderBody,
    VerifyAbout,
    VerifyLongAbout,
    Tight,
    NonTerms,
    Progress,
    NoProgress,
    InfoAbout,
    InfoLongAbout,
    Json,
    StringsAbout,
    StringsLongAbout,
    Prefix,
    Terms,
    StringAbout,
    NumberAbout,
    NumberLongAbout,
    CountAbout,
    CountLongAbout,
    FindAbout,
    FindLongAbout,
    AnswerAbout,
    AnswerLongAbout,
    RawRequests,
    LongestRequest,
    LongestLine,
    DumpAbout,
    DumpLongAbout,
    BuildAbout,
    BuildUsage,
    BuildLongAbout,
    BuildPaths,
    Memory,
    Scratch,
    RewriteAbout,
    RewriteLongAbout,
    NewHeader,
    MergeAbout,
    MergeUsage,
    MergeLongAbout,
    MergeFile,
    MergePaths,
    LintAbout,
    LintLongAbout,
    Keep,
    MostFaulty,
    SplitAbout,
    SplitUsage,
    SplitLongAbout,
    SplitPaths,
    SplitParts,
    SplitOf,
    BlankNodes,
    ExplainAbout,
    ExplainLongAbout,
    Reason,
    Verbose,
    In,
    Out,
    Base,
    BlockSize,
    File,
    ServedFile,
    Role,
    Number,
    Term,
    Raw,
    RawStrings,
    Top,
    Subject,
    Predicate,
    Object,
    RawParts,
    Numbers,
    Count,
    Quiet,
    Skip,
    Most,
}

impl Help {
    /// The text.
    pub(crate) fn text(self) -> &'static str {
        match self {
            Help::HeadAbout => "Print a file's head: formats, properties and header",
            Help::HeadLongAbout => "Print the head of an HDT file.

Five lines have the format and the properties of the file, those of its header, and the length
of the header in bytes. The header itself follows: N-Triples about the graph. Nothing after the
header is read, so this also works for a file that is cut off there.

With --body only the header itself is printed: edit it, and give it to `rewrite --header`.",
            Help::HeaderBody => "Print only the header",
            Help::VerifyAbout => "Verify a file, and count its triples and strings",
            Help::VerifyLongAbout => "Verify a file.

For a valid file, print `ok` and five counts: the triples, then the strings of the sections
shared, subjects, predicates and objects. Otherwise report the first error and its byte offset.
With --tight, also reject a file whose dictionary has a string that no triple uses in the role
of its section. `rewrite` leaves such strings out.

With --terms, print a line for each string of a valid file that is not a term of its role, which
has no form in N-Triples: its role, its ID and its byte offset, separated by tabs. A string of
the section shared is a subject and an object. If there is a line, the exit status is 1, and if
there is none, `ok` and the counts are printed.",
            Help::Tight => "Also reject strings that no triple uses",
            Help::NonTerms => "Print the strings that are not terms of their role",
            Help::Progress => "Report the bytes read in lines on standard error",
            Help::NoProgress => "Show no progress on a terminal",
            Help::InfoAbout => "Print the sizes of the parts of a file",
            Help::InfoLongAbout => "Print the sizes of the parts of a file.

One line per value: its name, a tab, the value. With --json, one object with the same names.

`bytes` and `header-bytes` are the sizes of the file and of its header; `triples`, `shared`,
`subjects`, `predicates` and `objects` are the numbers of triples and of the strings of each
section. For each section, `-bytes` is its size, `-block-size` the number of strings per block,
`-mean-length` the mean length of a string in bytes, and `-offset-bits` the bits per block offset.
`bitmap-y-bits`, `bitmap-z-bits`, `array-y-bits` and `array-z-bits` are the bits per entry of the
sequences that encode the triples.

`tight` is yes if triples use all strings, as `verify --tight` requires. `canonical` is yes if
`rewrite` with the block size of the predicates would write the same bytes. With --json both are
true or false.

If the file is not valid, report the first error, as `verify` does.",
            Help::Json => "Print one JSON object",
            Help::StringsAbout => "Print all strings of a role with their IDs",
            Help::StringsLongAbout => "Print all strings of a role with their IDs.

One line per string: the ID, a tab, the string. IDs count from 1. In a string \\, a line feed
and a carriage return are printed as \\\\, \\n and \\r.

With --prefix STR only the strings that begin with STR are printed. A search finds them. STR is
the start of a dictionary string: of an IRI without brackets, or of a literal with its first
quotation mark. With --terms each line is the N-Triples term of a string and nothing else, ready
for `find`. If a string has no form in N-Triples, nothing is printed and the exit status is 1.",
            Help::Prefix => "Print the strings that begin with STR only",
            Help::Terms => "Print N-Triples terms, without IDs",
            Help::StringAbout => "Print the string of a role that has an ID",
            Help::NumberAbout => "Print the ID of a term in a role",
            Help::NumberLongAbout => "Print the ID of a term in a role.

TERM is an N-Triples term: <http://example.org/a>, _:b or '\"text\"@en'. With --raw it is a
dictionary string: an IRI without brackets, a literal without escapes.",
            Help::CountAbout => "Count the triples of each term of a role",
            Help::CountLongAbout => "Count the triples of each term of a role.

One line per term: the number of its triples, a tab, and the term in N-Triples, in the order of
the IDs. With --top N only the N most frequent terms are printed, the most frequent first, and of
terms with as many triples the one with the smaller ID first. With --raw the dictionary strings
are printed, also those that are not terms; \\, a line feed and a carriage return in a string
are printed as \\\\, \\n and \\r.",
            Help::FindAbout => "Print the triples that have the given terms",
            Help::FindLongAbout => "Print the triples that have the given terms.

S, P and O are subject, predicate and object: each an N-Triples term, as
<http://example.org/a>, _:b or '\"text\"@en', or ? for any. The matching triples are printed as
N-Triples, one per line, in the order of the file. A term that the file does not have in that
role matches nothing. With --raw S, P and O are dictionary strings: an IRI without brackets, a
literal without escapes.

With --numbers a line has the IDs of subject, predicate and object. This also shows triples with
strings that have no form in N-Triples. With --count only the number of matching triples is
printed, and --numbers has no effect. With --most N only the first N matching triples are
printed or counted.

With --skip-non-terms triples with a string that has no form in N-Triples are left out; without
it such a string is an error, and nothing is printed. The number of the triples left out is on
standard error, and the exit status 1 if there are any. With --most N it is that of the triples
before the end of the N lines. It has no effect with --numbers.

With --quiet nothing is printed. The exit status is 0 if a triple matches and 1 if none does. The
search stops at the first match, so --numbers, --count and --most have no effect.",
            Help::AnswerAbout => "Answer requests for triples from standard input",
            Help::AnswerLongAbout => "Answer requests for triples from standard input.

FILE is opened once. Then each line of standard input is a request: subject, predicate and
object, each an N-Triples term or ? for any, with or without a full stop. Its answer is what
`find` prints for them, and an empty line. It is written before more input is awaited. Blank
lines and comments get no answer. A line of more bytes than --longest-request is an invalid
request, TooLong. It is skipped and takes no memory.

With --raw a request is three dictionary strings, or ? for any, separated by tabs; in a string
\\\\, \\n, \\r and \\t are a backslash, a line feed, a carriage return and a tab. FILE cannot be
standard input, which has the requests.

The answer to an invalid request is a comment, `# line L column C: N NAME`, and an empty line.
If a string has no form in N-Triples, the answer is `# ROLE ID is not a term`. Later requests
are answered, and the exit status at the end is 1.

With --skip-non-terms triples with a string that has no form in N-Triples are left out. The number
of the triples left out of all answers is on standard error at the end, and the exit status 1 if
there are any. It has no effect with --numbers.",
            Help::RawRequests => "Take the terms of requests as dictionary strings",
            Help::LongestRequest => "Reject request lines of more than N bytes",
            Help::LongestLine => "Reject lines of more than N bytes",
            Help::DumpAbout => "Print all triples",
            Help::DumpLongAbout =>
                "Print all triples in N-Triples, one line each, in the order of the file.

If a string has no form in N-Triples, nothing is printed and the exit status is 1. With
--skip-non-terms its triples are left out; their number is on standard error, and the exit status
is 1 if there are any.",
            Help::BuildAbout => "Build a file from N-Triples",
            Help::BuildUsage => "hdt build [OPTIONS] <IN>... <OUT>",
            Help::BuildPaths => "Paths of further documents, and of OUT",
            Help::BuildLongAbout => "Build an HDT file from N-Triples.

The order of the lines, duplicates and comments make no difference: equal graphs give equal
files, byte for byte. On success, print `built` and six counts: the triples, the strings of the
sections shared, subjects, predicates and objects, and the bytes of the file.

The last path is OUT. Several documents are built as if they were one, without a need for line
ends between them. Where two have blank nodes, say by --blank-nodes whether a label is one node in
all documents (one), or not (apart): then labels of the first document get the prefix f0_, those
of the second one f1_, and so on. An error message has the path of its document, and the number
of the line in it.

With --longest-line N a line of more than N bytes, without its end, is an error, TooLong. It is
found in the memory of a line of N bytes, however long it is.

With --memory SIZE the build takes about SIZE of memory, and writes the same file, more slowly.
SIZE is a number of bytes, or of KiB, MiB or GiB if K, M or G follows it: 4M or more. 4M is enough
for documents of 500 MB, 64M for 30 GB, 256M for 250 GB. On top of SIZE come some 8 MB for the
program, several times the longest line, and a string for each half SIZE of the documents.

What does not fit goes to scratch files. They take some 4 times the size of OUT, or more if lines
are repeated, but no more than twice that of the documents. They are in a new folder,
hdt-unfinished- and 16 digits, which only its owner can open. It is made beside OUT, or in FOLDER
with --scratch FOLDER, and removed at the end, also after an error, unless a signal ends the
program. If OUT is not a regular file, --scratch is needed.

OUT must not be an IN. OUT is replaced atomically: a temporary file in the same directory, which
only its owner can open, is written and synced, gets OUT's permissions and group, and is renamed.
If you may not give it the group, group and others get the permissions that both had. On failure
OUT is unchanged. A killed program may leave hdt-unfinished- and 16 digits: remove it. If OUT is
not a regular file, it is opened and written.

If OUT is - or the file or pipe of standard output, the file goes there, after what is already
written there, and the line of counts to standard error. If that goes there too, the line is not
printed.",
            Help::Memory => "Use about SIZE of memory, as 512M or 4G, and scratch files",
            Help::Scratch => "Make the scratch files of --memory in FOLDER",
            Help::RewriteAbout => "Write a file again in canonical form",
            Help::RewriteLongAbout =>
                "Write an HDT file again, as the canonical file of its triples.

The header stays the same, byte for byte. Strings that no triple uses are left out, so the IDs of
strings and the order of triples may change; the triples are the same. A file from `build` is its
own canonical file at the same block size. On success, print `rewritten` and six counts: the
triples, the strings of the sections shared, subjects, predicates and objects, and the bytes of
the file.

With --header FILE only the header is replaced, by the N-Triples of FILE as they are: a title, a
licence, or anything else about the graph. All other bytes stay, but the header's length and the
CRC over it, so the file is canonical only if it was. --block-size cannot be given too. FILE may
be - for standard input, unless IN is. `head --body` prints the header of a file.

IN may be OUT. OUT is replaced atomically: a temporary file in the same directory, which only its
owner can open, is written and synced, gets OUT's permissions and group, and is renamed. If you
may not give it the group, group and others get the permissions that both had. On failure OUT is
unchanged. A killed program may leave hdt-unfinished- and 16 digits: remove it. If OUT is not a
regular file, it is opened and written.

If OUT is - or the file or pipe of standard output, the file goes there, after what is already
written there, and the line of counts to standard error. If that goes there too, the line is not
printed.",
            Help::NewHeader => "Replace only the header, by the N-Triples of FILE",
            Help::MergeAbout => "Merge files into one",
            Help::MergeUsage => "hdt merge [OPTIONS] <FILE>... <OUT>",
            Help::MergeLongAbout =>
                "Merge HDT files into one, the canonical file of all their triples.

A blank node label is the same node in all files. Equal triples are one triple, and the order of
the files makes no difference: `build` makes the same file from the triples of all files, with
the same --base and --block-size. Strings that no triple uses are left out, and so are the
headers of the files: the new header is that of `build`. On success, print `merged` and six
counts: the triples, the strings of the sections shared, subjects, predicates and objects, and
the bytes of the file.

With --blank-nodes apart a label is another node in each file: labels of the first file get the
prefix f0_, those of the second one f1_, and so on, as in `build`. A blank node is any string that
begins with _:, in any role.

The last path is OUT. OUT may be one of the files: it is replaced when the new file is complete.
OUT is replaced atomically: a temporary file in the same directory, which only its owner can open,
is written and synced, gets OUT's permissions and group, and is renamed. If you may not give it
the group, group and others get the permissions that both had. On failure OUT is unchanged. A
killed program may leave hdt-unfinished- and 16 digits: remove it. If OUT is not a regular file,
it is opened and written.

If OUT is - or the file or pipe of standard output, the file goes there, after what is already
written there, and the line of counts to standard error. If that goes there too, the line is not
printed.

With --memory SIZE the merge takes about SIZE of memory and that of the largest FILE, which is read
whole, and writes the same file, more slowly. SIZE and the scratch files, with --scratch FOLDER,
are as in `build` from the N-Triples of all files. On top come some 8 MB for the program, and
several times the longest string. OUT may be one of the files.

An error message has the path of its file. Without --memory, memory is linear in the files: the
strings of each, front-coded, with 24 bytes each, and once more the distinct ones; 5 to 9 bytes for
each triple of each file, and as much for sorting, with 24 MB; one file at a time; and the new
file.",
            Help::MergeFile => "Path of an HDT file to read, or - for standard input",
            Help::MergePaths => "Paths of further HDT files to read, and of OUT",
            Help::LintAbout => "Report every faulty line of N-Triples",
            Help::LintLongAbout => "Report every faulty line of N-Triples.

One line per faulty line: `line L column C: N NAME`, with its number, the column of its first
error in bytes, both from 1, and the number and the name of the reason, as `explain` takes them.
The exit status is 1 if there are any, else 0. With --most N only the first N faulty lines are
reported, and nothing after them is checked. With --longest-line N a line of more than N bytes,
without its end, is faulty, TooLong at column N + 1. It takes the memory of a line of N bytes.

Without --keep the reports are printed to standard output. With --keep the lines without an error
are printed there, byte for byte and with their ends, also blank lines and comments; the reports
go to standard error. If the exit status is 0 or 1 these are all valid lines, so build a file only
then. Neither standard output nor standard error may be IN.",
            Help::Keep => "Print the lines without an error; report to standard error",
            Help::MostFaulty => "Stop after N faulty lines",
            Help::SplitAbout => "Split N-Triples into parts, by subject",
            Help::SplitUsage => "hdt split [OPTIONS] --parts <N> <IN>... <FOLDER>
       hdt split [OPTIONS] --of <K/N> <IN>...",
            Help::SplitLongAbout => "Split N-Triples into parts, by subject.

All triples of a subject go to one part: its number, from 0, is the CRC-32 (that of gzip) of the
subject's dictionary string in UTF-8, modulo N. A line with a triple goes whole to its part; lines
without one go nowhere. A part has its lines in the order of the inputs.

With --parts N, FOLDER is made, with the files part-00000.nt, part-00001.nt and so on: one for
each part that has triples. FOLDER must not be there. It is made under another name beside it and
then renamed; on failure it is removed. A killed program may leave FOLDER.unfinished- and 16
digits: remove it. With --of K/N, only the part K of N is printed, to standard output, before all
of the input is read: the output is complete only if the exit status is 0.

Where two inputs have blank nodes, say by --blank-nodes whether a label is one node in all inputs
(one), or not (apart): then labels of the first input get the prefix f0_, those of the second one
f1_, and so on. The part is that of the label with its prefix.

An error message has the path of its input. Memory: 64 KiB for each part that has triples, and
the longest line. With --longest-line N a line of more than N bytes, without its end, is an error,
TooLong, found in the memory of a line of N bytes.",
            Help::SplitPaths => "Paths of further documents, and without --of of FOLDER",
            Help::SplitParts => "The number of parts, 1 to 65536",
            Help::SplitOf => "Print the part K, from 0, of N parts",
            Help::BlankNodes => "Whether a label is one node in all inputs: one or apart",
            Help::ExplainAbout => "Explain an error of a file or a text",
            Help::ExplainLongAbout => "Explain an error of an HDT file or of an N-Triples text.

Print what the error means, what usually causes it, and what to do. REASON is the number or the
name in an error message, as 11 or Check32. A number may be that of two errors: one of a file and
one of a text. docs/ERRORS.md has the same texts, and those of the other messages.",
            Help::Reason => "The number or the name of the error",
            Help::Verbose => "Print more lines after an error message",
            Help::In => "Path of an N-Triples document to read, or - for standard input",
            Help::Out => "Path of the HDT file to write, or - for standard output",
            Help::Base => "The IRI that names the graph in the header",
            Help::BlockSize => "Strings per dictionary block, 1 to 65535",
            Help::File => "Path of the HDT file to read, or - for standard input",
            Help::ServedFile => "Path of the HDT file to read",
            Help::Role => "The role of the strings in triples",
            Help::Number => "The ID, from 1",
            Help::Term => "The term, in N-Triples",
            Help::Raw => "Take TERM as a dictionary string",
            Help::RawStrings => "Print dictionary strings instead of terms",
            Help::Top => "Print the N most frequent terms only",
            Help::Subject => "The subject, in N-Triples, or ? for any",
            Help::Predicate => "The predicate, in N-Triples, or ? for any",
            Help::Object => "The object, in N-Triples, or ? for any",
            Help::RawParts => "Take S, P and O as dictionary strings",
            Help::Numbers => "Print the IDs of each triple",
            Help::Count => "Print the number of matching triples only",
            Help::Quiet => "Print nothing; exit with 0 if a triple matches, else 1",
            Help::Skip => "Leave out triples with a string that is not a term",
            Help::Most => "Stop after N triples",
        }
    }
}
