//! Requests: a command with its options and paths.

use hdt_build::Options;
use hdt_dict::Role;

/// The format in which triples are printed.
#[derive(Clone, Copy, Debug, Drop)]
pub enum OutputFormat {
    /// N-Triples.
    NTriples,
    /// One line per triple, with its three IDs.
    Numbers,
    /// One line with the number of triples.
    Count,
}

/// The options of `answer`.
#[derive(Clone, Copy, Debug, Drop)]
pub struct AnswerOptions {
    /// The format of the triples in an answer.
    pub format: OutputFormat,
    /// The maximum number of triples in an answer; `None` for no limit.
    pub most: Option<u64>,
    /// Whether requests give dictionary strings instead of N-Triples terms.
    pub raw: bool,
    /// The maximum length of a request line in bytes, without its line feed.
    pub longest: u32,
    /// Whether triples with a string that is not a term are left out. It has no effect with [`OutputFormat::Numbers`].
    pub skip: bool,
}

/// The outcome of the answers to requests.
#[derive(Clone, Copy, Debug, Drop)]
pub struct AnswerReport {
    /// Whether any answer is an error.
    pub has_errors: bool,
    /// The number of triples that were left out.
    pub skipped: u64,
}

/// Whether a label is one blank node in all inputs of `split`, `build` or `merge`.
#[derive(Clone, Copy, Debug, PartialEq, Eq)]
pub enum BlankNodes {
    /// It is: the inputs are pieces of one document.
    One,
    /// It is not: each input is a document of its own.
    Apart,
}

/// What `split` writes.
#[derive(Debug, Drop)]
pub enum SplitOutput {
    /// A file for each part with triples, in a new folder with this path.
    Folder(String),
    /// The part with this number, from 0, to standard output.
    Part(u32),
}

/// The options of `split`.
#[derive(Debug, Drop)]
pub struct SplitOptions {
    /// The paths of the inputs after the first one, which is the file of the request.
    pub others: Vec<String>,
    /// The number of parts, 1 to 65,536.
    pub parts: u32,
    /// What is written.
    pub output: SplitOutput,
    /// Whether a label is one blank node in all inputs; `None` if only one input may have blank nodes.
    pub blank_nodes: Option<BlankNodes>,
}

/// The paths and the options of `merge`, or of `build` with several documents.
#[derive(Debug, Drop)]
pub struct MergeOptions {
    /// The paths of the inputs after the first one, which is the file of the request.
    pub others: Vec<String>,
    /// The path of the new file.
    pub out: String,
    /// The block size and the base of the new file.
    pub options: Options,
}

/// A command.
#[derive(Debug, Drop)]
pub enum Action {
    /// Prints the control information and the header of a file.
    Head,
    /// Prints the header body of a file.
    HeadBody,
    /// Verifies a file.
    Verify,
    /// Verifies a file, and that every string of its dictionary is used in the role of its section.
    VerifyTight,
    /// Verifies a file, and prints the strings that are not terms of their roles.
    VerifyTerms {
        /// Whether every string of its dictionary must be used in the role of its section.
        tight: bool,
    },
    /// Prints the sizes of a file's parts, and whether it is tight and canonical.
    Info {
        /// Whether one JSON object is printed instead of lines.
        json: bool,
    },
    /// Prints all strings of a role, with their IDs.
    Strings(Role),
    /// Prints the strings of a role that begin with a prefix.
    ListStrings {
        /// The role.
        role: Role,
        /// The bytes with which the strings begin; empty for all strings.
        prefix: Vec<u8>,
        /// Whether N-Triples terms are printed instead of IDs and strings.
        terms: bool,
    },
    /// Prints the string of a role with this ID, from 1.
    Nth(Role, u64),
    /// Prints the ID that this dictionary string has in a role.
    Number(Role, Vec<u8>),
    /// Prints all triples with these dictionary strings.
    Find {
        /// The strings of subject, predicate and object; `None` matches any.
        given: [Option<Vec<u8>>; 3],
        /// Whether IDs are printed instead of N-Triples.
        numbers: bool,
    },
    /// Prints the triples with these dictionary strings, in a given format and up to a limit.
    Search {
        /// The strings of subject, predicate and object; `None` matches any.
        given: [Option<Vec<u8>>; 3],
        /// The format in which they are printed.
        format: OutputFormat,
        /// The maximum number of triples; `None` for no limit.
        most: Option<u64>,
    },
    /// Prints the triples with these dictionary strings whose strings are all terms of their roles.
    SkipNonTerms {
        /// The strings of subject, predicate and object; `None` matches any.
        given: [Option<Vec<u8>>; 3],
        /// Whether only the number of these triples is printed.
        count: bool,
        /// The maximum number of these triples; `None` for no limit.
        most: Option<u64>,
    },
    /// Finds out whether there is a triple with these dictionary strings, and prints nothing.
    Exists {
        /// The strings of subject, predicate and object; `None` matches any.
        given: [Option<Vec<u8>>; 3],
    },
    /// Prints the number of triples of each term of a role.
    Count {
        /// The role.
        role: Role,
        /// How many terms to print, the most frequent first; `None` for all, in the order of IDs.
        top: Option<u64>,
        /// Whether dictionary strings are printed instead of terms.
        raw: bool,
    },
    /// Answers the requests of standard input over a file.
    Answer(AnswerOptions),
    /// Reports every faulty line of an N-Triples document.
    Lint {
        /// Whether the other lines are printed, and the reports go to standard error.
        keep: bool,
        /// The number of faulty lines after which to stop; `None` for no limit.
        most: Option<u64>,
    },
    /// Builds an HDT file from an N-Triples document, and prints the counts of its parts.
    Build(Options),
    /// Writes the canonical file of a file's triples, with this block size, and prints the counts of its parts.
    Rewrite(u32),
    /// Splits N-Triples documents into parts, by subject.
    Split(SplitOptions),
    /// Merges files into one, and prints the counts of its parts. Without a value of `--blank-nodes` a label is one
    /// node in all files.
    Merge(MergeOptions, Option<BlankNodes>),
    /// Builds one HDT file from several N-Triples documents, or with `--blank-nodes`, and prints the counts of its
    /// parts. Without a value of that option only one document may have blank nodes.
    BuildInputs(MergeOptions, Option<BlankNodes>),
}

/// A command and its files.
#[derive(Debug, Drop)]
pub struct Request {
    /// The command.
    pub action: Action,
    /// The path of the input file.
    pub file: String,
    /// The path of the output file, if the command writes one.
    pub out: Option<String>,
}

/// How the progress of a command is reported on standard error.
#[derive(Clone, Copy, Debug, Drop)]
pub enum Progress {
    /// By one line that is rewritten, if standard error is a terminal.
    Automatic,
    /// By lines.
    Lines,
    /// Not at all.
    Off,
}

/// A request, how to report progress and errors, limits for documents and for memory, and a new header.
#[derive(Debug, Drop)]
pub struct Invocation {
    /// The request.
    pub request: Request,
    /// How progress is reported.
    pub progress: Progress,
    /// The maximum number of bytes of a line of an N-Triples document, without its end; `None` for no limit.
    pub longest_line: Option<u64>,
    /// The bytes of memory that `build` or `merge` is to use about, with scratch files; `None` for no limit.
    pub memory: Option<u64>,
    /// The path of the folder in which scratch files are made; `None` for that of OUT.
    pub scratch: Option<String>,
    /// The path of the N-Triples by which `rewrite` replaces the header, and nothing else; `None` if it rewrites.
    pub header: Option<String>,
    /// Whether more lines follow an error message.
    pub verbose: bool,
}
