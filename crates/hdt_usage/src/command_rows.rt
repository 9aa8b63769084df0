//! The table of commands: their names, help, arguments and options. A new command is one more row of `COMMANDS`, and a
//! new option one more row of its command. `specs/CommandTable.antt` states the names, kinds and defaults.

use crate::help::{BASE, Help};

/// What an argument takes. The first ones are arguments by place, the others options.
#[derive(Clone, Copy)]
pub(crate) enum Kind {
    /// One required text.
    Required,
    /// One required text, under another name in the help.
    Shown,
    /// The name of a role.
    Role,
    /// A number below 2^64.
    Number,
    /// Any number of texts, none too.
    Paths,
    /// An option without a value.
    Flag,
    /// An option with a text.
    Text,
    /// An option with a number below 2^64.
    Limit,
    /// An option with a text, and a default.
    TextWithDefault,
    /// An option with a number below 2^32, and a default.
    NumberWithDefault,
}

/// An argument or an option: its name, what it takes, the name of its value in the help, its default, and its help; a
/// text that its kind has no use for is empty. (A struct with texts cannot be named in specs/ if it is a constant.)
pub(crate) type ArgumentRow = (&'static str, Kind, &'static str, &'static str, Help);

/// A command: its name, its help in one line and in full, its usage where `clap` is not to make it, and its arguments.
pub(crate) type CommandRow = (
    &'static str,
    Help,
    Help,
    Option<Help>,
    &'static [ArgumentRow],
);

const FILE: ArgumentRow = ("FILE", Kind::Required, "", "", Help::File);

const FIRST_INPUT: ArgumentRow = ("FILE", Kind::Shown, "IN", "", Help::In);

const OUT: ArgumentRow = ("OUT", Kind::Required, "", "", Help::Out);

const ROLE: ArgumentRow = ("ROLE", Kind::Role, "", "", Help::Role);

const VERBOSE: ArgumentRow = ("verbose", Kind::Flag, "", "", Help::Verbose);

const NO_PROGRESS: ArgumentRow = ("no-progress", Kind::Flag, "", "", Help::NoProgress);

const PROGRESS: ArgumentRow = ("progress", Kind::Flag, "", "", Help::Progress);

const NUMBERS: ArgumentRow = ("numbers", Kind::Flag, "", "", Help::Numbers);

const COUNT: ArgumentRow = ("count", Kind::Flag, "", "", Help::Count);

const SKIP_NON_TERMS: ArgumentRow = ("skip-non-terms", Kind::Flag, "", "", Help::Skip);

const MOST: ArgumentRow = ("most", Kind::Limit, "N", "", Help::Most);

const BLANK_NODES: ArgumentRow = ("blank-nodes", Kind::Text, "WORD", "", Help::BlankNodes);

const MEMORY: ArgumentRow = ("memory", Kind::Text, "SIZE", "", Help::Memory);

const SCRATCH: ArgumentRow = ("scratch", Kind::Text, "FOLDER", "", Help::Scratch);

const LONGEST_LINE: ArgumentRow = ("longest-line", Kind::Limit, "N", "", Help::LongestLine);

const BASE_IRI: ArgumentRow = ("base", Kind::TextWithDefault, "IRI", BASE, Help::Base);

const BLOCK_SIZE: ArgumentRow = (
    "block-size",
    Kind::NumberWithDefault,
    "N",
    "16",
    Help::BlockSize,
);

/// The commands, in the order of the help.
pub(crate) const COMMANDS: &[CommandRow] = &[
    (
        "head",
        Help::HeadAbout,
        Help::HeadLongAbout,
        None,
        &[
            FILE,
            VERBOSE,
            NO_PROGRESS,
            ("body", Kind::Flag, "", "", Help::HeaderBody),
        ],
    ),
    (
        "verify",
        Help::VerifyAbout,
        Help::VerifyLongAbout,
        None,
        &[
            FILE,
            VERBOSE,
            NO_PROGRESS,
            ("tight", Kind::Flag, "", "", Help::Tight),
            ("terms", Kind::Flag, "", "", Help::NonTerms),
            PROGRESS,
        ],
    ),
    (
        "info",
        Help::InfoAbout,
        Help::InfoLongAbout,
        None,
        &[
            FILE,
            VERBOSE,
            NO_PROGRESS,
            ("json", Kind::Flag, "", "", Help::Json),
        ],
    ),
    (
        "strings",
        Help::StringsAbout,
        Help::StringsLongAbout,
        None,
        &[
            FILE,
            VERBOSE,
            NO_PROGRESS,
            ROLE,
            ("prefix", Kind::Text, "STR", "", Help::Prefix),
            ("terms", Kind::Flag, "", "", Help::Terms),
        ],
    ),
    (
        "string",
        Help::StringAbout,
        Help::StringAbout,
        None,
        &[
            FILE,
            VERBOSE,
            NO_PROGRESS,
            ROLE,
            ("N", Kind::Number, "", "", Help::Number),
        ],
    ),
    (
        "number",
        Help::NumberAbout,
        Help::NumberLongAbout,
        None,
        &[
            FILE,
            VERBOSE,
            NO_PROGRESS,
            ROLE,
            ("TERM", Kind::Required, "", "", Help::Term),
            ("raw", Kind::Flag, "", "", Help::Raw),
        ],
    ),
    (
        "find",
        Help::FindAbout,
        Help::FindLongAbout,
        None,
        &[
            FILE,
            VERBOSE,
            NO_PROGRESS,
            ("S", Kind::Required, "", "", Help::Subject),
            ("P", Kind::Required, "", "", Help::Predicate),
            ("O", Kind::Required, "", "", Help::Object),
            ("raw", Kind::Flag, "", "", Help::RawParts),
            NUMBERS,
            COUNT,
            ("quiet", Kind::Flag, "", "", Help::Quiet),
            SKIP_NON_TERMS,
            MOST,
        ],
    ),
    (
        "answer",
        Help::AnswerAbout,
        Help::AnswerLongAbout,
        None,
        &[
            ("FILE", Kind::Required, "", "", Help::ServedFile),
            VERBOSE,
            NO_PROGRESS,
            ("raw", Kind::Flag, "", "", Help::RawRequests),
            NUMBERS,
            COUNT,
            SKIP_NON_TERMS,
            MOST,
            (
                "longest-request",
                Kind::NumberWithDefault,
                "N",
                "1048576",
                Help::LongestRequest,
            ),
        ],
    ),
    (
        "dump",
        Help::DumpAbout,
        Help::DumpLongAbout,
        None,
        &[FILE, VERBOSE, NO_PROGRESS, SKIP_NON_TERMS],
    ),
    (
        "count",
        Help::CountAbout,
        Help::CountLongAbout,
        None,
        &[
            FILE,
            VERBOSE,
            NO_PROGRESS,
            ROLE,
            ("top", Kind::Limit, "N", "", Help::Top),
            ("raw", Kind::Flag, "", "", Help::RawStrings),
        ],
    ),
    (
        "build",
        Help::BuildAbout,
        Help::BuildLongAbout,
        Some(Help::BuildUsage),
        &[
            FIRST_INPUT,
            ("PATHS", Kind::Paths, "", "", Help::BuildPaths),
            VERBOSE,
            NO_PROGRESS,
            BASE_IRI,
            BLOCK_SIZE,
            BLANK_NODES,
            LONGEST_LINE,
            MEMORY,
            SCRATCH,
            PROGRESS,
        ],
    ),
    (
        "rewrite",
        Help::RewriteAbout,
        Help::RewriteLongAbout,
        None,
        &[
            ("IN", Kind::Required, "", "", Help::File),
            OUT,
            VERBOSE,
            NO_PROGRESS,
            BLOCK_SIZE,
            ("header", Kind::Text, "FILE", "", Help::NewHeader),
            PROGRESS,
        ],
    ),
    (
        "merge",
        Help::MergeAbout,
        Help::MergeLongAbout,
        Some(Help::MergeUsage),
        &[
            ("FILE", Kind::Required, "", "", Help::MergeFile),
            ("PATHS", Kind::Paths, "", "", Help::MergePaths),
            VERBOSE,
            NO_PROGRESS,
            BASE_IRI,
            BLOCK_SIZE,
            BLANK_NODES,
            MEMORY,
            SCRATCH,
            PROGRESS,
        ],
    ),
    (
        "lint",
        Help::LintAbout,
        Help::LintLongAbout,
        None,
        &[
            FIRST_INPUT,
            ("keep", Kind::Flag, "", "", Help::Keep),
            ("most", Kind::Limit, "N", "", Help::MostFaulty),
            LONGEST_LINE,
            VERBOSE,
        ],
    ),
    (
        "split",
        Help::SplitAbout,
        Help::SplitLongAbout,
        Some(Help::SplitUsage),
        &[
            FIRST_INPUT,
            ("PATHS", Kind::Paths, "", "", Help::SplitPaths),
            ("parts", Kind::Limit, "N", "", Help::SplitParts),
            ("of", Kind::Text, "K/N", "", Help::SplitOf),
            BLANK_NODES,
            LONGEST_LINE,
            VERBOSE,
        ],
    ),
    (
        "explain",
        Help::ExplainAbout,
        Help::ExplainLongAbout,
        None,
        &[("REASON", Kind::Required, "", "", Help::Reason)],
    ),
];
