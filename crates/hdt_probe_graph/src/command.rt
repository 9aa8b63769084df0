//! Calls of hdt_tool and hdt_usage: parsing command-line arguments.

use hdt_build::Options;
use hdt_probe::{Args, Reply, role_number};
use hdt_tool::{
    Action, AnswerOptions, OutputFormat, Progress, Request, UsageFault, parse_invocation,
    parse_words, usage_line,
};
use hdt_usage::make_command_table;

/// The words of this module, each with its number of arguments.
pub(crate) const WORDS: &str = "parse_words 0+ parse_all_words 0+ table 3+";

/// Answers a request with one of these words. Returns false if the word is not one of them.
pub(crate) fn answer(word: &str, args: &mut Args<'_>, reply: &mut Reply) -> bool {
    match word {
        "parse_words" => reply_parse_words(args, reply),
        "parse_all_words" => reply_parse_all_words(args, reply),
        "table" => reply_table(args, reply),
        _ => return false,
    }
    true
}

/// The arguments as texts, or `None` if one of them is not UTF-8.
pub(crate) fn texts_of<'a>(words: &'a [Vec<u8>], args: &mut Args<'_>) -> Option<Vec<&'a str>> {
    let mut texts = Vec::new(args.alloc);
    for word in words {
        let Ok(text) = std::str::from_utf8(word) else {
            return None;
        };
        if texts.push(text).is_err() {
            args.note_out_of_memory();
        }
    }
    Some(texts)
}

/// Reports why command-line arguments give no request.
pub(crate) fn reply_usage_fault(fault: &UsageFault, args: &Args<'_>, reply: &mut Reply) {
    reply.error("usage");
    match usage_line(args.alloc, fault) {
        Ok((status, line)) => {
            reply.number(u64::from(status));
            reply.bytes(line.as_bytes())
        }
        Err(_) => reply.note_out_of_memory(),
    }
}

/// Appends a text, or `none`.
fn reply_maybe(text: Option<&[u8]>, reply: &mut Reply) {
    match text {
        Some(text) => reply.bytes(text),
        None => reply.word("none"),
    }
}

/// The number of an output format.
fn form_number(format: OutputFormat) -> u64 {
    match format {
        OutputFormat::NTriples => 0,
        OutputFormat::Numbers => 1,
        OutputFormat::Count => 2,
    }
}

/// The strings of a pattern.
fn reply_given(given: &[Option<Vec<u8>>; 3], reply: &mut Reply) {
    for string in given {
        reply_maybe(string.as_deref(), reply);
    }
}

fn reply_asking(asking: AnswerOptions, reply: &mut Reply) {
    reply.word("answer");
    reply.number(form_number(asking.format));
    reply.optional_number(asking.most);
    reply.number(u64::from(asking.raw));
    reply.number(u64::from(asking.longest));
    reply.boolean(asking.skip)
}

fn reply_options(options: &Options, reply: &mut Reply) {
    reply.word("build");
    reply.number(u64::from(options.block_size));
    reply.bytes(&options.base)
}

/// An action that searches triples or makes a file.
fn reply_search(action: &Action, reply: &mut Reply) {
    match action {
        Action::Find { given, numbers } => {
            reply.word("find");
            reply_given(given, reply);
            reply.boolean(*numbers)
        }
        Action::Search {
            given,
            format,
            most,
        } => {
            reply.word("search");
            reply_given(given, reply);
            reply.number(form_number(*format));
            reply.optional_number(*most)
        }
        Action::Exists { given } => {
            reply.word("exists");
            reply_given(given, reply)
        }
        Action::SkipNonTerms { given, count, most } => {
            reply.word("skip_non_terms");
            reply_given(given, reply);
            reply.boolean(*count);
            reply.optional_number(*most)
        }
        Action::Info { json } => {
            reply.word("info");
            reply.boolean(*json)
        }
        Action::Count { role, top, raw } => {
            reply.word("count");
            reply.number(role_number(*role));
            reply.optional_number(*top);
            reply.number(u64::from(*raw))
        }
        Action::Lint { keep, most } => {
            reply.word("lint");
            reply.boolean(*keep);
            reply.optional_number(*most)
        }
        Action::Answer(asking) => reply_asking(*asking, reply),
        Action::Build(options) => reply_options(options, reply),
        Action::Rewrite(block_size) => {
            reply.word("rewrite");
            reply.number(u64::from(*block_size))
        }
        _ => {}
    }
}

/// Any action.
fn reply_action(action: &Action, reply: &mut Reply) {
    match action {
        Action::Head => reply.word("head"),
        Action::HeadBody => reply.word("head_body"),
        Action::Verify => reply.word("verify"),
        Action::VerifyTight => reply.word("verify_tight"),
        Action::VerifyTerms { tight } => {
            reply.word("verify_terms");
            reply.boolean(*tight)
        }
        Action::Strings(role) => {
            reply.word("strings");
            reply.number(role_number(*role))
        }
        Action::ListStrings {
            role,
            prefix,
            terms,
        } => {
            reply.word("list_strings");
            reply.number(role_number(*role));
            reply.bytes(prefix);
            reply.boolean(*terms)
        }
        Action::Nth(role, number) => {
            reply.word("nth");
            reply.number(role_number(*role));
            reply.number(*number)
        }
        Action::Number(role, string) => {
            reply.word("number");
            reply.number(role_number(*role));
            reply.bytes(string)
        }
        other => reply_search(other, reply),
    }
}

/// The path of the input file, that of the output file, and the action.
fn reply_request(request: &Request, reply: &mut Reply) {
    reply.bytes(request.file.as_bytes());
    match &request.out {
        Some(path) => reply.bytes(path.as_bytes()),
        None => reply.word("none"),
    }
    reply_action(&request.action, reply)
}

fn reply_parse_words(args: &mut Args<'_>, reply: &mut Reply) {
    let words = args.strings(u64::MAX);
    let Some(texts) = texts_of(&words, args) else {
        return reply.refused();
    };
    match parse_words(args.alloc, &texts) {
        Ok(request) => reply_request(&request, reply),
        Err(fault) => reply_usage_fault(&fault, args, reply),
    }
}

fn reply_parse_all_words(args: &mut Args<'_>, reply: &mut Reply) {
    let words = args.strings(u64::MAX);
    let Some(texts) = texts_of(&words, args) else {
        return reply.refused();
    };
    match parse_invocation(args.alloc, &texts) {
        Ok(call) => {
            reply.word(match call.progress {
                Progress::Automatic => "automatic",
                Progress::Lines => "lines",
                Progress::Off => "off",
            });
            reply_request(&call.request, reply)
        }
        Err(fault) => reply_usage_fault(&fault, args, reply),
    }
}

/// The command that the arguments name, or the text of the error.
fn reply_found(roles: &[&str], texts: &[&str], args: &Args<'_>, reply: &mut Reply) {
    let Ok(table) = make_command_table(args.alloc, roles) else {
        return reply.out_of_memory();
    };
    match table.try_get_matches_from(texts) {
        Ok(matches) => match matches.subcommand() {
            Some((name, _)) => reply.bytes(name.as_bytes()),
            None => reply.word("none"),
        },
        Err(error) => {
            reply.word("error");
            reply.text(error.to_string(args.alloc))
        }
    }
}

fn reply_table(args: &mut Args<'_>, reply: &mut Reply) {
    let roles = args.exact_strings(3);
    let words = args.strings(u64::MAX);
    let Some(role_texts) = texts_of(&roles, args) else {
        return reply.refused();
    };
    let Some(texts) = texts_of(&words, args) else {
        return reply.refused();
    };
    reply_found(&role_texts, &texts, args, reply)
}
