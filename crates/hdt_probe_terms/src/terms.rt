//! Calls of hdt_terms: terms and dictionary strings.

use crate::faults::{reply_string_fault, reply_term_fault};
use hdt_probe::{Args, Reply};
use hdt_terms::{
    Suffix, Term, TermKind, is_iri, parse_string, parse_term, put_string, put_term, string_term,
    term_string,
};

/// The words of this module, each with its number of arguments.
pub(crate) const WORDS: &str =
    "parse_term 1 parse_string 2 term_string 1 string_term 1 put_term 2 put_string 2 is_iri 1 same_term 2";

/// Answers a request with one of these words. Returns false if the word is not one of them.
pub(crate) fn answer(word: &str, args: &mut Args<'_>, reply: &mut Reply) -> bool {
    match word {
        "parse_term" => reply_parse_term(args, reply),
        "parse_string" => reply_parse_string(args, reply),
        "term_string" => reply_term_string(args, reply),
        "string_term" => reply_string_term(args, reply),
        "put_term" => reply_put_term(args, reply),
        "put_string" => reply_put_string(args, reply),
        "is_iri" => reply.boolean(is_iri(&args.bytes())),
        "same_term" => reply_same_term(args, reply),
        _ => return false,
    }
    true
}

/// The case of a term, and its texts.
fn reply_term(term: &Term, reply: &mut Reply) {
    match term {
        Term::Iri(text) => {
            reply.word("iri");
            reply.bytes(text.as_bytes())
        }
        Term::Blank(text) => {
            reply.word("blank");
            reply.bytes(text.as_bytes())
        }
        Term::Literal(text, suffix) => {
            reply.word("literal");
            reply.bytes(text.as_bytes());
            reply_suffix(suffix, reply)
        }
    }
}

fn reply_suffix(suffix: &Suffix, reply: &mut Reply) {
    match suffix {
        Suffix::Plain => reply.word("plain"),
        Suffix::Tag(text) => {
            reply.word("tag");
            reply.bytes(text.as_bytes())
        }
        Suffix::Datatype(text) => {
            reply.word("datatype");
            reply.bytes(text.as_bytes())
        }
    }
}

/// The dictionary string of a term.
pub(crate) fn reply_string_of(term: &Term, args: &Args<'_>, reply: &mut Reply) {
    match term_string(args.alloc, term) {
        Ok(string) => reply.bytes(&string),
        Err(_) => reply.out_of_memory(),
    }
}

/// Parses the next argument, the text of a term; or reports its error.
fn parsed(args: &mut Args<'_>, reply: &mut Reply) -> Option<Term> {
    match parse_term(args.alloc, &args.bytes()) {
        Ok(term) => Some(term),
        Err(fault) => {
            reply_term_fault(fault, reply);
            None
        }
    }
}

/// The term of the next argument, a dictionary string; or reports that there is none.
fn term_of(args: &mut Args<'_>, reply: &mut Reply) -> Option<Term> {
    match string_term(args.alloc, &args.bytes()) {
        Ok(term) => Some(term),
        Err(fault) => {
            reply_string_fault(fault, reply);
            None
        }
    }
}

fn reply_parse_term(args: &mut Args<'_>, reply: &mut Reply) {
    if let Some(term) = parsed(args, reply) {
        reply_term(&term, reply)
    }
}

fn reply_parse_string(args: &mut Args<'_>, reply: &mut Reply) {
    let text = args.bytes();
    let mut string = args.bytes();
    if let Err(fault) = parse_string(&text, &mut string) {
        reply_term_fault(fault, reply);
    }
    reply.bytes(&string)
}

fn reply_term_string(args: &mut Args<'_>, reply: &mut Reply) {
    if let Some(term) = parsed(args, reply) {
        reply_string_of(&term, args, reply)
    }
}

fn reply_string_term(args: &mut Args<'_>, reply: &mut Reply) {
    if let Some(term) = term_of(args, reply) {
        reply_term(&term, reply)
    }
}

/// The text of the term of a dictionary string.
fn reply_put_term(args: &mut Args<'_>, reply: &mut Reply) {
    if let Some(term) = term_of(args, reply) {
        let mut text = args.bytes();
        let done = put_term(&term, &mut text);
        reply.appended(done, &text)
    }
}

/// The kind of a term.
fn reply_kind(kind: TermKind, reply: &mut Reply) {
    reply.word(match kind {
        TermKind::Iri => "iri",
        TermKind::Blank => "blank",
        TermKind::Literal => "literal",
    })
}

fn reply_put_string(args: &mut Args<'_>, reply: &mut Reply) {
    let string = args.bytes();
    let mut text = args.bytes();
    match put_string(&string, &mut text) {
        Ok(kind) => reply_kind(kind, reply),
        Err(fault) => reply_string_fault(fault, reply),
    }
    reply.bytes(&text)
}

/// Whether a copy of a term equals another term.
fn reply_same_term(args: &mut Args<'_>, reply: &mut Reply) {
    let Some(one) = parsed(args, reply) else {
        return;
    };
    let Some(other) = parsed(args, reply) else {
        return;
    };
    match one.clone() {
        Ok(copy) => reply.boolean(copy == other),
        Err(_) => reply.out_of_memory(),
    }
}
