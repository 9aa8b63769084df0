//! Hints for an input that is not what the command reads.
ghost use Rattle.std.specs.Prelude.{◌≡◌, slice_index};
ghost use Rattle.hdt_usage.specs.Hints.{hint_in, term_hint, prefix_hint, begins_as_term, begins_as_number};

/// A hint for a document or a file that begins with certain bytes.
#[derive(Clone, Copy, Debug)]
pub struct Hint {
    /// The bytes that it begins with.
    pub start: &'static [u8],
    /// The hint, without a line feed.
    pub text: &'static str,
}

const TURTLE: &str = "Turtle: serdi -i turtle -o ntriples FILE, or rapper, makes N-Triples";

const N_TRIPLES: &str = "N-Triples: hdt build FILE OUT makes an HDT file";

const XML: &str = "XML: rapper -i rdfxml -o ntriples FILE makes N-Triples of RDF/XML";

const JSON: &str = "JSON: convert JSON-LD to N-Triples first";

const INDEX: &str = "an index of another program: only the .hdt file beside it is needed";

const WEB_PAGE: &str = "a web page: the download gave a page in place of the file";

/// The hints for a document that `build` cannot read, by its first bytes or by those of its first invalid line.
pub const DOCUMENT_HINTS: &[Hint] = &[
    Hint {
        start: b"\x1f\x8b",
        text: "compressed by gzip: set -o pipefail; zcat FILE | hdt build - NEW && mv NEW OUT",
    },
    Hint {
        start: b"\x28\xb5\x2f\xfd",
        text: "compressed by zstd: set -o pipefail; zstdcat FILE | hdt build - NEW && mv NEW OUT",
    },
    Hint {
        start: b"BZh",
        text: "compressed by bzip2: set -o pipefail; bzcat FILE | hdt build - NEW && mv NEW OUT",
    },
    Hint {
        start: b"\xfd7zXZ\x00",
        text: "compressed by xz: set -o pipefail; xzcat FILE | hdt build - NEW && mv NEW OUT",
    },
    Hint {
        start: b"\xef\xbb\xbf",
        text: "a byte order mark: tail -c +4 FILE > NEW",
    },
    Hint {
        start: b"\xff\xfe",
        text: "UTF-16: iconv -f UTF-16 -t UTF-8 FILE > NEW",
    },
    Hint {
        start: b"\xfe\xff",
        text: "UTF-16: iconv -f UTF-16 -t UTF-8 FILE > NEW",
    },
    Hint {
        start: b"@prefix",
        text: TURTLE,
    },
    Hint {
        start: b"@base",
        text: TURTLE,
    },
    Hint {
        start: b"PREFIX",
        text: TURTLE,
    },
    Hint {
        start: b"BASE",
        text: TURTLE,
    },
    Hint {
        start: b"<?xml",
        text: XML,
    },
    Hint {
        start: b"<!DOCTYPE",
        text: WEB_PAGE,
    },
    Hint {
        start: b"<html",
        text: WEB_PAGE,
    },
    Hint {
        start: b"{",
        text: JSON,
    },
    Hint {
        start: b"[",
        text: JSON,
    },
    Hint {
        start: b"$HDT\x05",
        text: INDEX,
    },
    Hint {
        start: b"$HDT",
        text: "an HDT file: hdt verify FILE checks it, hdt dump FILE prints N-Triples",
    },
];

/// The hints for a file that is not an HDT file, by its first bytes.
pub const FILE_HINTS: &[Hint] = &[
    Hint {
        start: b"\x1f\x8b",
        text: "compressed by gzip: zcat FILE > NEW",
    },
    Hint {
        start: b"\x28\xb5\x2f\xfd",
        text: "compressed by zstd: zstdcat FILE > NEW",
    },
    Hint {
        start: b"BZh",
        text: "compressed by bzip2: bzcat FILE > NEW",
    },
    Hint {
        start: b"\xfd7zXZ\x00",
        text: "compressed by xz: xzcat FILE > NEW",
    },
    Hint {
        start: b"\xef\xbb\xbf",
        text: "a byte order mark: the file was edited or converted as text",
    },
    Hint {
        start: b"$HDT\x05",
        text: INDEX,
    },
    Hint {
        start: b"@prefix",
        text: TURTLE,
    },
    Hint {
        start: b"@base",
        text: TURTLE,
    },
    Hint {
        start: b"PREFIX",
        text: TURTLE,
    },
    Hint {
        start: b"BASE",
        text: TURTLE,
    },
    Hint {
        start: b"<?xml",
        text: XML,
    },
    Hint {
        start: b"<!DOCTYPE",
        text: WEB_PAGE,
    },
    Hint {
        start: b"<html",
        text: WEB_PAGE,
    },
    Hint {
        start: b"<",
        text: N_TRIPLES,
    },
    Hint {
        start: b"_:",
        text: N_TRIPLES,
    },
    Hint {
        start: b"#",
        text: N_TRIPLES,
    },
    Hint {
        start: b"{",
        text: JSON,
    },
    Hint {
        start: b"[",
        text: JSON,
    },
];

/// The first hint for bytes that begin as it says, or an empty text.
pub fn hint_in(first: &[u8], hints: &[Hint]) -> &'static str
    ensures { result.now ≡ hint_in first.now hints.now }
{
    'hints: for hint in hints {
        if first.starts_with(hint.start) {
            return hint.text;
        }
    }
    ""
}

/// What to do about an argument that is not an N-Triples term, or an empty text.
pub fn term_hint(term: &[u8]) -> &'static str
    ensures { result.now ≡ term_hint term.now }
{
    if begins_as_term(term) {
        ""
    } else if first_byte(term) == b'?' {
        "any term is written ?, without a name: '?'"
    } else if term.contains(&b':') {
        "an IRI is written between < and >, in single quotes: '<http://example.org/a>'"
    } else if begins_as_number(term) {
        "a number is a literal: '\"5\"^^<http://www.w3.org/2001/XMLSchema#integer>'"
    } else {
        "a literal is written in double quotes, within single ones: '\"text\"'"
    }
}

/// What to do about a prefix with which no string of a dictionary begins, or an empty text.
pub fn prefix_hint(prefix: &[u8]) -> &'static str
    ensures { result.now ≡ prefix_hint prefix.now }
{
    if first_byte(prefix) == b'<' {
        "an IRI has no < and > in a dictionary: --prefix http://example.org/"
    } else if begins_as_term(prefix) || prefix.contains(&b':') {
        ""
    } else {
        "a literal begins with a double quote in a dictionary: --prefix '\"text'"
    }
}

/// Whether a text begins as an IRI, a literal or a blank node does.
fn begins_as_term(term: &[u8]) -> bool
    ensures { result ≡ begins_as_term term.now }
{
    matches!(first_byte(term), b'<' | b'"' | b'_')
}

/// Whether a text begins with a digit or a sign.
fn begins_as_number(term: &[u8]) -> bool
    ensures { result ≡ begins_as_number term.now }
{
    matches!(first_byte(term), b'0'..=b'9' | b'+' | b'-')
}

/// The first byte, or 0 if there is none.
fn first_byte(text: &[u8]) -> u8
    ensures { result ≡ slice_index text.now 0 }
{
    match text {
        [first, ..] => *first,
        [] => 0,
    }
}
