//! `hdt explain`: what an error means, what usually causes it, and what to do.
ghost use Rattle.std.specs.Prelude.{◌≡◌, IfOk, option_map, map, string_bytes};
ghost use Rattle.hdt_usage.specs.Explanations.{explained_error, is_named, first_named, explanation_text, two_errors};
ghost use Rattle.hdt_usage.specs.Explanations.{both_texts, file_explanations, text_explanations, explanation_of};

use crate::file_errors::FILE_ERRORS;
use crate::text_errors::TEXT_ERRORS;
use std::alloc::{AllocError, Global};

/// An error that docs/ERRORS.md explains: its number in decimal, its name, what is wrong, what usually causes it, and
/// what to do. (A struct with texts cannot be named in specs/ if it is a constant.)
pub type Explanation = (
    &'static str,
    &'static str,
    &'static str,
    &'static str,
    &'static str,
);

/// The errors of an HDT file, as docs/ERRORS.md explains them.
#[tactic(auto, unfolding(crate::specs::Explanations::file_explanations))]
pub fn file_explanations() -> &'static [Explanation]
    ensures { map explained_error result.now ≡ file_explanations }
{
    FILE_ERRORS
}

/// The errors of an N-Triples text, as docs/ERRORS.md explains them.
#[tactic(auto, unfolding(crate::specs::Explanations::text_explanations))]
pub fn text_explanations() -> &'static [Explanation]
    ensures { map explained_error result.now ≡ text_explanations }
{
    TEXT_ERRORS
}

/// Whether a word is the error's number, or its name in letters of any case.
fn is_named(word: &str, error: &Explanation) -> bool
    ensures { result ≡ is_named word.now (explained_error error.now) }
{
    word == error.0 || word.eq_ignore_ascii_case(error.1)
}

/// The first error that a word names, by its number or by its name in letters of any case.
pub fn first_named<'a>(word: &str, errors: &'a [Explanation]) -> Option<&'a Explanation>
    ensures { option_map (λ error. explained_error error.now) result
        ≡ first_named word.now (map explained_error errors.now) }
{
    'errors: for error in errors {
        if is_named(word, error) {
            return Some(error);
        }
    }
    None
}

/// The explanation of an error, with what has it: a heading, the meaning, the cause and the remedy.
fn explanation_text(alloc: Global, what: &str, error: &Explanation) -> Result<String, AllocError>
    ensures { IfOk result (λ text. string_bytes text ≡ explanation_text what.now (explained_error error.now)) }
{
    let (number, name, meaning, cause, remedy) = *error;
    format!(in alloc;
        "Error {number} of {what}: {name}\n\n{meaning}\n\nCause: {cause}\n\nRemedy: {remedy}"
    )
}

/// The line that says which two errors a word names.
fn two_errors(alloc: Global, file: &Explanation, text: &Explanation) -> Result<String, AllocError>
    ensures { IfOk result (λ line. string_bytes line
        ≡ two_errors (explained_error file.now) (explained_error text.now)) }
{
    let (file_number, file_name, _, _, _) = *file;
    let (text_number, text_name, _, _, _) = *text;
    format!(in alloc;
        "Two errors: {file_number} {file_name} of an HDT file, and {text_number} {text_name} of an N-Triples text."
    )
}

/// The explanations of an error of a file and of one of a text, after a line that names both.
fn both_texts(alloc: Global, file: &Explanation, text: &Explanation) -> Result<String, AllocError>
    ensures { IfOk result (λ found. string_bytes found
        ≡ both_texts (explained_error file.now) (explained_error text.now)) }
{
    let line = two_errors(alloc, file, text)?;
    let of_file = explanation_text(alloc, "an HDT file", file)?;
    let of_text = explanation_text(alloc, "an N-Triples text", text)?;
    format!(in alloc; "{line}\n\n{of_file}\n\n{of_text}")
}

/// The explanation of an error of an HDT file, then that of an N-Triples text, which a word names by its number or by
/// its name in letters of any case, after a line that names both if there are two; `None` if there is neither. The text
/// has no line feed at its end.
///
/// # Errors
///
/// `AllocError` only if memory ran out.
#[tactic(auto, unfolding(crate::specs::Explanations::explanation_of))]
pub fn explain(alloc: Global, word: &str) -> Result<Option<String>, AllocError>
    ensures { IfOk result (λ found. option_map string_bytes found ≡ explanation_of word.now) }
{
    let file = first_named(word, file_explanations());
    let text = first_named(word, text_explanations());
    let found = match (file, text) {
        (Some(file), Some(text)) => both_texts(alloc, file, text)?,
        (Some(file), None) => explanation_text(alloc, "an HDT file", file)?,
        (None, Some(text)) => explanation_text(alloc, "an N-Triples text", text)?,
        (None, None) => return Ok(None),
    };
    Ok(Some(found))
}
