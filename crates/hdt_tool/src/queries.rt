//! The output of each command that reads a file and writes none.
ghost use Rattle.std.specs.Prelude.{◌≡◌, ◌↔◌, ◌⊎◌, ℕ, List, IfOk, IfErr, IsTrue, OnOk};
ghost use Rattle.std.specs.Io.KnownBytes.{Appends};
ghost use Rattle.hdt_wire.specs.Counted.{inner, failures};
ghost use Rattle.hdt_tool.specs.Changes.{change};
ghost use Rattle.hdt_tool.specs.TriplesText.{find_format};
ghost use Rattle.hdt_tool.specs.Outcomes.{IsCutShort, IsFaultOfBytes, IsReadOnly, Prints, PrintsInPieces, PrintsText};
ghost use Rattle.hdt_tool.specs.Outcomes.{PrintsWithCount};

use crate::counts::count_lines;
use crate::fault::ToolFault;
use crate::info::file_info_text;
use crate::listed_strings::listed_text;
use crate::non_term_text::{kept_count, verify_terms_text};
use crate::printed_reports::{head_text, verdict};
use crate::printed_strings::{number_text, print_strings, string_text};
use crate::printed_triples::{check_match, print_kept_triples, print_triples};
use crate::request::{Action, OutputFormat};
use hdt_file::{Layout, open, read_head, verify, verify_tight};
use hdt_wire::Counted;
use std::alloc::Global;
use std::io::Write;

/// Writes the output of a command that prints in pieces: `strings`, and `find` and `dump`, but for the number of lines
/// with `--skip-non-terms`. Returns the number of triples that are left out.
pub(crate) fn print_in_pieces<W: Write>(
    alloc: Global,
    action: &Action,
    bytes: &[u8],
    out: &mut Counted<W>,
) -> Result<u64, ToolFault>
    requires { PrintsInPieces action.now }
    ensures ok { IfOk result (λ n. (text : List ℕ) × PrintsWithCount action.now bytes.now text n
        × Appends (W.contents (inner out.old)) (W.contents (inner out.new)) text) }
    ensures writer_unfailed { OnOk result (failures out.new ≡ failures out.old) }
    ensures err { IfErr result (λ e. (IsFaultOfBytes action.now bytes.now e × (out.new ≡ out.old))
        ⊎ ((text : List ℕ) × Prints action.now bytes.now text
        × IsCutShort e text (change W.contents out.old out.new))) }
{
    let layout = Layout::read(alloc, bytes)?;
    match action {
        Action::Strings(role) => {
            print_strings(alloc, &layout, *role, out)?;
            Ok(0)
        }
        Action::Find { given, numbers } => {
            print_triples(alloc, &layout, given, find_format(*numbers), None, out)?;
            Ok(0)
        }
        Action::Search {
            given,
            format,
            most,
        } => {
            print_triples(alloc, &layout, given, *format, *most, out)?;
            Ok(0)
        }
        Action::SkipNonTerms { given, most, .. } => {
            print_kept_triples(alloc, &layout, given, *most, out)
        }
        _ => unreachable!(),
    }
}

/// Whether the command prints in pieces.
pub(crate) fn prints_in_pieces(action: &Action) -> bool
    ensures { IsTrue result ↔ PrintsInPieces action.now }
{
    match action {
        Action::Strings(_) | Action::Find { .. } | Action::Search { .. } => true,
        Action::SkipNonTerms { count, .. } => !*count,
        _ => false,
    }
}

/// The format of `find` without `--count`.
fn find_format(numbers: bool) -> OutputFormat
    ensures { result ≡ find_format numbers }
{
    if numbers {
        OutputFormat::Numbers
    } else {
        OutputFormat::NTriples
    }
}

/// The output of a command that prints one complete text and counts nothing, for the bytes of a file. Empty for
/// `answer`, `lint`, `split` and `merge`, which write elsewhere.
fn file_text(alloc: Global, action: &Action, bytes: &[u8]) -> Result<Vec<u8>, ToolFault>
    requires { PrintsText action.now }
    ensures ok { IfOk result (λ text. Prints action.now bytes.now text.items) }
    ensures err { IfErr result (IsFaultOfBytes action.now bytes.now) }
{
    match action {
        Action::Head => Ok(head_text(alloc, &read_head(bytes)?)?),
        Action::HeadBody => Ok(read_head(bytes)?.body().to_vec(alloc)?),
        Action::Verify => Ok(verdict(alloc, verify(alloc, bytes)?)?),
        Action::VerifyTight => Ok(verdict(alloc, verify_tight(alloc, bytes)?)?),
        Action::Info { json } => file_info_text(alloc, *json, bytes),
        Action::ListStrings {
            role,
            prefix,
            terms,
        } => listed_text(alloc, &Layout::read(alloc, bytes)?, *role, prefix, *terms),
        Action::Nth(role, number) => {
            string_text(alloc, &Layout::read(alloc, bytes)?, *role, *number)
        }
        Action::Number(role, string) => {
            number_text(alloc, &Layout::read(alloc, bytes)?, *role, string)
        }
        Action::Exists { given } => {
            check_match(&Layout::read(alloc, bytes)?, given)?;
            Ok(Vec::new(alloc))
        }
        Action::Count { role, top, raw } => {
            let graph = open(alloc, bytes)?;
            count_lines(alloc, &graph, *role, *top, *raw)
        }
        Action::Answer(_) => {
            Layout::read(alloc, bytes)?;
            Ok(Vec::new(alloc))
        }
        Action::Lint { .. } | Action::Split(_) | Action::Merge(_, _) => Ok(Vec::new(alloc)),
        Action::BuildInputs(_, _) => Ok(Vec::new(alloc)),
        Action::Strings(_) | Action::Find { .. } | Action::Search { .. } => unreachable!(),
        Action::SkipNonTerms { .. } | Action::VerifyTerms { .. } => unreachable!(),
        Action::Build(_) | Action::Rewrite(_) => unreachable!(),
    }
}

/// The output of a command that prints one complete text, for the bytes of a file, and what it counts: the triples that
/// `--skip-non-terms` leaves out, or the strings that `verify --terms` prints; 0 for other commands.
pub(crate) fn text_and_count(
    alloc: Global,
    action: &Action,
    bytes: &[u8],
) -> Result<(Vec<u8>, u64), ToolFault>
    requires reads { IsReadOnly action.now }
    requires whole { PrintsInPieces action.now → ⊥ }
    ensures ok { IfOk result (λ made. PrintsWithCount action.now bytes.now made.0.items made.1) }
    ensures err { IfErr result (IsFaultOfBytes action.now bytes.now) }
{
    match action {
        Action::SkipNonTerms { given, most, .. } => {
            let layout = Layout::read(alloc, bytes)?;
            Ok(kept_count(alloc, &layout, given, *most)?)
        }
        Action::VerifyTerms { tight } => verify_terms_text(alloc, *tight, bytes),
        action => Ok((file_text(alloc, action, bytes)?, 0)),
    }
}
