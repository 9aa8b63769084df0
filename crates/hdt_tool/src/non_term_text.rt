//! The output of `find` and `dump` with `--skip-non-terms` and `--count`, and of `verify --terms`, with the number of
//! the triples or strings that have no form in N-Triples.
ghost use Rattle.std.specs.Prelude.{◌≡◌, ◌++◌, true, OnOk, IfOk, IfErr, IfSome};
ghost use Rattle.std.specs.List.{flat_map};
ghost use Rattle.hdt_file.specs.Faults.{open_fault_of};
ghost use Rattle.hdt_file.specs.File.{GraphParts};
ghost use Rattle.hdt_file.specs.Graph.{layout_view};
ghost use Rattle.hdt_file.specs.NonTerms.{IsTermVerdict};
ghost use Rattle.hdt_file.specs.Tight.{IsTightLayout};
ghost use Rattle.hdt_tool.specs.Outcomes.{HasFault, IsFaultOfBytes};
ghost use Rattle.hdt_tool.specs.NonTermText.{PrintsKept, PrintsTermVerdict, non_term_line};
ghost use Rattle.hdt_tool.specs.NonTermText.{term_verdict_lines};
ghost use Rattle.hdt_tool.specs.TriplesText.{query};
ghost use Rattle.hdt_tool.specs.declared.request.Action.TheVariants as Action;
ghost use Rattle.hdt_tool.specs.declared.request.OutputFormat.TheVariants.{Count};

use crate::error_lines::role_name;
use crate::fault::ToolFault;
use crate::printed_reports::verdict;
use crate::printed_strings::number_line;
use crate::printed_triples::find_pattern;
use hdt_file::{
    Layout, NonTerm, OpenFault, TermFlags, TermVerdict, layout_writable_matches, verify_terms,
    verify_tight_terms,
};
use hdt_wire::put_decimal;
use std::alloc::{AllocError, Global};

/// The line with the number of those of the triples with the given strings that have a line, up to a limit; and how
/// many were skipped.
#[tactic(auto, using(crate::proofs::NonTermLaws::kept_counted))]
pub(crate) fn kept_count(
    alloc: Global,
    layout: &Layout<'_>,
    given: &[Option<Vec<u8>>; 3],
    most: Option<u64>,
) -> Result<(Vec<u8>, u64), AllocError>
    ensures { IfOk result
        (λ made. PrintsKept (layout_view layout.now) (query given.now Count most) made.0.items made.1) }
{
    let flags = TermFlags::of(alloc, layout)?;
    let pattern = find_pattern(layout, given);
    let kept = layout_writable_matches(alloc, layout, &flags, pattern, most)?;
    Ok((number_line(alloc, kept.triples.len() as u64)?, kept.skipped))
}

/// Appends the line of a string that is not a term.
#[tactic(auto, using(std::proofs::Common::append_assoc))]
fn put_non_term_line(non_term: NonTerm, out: &mut Vec<u8>) -> Result<(), AllocError>
    ensures { OnOk result (out.new.items ≡ out.old.items ++ non_term_line non_term) }
{
    out.extend_from_slice(role_name(non_term.role).as_bytes())?;
    out.push(b'\t')?;
    put_decimal(non_term.number, out)?;
    out.push(b'\t')?;
    put_decimal(non_term.place, out)?;
    Ok(out.push(b'\n')?)
}

/// The lines of strings that are not terms.
fn non_term_lines(alloc: Global, found: &[NonTerm]) -> Result<Vec<u8>, AllocError>
    ensures { IfOk result (λ text. text.items ≡ flat_map non_term_line found.now) }
{
    let mut text = Vec::new(alloc);
    'found: for non_term in found {
        put_non_term_line(*non_term, &mut text)?;
    }
    Ok(text)
}

/// The lines of strings that are not terms, or the line of `verify` if there is none.
fn term_verdict_text(
    alloc: Global,
    counts: [u64; 5],
    found: &[NonTerm],
) -> Result<Vec<u8>, AllocError>
    ensures { IfOk result (λ text. text.items ≡ term_verdict_lines counts found.now) }
{
    if found.is_empty() {
        return verdict(alloc, counts);
    }
    non_term_lines(alloc, found)
}

/// What `verify --terms` finds out about a file.
fn read_terms(alloc: Global, tight: bool, bytes: &[u8]) -> Result<TermVerdict, OpenFault>
    ensures found { IfOk result (IsTermVerdict bytes.now) }
    ensures tight { IfOk result (λ found. tight ≡ true → (graph : GraphParts) × IsTightLayout bytes.now graph) }
    ensures err { IfErr result (λ e. IfSome (open_fault_of e) (λ fault.
        HasFault (Action.VerifyTerms tight) bytes.now fault)) }
{
    if tight {
        return verify_tight_terms(alloc, bytes);
    }
    verify_terms(alloc, bytes)
}

/// The output of `verify --terms`, and the number of strings that are not terms.
pub(crate) fn verify_terms_text(
    alloc: Global,
    tight: bool,
    bytes: &[u8],
) -> Result<(Vec<u8>, u64), ToolFault>
    ensures ok { IfOk result (λ made. PrintsTermVerdict tight bytes.now made.0.items made.1) }
    ensures err { IfErr result (IsFaultOfBytes (Action.VerifyTerms tight) bytes.now) }
{
    let found = read_terms(alloc, tight, bytes)?;
    let text = term_verdict_text(alloc, found.counts, &found.non_terms)?;
    Ok((text, found.non_terms.len() as u64))
}
