//! The output of `count`.
ghost use Rattle.std.specs.Prelude.{◌≡◌, ◌++◌, ◌⊎◌, ◌<◌, ◌^◌, List, ℕ, None, Some, OnOk, IfOk, IfErr, false};
ghost use Rattle.hdt_dict.specs.Ids.{string_at_id};
ghost use Rattle.hdt_dict.specs.Dictionary.{role_strings};
ghost use Rattle.hdt_file.specs.Graph.{graph_view};
ghost use Rattle.hdt_terms.specs.Strings.{IsTermOfString};
ghost use Rattle.hdt_tool.specs.Inside.FrequencyKeys.{AreFrequencyKeys};
ghost use Rattle.hdt_tool.specs.StringsText.{IsIdOfNonTerm};
ghost use Rattle.hdt_tool.specs.TermCounts.{IsCountFault, IsCountLine, IsStringOrTerm, PrintsCounts, role_pattern};
ghost use Rattle.hdt_tool.specs.TermCounts.{use_count};

use crate::fault::ToolFault;
use crate::printed_reports::put_escaped;
use hdt_dict::Role;
use hdt_file::Graph;
use hdt_seq::Steps;
use hdt_terms::{StringFault, put_string};
use hdt_triples::Pattern;
use hdt_wire::put_decimal;
use std::alloc::{AllocError, Global};

/// The pattern of the triples with this ID in a role.
fn role_pattern(role: Role, number: u64) -> Pattern
    ensures { result ≡ role_pattern role number }
{
    let (mut s, mut p, mut o) = (None, None, None);
    match role {
        Role::Subject => s = Some(number),
        Role::Predicate => p = Some(number),
        Role::Object => o = Some(number),
    }
    Pattern { s, p, o }
}

/// The number of triples with this ID in a role.
fn use_count(graph: &Graph<'_>, role: Role, number: u64) -> u64
    ensures count { result ≡ use_count (graph_view graph.now) role number }
    ensures fits { use_count (graph_view graph.now) role number < 2 ^ 64 }
{
    graph.matching(role_pattern(role, number), &mut Steps::new())
}

/// Appends a string as it is printed: escaped if `raw`, else as its N-Triples term. An error may leave a prefix.
pub(crate) fn put_string_or_term(
    raw: bool,
    string: &[u8],
    out: &mut Vec<u8>,
) -> Result<(), StringFault>
    ensures ok { OnOk result ((shown : List ℕ) × IsStringOrTerm raw string.now shown
        × (out.new.items ≡ out.old.items ++ shown)) }
    ensures err { IfErr result (λ e. (e ≡ StringFault.OutOfMemory) ⊎ ((raw ≡ false) × IsTermOfString string.now None)) }
{
    if raw {
        return Ok(put_escaped(string, out)?);
    }
    put_string(string, out)?;
    Ok(())
}

/// Appends the line of a string with this ID in a role: the number of its triples, a tab, and the string.
fn put_count_line(
    graph: &Graph<'_>,
    role: Role,
    number: u64,
    raw: bool,
    string: &[u8],
    out: &mut Vec<u8>,
) -> Result<(), ToolFault>
    requires { string_at_id (role_strings (graph_view graph.now).dictionary role) number ≡ Some string.now }
    ensures ok { OnOk result ((line : List ℕ) × IsCountLine (graph_view graph.now) role raw number line
        × (out.new.items ≡ out.old.items ++ line)) }
    ensures err { IfErr result (λ e. (e ≡ ToolFault.OutOfMemory)
        ⊎ ((e ≡ ToolFault.NotATerm role number) × (raw ≡ false)
        × IsIdOfNonTerm (role_strings (graph_view graph.now).dictionary role) number)) }
{
    put_decimal(use_count(graph, role, number), out)?;
    out.extend_from_slice(b"\t")?;
    match put_string_or_term(raw, string, out) {
        Ok(()) => Ok(out.extend_from_slice(b"\n")?),
        Err(StringFault::NotATerm) => Err(ToolFault::NotATerm(role, number)),
        Err(StringFault::OutOfMemory) => Err(ToolFault::OutOfMemory),
    }
}

/// The lines of all IDs of a role, in order. Each string is decoded once.
fn all_lines(alloc: Global, graph: &Graph<'_>, role: Role, raw: bool) -> Result<Vec<u8>, ToolFault>
    ensures ok { IfOk result (λ text. PrintsCounts (graph_view graph.now) role None raw text.items) }
    ensures err { IfErr result (IsCountFault (graph_view graph.now) role None raw) }
{
    let mut text = Vec::new(alloc);
    let mut strings = graph.strings(alloc, role);
    'strings: while let Some(number) = strings.next()? {
        put_count_line(graph, role, number, raw, strings.string(), &mut text)?;
    }
    Ok(text)
}

/// The keys of all IDs of a role, ascending: a key is the greatest `u64` less the count, and the ID.
fn frequency_keys(
    alloc: Global,
    graph: &Graph<'_>,
    role: Role,
) -> Result<Vec<(u64, u64)>, AllocError>
    ensures { IfOk result (λ keys. AreFrequencyKeys (graph_view graph.now) role keys.items) }
{
    let count = graph.count(role);
    let mut keys = Vec::new(alloc);
    'numbers: for before in 0..count {
        let number = before + 1;
        keys.push((u64::MAX - use_count(graph, role, number), number))?;
    }
    keys.sort_unstable();
    Ok(keys)
}

/// The lines of the `top` most frequent IDs of a role, the most frequent first.
fn top_lines(
    alloc: Global,
    graph: &Graph<'_>,
    role: Role,
    top: u64,
    raw: bool,
) -> Result<Vec<u8>, ToolFault>
    ensures ok { IfOk result (λ text. PrintsCounts (graph_view graph.now) role (Some top) raw text.items) }
    ensures err { IfErr result (IsCountFault (graph_view graph.now) role (Some top) raw) }
{
    let keys = frequency_keys(alloc, graph, role)?;
    let mut text = Vec::new(alloc);
    let mut string = Vec::new(alloc);
    let most = top.min(keys.len() as u64) as usize;
    'keys: for at in 0..most {
        let number = keys[at].1;
        string.clear();
        graph.string_of(role, number, &mut string, &mut Steps::new())?;
        put_count_line(graph, role, number, raw, &string, &mut text)?;
    }
    Ok(text)
}

/// The output of `count`: a line for each ID of a role with the number of its triples, a tab, and its term, or with
/// `raw` its escaped string. With `top`, the most frequent IDs only, the most frequent first, and of those with as many
/// triples the lesser ID first; else all, in the order of IDs.
///
/// Time: one [`Graph::matching`] per ID, over all IDs of a role linear in its triples up to a logarithm; with `top`
/// also a sort of the IDs and a block decoded per line. Memory: the text; with `top` also 16 bytes per ID.
///
/// # Errors
///
/// [`ToolFault::NotATerm`] without `raw` if no term has a string; [`ToolFault::OutOfMemory`].
pub(crate) fn count_lines(
    alloc: Global,
    graph: &Graph<'_>,
    role: Role,
    top: Option<u64>,
    raw: bool,
) -> Result<Vec<u8>, ToolFault>
    ensures ok { IfOk result (λ text. PrintsCounts (graph_view graph.now) role top raw text.items) }
    ensures err { IfErr result (IsCountFault (graph_view graph.now) role top raw) }
{
    match top {
        None => all_lines(alloc, graph, role, raw),
        Some(top) => top_lines(alloc, graph, role, top, raw),
    }
}
