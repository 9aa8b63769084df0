//! The output of `strings` with `--prefix` or `--terms`.
ghost use Rattle.std.specs.Prelude.{◌≡◌, ◌++◌, ◌-◌, ◌⊎◌, ◌≤◌, ℕ, List, true, None, OnOk, IfOk, IfErr};
ghost use Rattle.std.specs.List.{range_with_len};
ghost use Rattle.hdt_terms.specs.Strings.{IsTermOfString};
ghost use Rattle.hdt_dict.specs.Dictionary.{role_strings};
ghost use Rattle.hdt_file.specs.Graph.{layout_view};
ghost use Rattle.hdt_tool.specs.ListedStrings.{AreAscendingIds, AreLinesOfIds, ArePrefixIds, IsLineFault, IsListedLine};
ghost use Rattle.hdt_tool.specs.ListedStrings.{IsListFault, PrintsListed};

use crate::counts::put_string_or_term;
use crate::fault::ToolFault;
use crate::printed_strings::put_string_line;
use hdt_dict::Role;
use hdt_file::Layout;
use hdt_seq::Steps;
use hdt_terms::StringFault;
use std::alloc::{AllocError, Global};
use std::ops::Range;

/// Appends the numbers of a range.
fn push_range(range: &Range<u64>, numbers: &mut Vec<u64>) -> Result<(), AllocError>
    requires { range.now.start ≤ range.now.end }
    ensures { OnOk result (numbers.new.items ≡ numbers.old.items
        ++ range_with_len range.now.start (range.now.end - range.now.start)) }
{
    let start = range.start;
    let count = range.end - start;
    'numbers: for more in 0..count {
        numbers.push(start + more)?;
    }
    Ok(())
}

/// The IDs of the strings of a role that begin with a prefix, by a search.
#[tactic(auto, using(crate::proofs::ListedLines::prefix_ids_are))]
fn prefix_ids(
    alloc: Global,
    layout: &Layout<'_>,
    role: Role,
    prefix: &[u8],
) -> Result<Vec<u64>, AllocError>
    ensures { IfOk result (λ ids. ArePrefixIds (role_strings (layout_view layout.now).dictionary role) prefix.now
        ids.items) }
{
    let ranges = layout.ids_with_prefix(role, prefix, &mut Steps::new());
    let mut ids = Vec::new(alloc);
    push_range(&ranges.first, &mut ids)?;
    push_range(&ranges.second, &mut ids)?;
    Ok(ids)
}

/// Appends the line of a string with this ID in a role: with `terms` its term, else the ID, a tab and the escaped
/// string.
fn put_listed_line(
    role: Role,
    number: u64,
    terms: bool,
    string: &[u8],
    out: &mut Vec<u8>,
) -> Result<(), ToolFault>
    ensures ok { OnOk result ((line : List ℕ) × IsListedLine terms number string.now line
        × (out.new.items ≡ out.old.items ++ line)) }
    ensures err { IfErr result (λ e. (e ≡ ToolFault.OutOfMemory)
        ⊎ ((e ≡ ToolFault.NotATerm role number) × (terms ≡ true) × IsTermOfString string.now None)) }
{
    if !terms {
        return Ok(put_string_line(number, string, out)?);
    }
    match put_string_or_term(false, string, out) {
        Ok(()) => Ok(out.extend_from_slice(b"\n")?),
        Err(StringFault::NotATerm) => Err(ToolFault::NotATerm(role, number)),
        Err(StringFault::OutOfMemory) => Err(ToolFault::OutOfMemory),
    }
}

/// The lines of a few IDs. Decodes a block for each.
fn look_up_lines(
    alloc: Global,
    layout: &Layout<'_>,
    role: Role,
    terms: bool,
    ids: &[u64],
) -> Result<Vec<u8>, ToolFault>
    requires { AreAscendingIds (role_strings (layout_view layout.now).dictionary role) ids.now }
    ensures ok { IfOk result (λ text. AreLinesOfIds
        (role_strings (layout_view layout.now).dictionary role) terms ids.now text.items) }
    ensures err { IfErr result
        (IsLineFault (role_strings (layout_view layout.now).dictionary role) ids.now role terms) }
{
    let mut text = Vec::new(alloc);
    let mut string = Vec::new(alloc);
    'ids: for at in 0..ids.len() {
        let number = ids[at];
        string.clear();
        layout.string_of(role, number, &mut string, &mut Steps::new())?;
        put_listed_line(role, number, terms, &string, &mut text)?;
    }
    Ok(text)
}

/// The lines of many IDs. Decodes each string of the role up to the last ID once.
fn scan_lines(
    alloc: Global,
    layout: &Layout<'_>,
    role: Role,
    terms: bool,
    ids: &[u64],
) -> Result<Vec<u8>, ToolFault>
    requires { AreAscendingIds (role_strings (layout_view layout.now).dictionary role) ids.now }
    ensures ok { IfOk result (λ text. AreLinesOfIds
        (role_strings (layout_view layout.now).dictionary role) terms ids.now text.items) }
    ensures err { IfErr result
        (IsLineFault (role_strings (layout_view layout.now).dictionary role) ids.now role terms) }
{
    let mut text = Vec::new(alloc);
    let mut strings = layout.strings(alloc, role);
    let mut at = 0;
    'strings: while at < ids.len() {
        let Some(number) = strings.next()? else {
            return Ok(text);
        };
        if number != ids[at] {
            continue;
        }
        put_listed_line(role, number, terms, strings.string(), &mut text)?;
        at += 1;
    }
    Ok(text)
}

/// Up to this many strings are looked up one by one; above it the role is scanned.
const MAX_LOOKUPS: usize = 64;

/// The lines of the strings of a role that begin with a prefix, in the order of their IDs: with `terms` the terms, else
/// each ID, a tab and the escaped string.
///
/// Time: a binary search for the IDs, and decoding a block for each line, or from 65 lines on each string of the role
/// up to the last line's. Memory: the text, and 8 bytes for each line.
///
/// # Errors
///
/// [`ToolFault::NotATerm`] with `terms` if no term has a string; [`ToolFault::OutOfMemory`].
pub(crate) fn listed_text(
    alloc: Global,
    layout: &Layout<'_>,
    role: Role,
    prefix: &[u8],
    terms: bool,
) -> Result<Vec<u8>, ToolFault>
    ensures ok { IfOk result (λ text. PrintsListed (role_strings (layout_view layout.now).dictionary role) prefix.now
        terms text.items) }
    ensures err { IfErr result
        (IsListFault (role_strings (layout_view layout.now).dictionary role) prefix.now role terms) }
{
    let ids = prefix_ids(alloc, layout, role, prefix)?;
    if ids.len() <= MAX_LOOKUPS {
        return look_up_lines(alloc, layout, role, terms, &ids);
    }
    scan_lines(alloc, layout, role, terms, &ids)
}
