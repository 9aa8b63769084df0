//! The output of `strings`, `string` and `number`.
ghost use Rattle.std.specs.Prelude.{◌≡◌, ◌∷◌, ◌++◌, ◌≢◌, ◌⊎◌, ℕ, [], OnOk, IfOk, IfErr, None, Some};
ghost use Rattle.std.specs.Fmt.{decimal};
ghost use Rattle.std.specs.Io.KnownBytes.{Appends};
ghost use Rattle.hdt_wire.specs.Counted.{inner, failures};
ghost use Rattle.hdt_dict.specs.Ids.{string_at_id};
ghost use Rattle.hdt_file.specs.Graph.{layout_view};
ghost use Rattle.hdt_dict.specs.Dictionary.{role_strings};
ghost use Rattle.hdt_tool.specs.Changes.{change};
ghost use Rattle.hdt_tool.specs.Outcomes.{IsCutShort};
ghost use Rattle.hdt_tool.specs.StringsText.{string_line, string_lines, PrintsString, PrintsNumber};

use crate::fault::ToolFault;
use crate::pending_output::{FLUSH_BYTES, PendingOutput};
use crate::printed_reports::put_escaped;
use hdt_dict::Role;
use hdt_file::Layout;
use hdt_seq::Steps;
use hdt_wire::{Counted, put_decimal};
use std::alloc::{AllocError, Global};
use std::io::Write;

/// Appends a line with a string's ID, a tab and the escaped string.
pub(crate) fn put_string_line(
    number: u64,
    string: &[u8],
    out: &mut Vec<u8>,
) -> Result<(), AllocError>
    ensures { OnOk result (out.new.items ≡ out.old.items ++ string_line number string.now) }
{
    put_decimal(number, out)?;
    out.push(b'\t')?;
    put_escaped(string, out)?;
    Ok(out.push(b'\n')?)
}

/// Writes the lines of all strings of a role, in pieces. Memory: 64 KiB and the line of one string.
pub(crate) fn print_strings<W: Write>(
    alloc: Global,
    layout: &Layout<'_>,
    role: Role,
    out: &mut Counted<W>,
) -> Result<(), ToolFault>
    ensures ok { OnOk result (Appends (W.contents (inner out.old)) (W.contents (inner out.new))
        (string_lines 1 (role_strings (layout_view layout.now).dictionary role))) }
    ensures writer_unfailed { OnOk result (failures out.new ≡ failures out.old) }
    // The writer failed or memory ran out, after a prefix of the lines.
    ensures cut { IfErr result
        (λ e. IsCutShort e (string_lines 1 (role_strings (layout_view layout.now).dictionary role))
        (change W.contents out.old out.new)) }
{
    let mut pending = PendingOutput::new(alloc);
    let mut strings = layout.strings(alloc, role);
    'strings: while let Some(number) = strings.next()? {
        let start = pending.bytes.len();
        put_string_line(number, strings.string(), &mut pending.bytes)?;
        pending.accept(start, true, FLUSH_BYTES - 1, out)?;
    }
    pending.flush(out)
}

/// The line of the string with this ID in a role.
pub(crate) fn string_text(
    alloc: Global,
    layout: &Layout<'_>,
    role: Role,
    number: u64,
) -> Result<Vec<u8>, ToolFault>
    ensures ok { IfOk result (λ text. PrintsString
        (role_strings (layout_view layout.now).dictionary role) number text.items) }
    ensures err { IfErr result (λ e. (e ≡ ToolFault.OutOfMemory)
        ⊎ ((e ≡ ToolFault.NoSuchNumber)
        × (string_at_id (role_strings (layout_view layout.now).dictionary role) number ≡ None))) }
{
    let mut string = Vec::new(alloc);
    if !layout.string_of(role, number, &mut string, &mut Steps::new())? {
        return Err(ToolFault::NoSuchNumber);
    }
    let mut text = Vec::new(alloc);
    put_escaped(&string, &mut text)?;
    text.extend_from_slice(b"\n")?;
    Ok(text)
}

/// A line with a number.
pub(crate) fn number_line(alloc: Global, number: u64) -> Result<Vec<u8>, AllocError>
    ensures { IfOk result (λ text. text.items ≡ decimal number ++ 10 ∷ []) }
{
    Ok(format!(in alloc; "{number}\n")?.into_bytes())
}

/// The line with the ID of a string in a role.
pub(crate) fn number_text(
    alloc: Global,
    layout: &Layout<'_>,
    role: Role,
    string: &[u8],
) -> Result<Vec<u8>, ToolFault>
    ensures ok { IfOk result (λ text. PrintsNumber (role_strings (layout_view layout.now).dictionary role) string.now
        text.items) }
    ensures err { IfErr result (λ e. (e ≡ ToolFault.OutOfMemory)
        ⊎ ((e ≡ ToolFault.NoSuchTerm)
        × ((n : ℕ) → string_at_id (role_strings (layout_view layout.now).dictionary role) n ≢ Some string.now))) }
{
    let Some(number) = layout.number_of(role, string, &mut Steps::new()) else {
        return Err(ToolFault::NoSuchTerm);
    };
    Ok(number_line(alloc, number)?)
}
