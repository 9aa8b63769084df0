//! A line of a document as a terminal shows it, with a mark below one byte.
ghost use Rattle.std.specs.Prelude.{◌≡◌, ◌++◌, ◌≤◌, OnOk, IfOk, length, take, drop, replicate};
ghost use Rattle.hdt_usage.specs.ShownLine.{shown_byte, shown, marked_text, marked_line};

use std::alloc::{AllocError, Global};

/// Appends a byte as a terminal shows it: printable ASCII as it is, any other byte as `\` and three octal digits.
fn put_shown_byte(byte: u8, out: &mut Vec<u8>) -> Result<(), AllocError>
    ensures { OnOk result (out.new.items ≡ out.old.items ++ shown_byte byte) }
{
    if 32 <= byte && byte <= 126 {
        return Ok(out.push(byte)?);
    }
    out.extend_from_slice(&[
        b'\\',
        b'0' + byte / 64,
        b'0' + byte / 8 % 8,
        b'0' + byte % 8,
    ])
}

/// Appends bytes as a terminal shows them: printable ASCII as it is, any other byte as `\` and three octal digits.
pub fn put_shown(bytes: &[u8], out: &mut Vec<u8>) -> Result<(), AllocError>
    ensures { OnOk result (out.new.items ≡ out.old.items ++ shown bytes.now) }
{
    'bytes: for &byte in bytes {
        put_shown_byte(byte, out)?;
    }
    Ok(())
}

/// The part of a text that begins at an offset and has at most `width` bytes.
fn cut(text: &[u8], start: usize, width: usize) -> &[u8]
    requires { start ≤ length text.now }
    ensures { result.now ≡ take width (drop start text.now) }
{
    let rest = &text[start..];
    if rest.len() <= width {
        rest
    } else {
        &rest[..width]
    }
}

/// Appends spaces.
fn put_spaces(count: usize, out: &mut Vec<u8>) -> Result<(), AllocError>
    ensures { OnOk result (out.new.items ≡ out.old.items ++ replicate count 32) }
{
    'spaces: for _ in 0..count {
        out.push(b' ')?;
    }
    Ok(())
}

/// Appends a text, cut to a width around an offset, and below it a line with `^` under that offset.
fn put_marked(text: &[u8], place: usize, width: usize, out: &mut Vec<u8>) -> Result<(), AllocError>
    requires { place ≤ length text.now }
    ensures { OnOk result (out.new.items ≡ out.old.items ++ marked_text text.now place width) }
{
    let start = place.saturating_sub(width / 2);
    out.extend_from_slice(b"  ")?;
    out.extend_from_slice(cut(text, start, width))?;
    out.extend_from_slice(b"\n  ")?;
    put_spaces(place - start, out)?;
    out.extend_from_slice(b"^\n")
}

/// A line, cut to a width around the byte after the first `before`, and below it a line with `^` under that byte. Both
/// are indented by two columns, which do not count. Printable ASCII is shown as it is, any other byte as `\` and three
/// octal digits. Linear time and memory in the line and the width.
///
/// # Errors
///
/// `AllocError` only if memory ran out.
pub fn marked_line(
    alloc: Global,
    line: &[u8],
    before: usize,
    width: usize,
) -> Result<Vec<u8>, AllocError>
    requires { before ≤ length line.now }
    ensures { IfOk result (λ text. text.items ≡ marked_line line.now before width) }
{
    let (front, back) = line.split_at(before);
    let mut all = Vec::new(alloc);
    put_shown(front, &mut all)?;
    let place = all.len();
    put_shown(back, &mut all)?;
    let mut text = Vec::new(alloc);
    put_marked(&all, place, width, &mut text)?;
    Ok(text)
}
