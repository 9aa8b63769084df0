//! Reading until a complete line is buffered.
ghost use Rattle.std.specs.Prelude.{ℕ, ◌≡◌, ◌≢◌, IfOk, IfErr, ◌+◌, ◌≤◌, true, take, length, Some, OnOk, IsErrOf};
ghost use Rattle.std.specs.Prelude.{IsUtf8};
ghost use Rattle.hdt_wire.specs.Counted.{inner, failures};
ghost use Rattle.hdt_terms.specs.Inside.LineBuffer.{IsFirstLineEnd, ReadMore, BuffersLine, text_len};
ghost use Rattle.hdt_terms.specs.Lines.{HasNoLineEnd};
ghost use Rattle.hdt_terms.specs.declared.fault.LineReason.TheVariants.{Read};

use crate::buffer::Buffer;
use crate::byte_runs::{ByteClass, run_len};
use crate::chars::is_line_end;
use crate::fault::LineReason;
use hdt_wire::{Counted, Failed};
use std::io::Read;

/// The index of the first line end, given that there is none before `from`.
pub(crate) fn find_line_end(bytes: &[u8], from: usize) -> Option<usize>
    requires within { from ≤ length bytes.now }
    requires none { HasNoLineEnd (take from bytes.now) }
    ensures { IsFirstLineEnd bytes.now result }
{
    let end_at = from + run_len(ByteClass::NotLineEnd, &bytes[from..]);
    if end_at < bytes.len() {
        Some(end_at)
    } else {
        None
    }
}

/// Reads once, up to a buffer length of `most`. Returns whether there were more bytes. If the buffer has `most` bytes
/// already, it reads one byte more to see whether the input ends there.
pub(crate) fn read_more<R: Read>(
    buffered: &mut Buffer,
    most: usize,
    input: &mut Counted<R>,
) -> Result<bool, LineReason>
    requires { length buffered.old ≤ most }
    ensures does { ReadMore result buffered.old buffered.new (R.remaining (inner input.old))
        (R.remaining (inner input.new)) most }
    ensures reader_unfailed { OnOk result (failures input.new ≡ failures input.old) }
    ensures read { IsErrOf result Read → failures input.new ≡ failures input.old + 1 }
    ensures reader_reported { IfErr result (λ reason. reason ≢ Read → failures input.new ≡ failures input.old) }
{
    if buffered.len() == most {
        let mut past = [0u8; 1];
        return match input.read(&mut past) {
            Ok(0) => Ok(false),
            Ok(_) => Err(LineReason::TooLong),
            Err(Failed) => Err(LineReason::Read),
        };
    }
    let n = buffered.read(most - buffered.len(), input)?;
    Ok(n > 0)
}

/// Reads until a line end is buffered or the input ends. Returns the length of the first line without its end.
fn fill<R: Read>(
    buffered: &mut Buffer,
    most: usize,
    input: &mut Counted<R>,
) -> Result<usize, LineReason>
    requires no_end { HasNoLineEnd buffered.old }
    requires below_limit { length buffered.old ≤ most }
    ensures does { BuffersLine result buffered.old buffered.new (R.remaining (inner input.old))
        (R.remaining (inner input.new)) most }
    ensures reader_unfailed { OnOk result (failures input.new ≡ failures input.old) }
    ensures read { IsErrOf result Read → failures input.new ≡ failures input.old + 1 }
    ensures reader_reported { IfErr result (λ reason. reason ≢ Read → failures input.new ≡ failures input.old) }
{
    'fill: loop {
        let searched = buffered.len();
        match read_more(buffered, most, input) {
            Ok(true) => {}
            Ok(false) => return Ok(searched),
            Err(reason) => return Err(reason),
        }
        if let Some(end_at) = find_line_end(buffered.as_slice(), searched) {
            return Ok(end_at);
        }
    }
}

/// The number of leading bytes that are ASCII and no line end, and whether a line end follows them.
#[inline(always)]
fn scan_ascii_line(bytes: &[u8]) -> (usize, bool)
    ensures within { result.0 ≤ length bytes.now }
    ensures none { HasNoLineEnd (take result.0 bytes.now) }
    ensures utf8 { IsUtf8 (take result.0 bytes.now) }
    ensures end { result.1 ≡ true → IsFirstLineEnd bytes.now (Some result.0) }
{
    let n = run_len(ByteClass::AsciiNotLineEnd, bytes);
    (n, n < bytes.len() && is_line_end(bytes[n]))
}

/// Buffers the first line. Returns its length without its end, and whether it is known to be UTF-8.
pub(crate) fn buffer_first_line<R: Read>(
    buffered: &mut Buffer,
    most: usize,
    input: &mut Counted<R>,
) -> Result<(usize, bool), LineReason>
    requires below_limit { length buffered.old ≤ most }
    ensures does { BuffersLine (text_len result) buffered.old buffered.new (R.remaining (inner input.old))
        (R.remaining (inner input.new)) most }
    ensures utf8 { IfOk result (λ x. x.1 ≡ true → IsUtf8 (take x.0 buffered.new)) }
    ensures unread { (n : ℕ) → IsFirstLineEnd buffered.old (Some n) → input.new ≡ input.old }
    ensures reader_unfailed { OnOk result (failures input.new ≡ failures input.old) }
    ensures read { IsErrOf result Read → failures input.new ≡ failures input.old + 1 }
    ensures reader_reported { IfErr result (λ reason. reason ≢ Read → failures input.new ≡ failures input.old) }
{
    let (n, ended) = scan_ascii_line(buffered.as_slice());
    if ended {
        return Ok((n, true));
    }
    if let Some(end_at) = find_line_end(buffered.as_slice(), n) {
        return Ok((end_at, false));
    }
    let n = fill(buffered, most, input)?;
    Ok((n, false))
}
