//! A buffer of bytes that were read and not yet consumed.
ghost use Rattle.std.specs.Prelude.{◌≡◌, ◌≢◌, IfErr, ℕ, ◌+◌, ◌-◌, ◌*◌, ◌<◌, ◌≤◌, List, [], length, drop, take, IfOk};
ghost use Rattle.std.specs.Prelude.{OnOk, OnErr, IsErrOf, vec_len};
ghost use Rattle.std.specs.Io.KnownBytes.{Consumes, Keeps, IsAtEnd};
ghost use Rattle.hdt_wire.specs.Counted.{inner, failures};
ghost use Rattle.hdt_terms.specs.Inside.LineBuffer.{ReadOnce};
ghost use Rattle.hdt_terms.specs.declared.fault.LineReason.TheVariants.{Read};

use crate::fault::LineReason;
use hdt_wire::{Counted, Failed};
use std::alloc::{AllocError, Global};
use std::io::Read;
use std::marker::Model;

/// The initial capacity in bytes.
const BUFFER_CAPACITY: usize = 65536;

/// A full buffer grows by its length divided by this, and by [`BUFFER_CAPACITY`].
const GROWTH_DIVISOR: usize = 8;

/// A buffer: the bytes of a vector from `start` to `end`. Contracts see only these bytes.
#[derive(Drop)]
pub(crate) struct Buffer {
    bytes: Vec<u8>,
    start: usize,
    end: usize,
}

impl Model for Buffer {
    ghost Value = { List ℕ };

    ghost view = { λ b. take (b.end - b.start) (drop b.start b.bytes.items) };

    ghost invariant = { λ b. (b.start ≤ b.end) × (b.end ≤ vec_len b.bytes) × (0 < vec_len b.bytes) };
}

/// Moves the bytes from `start` to `end` to the front, so that there is free space after them. Grows the vector if they
/// fill it.
fn make_free_space(bytes: &mut Vec<u8>, start: usize, end: usize) -> Result<(), AllocError>
    requires order { start ≤ end }
    requires within { end ≤ vec_len bytes.old }
    requires some { 0 < vec_len bytes.old }
    ensures front { take (end - start) bytes.new.items ≡ take (end - start) (drop start bytes.old.items) }
    ensures len { vec_len bytes.old ≤ vec_len bytes.new }
    ensures ok { OnOk result (end - start < vec_len bytes.new) }
    // It grows only if they fill it.
    ensures size { end - start < vec_len bytes.old → vec_len bytes.new ≡ vec_len bytes.old }
{
    if start > 0 {
        bytes.copy_within(start..end, 0);
    } else if end == bytes.len() {
        bytes.resize(end + end / GROWTH_DIVISOR + BUFFER_CAPACITY, 0)?;
    }
    Ok(())
}

/// Reads up to `most` bytes into the vector from index `at`.
fn read_at<R: Read>(
    bytes: &mut Vec<u8>,
    at: usize,
    most: usize,
    input: &mut Counted<R>,
) -> Result<usize, Failed>
    requires within { at ≤ vec_len bytes.old }
    ensures len { vec_len bytes.new ≡ vec_len bytes.old }
    ensures front { take at bytes.new.items ≡ take at bytes.old.items }
    ensures bound { IfOk result (λ n. (at + n ≤ vec_len bytes.new) × (n ≤ most)) }
    ensures ok { IfOk result (λ n. Consumes (R.remaining (inner input.old)) (R.remaining (inner input.new))
        (take n (drop at bytes.new.items))
        × (n ≡ 0 → at < vec_len bytes.new → 0 < most → IsAtEnd (R.remaining (inner input.new)))) }
    ensures err { OnErr result (Keeps (R.remaining (inner input.old)) (R.remaining (inner input.new))) }
    ensures reader_unfailed { OnOk result (failures input.new ≡ failures input.old) }
    ensures failed { OnErr result (failures input.new ≡ failures input.old + 1) }
{
    let to = at + most.min(bytes.len() - at);
    input.read(&mut bytes[at..to])
}

impl Buffer {
    /// An empty buffer.
    pub(crate) fn new(alloc: Global) -> Result<Buffer, AllocError>
        ensures { IfOk result (λ b. b ≡ []) }
    {
        Ok(Buffer {
            bytes: vec![in alloc; 0u8; BUFFER_CAPACITY]?,
            start: 0,
            end: 0,
        })
    }

    /// The number of bytes.
    pub(crate) fn len(&self) -> usize
        ensures { result ≡ length self.now }
    {
        self.end - self.start
    }

    /// The bytes.
    pub(crate) fn as_slice(&self) -> &[u8]
        ensures { result.now ≡ self.now }
    {
        &self.bytes[self.start..self.end]
    }

    /// Consumes the first bytes.
    pub(crate) fn skip(&mut self, n: usize)
        requires { n ≤ length self.old }
        ensures { self.new ≡ drop n self.old }
    {
        self.start += n;
    }

    /// Calls the reader once to append up to `most` bytes.
    pub(crate) fn read<R: Read>(
        &mut self,
        most: usize,
        input: &mut Counted<R>,
    ) -> Result<usize, LineReason>
        requires { 0 < most }
        ensures does { ReadOnce result self.old self.new (R.remaining (inner input.old))
            (R.remaining (inner input.new)) }
        ensures most { IfOk result (λ n. n ≤ most) }
        ensures reader_unfailed { OnOk result (failures input.new ≡ failures input.old) }
        ensures read { IsErrOf result Read → failures input.new ≡ failures input.old + 1 }
        ensures reader_reported { IfErr result (λ reason. reason ≢ Read → failures input.new ≡ failures input.old) }
    {
        let made = make_free_space(&mut self.bytes, self.start, self.end);
        self.end -= self.start;
        self.start = 0;
        match made {
            Ok(()) => {}
            Err(AllocError) => return Err(LineReason::OutOfMemory),
        }
        match read_at(&mut self.bytes, self.end, most, input) {
            Ok(n) => {
                self.end += n;
                Ok(n)
            }
            Err(Failed) => Err(LineReason::Read),
        }
    }
}
