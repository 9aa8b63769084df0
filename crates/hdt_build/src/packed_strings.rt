//! A list of strings as bytes, written and read from front to back.
ghost use Rattle.std.specs.Prelude.{◌≡◌, ◌≤◌, ◌+◌, ◌-◌, ◌++◌, ◌∷◌, [], ℕ, List, None, drop, length, IfOk, IfSome};
ghost use Rattle.std.specs.Prelude.{◌<◌, IsFalse, IsTrue, OnOk};
ghost use Rattle.hdt_front.specs.Order.{lcp_len};
ghost use Rattle.hdt_wire.specs.VByte.{vbyte};
ghost use Rattle.hdt_build.specs.Inside.PackedStrings.{ArePackedStrings, final_string, remaining_strings};
ghost use Rattle.hdt_build.specs.Inside.PackedStrings.{split_bytes, unpacked_strings};
ghost use Rattle.hdt_build.specs.Inside.PackedTriples.{IsEndOf, split_number};
ghost use Rattle.hdt_build.specs.Inside.SortedEntries.{IsLessThanLast, IsPushedOnce};

use crate::packed_triples::read_number;
use hdt_front::{cmp_from, common_prefix};
use hdt_wire::put_vbyte;
use std::alloc::{AllocError, Global};
use std::cmp::Ordering;
use std::marker::Model;

/// A list of strings. Each takes two VBytes, the length of the longest common prefix with the previous string and that
/// of the rest, and the bytes of the rest. In contracts it is the list of the strings.
#[derive(Drop)]
pub(crate) struct PackedStrings {
    bytes: Vec<u8>,
    /// The last string.
    last: Vec<u8>,
    count: usize,
}

impl Model for PackedStrings {
    ghost Value = { List (List ℕ) };

    ghost view = { λ s. unpacked_strings s.count [] s.bytes.items };

    ghost invariant = { λ s. ArePackedStrings s.bytes.items s.last.items
        (unpacked_strings s.count [] s.bytes.items) };
}

/// A reader of packed strings.
#[derive(Drop)]
pub(crate) struct StringReader<'a> {
    rest: &'a [u8],
    /// The string that was read last.
    text: Vec<u8>,
    count: usize,
}

/// Appends the encoding of a string that has `same` bytes in common with the previous one. An error may leave parts of
/// it.
fn put_string(same: usize, text: &[u8], out: &mut Vec<u8>) -> Result<(), AllocError>
    requires { same ≤ length text.now }
    ensures ok { OnOk result (out.new.items ≡ out.old.items
        ++ (vbyte same ++ (vbyte (length text.now - same) ++ drop same text.now))) }
{
    let (_, rest) = text.split_at(same);
    put_vbyte(same as u64, out)?;
    put_vbyte(rest.len() as u64, out)?;
    out.extend_from_slice(rest)
}

/// Appends the encoding of a string after the last one, and makes it the last one. An error may leave parts of it.
fn put_after(
    same: usize,
    text: &[u8],
    out: &mut Vec<u8>,
    last: &mut Vec<u8>,
) -> Result<(), AllocError>
    requires { same ≡ lcp_len last.old.items text.now }
    ensures bytes { OnOk result (out.new.items ≡ out.old.items ++ (vbyte same
        ++ (vbyte (length text.now - same) ++ drop same text.now))) }
    ensures last { OnOk result (last.new.items ≡ text.now) }
{
    put_string(same, text, out)?;
    last.clear();
    last.extend_from_slice(text)
}

/// Splits bytes, of which there may be fewer.
#[tactic(auto, unfolding(crate::specs::Inside::PackedStrings::split_bytes))]
fn split_at_most(bytes: &[u8], len: u64) -> (&[u8], &[u8])
    ensures front { result.0.now ≡ (split_bytes len bytes.now).0 }
    ensures rest { result.1.now ≡ (split_bytes len bytes.now).1 }
    ensures end { IsEndOf result.1.now bytes.now }
{
    let at = (len as usize).min(bytes.len());
    bytes.split_at(at)
}

/// Reads the string that follows the one in `text` into it; returns the bytes after it.
#[tactic(auto, using(crate::proofs::CountedChunks::end_of_end), unfolding(crate::specs::Inside::PackedStrings::unpacked_strings))]
pub(crate) fn read_string<'a>(bytes: &'a [u8], text: &mut Vec<u8>) -> Result<&'a [u8], AllocError>
    ensures string { IfOk result (λ rest. (n : ℕ) → 0 < n → unpacked_strings n text.old.items bytes.now
        ≡ text.new.items ∷ unpacked_strings (n - 1) text.new.items rest.now) }
    ensures end { IfOk result (λ rest. IsEndOf rest.now bytes.now) }
{
    let (same, rest) = read_number(bytes);
    let (len, rest) = read_number(rest);
    let (front, rest) = split_at_most(rest, len);
    text.truncate(same as usize);
    text.extend_from_slice(front)?;
    Ok(rest)
}

#[tactic(auto, unfolding(crate::specs::Inside::PackedStrings::unpacked_strings))]
impl PackedStrings {
    /// An empty list.
    pub(crate) fn new(alloc: Global) -> PackedStrings
        ensures { result ≡ [] }
    {
        PackedStrings {
            bytes: Vec::new(alloc),
            last: Vec::new(alloc),
            count: 0,
        }
    }

    /// The number of strings.
    #[tactic(auto, using(crate::proofs::PackedStrings::length_unpacked_strings))]
    pub(crate) fn len(&self) -> usize
        ensures { result ≡ length self.now }
    {
        self.count
    }

    /// The strings as bytes.
    #[tactic(auto, using(crate::proofs::PackedStrings::length_unpacked_strings))]
    pub(crate) fn bytes(&self) -> &[u8]
        ensures { unpacked_strings (length self.now) [] result.now ≡ self.now }
    {
        self.bytes.as_slice()
    }

    /// Appends a string whose longest common prefix with the last one has `same` bytes. If memory runs out, the list is
    /// emptied.
    fn push_after(&mut self, text: &[u8], same: usize) -> Result<(), AllocError>
        requires { same ≡ lcp_len (final_string [] self.old) text.now }
        ensures { OnOk result (self.new ≡ self.old ++ text.now ∷ []) }
    {
        let pushed = put_after(same, text, &mut self.bytes, &mut self.last);
        if pushed.is_err() {
            self.bytes.clear();
            self.last.clear();
            self.count = 0;
            return pushed;
        }
        self.count += 1;
        Ok(())
    }

    /// Appends a string. If memory runs out, the list is emptied.
    pub(crate) fn push(&mut self, text: &[u8]) -> Result<(), AllocError>
        ensures { OnOk result (self.new ≡ self.old ++ text.now ∷ []) }
    {
        let same = common_prefix(&self.last, text);
        self.push_after(text, same)
    }

    /// Appends a string to ascending ones, unless it equals the last one; returns its index. None if it is less than
    /// the last one. If memory runs out, the list is emptied.
    pub(crate) fn push_distinct(&mut self, text: &[u8]) -> Result<Option<usize>, AllocError>
        ensures joined { IfOk result (λ made. IfSome made (λ i. IsPushedOnce self.old text.now self.new)) }
        ensures index { IfOk result (λ made. IfSome made (λ i. i + 1 ≡ length self.new)) }
        ensures less { IfOk result (λ made. made ≡ None → IsLessThanLast self.old text.now) }
    {
        let len = self.len();
        if len == 0 {
            self.push(text)?;
            return Ok(Some(0));
        }
        let (order, same) = cmp_from(text, &self.last, 0);
        match order {
            Ordering::Less => Ok(None),
            Ordering::Equal => Ok(Some(len - 1)),
            Ordering::Greater => {
                self.push_after(text, same)?;
                Ok(Some(len))
            }
        }
    }

    /// A reader of all strings.
    pub(crate) fn reader(&self, alloc: Global) -> StringReader<'_>
        ensures { remaining_strings result ≡ self.now }
    {
        StringReader {
            rest: self.bytes.as_slice(),
            text: Vec::new(alloc),
            count: self.count,
        }
    }
}

#[tactic(auto, unfolding(crate::specs::Inside::PackedStrings::unpacked_strings))]
impl StringReader<'_> {
    /// The string that was read last.
    pub(crate) fn text(&self) -> &[u8]
        ensures { result.now ≡ self.now.text.items }
    {
        self.text.as_slice()
    }

    /// Reads a string; returns whether there was one.
    pub(crate) fn next(&mut self) -> Result<bool, AllocError>
        ensures some { IfOk result (λ more. IsTrue more
            → remaining_strings self.old ≡ self.new.text.items ∷ remaining_strings self.new) }
        ensures none { IfOk result (λ more. IsFalse more → remaining_strings self.old ≡ []) }
    {
        if self.count == 0 {
            return Ok(false);
        }
        self.rest = read_string(self.rest, &mut self.text)?;
        self.count -= 1;
        Ok(true)
    }
}
