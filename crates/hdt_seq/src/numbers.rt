//! Log sequences: entries of 0 to 64 bits each, packed.
ghost use Rattle.std.specs.Prelude.{◌≡◌, ◌+◌, ◌*◌, ◌^◌, ◌<◌, ◌≤◌, length};

use crate::bit_access::read_entry;
use crate::checks::{byte_at, crc8_at, packed_at};
use hdt_wire::{Fault, Reason, demand, read_vbyte};

/// A log sequence that was read. It borrows its packed bytes from the input.
///
/// ```rust
/// let (numbers, next) = Numbers::read(bytes, at)?;
/// let mut largest = 0;
/// for i in 0..numbers.len() {
///     largest = largest.max(numbers.get(i));
/// }
/// ```
#[derive(Clone, Copy)]
pub struct Numbers<'a> {
    packed: &'a [u8],
    width: u8,
    count: u64,
    count_at: usize,
    packed_at: usize,
    ghost narrow: { width ≤ 64 },
    ghost count_fits: { count < 2 ^ 64 },
    ghost packed_fits: { width * count ≤ 8 * length packed.now },
    ghost inside: { packed_at + length packed.now < 2 ^ 64 },
}

impl<'a> Numbers<'a> {
    ghost use Rattle.std.specs.Prelude.{IfOk, slice_index};
    ghost use Rattle.hdt_wire.specs.Checks.{Reads};
    ghost use Rattle.hdt_seq.specs.Sequence.{entry_offset};
    ghost use Rattle.hdt_seq.specs.Numbers.{numbers_of, numbers_offsets, numbers_view, numbers_at};

    /// Reads the log sequence at a byte offset, from 0. Returns it with the offset after it. More bytes may follow.
    /// Linear time in the bytes of the sequence, because of its CRC. By
    /// [`sequences_are_exact`](crate::sequences_are_exact) this is what is encoded there, if anything is.
    ///
    /// # Errors
    ///
    /// The first of these, in this order: `SequenceKind`, `Width`, those of the number of entries, `Check8`, `Check32`;
    /// and `Truncated` at the offset of what is cut off.
    #[tactic(auto, unfolding(crate::specs::Numbers::numbers_at, crate::specs::Numbers::numbers_of, crate::specs::Numbers::numbers_offsets))]
    pub fn read(bytes: &'a [u8], at: usize) -> Result<(Numbers<'a>, usize), Fault>
        // The result is that of the format's checks in order: the sequence, or the first error.
        ensures exact { Reads numbers_view result (numbers_at bytes.now at) }
        ensures end { IfOk result (λ r. (at < r.1) × (r.1 ≤ length bytes.now)) }
    {
        let (kind, width_at) = byte_at(bytes, at)?;
        demand(kind == 1, at, Reason::SequenceKind)?;
        let (width, count_at) = byte_at(bytes, width_at)?;
        demand(width <= 64, width_at, Reason::Width)?;
        let (count, code_at) = read_vbyte(bytes, count_at)?;
        let start = crc8_at(bytes, at, code_at)?;
        let bits = u128::from(width) * u128::from(count);
        let (packed, end) = packed_at(bytes, start, bits)?;
        let numbers = Numbers {
            packed,
            width,
            count,
            count_at,
            packed_at: start,
        };
        Ok((numbers, end))
    }

    /// Returns the number of entries.
    #[tactic(auto, using(crate::specs::Laws::Numbers::numbers_len))]
    pub fn len(&self) -> u64
        ensures { result ≡ length (numbers_of self.now) }
    {
        self.count
    }

    /// Returns entry i, from 0. `i` must be less than [`len`](Numbers::len).
    #[tactic(auto, using(crate::specs::Laws::Numbers::number_within, crate::specs::Laws::Numbers::numbers_get))]
    pub fn get(&self, i: u64) -> u64
        requires { i < length (numbers_of self.now) }
        ensures { result ≡ slice_index (numbers_of self.now) i }
    {
        read_entry(self.packed, self.width, i)
    }

    /// Returns the number of bits of an entry, at most 64.
    #[tactic(auto, unfolding(crate::specs::Numbers::numbers_offsets))]
    pub fn width(&self) -> u8
        ensures { result ≡ (numbers_offsets self.now).width }
    {
        self.width
    }

    /// Returns the byte offset of the number of entries in the input.
    #[tactic(auto, unfolding(crate::specs::Numbers::numbers_offsets))]
    pub fn count_place(&self) -> u64
        ensures { result ≡ (numbers_offsets self.now).count }
    {
        self.count_at as u64
    }

    /// Returns the byte offset of entry i in the input: that of the byte with its first bit. Entries of 0 bits are at
    /// the offset of the packed bytes. `i` must be less than [`len`](Numbers::len).
    #[tactic(auto, using(crate::specs::Laws::Numbers::number_within), unfolding(crate::specs::Numbers::numbers_offsets))]
    pub fn entry_place(&self, i: u64) -> u64
        requires { i < length (numbers_of self.now) }
        ensures { result ≡ entry_offset (numbers_offsets self.now) i }
    {
        let bits = u128::from(self.width) * u128::from(i);
        self.packed_at as u64 + (bits / 8) as u64
    }
}
