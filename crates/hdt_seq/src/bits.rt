//! Bitmaps, eight bits a byte, and the steps of a search, which contracts count.
ghost use Rattle.std.specs.Prelude.{◌≡◌, ◌+◌, ◌*◌, ◌%◌, ◌^◌, ◌<◌, ◌≤◌, ℕ, length};

use crate::bit_access::{read_bit, read_bits};
use crate::checks::{byte_at, crc8_at, packed_at};
use hdt_wire::{Fault, GhostCounter, Reason, demand, read_vbyte};
use std::marker::Model;

/// A bitmap that was read. It borrows its bytes from the input.
///
/// ```rust
/// let (bits, next) = Bits::read(bytes, at)?;
/// let first = bits.len() > 0 && bits.get(0);
/// ```
#[derive(Clone, Copy)]
pub struct Bits<'a> {
    packed: &'a [u8],
    count: u64,
    count_at: usize,
    packed_at: usize,
    ghost count_fits: { count < 2 ^ 64 },
    ghost packed_fits: { count ≤ 8 * length packed.now },
    ghost inside: { packed_at + length packed.now < 2 ^ 64 },
}

impl<'a> Bits<'a> {
    ghost use Rattle.std.specs.Prelude.{Some, IfOk, slice_get};
    ghost use Rattle.hdt_wire.specs.Checks.{Reads};
    ghost use Rattle.std.specs.Int.Count.{ones};
    ghost use Rattle.hdt_seq.specs.Sequence.{entry_offset};
    ghost use Rattle.hdt_seq.specs.RankSelect.{ones_before};
    ghost use Rattle.hdt_seq.specs.Bits.{bits_of, bits_offsets, bits_view, bits_at};

    /// Reads the bitmap at a byte offset, from 0. Returns it with the offset after it. More bytes may follow. Linear
    /// time in the bytes of the bitmap, because of its CRC. By [`sequences_are_exact`](crate::sequences_are_exact) this
    /// is what is encoded there, if anything is.
    ///
    /// # Errors
    ///
    /// The first of these, in this order: `BitsKind`, those of the number of bits, `Check8`, `NoTriples` if there is no
    /// bit, `Check32`; and `Truncated` at the offset of what is cut off.
    #[tactic(auto, unfolding(crate::specs::Bits::bits_at, crate::specs::Bits::bits_of, crate::specs::Bits::bits_offsets))]
    pub fn read(bytes: &'a [u8], at: usize) -> Result<(Bits<'a>, usize), Fault>
        // The result is that of the format's checks in order: the bitmap, or the first error.
        ensures exact { Reads bits_view result (bits_at bytes.now at) }
        ensures end { IfOk result (λ r. (at < r.1) × (r.1 ≤ length bytes.now)) }
    {
        let (kind, count_at) = byte_at(bytes, at)?;
        demand(kind == 1, at, Reason::BitsKind)?;
        let (count, code_at) = read_vbyte(bytes, count_at)?;
        let start = crc8_at(bytes, at, code_at)?;
        demand(count > 0, count_at, Reason::NoTriples)?;
        let (packed, end) = packed_at(bytes, start, u128::from(count))?;
        let bits = Bits {
            packed,
            count,
            count_at,
            packed_at: start,
        };
        Ok((bits, end))
    }

    /// Returns the number of bits, at least 1.
    #[tactic(auto, using(crate::specs::Laws::Bits::bits_len))]
    pub fn len(&self) -> u64
        ensures { result ≡ length (bits_of self.now) }
    {
        self.count
    }

    /// Returns whether bit i, from 0, is 1. `i` must be less than [`len`](Bits::len).
    #[tactic(auto, using(crate::specs::Laws::Bits::bit_within, crate::specs::Laws::Bits::bits_get))]
    pub fn get(&self, i: u64) -> bool
        requires { i < length (bits_of self.now) }
        ensures { slice_get (bits_of self.now) i ≡ Some result }
    {
        read_bit(self.packed, i)
    }

    /// Returns the byte offset of the number of bits in the input.
    #[tactic(auto, unfolding(crate::specs::Bits::bits_offsets))]
    pub fn count_place(&self) -> u64
        ensures { result ≡ (bits_offsets self.now).count }
    {
        self.count_at as u64
    }

    /// Returns the byte offset of the byte with bit i in the input. `i` must be less than [`len`](Bits::len).
    #[tactic(auto, using(crate::specs::Laws::Bits::bit_within), unfolding(crate::specs::Bits::bits_offsets))]
    pub fn entry_place(&self, i: u64) -> u64
        requires { i < length (bits_of self.now) }
        ensures { result ≡ entry_offset (bits_offsets self.now) i }
    {
        self.packed_at as u64 + i / 8
    }

    /// The bits from one position up to another, at most 64, as a number. The first bit is the lowest. One step.
    pub(crate) fn word(&self, from: u64, to: u64, steps: &mut Steps) -> u64
        requires order { from ≤ to }
        requires near { to ≤ from + 64 }
        requires within { to ≤ length (bits_of self.now) }
        // The 1-bits among its lowest k bits are those of the first k positions, and it has no others.
        ensures lowest { (k : ℕ) → from + k ≤ to → ones_before (bits_of self.now) from + ones (result % 2 ^ k)
            ≡ ones_before (bits_of self.now) (from + k) }
        ensures all { ones_before (bits_of self.now) from + ones result ≡ ones_before (bits_of self.now) to }
        ensures cost { steps.new ≡ steps.old + 1 }
    {
        steps.tick();
        read_bits(self.packed, u128::from(from), (to - from) as u8)
    }
}

/// A count of steps. It takes no memory; only contracts see it, and only [`Steps::tick`] increments it.
#[derive(Drop)]
pub struct Steps {
    taken: GhostCounter,
}

impl Model for Steps {
    ghost use Rattle.std.specs.Prelude.{ℕ};

    ghost Value = { ℕ };

    ghost view = { λ s. s.taken.count };
}

impl Steps {
    /// Returns a count of 0.
    pub fn new() -> Steps
        ensures { result ≡ 0 }
    {
        Steps {
            taken: GhostCounter::new(),
        }
    }

    /// Counts one step.
    pub fn tick(&mut self)
        ensures { self.new ≡ self.old + 1 }
    {
        self.taken.tick();
    }
}
