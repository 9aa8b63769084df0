//! Writing sequences in canonical form.
ghost use Rattle.std.specs.Prelude.{◌≡◌, ◌+◌, ◌^◌, ◌<◌, ◌++◌, ℕ, Bool, List, Ok, OnOk, OnErr, length};
ghost use Rattle.hdt_wire.specs.Checks.{IsBytes};
ghost use Rattle.hdt_wire.specs.Control.{IsPrefixOf};
ghost use Rattle.hdt_seq.specs.Width.{width_of};
ghost use Rattle.hdt_seq.specs.PackedBits.{EachFits};
ghost use Rattle.hdt_seq.specs.Numbers.{EncodesNumbers, numbers_at, expected_numbers_offsets, numbers_encoding};
ghost use Rattle.hdt_seq.specs.Bits.{EncodesBits, bits_at, expected_bits_offsets, bits_encoding};

use crate::packing::{append_bits, append_crc8, append_crc32, put_entries, width_of};
use hdt_wire::{put_vbyte, truncate_on_error};
use std::alloc::AllocError;

/// Appends a log sequence. An error may leave its first bytes.
#[tactic(auto, unfolding(crate::specs::Numbers::numbers_encoding))]
fn append_log_sequence(xs: &[u64], out: &mut Vec<u8>) -> Result<(), AllocError>
    ensures ok { OnOk result (out.new.items ≡ out.old.items ++ numbers_encoding xs.now) }
    ensures err { OnErr result (IsPrefixOf out.old.items out.new.items) }
{
    let start = out.len();
    let width = width_of(xs);
    out.extend_from_slice(&[1, width])?;
    put_vbyte(xs.len() as u64, out)?;
    append_crc8(start, out)?;
    let packed = out.len();
    put_entries(xs, width, out)?;
    append_crc32(packed, out)
}

/// Appends the canonical log sequence of these entries: its width is that of [`width_of`], its padding bits are 0. If
/// memory runs out, `out` is unchanged. Linear time.
pub fn put_numbers(xs: &[u64], out: &mut Vec<u8>) -> Result<(), AllocError>
    ensures ok { OnOk result (out.new.items ≡ out.old.items ++ numbers_encoding xs.now) }
    ensures err { OnErr result (out.new.items ≡ out.old.items) }
{
    let start = out.len();
    let appended = append_log_sequence(xs, out);
    truncate_on_error(appended, start, out)
}

/// Laws of the encodings of log sequences. What `put_numbers` appends encodes its entries and is read back, whatever
/// precedes and follows it. An encoding is that of one list only, and no prefix of another encoding.
pub fn numbers_round_trip()
    ensures spelled { (xs : List ℕ) → length xs < 2 ^ 64 → EachFits 64 xs → EncodesNumbers (numbers_encoding xs) xs }
    ensures again { (before after xs : List ℕ) → length xs < 2 ^ 64 → EachFits 64 xs
        → numbers_at (before ++ numbers_encoding xs ++ after) (length before)
        ≡ Ok (record {
          items = xs;
          offsets = expected_numbers_offsets (length before) (width_of xs) (length xs);
          end =
              length before + length (numbers_encoding xs);
        }) }
    ensures begins_no_other { (a b x y xs ys : List ℕ) → IsBytes (a ++ x) → EncodesNumbers a xs → EncodesNumbers b ys
        → a ++ x ≡ b ++ y → (a ≡ b) × (xs ≡ ys) }
{}

/// Appends a bitmap. An error may leave its first bytes.
#[tactic(auto, unfolding(crate::specs::Bits::bits_encoding))]
fn append_bitmap(bits: &[bool], out: &mut Vec<u8>) -> Result<(), AllocError>
    ensures ok { OnOk result (out.new.items ≡ out.old.items ++ bits_encoding bits.now) }
    ensures err { OnErr result (IsPrefixOf out.old.items out.new.items) }
{
    let start = out.len();
    out.push(1)?;
    put_vbyte(bits.len() as u64, out)?;
    append_crc8(start, out)?;
    let packed = out.len();
    append_bits(bits, out)?;
    append_crc32(packed, out)
}

/// Appends the canonical bitmap of these bits, of which there is at least one: its padding bits are 0. If memory runs
/// out, `out` is unchanged. Linear time.
pub fn put_bits(bits: &[bool], out: &mut Vec<u8>) -> Result<(), AllocError>
    requires { 0 < length bits.now }
    ensures ok { OnOk result (out.new.items ≡ out.old.items ++ bits_encoding bits.now) }
    ensures err { OnErr result (out.new.items ≡ out.old.items) }
{
    let start = out.len();
    let appended = append_bitmap(bits, out);
    truncate_on_error(appended, start, out)
}

/// Laws of the encodings of bitmaps. What `put_bits` appends encodes its bits and is read back, whatever precedes and
/// follows it. An encoding is that of one list only, and no prefix of another encoding.
pub fn bits_round_trip()
    ensures spelled { (xs : List Bool) → 0 < length xs → length xs < 2 ^ 64 → EncodesBits (bits_encoding xs) xs }
    ensures again { (before after : List ℕ) (xs : List Bool) → 0 < length xs → length xs < 2 ^ 64
        → bits_at (before ++ bits_encoding xs ++ after) (length before)
        ≡ Ok (record {
          items = xs;
          offsets = expected_bits_offsets (length before) (length xs);
          end =
              length before + length (bits_encoding xs);
        }) }
    ensures begins_no_other { (a b x y : List ℕ) (xs ys : List Bool) → IsBytes (a ++ x) → EncodesBits a xs
        → EncodesBits b ys → a ++ x ≡ b ++ y → (a ≡ b) × (xs ≡ ys) }
{}
