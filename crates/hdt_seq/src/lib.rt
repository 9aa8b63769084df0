//! Log sequences and bitmaps of an HDT file (HDT format version 1), rank/select indexes over bitmaps, and the count of
//! steps that a search takes.
//!
//! What this crate promises: a reader returns exactly the numbers or bits that are encoded at the offset, in any width
//! and with any padding, whatever follows. If the bytes encode nothing, it returns the first error. A writer appends
//! the canonical encoding, which is read back. A rank/select index counts and finds exactly the 1-bits of its bitmap,
//! in a stated number of steps.
//!
//! Functions that state no cost take constant time and allocate nothing. Laws do nothing when called.
//!
//! ```rust
//! let (bits, next) = Bits::read(bytes, at)?;
//! let directory = Directory::new(alloc, &bits)?;
//! let ones = directory.rank(&bits, bits.len(), &mut Steps::new());
//! let (numbers, end) = Numbers::read(bytes, next)?;
//! let count = numbers.len();
//! ```
//!
//! Both sequences borrow the input and are `Copy`. A `Directory` is a rank/select index; it owns only its counts.
//! Contracts see sequences as lists, by `numbers_of` and `bits_of` of specs/, and their offsets by `numbers_offsets`
//! and `bits_offsets`. `IsDirectoryOf` says that an index is that of a list of bits. Laws on these lists, and on rank
//! and select, are in specs/Laws: `Numbers`, `Bits`, `RankSelect`.
#![tactic(auto)]

mod bit_access;
mod bits;
mod checks;
mod directory;
mod numbers;
mod packing;
mod sequence_writer;
mod writing;

pub use bits::{Bits, Steps};
pub use checks::{byte_at, crc8_at, packed_at, sequences_are_exact};
pub use directory::{Directory, rank_select_inverse};
pub use numbers::Numbers;
pub use packing::{put_entries, width_of};
pub use sequence_writer::SequenceWriter;
pub use writing::{bits_round_trip, numbers_round_trip, put_bits, put_numbers};
