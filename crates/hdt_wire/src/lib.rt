//! The byte encodings that all parts of an HDT file share (HDT format version 1): VByte numbers, CRCs, control
//! information with its properties, and the errors of a file with their byte offsets.
//!
//! What this crate promises: a reader returns the value whose encoding begins at the offset, whatever follows it; if
//! there is none, it returns the first error.
//!
//! Functions that state no cost take constant time and allocate nothing. Laws do nothing when called.
//!
//! ```rust
//! let control = read_control(bytes, 0, Kind::Global)?;
//! let base = property(control.properties(), b"BaseURI");
//! ```
#![tactic(auto)]

mod checks;
mod control;
mod counted;
mod crc;
mod crc32c;
mod fault;
mod ghost_counter;
mod properties;
mod vbyte;

pub use checks::{bytes_at, demand, len_before_zero, text_at, truncate_on_error};
pub use control::{Control, Kind, control_round_trip, put_control, read_control};
pub use counted::{Counted, Failed};
pub use crc::{check8, check16};
pub use crc32c::{Crc32c, check32};
pub use fault::{Fault, Reason};
pub use ghost_counter::GhostCounter;
pub use properties::property;
pub use vbyte::{put_decimal, put_vbyte, read_vbyte, vbyte_len, vbyte_round_trip};

/// The role of a term in a triple. Each role has its own IDs, from 1.
#[derive(Clone, Copy, Debug, PartialEq, Eq)]
pub enum Role {
    /// The subject. IDs count the strings of the section shared, then those of the section subjects.
    Subject,
    /// The predicate. IDs count the strings of the section predicates.
    Predicate,
    /// The object. IDs count the strings of the section shared, then those of the section objects.
    Object,
}
