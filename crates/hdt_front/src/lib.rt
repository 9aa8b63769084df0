//! Dictionary sections of an HDT file: sorted strings in Plain Front Coding (HDT format version 1).
//!
//! The reader returns the strictly ascending UTF-8 strings encoded at an offset, or the first error. It accepts any
//! block size, any shared prefixes, and any width and padding of the block offsets. Look-ups by string and by ID are
//! inverse. The writer appends the canonical section, which has the longest shared prefixes and is read back as the
//! same strings.
//!
//! A function that states no cost takes constant time and allocates nothing. Laws do nothing when called.
//!
//! ```rust
//! let (section, next) = Section::read(alloc, bytes, at)?;
//! let mut steps = Steps::new();
//! let id = section.place_of(b"http://a/b", &mut steps);
//! let mut last = Vec::new(alloc);
//! if section.len() > 0 {
//!     section.string(section.len(), &mut last, &mut steps)?;
//! }
//! ```
//!
//! A [`Section`] borrows the input, holds no decoded string and is `Copy`. Searches run on its front-coded bytes.
//! [`SectionIter`] returns its strings in order and decodes each once. Contracts describe a section by `strings_of`,
//! the list of its strings, and by `section_of`, all of its parts (specs/`Strings`). specs/`Section` defines a
//! section, and specs/`Canonical` its canonical bytes. specs/Laws has the laws that other crates use.
#![tactic(auto)]

mod cursor;
mod decode;
mod entry;
mod laws;
mod lcp;
mod packed;
mod reading;
mod scan;
mod search;
mod section;
mod section_iter;
mod section_writer;
mod seeker;
mod string;
mod writing;

pub use cursor::Cursor;
pub use laws::{
    blocks_are_least, look_ups_are_inverse, one_section, section_round_trip, sections_are_exact,
    string_places,
};
pub use lcp::{cmp_from, common_prefix};
pub use section::{ReadFault, Section, are_section_strings};
pub use section_iter::SectionIter;
pub use section_writer::SectionWriter;
pub use seeker::Seeker;
pub use writing::{borrow_strings, put_section};
