//! The dictionary of an HDT file (HDT format version 1): four sections of front-coded strings, which give the strings
//! of each role their IDs.
//!
//! Look-ups by ID and by string are inverse in each role. No string is in two of shared, subjects and objects. A role
//! has at most as many strings as the input has bytes.
//!
//! Functions that state no cost take constant time and allocate nothing. Laws do nothing when called.
//!
//! ```rust
//! let (dictionary, end) = Dictionary::read(alloc, bytes, at)?;
//! let subject = dictionary.number_of(Role::Subject, b"http://a/", &mut Steps::new());
//! let mut objects = dictionary.strings(alloc, Role::Object);
//! while let Some(id) = objects.next()? {
//!     ids.push(id)?;
//!     text.extend_from_slice(objects.string())?;
//! }
//! ```
//!
//! [`Dictionary::read`] reads a dictionary. [`split`] and [`put_dictionary`] write one at once; four [`SectionWriter`]s
//! and [`finish_dictionary`] write one string by string. In contracts a dictionary is its four sections with their
//! byte offsets (`dictionary_of` of specs/), and a role is the list of its strings. An [`Arena`] stores many strings in
//! one vector.
#![tactic(auto)]

mod arena;
mod dictionary;
mod disjoint;
mod merge;
mod overlap;
mod parts;
mod prefix;
mod role_iter;
mod role_sections;
mod role_seeker;
mod string_batch;
mod writing;

pub use arena::Arena;
pub use dictionary::{
    Dictionary, SectionId, dictionaries_are_exact, dictionary_round_trip, one_dictionary,
    split_makes_sections,
};
pub use hdt_front::{SectionIter, SectionWriter};
pub use hdt_wire::Role;
pub use parts::{Parts, split};
pub use prefix::PrefixRanges;
pub use role_iter::RoleIter;
pub use role_seeker::RoleSeeker;
pub use writing::{finish_dictionary, put_dictionary};
