//! The IDs of the strings of a role that begin with a prefix.
ghost use Rattle.std.specs.Prelude.{◌≤◌, ◌+◌, ◌*◌, ◌↔◌, ℕ, length};
ghost use Rattle.hdt_dict.specs.Dictionary.{role_strings, lists_of_dictionary};
ghost use Rattle.hdt_dict.specs.Ids.{string_at_id};
ghost use Rattle.hdt_dict.specs.Prefixes.{IsInRanges, RangesAscend, SomeBeginsWith};

use crate::dictionary::Dictionary;
use hdt_seq::Steps;
use hdt_wire::Role;
use std::ops::Range;

/// The IDs, from 1, of the strings of a role that begin with a prefix: two ranges without their ends. They ascend, and
/// each may be empty.
#[derive(Drop)]
pub struct PrefixRanges {
    /// IDs of shared strings; of predicates.
    pub first: Range<u64>,
    /// IDs of the other subjects or objects; empty for predicates.
    pub second: Range<u64>,
}

impl<'a> Dictionary<'a> {
    ghost use Rattle.hdt_dict.specs.Cost.{role_search_cost};
    ghost use Rattle.hdt_dict.specs.Views.{dictionary_of};

    /// Returns the IDs of the strings of a role that begin with a prefix, which may be any bytes: all IDs if it is
    /// empty. Searches each section of the role twice, so it takes at most twice the steps of
    /// [`number_of`](Dictionary::number_of), and allocates nothing.
    pub fn ids_with_prefix(&self, role: Role, prefix: &[u8], steps: &mut Steps) -> PrefixRanges
        // An ID is in one of the ranges exactly if its string begins with the prefix.
        ensures exact { (n : ℕ) → IsInRanges result n
            ↔ SomeBeginsWith prefix.now
            (string_at_id (role_strings (lists_of_dictionary (dictionary_of self.now)) role) n) }
        ensures ascend { RangesAscend result
            (length (role_strings (lists_of_dictionary (dictionary_of self.now)) role)) }
        ensures cost { steps.new ≤ steps.old + 2 * role_search_cost (dictionary_of self.now) role }
        ensures more { steps.old ≤ steps.new }
    {
        let sections = self.sections_of(role);
        let first = sections.first.prefix_range(prefix, steps);
        match sections.second {
            None => {
                let end = first.end;
                PrefixRanges {
                    first,
                    second: end..end,
                }
            }
            Some(section) => {
                let second = section.prefix_range(prefix, steps);
                let before = sections.first.len();
                PrefixRanges {
                    first,
                    second: before + second.start..before + second.end,
                }
            }
        }
    }
}
