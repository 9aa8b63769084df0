//! A cursor with random access to the strings of a role.
ghost use Rattle.std.specs.Prelude.{◌≡◌, ◌++◌, length, IfOk, OnErr, option_copied};
ghost use Rattle.hdt_front.specs.Strings.{strings_of};
ghost use Rattle.hdt_dict.specs.Ids.{string_at_id, AppendsString};
ghost use Rattle.hdt_dict.specs.RoleSections.{second_strings};

use crate::role_sections::RoleSections;
use crate::string_batch::append_next;
use hdt_front::Seeker;
use hdt_seq::Steps;
use std::alloc::{AllocError, Global};
use std::marker::Model;

/// A cursor with random access to the strings of a role. It decodes from the current string if the next one comes later
/// in the same block, else from the start of its block. So ascending IDs decode each block once.
///
/// ```rust
/// let mut objects = dictionary.seeker(alloc, Role::Object);
/// for id in ids {
///     text.clear();
///     objects.append_string(*id, &mut text)?;
/// }
/// ```
#[derive(Drop)]
pub struct RoleSeeker<'a> {
    first: Seeker<'a>,
    second: Seeker<'a>,
    first_len: u64,
    count: u64,
}

impl<'a> Model for RoleSeeker<'a> {
    ghost use Rattle.std.specs.Prelude.{◌≡◌, ◌≤◌, ◌++◌, ℕ, List, length, take};
    ghost use Rattle.hdt_front.specs.Strings.{strings_of};

    ghost Value = { List (List ℕ) };

    ghost view = { λ s. take s.count (strings_of s.first.section ++ strings_of s.second.section) };

    ghost invariant = { λ s. (s.first_len ≡ length (strings_of s.first.section))
        × (s.count ≤ length (strings_of s.first.section ++ strings_of s.second.section)) };
}

impl<'a> RoleSeeker<'a> {
    /// A cursor over the strings of the sections of a role.
    pub(crate) fn new(alloc: Global, sections: &RoleSections<'_, 'a>) -> RoleSeeker<'a>
        ensures { result ≡ strings_of sections.now.first.now ++ second_strings (option_copied sections.now.second) }
    {
        RoleSeeker {
            first: Seeker::new(alloc, sections.first),
            // Without a second section, no ID is greater than the number of strings of the first one.
            second: Seeker::new(alloc, sections.second.unwrap_or(sections.first)),
            first_len: sections.first.len(),
            count: sections.len(),
        }
    }

    /// Appends the string with ID n, from 1, and returns true; or returns false if there is none, with `out` unchanged.
    /// If memory runs out, `out` is unchanged. It takes at most as many steps as the block size, and at most n - m
    /// after a string with ID m ≤ n.
    pub fn append_string(&mut self, n: u64, out: &mut Vec<u8>) -> Result<bool, AllocError>
        ensures strings { self.new ≡ self.old }
        ensures ok { IfOk result (λ appended. AppendsString (string_at_id self.old n) appended out.old.items
            out.new.items) }
        ensures err { OnErr result (out.new.items ≡ out.old.items) }
    {
        if n == 0 || n > self.count {
            return Ok(false);
        }
        let many = self.first_len;
        let mut steps = Steps::new();
        append_next(&mut self.first, &mut self.second, many, n, out, &mut steps)?;
        Ok(true)
    }
}
