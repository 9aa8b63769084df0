//! Iterating over the strings of a role.
ghost use Rattle.std.specs.Prelude.{◌≡◌, ◌≤◌, ◌++◌, [], IsOk, OnOk, OnErr, IfOk, option_copied};
ghost use Rattle.hdt_front.specs.Order.{lcp_len};
ghost use Rattle.hdt_front.specs.Strings.{strings_of};
ghost use Rattle.hdt_dict.specs.Iteration.{step_role_iter, next_id};
ghost use Rattle.hdt_dict.specs.RoleSections.{second_strings};

use crate::role_sections::RoleSections;
use hdt_front::{Section, SectionIter};
use std::alloc::{AllocError, Global};
use std::marker::Model;

/// An iterator over the strings of a role in the order of their IDs. Each is decoded once, into the buffer of the
/// previous one.
///
/// ```rust
/// let mut subjects = dictionary.strings(alloc, Role::Subject);
/// while let Some(id) = subjects.next()? {
///     ids.push(id)?;
///     text.extend_from_slice(subjects.string())?;
/// }
/// ```
#[derive(Drop)]
pub struct RoleIter<'a> {
    alloc: Global,
    iter: SectionIter<'a>,
    second: Option<Section<'a>>,
    given: u64,
}

impl<'a> Model for RoleIter<'a> {
    ghost use Rattle.std.specs.Prelude.{◌<◌, ◌+◌, ◌^◌, ◌++◌, length};
    ghost use Rattle.hdt_front.specs.Iteration.{strings};
    ghost use Rattle.hdt_dict.specs.Iteration.{RoleIterState};
    ghost use Rattle.hdt_dict.specs.RoleSections.{second_strings};

    ghost Value = { RoleIterState };

    ghost view = { λ w. record {
      given = w.given;
      last = w.iter.last;
      ahead =
          strings w.iter.ahead ++ second_strings w.second;
    } };

    ghost invariant = { λ w. w.given + length (strings w.iter.ahead ++ second_strings w.second) < 2 ^ 64 };
}

impl<'a> RoleIter<'a> {
    /// An iterator over the strings of the sections of a role.
    #[tactic(auto, using(crate::proofs::IterationSteps::starts))]
    pub(crate) fn new(alloc: Global, sections: &RoleSections<'_, 'a>) -> RoleIter<'a>
        ensures { result ≡ record {
          given = 0;
          last = [];
          ahead =
              strings_of sections.now.first.now ++ second_strings (option_copied sections.now.second);
        } }
    {
        RoleIter {
            alloc,
            iter: SectionIter::new(alloc, sections.first),
            second: sections.copy_second(),
            given: 0,
        }
    }

    /// Returns the current string; empty before the first one.
    pub fn string(&self) -> &[u8]
        ensures { result.now ≡ self.now.last }
    {
        self.iter.string()
    }

    /// Decodes the next string and returns its ID, or `None` at the end. If memory runs out, the iterator is unchanged.
    /// Takes time linear in the suffix of its entry.
    pub fn next(&mut self) -> Result<Option<u64>, AllocError>
        ensures id { IfOk result (λ r. r ≡ next_id self.old self.old.ahead) }
        ensures ok { OnOk result (self.new ≡ step_role_iter self.old) }
        ensures err { OnErr result (self.new ≡ self.old) }
        ensures ended { self.old.ahead ≡ [] → IsOk result }
    {
        let (id, _) = self.next_with_prefix_len()?;
        Ok(id)
    }

    /// Decodes the next string as [`next`](RoleIter::next) does. Returns also the prefix length of its entry, which is
    /// a lower bound on the common prefix with the previous string, or 0 at the end and for the first string of a
    /// section. Takes time linear in the suffix.
    pub fn next_with_prefix_len(&mut self) -> Result<(Option<u64>, usize), AllocError>
        ensures id { IfOk result (λ r. r.0 ≡ next_id self.old self.old.ahead) }
        ensures kept { IfOk result (λ r. r.1 ≤ lcp_len self.old.last self.new.last) }
        ensures ok { OnOk result (self.new ≡ step_role_iter self.old) }
        ensures err { OnErr result (self.new ≡ self.old) }
        ensures ended { self.old.ahead ≡ [] → IsOk result }
    {
        let (place, kept) = self.iter.next_with_prefix_len()?;
        if place.is_some() {
            self.given += 1;
            return Ok((Some(self.given), kept));
        }
        match self.second {
            None => Ok((None, 0)),
            Some(section) => {
                let mut iter = SectionIter::new(self.alloc, &section);
                if iter.next()?.is_none() {
                    return Ok((None, 0));
                }
                self.iter = iter;
                self.second = None;
                self.given += 1;
                Ok((Some(self.given), 0))
            }
        }
    }
}
