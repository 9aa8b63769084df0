//! Rewriting: the strings of an ascending run that a new section retains.
ghost use Rattle.std.specs.Prelude.{◌≡◌, ◌<◌, ◌≤◌, ◌+◌, List, ℕ, length, IsTrue, IsFalse, IfOk, OnOk};
ghost use Rattle.hdt_front.specs.WriterState.{last_string};
ghost use Rattle.hdt_front.specs.Order.{lcp_len};
ghost use Rattle.hdt_file.specs.Graph.{graph_view};
ghost use Rattle.hdt_build.specs.Inside.Rewriting.{section_role, IsProgressOf, IsAfterString, IsRunFrom};
ghost use Rattle.hdt_build.specs.Inside.Rewriting.{HasPrefixLength};
ghost use Rattle.hdt_dict.specs.Dictionary.{role_strings};

use crate::retained::{next_retained, section_role};
use hdt_dict::{RoleIter, SectionId};
use hdt_file::Graph;
use hdt_front::{SectionWriter, cmp_from};
use std::alloc::{AllocError, Global};

/// A cursor over the strings of a role, from one index up to another, that a new section retains. Other strings are
/// decoded only if a retained one follows. A complete run takes linear time in the front-coded bytes of its strings.
#[derive(Drop)]
pub(crate) struct SectionRun<'a> {
    strings: RoleIter<'a>,
    /// The index of the current string, or the end.
    pub(crate) at: u64,
    end: u64,
    /// The length of the longest common prefix of the current string and the string written last.
    pub(crate) lcp: usize,
}

/// Advances to the string with a greater ID; returns a lower bound of its common prefix with the previous one.
fn advance_to(strings: &mut RoleIter<'_>, id: u64) -> Result<usize, AllocError>
    requires { strings.old.given < id }
    ensures progress { OnOk result ((all : List (List ℕ)) → IsProgressOf all strings.old → id ≤ length all
        → IsAfterString all id strings.new) }
    ensures kept { IfOk result (λ k. k ≤ lcp_len strings.old.last strings.new.last) }
{
    let mut kept = strings.string().len();
    'strings: loop {
        let (given, next) = strings.next_with_prefix_len()?;
        let Some(given) = given else {
            return Ok(0);
        };
        kept = kept.min(next);
        if given == id {
            return Ok(kept);
        }
    }
}

impl<'a> SectionRun<'a> {
    ghost use Rattle.hdt_build.specs.Inside.Rewriting.{IsValidRun};

    /// The run from one index up to another, before anything is written.
    pub(crate) fn new(
        alloc: Global,
        graph: &Graph<'a>,
        section: SectionId,
        from: u64,
        end: u64,
    ) -> Result<SectionRun<'a>, AllocError>
        requires from { from ≤ end }
        requires within { end ≤ length (role_strings (graph_view graph.now).dictionary (section_role section)) }
        ensures run { IfOk result (λ run. IsRunFrom (graph_view graph.now) section from run) }
        ensures end { IfOk result (λ run. run.end ≡ end) }
        ensures lcp { IfOk result (λ run. run.lcp ≡ 0) }
    {
        let mut run = SectionRun {
            strings: graph.strings(alloc, section_role(section)),
            at: from,
            end,
            lcp: 0,
        };
        run.seek(graph, section, from)?;
        Ok(run)
    }

    /// Advances to the first retained string from an index on; returns a lower bound of its common prefix with the
    /// previous one.
    fn seek(
        &mut self,
        graph: &Graph<'_>,
        section: SectionId,
        from: u64,
    ) -> Result<usize, AllocError>
        requires progress { IsProgressOf (role_strings (graph_view graph.now).dictionary (section_role section))
            self.old.strings }
        requires before { self.old.strings.given ≤ from }
        requires from { from ≤ self.old.end }
        requires within { self.old.end
            ≤ length (role_strings (graph_view graph.now).dictionary (section_role section)) }
        ensures run { OnOk result (IsRunFrom (graph_view graph.now) section from self.new) }
        ensures end { OnOk result (self.new.end ≡ self.old.end) }
        ensures lcp { OnOk result (self.new.lcp ≡ self.old.lcp) }
        ensures kept { IfOk result (λ k. k ≤ lcp_len self.old.strings.last self.new.strings.last) }
    {
        self.at = next_retained(graph, section, from, self.end);
        if self.at < self.end {
            return advance_to(&mut self.strings, self.at + 1);
        }
        Ok(0)
    }

    /// Advances to the next string. The current one must be the string written last. Only bytes after the prefix that
    /// the entries share are compared.
    pub(crate) fn step(
        &mut self,
        graph: &Graph<'_>,
        section: SectionId,
        out: &SectionWriter,
    ) -> Result<(), AllocError>
        requires run { IsValidRun (graph_view graph.now) section self.old }
        requires there { self.old.at < self.old.end }
        requires written { last_string out.now ≡ self.old.strings.last }
        ensures run { OnOk result (IsRunFrom (graph_view graph.now) section (self.old.at + 1) self.new) }
        ensures end { OnOk result (self.new.end ≡ self.old.end) }
        ensures lcp { OnOk result (HasPrefixLength (last_string out.now) self.new) }
    {
        let kept = self.seek(graph, section, self.at + 1)?;
        self.lcp = cmp_from(out.last(), self.strings.string(), kept).1;
        Ok(())
    }

    /// Whether there is a current string.
    pub(crate) fn has_current(&self) -> bool
        ensures there { IsTrue result → self.now.at < self.now.end }
        ensures over { IsFalse result → self.now.end ≤ self.now.at }
    {
        self.at < self.end
    }

    /// The current string.
    pub(crate) fn string(&self) -> &[u8]
        ensures { result.now ≡ self.now.strings.last }
    {
        self.strings.string()
    }
}
