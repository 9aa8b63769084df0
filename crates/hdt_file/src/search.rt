//! Searching a graph, by IDs and by strings; skipping matches, and pages of matches.
ghost use Rattle.std.specs.Prelude.{◌≡◌, ◌↔◌, ◌≤◌, ◌<◌, ◌+◌, ◌-◌, ◌*◌, ◌^◌, ◌++◌, [], None, Some, IfErr, IfOk, IfSome};
ghost use Rattle.std.specs.Prelude.{IsTrue, OnErr, OnOk, drop, filter, length, min, take};
ghost use Rattle.hdt_triples.specs.Bounds.{counting_steps, most_steps, shorter_list_counting_steps, shorter_list_steps};
ghost use Rattle.hdt_triples.specs.Bounds.{start_cost};
ghost use Rattle.hdt_triples.specs.Remaining.{remaining_matches, step_limit, shorter_list_step_limit, steps_taken};
ghost use Rattle.hdt_triples.specs.Patterns.{matches};
ghost use Rattle.hdt_file.specs.CachedTerms.{CachesTerms};
ghost use Rattle.hdt_file.specs.Denoted.{denoted};
ghost use Rattle.hdt_file.specs.Graph.{graph_view, parts_of_graph};
ghost use Rattle.hdt_file.specs.Paging.{HasConsecutiveMatches, HasPositions, IsNextMatch};
ghost use Rattle.hdt_file.specs.Search.{IsPattern, pattern_steps};
ghost use Rattle.hdt_file.specs.StringTriples.{has_given_strings};
ghost use Rattle.hdt_file.specs.TextWriting.{AppendsText, ReportsFirstNonTerm, matches_if_given};

use crate::fault::DumpFault;
use crate::graph::Graph;
use crate::rendering::{append_first, append_triples};
use crate::term_writing::TermWriter;
use hdt_seq::Steps;
use hdt_triples::{Matches, Pattern};
use hdt_wire::truncate_on_error;
use std::alloc::{AllocError, Global};

/// Whether the matches of a pattern are consecutive triples: it gives nothing, a subject, or a subject and a predicate.
fn has_consecutive_matches(pattern: Pattern) -> bool
    ensures { IsTrue result ↔ HasConsecutiveMatches pattern }
{
    matches!(
        (pattern.s, pattern.p, pattern.o),
        (None, None, None) | (Some(_), _, None)
    )
}

/// The matches after the first `skip`, one by one.
#[tactic(auto, using(crate::proofs::SkippingLaws::drop_one))]
fn skip_matches(found: Matches<'_>, skip: u64) -> Matches<'_>
    ensures items { remaining_matches result ≡ drop skip (remaining_matches found.entry) }
    ensures few { step_limit result ≡ step_limit found.entry }
    ensures short { shorter_list_step_limit result ≡ shorter_list_step_limit found.entry }
{
    let mut matches = found;
    let mut left = skip;
    'skipped: while left != 0 {
        let Some(_) = matches.next() else {
            return matches;
        };
        left -= 1;
    }
    matches
}

#[tactic(auto, unfolding(crate::specs::Graph::graph_view, crate::specs::Graph::parts_of_graph))]
impl<'a> Graph<'a> {
    /// Returns the matches of a pattern: exactly the triples with each given ID, once each, in the order of the file.
    /// The clauses `few` and `short` bound its steps. It allocates nothing.
    pub fn search(&self, pattern: Pattern) -> Matches<'_>
        ensures items { remaining_matches result ≡ matches pattern (graph_view self.now).triples }
        ensures fits { length (remaining_matches result) < 2 ^ 64 }
        // The steps of this call and of all its items together are at most these.
        ensures few { step_limit result ≡ most_steps (parts_of_graph self.now).triples pattern }
        // They are also at most these, for a search in the shorter of two inverted lists.
        ensures short { shorter_list_step_limit result
            ≤ shorter_list_steps (parts_of_graph self.now).triples pattern }
    {
        self.triples.find(pattern)
    }

    /// The matches of a pattern, or none without a pattern.
    #[tactic(auto, unfolding(hdt_triples::specs::Remaining::remaining_matches))]
    pub(crate) fn search_if_given(&self, pattern: Option<Pattern>) -> Matches<'_>
        ensures items { remaining_matches result ≡ matches_if_given (graph_view self.now) pattern }
        ensures fits { length (remaining_matches result) < 2 ^ 64 }
    {
        match pattern {
            Some(pattern) => self.search(pattern),
            None => Matches::Empty,
        }
    }

    /// Returns the number of matches of a pattern, or `most` if there are more: with 1, whether there is a match. Its
    /// steps are those of [`Graph::matching`]; if it counts the matches one by one, it stops at `most`. It allocates
    /// nothing.
    pub fn matching_up_to(&self, pattern: Pattern, most: u64, steps: &mut Steps) -> u64
        ensures is { result ≡ min most (length (matches pattern (graph_view self.now).triples)) }
        // The steps are at most either of these two numbers.
        ensures cost { steps.new ≤ steps.old + counting_steps (parts_of_graph self.now).triples pattern }
        ensures short { steps.new
            ≤ steps.old + shorter_list_counting_steps (parts_of_graph self.now).triples most pattern }
        ensures more { steps.old ≤ steps.new }
    {
        self.triples.matching_up_to(pattern, most, steps)
    }

    /// Returns the number of matches of a pattern. Its steps don't grow with the matches if nothing is given, or a
    /// subject, a subject and a predicate, or only an object; with a subject and an object they grow with the logarithm
    /// of the object's triples. It allocates nothing.
    pub fn matching(&self, pattern: Pattern, steps: &mut Steps) -> u64
        ensures is { result ≡ length (matches pattern (graph_view self.now).triples) }
        // The steps are at most either of these two numbers.
        ensures cost { steps.new ≤ steps.old + counting_steps (parts_of_graph self.now).triples pattern }
        ensures short { steps.new
            ≤ steps.old + shorter_list_counting_steps (parts_of_graph self.now).triples (2 ^ 64 - 1) pattern }
        ensures more { steps.old ≤ steps.new }
    {
        self.triples.matching(pattern, steps)
    }

    /// Returns the pattern with the IDs of the given strings, each in its role, or `None` if one of them is not a
    /// string of its role. Each is searched once.
    pub fn pattern(&self, given: [Option<&[u8]>; 3], steps: &mut Steps) -> Option<Pattern>
        // It is p if and only if p has the IDs of the given strings.
        ensures exact { (p : Pattern) → (result ≡ Some p) ↔ IsPattern (graph_view self.now) given.entry p }
        ensures cost { steps.new ≤ steps.old + pattern_steps (parts_of_graph self.now).dictionary given.entry }
        ensures more { steps.old ≤ steps.new }
    {
        self.layout().pattern(given, steps)
    }

    /// Returns the triples that have each given string in its role, as [`Graph::search`] does; there are none if a
    /// string is not one of its role. It allocates nothing.
    #[tactic(auto, unfolding(crate::specs::Graph::graph_view, crate::specs::Graph::parts_of_graph, hdt_triples::specs::Remaining::remaining_matches, hdt_triples::specs::Remaining::step_limit, hdt_triples::specs::Remaining::shorter_list_step_limit))]
    pub fn find(&self, given: [Option<&[u8]>; 3], steps: &mut Steps) -> Matches<'_>
        // As triples of strings: exactly those of the denoted graph that have each given string in its role, in order.
        ensures answers { denoted (graph_view self.now) (remaining_matches result)
            ≡ filter (has_given_strings given.entry) (denoted (graph_view self.now) (graph_view self.now).triples) }
        // They are the matches of the pattern of the given strings.
        ensures items { (p : Pattern) → IsPattern (graph_view self.now) given.entry p
            → remaining_matches result ≡ matches p (graph_view self.now).triples }
        // If a string is not one of its role, there are none.
        ensures none { ((p : Pattern) → IsPattern (graph_view self.now) given.entry p → ⊥)
            → remaining_matches result ≡ [] }
        ensures fits { length (remaining_matches result) < 2 ^ 64 }
        ensures cost { steps.new ≤ steps.old + pattern_steps (parts_of_graph self.now).dictionary given.entry }
        // The steps of the items are at most those of `search`, not counting those of the look-ups.
        ensures few { (p : Pattern) → IsPattern (graph_view self.now) given.entry p
            → step_limit result ≡ most_steps (parts_of_graph self.now).triples p }
        ensures short { (p : Pattern) → IsPattern (graph_view self.now) given.entry p
            → shorter_list_step_limit result ≤ shorter_list_steps (parts_of_graph self.now).triples p }
        ensures idle { ((p : Pattern) → IsPattern (graph_view self.now) given.entry p → ⊥) → step_limit result ≡ 0 }
        ensures more { steps.old ≤ steps.new }
    {
        self.is_graph();
        match self.pattern(given, steps) {
            Some(pattern) => self.search(pattern),
            None => Matches::Empty,
        }
    }

    /// Returns the matches of a pattern from triple `from` on, from 0, in the order of the file: those of
    /// [`Graph::search`] without the ones before it. From the number of triples on there are none. It finds the first
    /// one by binary search and allocates nothing.
    pub fn search_from(&self, pattern: Pattern, from: u64, steps: &mut Steps) -> Matches<'_>
        ensures items { remaining_matches result ≡ matches pattern (drop from (graph_view self.now).triples) }
        ensures fits { length (remaining_matches result) < 2 ^ 64 }
        // The steps of all items together are at most those of `search`,
        ensures few { step_limit result ≤ most_steps (parts_of_graph self.now).triples pattern }
        ensures short { shorter_list_step_limit result
            ≤ shorter_list_steps (parts_of_graph self.now).triples pattern }
        // none of which is taken yet,
        ensures fresh { steps_taken result ≡ 0 }
        // and those of this call at most these.
        ensures cost { steps.new ≤ steps.old + start_cost (parts_of_graph self.now).triples }
        ensures more { steps.old ≤ steps.new }
    {
        self.triples.find_from(pattern, from, steps)
    }

    /// The index of the first match, from 0.
    fn first_match(&self, pattern: Pattern, steps: &mut Steps) -> Option<u64>
        ensures is { IfSome result (IsNextMatch (graph_view self.now).triples pattern 0 0) }
        ensures none { result ≡ None → matches pattern (graph_view self.now).triples ≡ [] }
        ensures cost { steps.new ≤ steps.old + start_cost (parts_of_graph self.now).triples }
        ensures more { steps.old ≤ steps.new }
    {
        let triple = self.search(pattern).next()?;
        self.triples.indexed().index_of(triple, steps)
    }

    /// The matches after the first `skip`, if all of them are consecutive.
    fn search_at(&self, pattern: Pattern, skip: u64, steps: &mut Steps) -> Matches<'_>
        requires { HasConsecutiveMatches pattern }
        ensures items { remaining_matches result ≡ drop skip (matches pattern (graph_view self.now).triples) }
        ensures fits { length (remaining_matches result) < 2 ^ 64 }
        ensures few { step_limit result ≤ most_steps (parts_of_graph self.now).triples pattern }
        ensures short { shorter_list_step_limit result
            ≤ shorter_list_steps (parts_of_graph self.now).triples pattern }
        ensures fresh { steps_taken result ≡ 0 }
        ensures cost { steps.new ≤ steps.old + 2 * start_cost (parts_of_graph self.now).triples }
        ensures more { steps.old ≤ steps.new }
    {
        self.is_graph();
        let len = self.len();
        let Some(first) = self.first_match(pattern, steps) else {
            return self.search_from(pattern, len, steps);
        };
        if skip >= len - first {
            return self.search_from(pattern, len, steps);
        }
        self.search_from(pattern, first + skip, steps)
    }

    /// Returns the matches of a pattern after the first `skip`: those of [`Graph::search`] without them. It allocates
    /// nothing.
    ///
    /// If the pattern gives nothing, a subject, a subject and a predicate, or only an object, it takes no steps for the
    /// skipped ones, whatever `skip` is: consecutive triples are reached by two binary searches, those of an object by
    /// its list. With another pattern it iterates over them: where pages follow one another, [`Graph::page`] does not.
    pub fn search_after(&self, pattern: Pattern, skip: u64, steps: &mut Steps) -> Matches<'_>
        ensures items { remaining_matches result ≡ drop skip (matches pattern (graph_view self.now).triples) }
        ensures fits { length (remaining_matches result) < 2 ^ 64 }
        // The steps of all matches together, including those of the skipped ones, are at most those of `search`,
        ensures few { step_limit result ≤ most_steps (parts_of_graph self.now).triples pattern }
        ensures short { shorter_list_step_limit result
            ≤ shorter_list_steps (parts_of_graph self.now).triples pattern }
        // and those of this call at most these.
        ensures cost { steps.new ≤ steps.old + 2 * start_cost (parts_of_graph self.now).triples }
        // If each match has a position, none of the former are taken yet: the skipped ones take no steps.
        ensures jumps { 0 < skip → HasPositions pattern → steps_taken result ≡ 0 }
        ensures more { steps.old ≤ steps.new }
    {
        if let (None, None, Some(object)) = (pattern.s, pattern.p, pattern.o) {
            return self.triples.find_object_after(object, skip, steps);
        }
        if skip > 0 && has_consecutive_matches(pattern) {
            return self.search_at(pattern, skip, steps);
        }
        skip_matches(self.search(pattern), skip)
    }

    /// Appends the first `most` matches of a pattern from triple `from` on, from 0, to `out`. Returns the index of the
    /// next match, from which the next page continues, or `None` if there is none. If memory runs out, `out` is
    /// unchanged.
    ///
    /// The steps are those of two binary searches, for the first match and for the next one. Those of the items, which
    /// are at most those of [`Graph::search_from`], are not counted.
    ///
    /// ```rust
    /// let mut from = Some(0);
    /// while let Some(at) = from {
    ///     page.clear();
    ///     from = graph.page(pattern, at, 100, &mut page, &mut steps)?;
    /// }
    /// ```
    pub fn page(
        &self,
        pattern: Pattern,
        from: u64,
        most: u64,
        out: &mut Vec<(u64, u64, u64)>,
        steps: &mut Steps,
    ) -> Result<Option<u64>, AllocError>
        ensures ok { IfOk result (λ next. out.new.items
            ≡ out.old.items ++ take most (matches pattern (drop from (graph_view self.now).triples))) }
        ensures next { IfOk result (λ next. IfSome next (IsNextMatch (graph_view self.now).triples pattern from most)) }
        // Without a next match all are appended.
        ensures last { IfOk result (λ next. next ≡ None
            → drop most (matches pattern (drop from (graph_view self.now).triples)) ≡ []) }
        ensures err { OnErr result (out.new.items ≡ out.old.items) }
        ensures cost { steps.new ≤ steps.old + 2 * start_cost (parts_of_graph self.now).triples }
        ensures more { steps.old ≤ steps.new }
    {
        let mut matches = self.search_from(pattern, from, steps);
        append_first(&mut matches, most, out)?;
        let Some(triple) = matches.next() else {
            return Ok(None);
        };
        Ok(self.triples.indexed().index_of(triple, steps))
    }

    /// Appends the N-Triples text of [`Graph::page`] to `out`: one line for each of the first `most` matches of a
    /// pattern from triple `from` on, from 0. Returns the index of the next match, or `None` if there is none. The
    /// writer is new or was used only for this graph, as for [`append_graph_text`](crate::append_graph_text).
    ///
    /// The steps are those of [`Graph::page`]. Those of the text are not counted: its time is linear in the page, its
    /// text and the blocks of its strings, or in the dictionary if that is less. Memory is that of the page and, for a
    /// page that decodes the dictionary, one byte for each string.
    ///
    /// # Errors
    ///
    /// [`DumpFault::NotATerm`] with the first string of the first match of the page that is not a term which its role
    /// allows; [`DumpFault::OutOfMemory`]. Then `out` is unchanged, and the writer can still be used.
    ///
    /// ```rust
    /// let mut term_writer = TermWriter::with_cache(alloc)?;
    /// let next = graph.page_text(alloc, pattern, 0, 100, &mut term_writer, &mut text, &mut steps)?;
    /// ```
    #[tactic(auto)]
    pub fn page_text(
        &self,
        alloc: Global,
        pattern: Pattern,
        from: u64,
        most: u64,
        term_writer: &mut TermWriter,
        out: &mut Vec<u8>,
        steps: &mut Steps,
    ) -> Result<Option<u64>, DumpFault>
        // Before and after the call, the writer caches terms of this graph only.
        requires { CachesTerms (graph_view self.now) term_writer.old }
        ensures kept { CachesTerms (graph_view self.now) term_writer.new }
        ensures ok { OnOk result (AppendsText (graph_view self.now)
            (take most (matches pattern (drop from (graph_view self.now).triples))) out.old.items out.new.items) }
        ensures next { IfOk result (λ next. IfSome next (IsNextMatch (graph_view self.now).triples pattern from most)) }
        // Without a next match the text is that of all.
        ensures last { IfOk result (λ next. next ≡ None
            → drop most (matches pattern (drop from (graph_view self.now).triples)) ≡ []) }
        ensures err { IfErr result
            (ReportsFirstNonTerm (graph_view self.now)
            (take most (matches pattern (drop from (graph_view self.now).triples)))) }
        ensures left { OnErr result (out.new.items ≡ out.old.items) }
        ensures cost { steps.new ≤ steps.old + 2 * start_cost (parts_of_graph self.now).triples }
        ensures more { steps.old ≤ steps.new }
    {
        let mut page = Vec::new(alloc);
        let next = self.page(pattern, from, most, &mut page, steps)?;
        let start = out.len();
        let appended = append_triples(alloc, &self.layout(), &page, term_writer, out);
        truncate_on_error(appended, start, out)?;
        Ok(next)
    }
}
