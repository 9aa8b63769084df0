//! A file without indexes.
ghost use Rattle.std.specs.Prelude.{◌≡◌, ℕ, length, IfOk, Ok};
ghost use Rattle.hdt_dict.specs.Dictionary.{lists_of_dictionary};
ghost use Rattle.hdt_dict.specs.Views.{dictionary_of};
ghost use Rattle.hdt_triples.specs.IndexViews.{string_counts};
ghost use Rattle.hdt_file.specs.File.{role_counts};

use crate::fault::OpenFault;
use crate::head::{Head, read_head};
use hdt_dict::{Dictionary, PrefixRanges, Role, RoleIter, RoleSeeker};
use hdt_seq::Steps;
use hdt_triples::{Counts, Matches, Pattern, Triples};
use hdt_wire::{Reason, demand};
use std::alloc::{AllocError, Global};

/// A file that was read, without indexes. It borrows the input and keeps nothing else, so copies are cheap. Its calls
/// return the same as those of a [`crate::Graph`], but a search scans all triples. This is faster for a single request,
/// as no index is built; for more, open the file ([`crate::open`]).
///
/// ```rust
/// let layout = Layout::read(alloc, bytes)?;
/// let subjects = layout.count(Role::Subject);
/// let pattern = layout.pattern([Some(b"u:a"), None, None], &mut Steps::new());
/// let text = layout_text(alloc, &layout, pattern, None)?;
/// ```
#[derive(Clone, Copy)]
pub struct Layout<'a> {
    pub(crate) head: Head<'a>,
    pub(crate) dictionary: Dictionary<'a>,
    pub(crate) triples: Triples<'a>,
    ghost roles: { string_counts triples ≡ role_counts (lists_of_dictionary (dictionary_of dictionary)) },
}

/// The number of strings of each role of a dictionary.
fn role_counts(dictionary: &Dictionary<'_>) -> Counts
    ensures { result ≡ role_counts (lists_of_dictionary (dictionary_of dictionary.now)) }
{
    Counts {
        subjects: dictionary.count(Role::Subject),
        predicates: dictionary.count(Role::Predicate),
        objects: dictionary.count(Role::Object),
    }
}

#[tactic(auto, unfolding(crate::specs::Graph::layout_view, crate::specs::Graph::parts_of_layout))]
impl<'a> Layout<'a> {
    ghost use Rattle.std.specs.Prelude.{◌↔◌, ◌≤◌, ◌<◌, ◌+◌, ◌*◌, ◌^◌, [], Option, Some, None, IsOk, OnErr, min};
    ghost use Rattle.hdt_wire.specs.Checks.{ReadsUnlessOom};
    ghost use Rattle.hdt_dict.specs.Ids.{string_at_id, AppendsString};
    ghost use Rattle.hdt_dict.specs.Prefixes.{IsInRanges, RangesAscend, SomeBeginsWith};
    ghost use Rattle.hdt_triples.specs.Bounds.{scan_steps};
    ghost use Rattle.hdt_triples.specs.Remaining.{remaining_matches, step_limit};
    ghost use Rattle.hdt_triples.specs.Patterns.{matches};
    ghost use Rattle.hdt_file.specs.Faults.{open_fault_of};
    ghost use Rattle.hdt_file.specs.File.{GraphParts, IsLayout, decode_file, decode_graph};
    ghost use Rattle.hdt_file.specs.Graph.{layout_view, parts_of_layout};
    ghost use Rattle.hdt_file.specs.Graph.{graph_counts};
    ghost use Rattle.hdt_dict.specs.Cost.{role_decode_cost, role_search_cost};
    ghost use Rattle.hdt_file.specs.Search.{IsPatternPart, IsPattern, pattern_steps, part_steps};
    ghost use Rattle.hdt_file.specs.TextWriting.{matches_if_given};
    ghost use Rattle.hdt_dict.specs.Dictionary.{role_strings};

    /// Reads a file, one check after another.
    #[tactic(auto, unfolding(crate::specs::File::decode_file, crate::specs::Graph::parts_of_layout))]
    fn read_by_checks(alloc: Global, bytes: &'a [u8]) -> Result<Layout<'a>, OpenFault>
        ensures { ReadsUnlessOom open_fault_of parts_of_layout result (decode_file bytes.now) }
    {
        let head = read_head(bytes)?;
        let (dictionary, at) = Dictionary::read(alloc, bytes, head.end())?;
        let (triples, end) = Triples::read(bytes, at, role_counts(&dictionary))?;
        demand(end == bytes.len(), end, Reason::TrailingBytes)?;
        Ok(Layout {
            head,
            dictionary,
            triples,
        })
    }

    /// Reads a file, or returns its first error, as [`crate::open`] does. Linear time in the bytes. It allocates only
    /// while it runs.
    pub fn read(alloc: Global, bytes: &'a [u8]) -> Result<Layout<'a>, OpenFault>
        // The bytes encode the graph that is returned.
        ensures found { IfOk result (λ layout. IsLayout bytes.now (layout_view layout)) }
        // If the bytes encode a graph, it is returned, unless memory ran out.
        ensures only { (graph : GraphParts) → IsLayout bytes.now graph
            → ReadsUnlessOom open_fault_of layout_view result (Ok graph) }
        // Otherwise it is the first error.
        ensures exact { ReadsUnlessOom open_fault_of layout_view result (decode_graph bytes.now) }
        // Its parts are those that the bytes encode.
        ensures parts { ReadsUnlessOom open_fault_of parts_of_layout result (decode_file bytes.now) }
    {
        Layout::read_by_checks(alloc, bytes)
    }

    /// Returns the number of triples, and of the strings of each section: shared, subjects, predicates, objects.
    #[tactic(auto, unfolding(crate::specs::Graph::layout_view, crate::specs::Graph::parts_of_layout, hdt_dict::specs::Views::dictionary_of))]
    pub fn lens(&self) -> [u64; 5]
        ensures { result ≡ graph_counts (layout_view self.now) }
    {
        let [shared, subjects, predicates, objects] = self.dictionary.section_lens();
        [self.triples.len(), shared, subjects, predicates, objects]
    }

    /// Returns the number of strings of a role. Their IDs are 1 to this number.
    pub fn count(&self, role: Role) -> u64
        ensures { result ≡ length (role_strings (layout_view self.now).dictionary role) }
    {
        self.dictionary.count(role)
    }

    /// Returns a cursor over the strings of a role, in the order of their IDs. Each is decoded once.
    pub fn strings(&self, alloc: Global, role: Role) -> RoleIter<'a>
        ensures { result ≡ record {
          given = 0;
          last = [];
          ahead =
              role_strings (layout_view self.now).dictionary role;
        } }
    {
        self.dictionary.strings(alloc, role)
    }

    /// Returns a cursor with random access to the strings of a role, which decodes each block once if the IDs ascend.
    pub fn seeker(&self, alloc: Global, role: Role) -> RoleSeeker<'a>
        ensures { result ≡ role_strings (layout_view self.now).dictionary role }
    {
        self.dictionary.seeker(alloc, role)
    }

    /// Returns the ID of a string in a role, from 1, or `None` if the role has no such string. It costs a binary search
    /// over the blocks of the role's sections and a scan of one block of each.
    pub fn number_of(&self, role: Role, x: &[u8], steps: &mut Steps) -> Option<u64>
        ensures exact { (n : ℕ) → (result ≡ Some n)
            ↔ (string_at_id (role_strings (layout_view self.now).dictionary role) n ≡ Some x.now) }
        ensures cost { steps.new ≤ steps.old + role_search_cost (parts_of_layout self.now).dictionary role }
        ensures more { steps.old ≤ steps.new }
    {
        self.dictionary.number_of(role, x, steps)
    }

    /// Returns the IDs, from 1, of the strings of a role that begin with a prefix, which may be any bytes: all IDs if
    /// it is empty. It takes at most twice the steps of [`Layout::number_of`], and allocates nothing.
    pub fn ids_with_prefix(&self, role: Role, prefix: &[u8], steps: &mut Steps) -> PrefixRanges
        // An ID is in one of the ranges exactly if its string begins with the prefix.
        ensures exact { (n : ℕ) → IsInRanges result n
            ↔ SomeBeginsWith prefix.now (string_at_id (role_strings (layout_view self.now).dictionary role) n) }
        ensures ascend { RangesAscend result (length (role_strings (layout_view self.now).dictionary role)) }
        ensures cost { steps.new ≤ steps.old + 2 * role_search_cost (parts_of_layout self.now).dictionary role }
        ensures more { steps.old ≤ steps.new }
    {
        self.dictionary.ids_with_prefix(role, prefix, steps)
    }

    /// Appends the string of a role with ID n, from 1, and returns true; or returns false if there is none, with `out`
    /// unchanged. If memory runs out, `out` is unchanged. It decodes the block of the string up to the string.
    pub fn string_of(
        &self,
        role: Role,
        n: u64,
        out: &mut Vec<u8>,
        steps: &mut Steps,
    ) -> Result<bool, AllocError>
        ensures ok { IfOk result (λ appended. AppendsString
            (string_at_id (role_strings (layout_view self.now).dictionary role) n) appended
            out.old.items out.new.items) }
        ensures err { OnErr result (out.new.items ≡ out.old.items) }
        ensures cost { steps.new ≤ steps.old + role_decode_cost (parts_of_layout self.now).dictionary role }
        ensures absent { string_at_id (role_strings (layout_view self.now).dictionary role) n ≡ None → IsOk result }
        ensures more { steps.old ≤ steps.new }
    {
        self.dictionary.string_of(role, n, out, steps)
    }

    /// The ID of the given string in a role, or `Some(None)` (any ID) without one; `None` if the role has no such
    /// string.
    fn part(&self, role: Role, given: Option<&[u8]>, steps: &mut Steps) -> Option<Option<u64>>
        ensures exact { (n : Option ℕ) → (result ≡ Some n)
            ↔ IsPatternPart (role_strings (layout_view self.now).dictionary role) given.entry n }
        ensures cost { steps.new ≤ steps.old + part_steps
            (parts_of_layout self.now).dictionary role given.entry }
        ensures more { steps.old ≤ steps.new }
    {
        match given {
            None => Some(None),
            Some(x) => Some(Some(self.number_of(role, x, steps)?)),
        }
    }

    /// Returns the pattern with the IDs of the given strings, each in its role, or `None` if one of them is not a
    /// string of its role. Each is searched once.
    pub fn pattern(&self, given: [Option<&[u8]>; 3], steps: &mut Steps) -> Option<Pattern>
        // It is p if and only if p has the IDs of the given strings.
        ensures exact { (p : Pattern) → (result ≡ Some p) ↔ IsPattern (layout_view self.now) given.entry p }
        ensures cost { steps.new ≤ steps.old + pattern_steps (parts_of_layout self.now).dictionary given.entry }
        ensures more { steps.old ≤ steps.new }
    {
        let [s, p, o] = given;
        Some(Pattern {
            s: self.part(Role::Subject, s, steps)?,
            p: self.part(Role::Predicate, p, steps)?,
            o: self.part(Role::Object, o, steps)?,
        })
    }

    /// Returns the matches of a pattern: exactly the triples with each given ID, once each, in the order of the file.
    /// It scans all triples, in at most four steps each, and allocates nothing.
    pub fn search(&self, pattern: Pattern) -> Matches<'a>
        ensures items { remaining_matches result ≡ matches pattern (layout_view self.now).triples }
        ensures fits { length (remaining_matches result) < 2 ^ 64 }
        // The steps of this call and of all its items are at most this.
        ensures few { step_limit result ≡ 4 * length (layout_view self.now).triples }
    {
        self.triples.find(pattern)
    }

    /// The matches of a pattern, or none without a pattern.
    #[tactic(auto, unfolding(hdt_triples::specs::Remaining::remaining_matches))]
    pub(crate) fn search_if_given(&self, pattern: Option<Pattern>) -> Matches<'a>
        ensures items { remaining_matches result ≡ matches_if_given (layout_view self.now) pattern }
        ensures fits { length (remaining_matches result) < 2 ^ 64 }
    {
        match pattern {
            Some(pattern) => self.search(pattern),
            None => Matches::Empty,
        }
    }

    /// Returns the number of matches of a pattern, or `most` if there are more. It scans the triples, in at most four
    /// steps each, until `most` are counted, unless nothing is given. It allocates nothing.
    pub fn matching_up_to(&self, pattern: Pattern, most: u64, steps: &mut Steps) -> u64
        ensures is { result ≡ min most (length (matches pattern (layout_view self.now).triples)) }
        ensures cost { steps.new ≤ steps.old + scan_steps (parts_of_layout self.now).triples pattern }
        ensures more { steps.old ≤ steps.new }
    {
        self.triples.matching_up_to(pattern, most, steps)
    }

    /// Returns the number of matches of a pattern. It scans all triples, in at most four steps each, unless nothing is
    /// given. It allocates nothing.
    pub fn matching(&self, pattern: Pattern, steps: &mut Steps) -> u64
        ensures is { result ≡ length (matches pattern (layout_view self.now).triples) }
        ensures cost { steps.new ≤ steps.old + scan_steps (parts_of_layout self.now).triples pattern }
        ensures more { steps.old ≤ steps.new }
    {
        self.triples.matching(pattern, steps)
    }
}
