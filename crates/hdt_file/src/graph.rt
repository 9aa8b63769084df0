//! The graph of a file.
ghost use Rattle.std.specs.Prelude.{◌≡◌, ℕ, length, IfOk};
ghost use Rattle.hdt_dict.specs.Dictionary.{lists_of_dictionary};
ghost use Rattle.hdt_dict.specs.Views.{dictionary_of};
ghost use Rattle.hdt_triples.specs.IndexViews.{string_counts, triples_listed};
ghost use Rattle.hdt_file.specs.File.{role_counts};

use crate::head::Head;
use crate::layout::Layout;
use hdt_dict::{Dictionary, PrefixRanges, Role, RoleIter};
use hdt_seq::Steps;
use hdt_triples::ListedTriples;
use std::alloc::{AllocError, Global};

/// An open file. It borrows the input, and keeps only the indexes of its triples, which are [`Graph::held`] `u64`
/// values. `crates/example` is a program that uses it.
///
/// ```rust
/// let graph = open(alloc, bytes)?;
/// let mut steps = Steps::new();
/// let id = graph.number_of(Role::Object, b"\"x\"", &mut steps);
/// let pattern = graph.pattern([Some(b"u:a"), None, None], &mut steps);
/// write_graph(alloc, &graph, pattern, &mut Counted::new(writer))?;
/// ```
#[derive(Drop)]
pub struct Graph<'a> {
    pub(crate) head: Head<'a>,
    pub(crate) dictionary: Dictionary<'a>,
    pub(crate) triples: ListedTriples<'a>,
    ghost roles: { string_counts (triples_listed triples)
        ≡ role_counts (lists_of_dictionary (dictionary_of dictionary)) },
}

#[tactic(auto, unfolding(crate::specs::Graph::graph_view, crate::specs::Graph::parts_of_graph))]
impl<'a> Graph<'a> {
    ghost use Rattle.std.specs.Prelude.{◌∷◌, ◌↔◌, ◌≤◌, ◌+◌, ◌*◌, [], Some, None, IsOk, OnErr, IsTrue};
    ghost use Rattle.hdt_dict.specs.StringBatch.{AppendsAll, AreIds, AscendTo};
    ghost use Rattle.hdt_dict.specs.Ids.{string_at_id, AppendsString};
    ghost use Rattle.hdt_dict.specs.Prefixes.{IsInRanges, RangesAscend, SomeBeginsWith};
    ghost use Rattle.hdt_triples.specs.Uses.{Uses};
    ghost use Rattle.hdt_file.specs.Graph.{IsGraph, layout_view, parts_held, parts_of_graph};
    ghost use Rattle.hdt_file.specs.Graph.{parts_of_layout, graph_view};
    ghost use Rattle.hdt_dict.specs.Cost.{role_decode_cost, role_search_cost};
    ghost use Rattle.hdt_dict.specs.Dictionary.{role_strings};

    /// A law: this is the graph of a valid file. The strings of each section are UTF-8 without zero bytes and strictly
    /// ascend; no string is in two of shared, subjects and objects; there is at least one triple; the triples strictly
    /// ascend; each ID is that of a string of its role.
    pub fn is_graph(&self)
        ensures { IsGraph (graph_view self.now) }
    {
        self.dictionary.sections_are_valid();
    }

    /// Returns the header body, borrowed from the input: N-Triples about the file, which are not parsed.
    pub fn header(&self) -> &'a [u8]
        ensures { result.now ≡ (graph_view self.now).header }
    {
        self.head.body()
    }

    /// Returns the same file without indexes.
    #[tactic(auto, unfolding(crate::specs::Graph::graph_view, crate::specs::Graph::layout_view, crate::specs::Graph::parts_of_graph, crate::specs::Graph::parts_of_layout))]
    pub fn layout(&self) -> Layout<'a>
        ensures seen { layout_view result ≡ graph_view self.now }
        ensures parts { parts_of_layout result ≡ parts_of_graph self.now }
    {
        Layout {
            head: self.head,
            dictionary: self.dictionary,
            triples: *self.triples.triples(),
        }
    }

    /// Returns the number of triples.
    pub fn len(&self) -> u64
        ensures { result ≡ length (graph_view self.now).triples }
    {
        self.triples.triples().len()
    }

    /// Returns the number of strings of each section: shared, subjects, predicates, objects.
    #[tactic(auto, unfolding(crate::specs::Graph::graph_view, crate::specs::Graph::parts_of_graph, hdt_dict::specs::Views::dictionary_of))]
    pub fn section_lens(&self) -> [u64; 4]
        ensures { result ≡ length (graph_view self.now).dictionary.shared
            ∷ length (graph_view self.now).dictionary.subjects ∷ length (graph_view self.now).dictionary.predicates
            ∷ length (graph_view self.now).dictionary.objects ∷ [] }
    {
        self.dictionary.section_lens()
    }

    /// Returns the number of `u64` values that the graph keeps in memory, besides the input.
    pub fn held(&self) -> u128
        ensures { result ≡ parts_held (parts_of_graph self.now) }
    {
        // (The pattern names every field, so a new one doesn't compile until it is counted here.)
        let Graph {
            head,
            dictionary,
            triples,
        } = self;
        let _head: &Head<'a> = head;
        let _dictionary: &Dictionary<'a> = dictionary;
        let triples: &ListedTriples<'a> = triples;
        triples.held()
    }

    /// Returns the number of strings of a role. Their IDs are 1 to this number.
    pub fn count(&self, role: Role) -> u64
        ensures { result ≡ length (role_strings (graph_view self.now).dictionary role) }
    {
        self.dictionary.count(role)
    }

    /// Returns a cursor over the strings of a role, in the order of their IDs. Each is decoded once.
    pub fn strings(&self, alloc: Global, role: Role) -> RoleIter<'a>
        ensures { result ≡ record { given = 0; last = []; ahead = role_strings (graph_view self.now).dictionary role } }
    {
        self.dictionary.strings(alloc, role)
    }

    /// Returns whether a triple has the ID n, from 1, in the role, in at most two steps.
    pub fn uses(&self, role: Role, n: u64, steps: &mut Steps) -> bool
        ensures exact { IsTrue result ↔ Uses (graph_view self.now).triples role n }
        ensures cost { steps.new ≤ steps.old + 2 }
    {
        self.triples.uses(role, n, steps)
    }

    /// Returns the ID of a string in a role, from 1, or `None` if the role has no such string. It costs a binary search
    /// over the blocks of the role's sections and a scan of one block of each.
    pub fn number_of(&self, role: Role, x: &[u8], steps: &mut Steps) -> Option<u64>
        ensures exact { (n : ℕ) → (result ≡ Some n)
            ↔ (string_at_id (role_strings (graph_view self.now).dictionary role) n ≡ Some x.now) }
        ensures cost { steps.new ≤ steps.old + role_search_cost (parts_of_graph self.now).dictionary role }
        ensures more { steps.old ≤ steps.new }
    {
        self.dictionary.number_of(role, x, steps)
    }

    /// Returns the IDs, from 1, of the strings of a role that begin with a prefix, which may be any bytes: all IDs if
    /// it is empty. It takes at most twice the steps of [`Graph::number_of`], and allocates nothing.
    pub fn ids_with_prefix(&self, role: Role, prefix: &[u8], steps: &mut Steps) -> PrefixRanges
        // An ID is in one of the ranges exactly if its string begins with the prefix.
        ensures exact { (n : ℕ) → IsInRanges result n
            ↔ SomeBeginsWith prefix.now (string_at_id (role_strings (graph_view self.now).dictionary role) n) }
        ensures ascend { RangesAscend result (length (role_strings (graph_view self.now).dictionary role)) }
        ensures cost { steps.new ≤ steps.old + 2 * role_search_cost (parts_of_graph self.now).dictionary role }
        ensures more { steps.old ≤ steps.new }
    {
        self.dictionary.ids_with_prefix(role, prefix, steps)
    }

    /// Appends the string of a role with ID n, from 1, and returns true; or returns false if there is none, with `out`
    /// unchanged. If memory runs out, `out` is unchanged. It decodes the block of the string up to the string.
    pub fn string_of(
        &self,
        role: Role,
        n: u64,
        out: &mut Vec<u8>,
        steps: &mut Steps,
    ) -> Result<bool, AllocError>
        ensures ok { IfOk result (λ appended. AppendsString
            (string_at_id (role_strings (graph_view self.now).dictionary role) n) appended
            out.old.items out.new.items) }
        ensures err { OnErr result (out.new.items ≡ out.old.items) }
        ensures cost { steps.new ≤ steps.old + role_decode_cost (parts_of_graph self.now).dictionary role }
        ensures absent { string_at_id (role_strings (graph_view self.now).dictionary role) n ≡ None → IsOk result }
        ensures more { steps.old ≤ steps.new }
    {
        self.dictionary.string_of(role, n, out, steps)
    }

    /// Appends the strings of a role with these IDs, from 1, to `out`, and the byte offset in `out` at which each ends
    /// to `ends`. Returns true; or false if one of the IDs is 0 or greater than [`count`](Graph::count), with `out` and
    /// `ends` unchanged. If memory runs out, both are unchanged.
    ///
    /// Each string takes at most as many steps as [`string_of`](Graph::string_of). If the IDs ascend (duplicates
    /// allowed), each block is decoded once, and all strings together take at most as many steps as the last ID.
    pub fn strings_of(
        &self,
        alloc: Global,
        role: Role,
        numbers: &[u64],
        out: &mut Vec<u8>,
        ends: &mut Vec<u64>,
        steps: &mut Steps,
    ) -> Result<bool, AllocError>
        ensures ok { IfOk result (λ all. AppendsAll (role_strings (graph_view self.now).dictionary role) numbers.now all
            out.old.items out.new.items ends.old.items ends.new.items) }
        ensures err { OnErr result ((out.new.items ≡ out.old.items) × (ends.new.items ≡ ends.old.items)) }
        ensures cost { steps.new ≤ steps.old + length numbers.now * role_decode_cost
            (parts_of_graph self.now).dictionary role }
        ensures once { (n : ℕ) → AscendTo numbers.now n → steps.new ≤ steps.old + n }
        ensures more { steps.old ≤ steps.new }
        ensures absent { (AreIds (role_strings (graph_view self.now).dictionary role) numbers.now → ⊥) → IsOk result }
    {
        self.dictionary
            .strings_by_id(alloc, role, numbers, out, ends, steps)
    }
}
