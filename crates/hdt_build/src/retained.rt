//! Rewriting: the strings of a graph that each new section retains.
ghost use Rattle.std.specs.Prelude.{◌≡◌, ◌<◌, ◌≤◌, ◌+◌, ◌↔◌, ℕ, IsTrue};
ghost use Rattle.hdt_file.specs.Graph.{graph_view};
ghost use Rattle.hdt_build.specs.Inside.Rewriting.{section_role, IsUsedInBoth, RetainsId, first_run_end};
ghost use Rattle.hdt_build.specs.Inside.Rewriting.{second_run_end};

use hdt_dict::{Role, SectionId};
use hdt_file::Graph;
use hdt_seq::Steps;

/// The role whose IDs identify the strings of a section.
pub(crate) fn section_role(section: SectionId) -> Role
    ensures { result ≡ section_role section }
{
    match section {
        SectionId::Shared | SectionId::Subjects => Role::Subject,
        SectionId::Predicates => Role::Predicate,
        SectionId::Objects => Role::Object,
    }
}

/// Whether an ID is that of a shared string that triples use both as a subject and as an object.
fn is_used_in_both(graph: &Graph<'_>, n: u64, steps: &mut Steps) -> bool
    ensures { IsTrue result ↔ IsUsedInBoth (graph_view graph.now) n }
{
    let [shared, _, _, _] = graph.section_lens();
    n <= shared && graph.uses(Role::Subject, n, steps) && graph.uses(Role::Object, n, steps)
}

/// Whether the new section retains the string with this ID of its role.
fn is_retained(graph: &Graph<'_>, section: SectionId, n: u64, steps: &mut Steps) -> bool
    ensures { IsTrue result ↔ RetainsId (graph_view graph.now) section n }
{
    match section {
        SectionId::Shared => is_used_in_both(graph, n, steps),
        SectionId::Subjects => graph.uses(Role::Subject, n, steps)
            && !is_used_in_both(graph, n, steps),
        SectionId::Predicates => graph.uses(Role::Predicate, n, steps),
        SectionId::Objects => graph.uses(Role::Object, n, steps)
            && !is_used_in_both(graph, n, steps),
    }
}

/// The first index in a range whose string the section retains, or the end of the range. An index is an ID - 1.
pub(crate) fn next_retained(graph: &Graph<'_>, section: SectionId, from: u64, end: u64) -> u64
    requires { from ≤ end }
    ensures from { from ≤ result }
    ensures within { result ≤ end }
    ensures kept { result < end → RetainsId (graph_view graph.now) section (result + 1) }
    ensures passed { (k : ℕ) → from ≤ k → k < result → RetainsId (graph_view graph.now) section (k + 1) → ⊥ }
{
    let mut steps = Steps::new();
    for index in from..end {
        if is_retained(graph, section, index + 1, &mut steps) {
            return index;
        }
    }
    end
}

/// Returns the ends of the two ascending runs of a role's strings in which a section finds its own. The first run
/// begins at index 0, and the second one follows it.
pub(crate) fn run_ends(graph: &Graph<'_>, section: SectionId) -> (u64, u64)
    ensures cut { result.0 ≡ first_run_end (graph_view graph.now) section }
    ensures end { result.1 ≡ second_run_end (graph_view graph.now) section }
{
    let [shared, _, _, _] = graph.section_lens();
    match section {
        SectionId::Shared => (0, shared),
        SectionId::Subjects => (shared, graph.count(Role::Subject)),
        SectionId::Predicates => (0, graph.count(Role::Predicate)),
        SectionId::Objects => (shared, graph.count(Role::Object)),
    }
}
