//! The N-Triples text of a graph.
ghost use Rattle.std.specs.Prelude.{◌≡◌, ◌≢◌, ◌<◌, ◌+◌, ℕ, Option, OnOk, OnErr, IfOk, IfErr, Some, IsOk};
ghost use Rattle.hdt_wire.specs.Counted.{inner, failures};
ghost use Rattle.hdt_wire.specs.declared.Role.{Role};
ghost use Rattle.hdt_file.specs.Denoted.{denoted};
ghost use Rattle.hdt_file.specs.CachedTerms.{CachesTerms};
ghost use Rattle.hdt_file.specs.Graph.{layout_view, graph_view};
ghost use Rattle.hdt_file.specs.Text.{IsFirstNonTerm, IsTextOf};
ghost use Rattle.hdt_file.specs.TextWriting.{AppendsText, ReportsFirstNonTerm, WritesPrefix, WritesText};
ghost use Rattle.hdt_file.specs.TextWriting.{matches_if_given, limited};

use crate::fault::DumpFault;
use crate::graph::Graph;
use crate::layout::Layout;
use crate::rendering::{append_matches, matches_text};
use crate::term_writing::TermWriter;
use hdt_dict::Role;
use hdt_triples::Pattern;
use hdt_wire::Counted;
use std::alloc::Global;
use std::io::Write;

/// Returns the N-Triples text of the matches of a pattern: one line for each triple, in order. Without a pattern the
/// text is empty.
///
/// Time is linear in the dictionary, the matches and the text, however the strings are front-coded: it decodes the
/// blocks of the strings of each match or, if that is cheaper, the complete dictionary once. Memory is that of the
/// matches and the text, and one byte for each string of the dictionary.
///
/// # Errors
///
/// [`DumpFault::NotATerm`] with the first string of the first match that is not a term which its role allows, in the
/// order subject, predicate, object; [`DumpFault::OutOfMemory`] only if memory ran out.
pub fn graph_text(
    alloc: Global,
    graph: &Graph<'_>,
    pattern: Option<Pattern>,
) -> Result<Vec<u8>, DumpFault>
    ensures ok { IfOk result (λ text. IsTextOf
        (denoted (graph_view graph.now) (matches_if_given (graph_view graph.now) pattern)) text.items) }
    ensures err { IfErr result
        (ReportsFirstNonTerm (graph_view graph.now) (matches_if_given (graph_view graph.now) pattern)) }
{
    matches_text(alloc, &graph.layout(), graph.search_if_given(pattern), None)
}

/// Appends the text of the first `most` matches, or of all of them, as [`graph_text`] does, with a writer that is new
/// or was used only for this graph. One writer for many texts decodes frequent predicates only once;
/// [`TermWriter::with_cache`] says how much it caches. After an error it can still be used, and `out` is unchanged.
pub fn append_graph_text(
    alloc: Global,
    graph: &Graph<'_>,
    pattern: Option<Pattern>,
    most: Option<u64>,
    term_writer: &mut TermWriter,
    out: &mut Vec<u8>,
) -> Result<(), DumpFault>
    // Before and after the call, the writer caches terms of this graph only.
    requires { CachesTerms (graph_view graph.now) term_writer.old }
    ensures kept { CachesTerms (graph_view graph.now) term_writer.new }
    ensures ok { OnOk result (AppendsText (graph_view graph.now)
        (limited most (matches_if_given (graph_view graph.now) pattern)) out.old.items out.new.items) }
    ensures err { IfErr result
        (ReportsFirstNonTerm (graph_view graph.now) (limited most (matches_if_given (graph_view graph.now) pattern))) }
    ensures left { OnErr result (out.new.items ≡ out.old.items) }
{
    let found = graph.search_if_given(pattern);
    append_matches(alloc, &graph.layout(), found, most, term_writer, out)
}

/// Returns the text of the first `most` matches, or of all of them, as [`graph_text`] does. It scans the
/// triples; with a subject given it makes rank/select indexes for its search, unless there is no memory for them.
#[tactic(auto, unfolding(crate::specs::Graph::layout_view, crate::specs::Graph::parts_of_layout))]
pub fn layout_text(
    alloc: Global,
    layout: &Layout<'_>,
    pattern: Option<Pattern>,
    most: Option<u64>,
) -> Result<Vec<u8>, DumpFault>
    ensures ok { IfOk result (λ text. IsTextOf
        (denoted (layout_view layout.now) (limited most (matches_if_given (layout_view layout.now) pattern)))
        text.items) }
    ensures err { IfErr result
        (ReportsFirstNonTerm (layout_view layout.now)
        (limited most (matches_if_given (layout_view layout.now) pattern))) }
{
    let Some(pattern) = pattern else {
        return Ok(Vec::new(alloc));
    };
    if pattern.s.is_some() {
        if let Ok(indexed) = layout.triples.with_directories(alloc) {
            return matches_text(alloc, layout, indexed.find(pattern), most);
        }
    }
    matches_text(alloc, layout, layout.search(pattern), most)
}

/// Writes the text of [`graph_text`], after making it in memory. Returns its length in bytes.
///
/// # Errors
///
/// Those of [`graph_text`], with nothing written; [`DumpFault::Write`] with the number of bytes that were written
/// before the writer failed.
///
/// ```rust
/// let mut out = Counted::new(writer);
/// let pattern = graph.pattern([None, Some(b"u:p"), None], &mut Steps::new());
/// let len = write_graph(alloc, &graph, pattern, &mut out)?;
/// ```
pub fn write_graph<W: Write>(
    alloc: Global,
    graph: &Graph<'_>,
    pattern: Option<Pattern>,
    out: &mut Counted<W>,
) -> Result<u64, DumpFault>
    // The text, of the length that is returned, was written, and the writer has not failed.
    ensures ok { IfOk result (WritesText (graph_view graph.now) (matches_if_given (graph_view graph.now) pattern)
        (W.contents (inner out.old)) (W.contents (inner out.new))) }
    ensures writer_unfailed { IsOk result → failures out.new ≡ failures out.old }
    // It names the first string of the first triple that is not a term which its role allows, in the order subject,
    // predicate, object.
    ensures first { IfErr result (λ e. (role : Role) (n : ℕ) → e ≡ DumpFault.NotATerm role n
        → IsFirstNonTerm (graph_view graph.now) (matches_if_given (graph_view graph.now) pattern) role n) }
    // The writer failed in this call, once, after exactly the first n bytes of the text.
    ensures write { IfErr result (λ e. (n : ℕ) → e ≡ DumpFault.Write n → (failures out.new ≡ failures out.old + 1)
        × WritesPrefix (graph_view graph.now) (matches_if_given (graph_view graph.now) pattern)
        (W.contents (inner out.old)) (W.contents (inner out.new)) n) }
    // After any other error nothing was written.
    ensures unwritten { IfErr result (λ e. ((n : ℕ) → e ≢ DumpFault.Write n) → out.new ≡ out.old) }
{
    let text = graph_text(alloc, graph, pattern)?;
    match out.write_all(&text) {
        Ok(()) => Ok(text.len() as u64),
        Err(count) => Err(DumpFault::Write(count)),
    }
}
