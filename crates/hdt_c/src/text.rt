//! The N-Triples text of a graph.
ghost use Rattle.std.specs.Prelude.{◌≡◌, ◌∷◌, []};
ghost use Rattle.hdt_file.specs.Graph.{graph_view};
ghost use Rattle.hdt_file.specs.Search.{IsPattern};
ghost use Rattle.hdt_file.specs.TextWriting.{matches_if_given};
ghost use Rattle.hdt_c.specs.LookUps.{MatchesSatisfy, string_if_flag};
ghost use Rattle.hdt_c.specs.Bytes.{HoldsNoBytes};
ghost use Rattle.hdt_c.specs.Handle.{IsClosed, IfOpen, SameGraph};
ghost use Rattle.hdt_c.specs.Texts.{ReportsText, text_result_for, role_number, text_result_of_fault};
ghost use Rattle.hdt_c.specs.ReasonNumbers.{closed_reason};

use crate::bytes::HdtBytes;
use crate::finding::{pattern_of, string_if_flag};
use crate::handle::{HdtGraph, graph_ref};
use crate::report::HdtTextResult;
use crate::verdict::OUT_OF_MEMORY;
use hdt_dict::Role;
use hdt_file::{DumpFault, Graph, graph_text};
use hdt_triples::Pattern;
use std::alloc::Global;

/// `HDT_NOT_A_TERM`: a string is not a term that its role allows.
pub(crate) const NOT_A_TERM: u32 = 250;

/// `HDT_IS_CLOSED`: the graph is not open.
pub(crate) const IS_CLOSED: u32 = 253;

/// A result with a reason but no string.
pub(crate) fn text_result_for(reason: u32) -> HdtTextResult
    ensures { result ≡ text_result_for reason }
{
    HdtTextResult {
        reason,
        role: 0,
        number: 0,
    }
}

/// The number of a role in `c/hdt.h`.
fn role_number(role: Role) -> u32
    ensures { result ≡ role_number role }
{
    match role {
        Role::Subject => 0,
        Role::Predicate => 1,
        Role::Object => 2,
    }
}

/// The result of an error.
pub(crate) fn text_result_of_fault(fault: DumpFault) -> HdtTextResult
    ensures { result ≡ text_result_of_fault fault }
{
    match fault {
        DumpFault::NotATerm(role, number) => HdtTextResult {
            reason: NOT_A_TERM,
            role: role_number(role),
            number,
        },
        DumpFault::Write(_) | DumpFault::OutOfMemory => text_result_for(OUT_OF_MEMORY),
    }
}

/// Puts the text of the matches into a handle. On an error the handle has no bytes.
pub(crate) fn put_text(
    alloc: Global,
    graph: &Graph<'static>,
    pattern: Option<Pattern>,
    out: &mut HdtBytes,
) -> HdtTextResult
    ensures { ReportsText (graph_view graph.now) (matches_if_given (graph_view graph.now) pattern) out.new result }
{
    match graph_text(alloc, graph, pattern) {
        Ok(text) => match out.put(alloc, text) {
            Ok(()) => text_result_for(0),
            Err(_) => text_result_of_fault(DumpFault::OutOfMemory),
        },
        Err(fault) => {
            out.free(alloc);
            text_result_of_fault(fault)
        }
    }
}

/// The result of a graph that is not open: there is no text.
pub(crate) fn no_graph(alloc: Global, out: &mut HdtBytes) -> HdtTextResult
    ensures { (result ≡ text_result_for closed_reason) × HoldsNoBytes out.new }
{
    out.free(alloc);
    text_result_for(IS_CLOSED)
}

/// `hdt_text`: makes the N-Triples text of the matches. On an error `out` has no bytes.
#[unsafe(no_mangle)]
pub extern "C" fn hdt_text(
    alloc: Global,
    graph: &mut HdtGraph,
    has_s: u32,
    s: &[u8],
    has_p: u32,
    p: &[u8],
    has_o: u32,
    o: &[u8],
    out: &mut HdtBytes,
    outcome: &mut HdtTextResult,
)
    ensures exact { IfOpen graph.old
        (λ g. MatchesSatisfy g (IsPattern g (string_if_flag has_s s.entry ∷ string_if_flag has_p p.entry
        ∷ string_if_flag has_o o.entry ∷ [])) (λ found. ReportsText g found out.new outcome.new)) }
    ensures closed { IsClosed graph.old → (outcome.new ≡ text_result_for closed_reason) × HoldsNoBytes out.new }
    ensures kept { SameGraph graph.old graph.new }
{
    match graph.take(alloc) {
        None => *outcome = no_graph(alloc, out),
        Some(taken) => {
            let given = [
                string_if_flag(has_s, s),
                string_if_flag(has_p, p),
                string_if_flag(has_o, o),
            ];
            let opened = graph_ref(&taken);
            *outcome = put_text(alloc, opened, pattern_of(opened, given), out);
            graph.put(taken);
        }
    }
}
