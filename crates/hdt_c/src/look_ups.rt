//! Counts, IDs and strings of a graph.
ghost use Rattle.std.specs.Prelude.{◌≡◌, Some, length};
ghost use Rattle.hdt_file.specs.Graph.{graph_view};
ghost use Rattle.hdt_c.specs.LookUps.{ReturnsId, IsIdIn, ReturnsString, closed, role_len, role_by_number};
ghost use Rattle.hdt_c.specs.LookUps.{string_with_id};
ghost use Rattle.hdt_c.specs.Handle.{IsClosed, IfOpen, SameGraph};
ghost use Rattle.hdt_c.specs.CallerBuffer.{overwritten_prefix};
ghost use Rattle.hdt_dict.specs.Dictionary.{role_strings};

use crate::bytes::copy_into;
use crate::handle::{HdtGraph, graph_ref};
use hdt_dict::Role;
use hdt_file::Graph;
use hdt_seq::Steps;
use std::alloc::Global;

/// `HDT_ABSENT`: there is no such role, ID or string.
pub(crate) const ABSENT: u64 = 18_446_744_073_709_551_615;

/// `HDT_NO_MEMORY`: memory ran out.
pub(crate) const NO_MEMORY: u64 = 18_446_744_073_709_551_614;

/// `HDT_CLOSED`: the graph is not open.
pub(crate) const CLOSED: u64 = 18_446_744_073_709_551_613;

/// The role with a number of `c/hdt.h`.
pub(crate) fn role_by_number(number: u32) -> Option<Role>
    ensures { result ≡ role_by_number number }
{
    match number {
        0 => Some(Role::Subject),
        1 => Some(Role::Predicate),
        2 => Some(Role::Object),
        _ => None,
    }
}

/// `hdt_len`: returns the number of triples.
#[unsafe(no_mangle)]
pub extern "C" fn hdt_len(alloc: Global, graph: &mut HdtGraph) -> u64
    ensures exact { IfOpen graph.old (λ g. result ≡ length g.triples) }
    ensures closed { IsClosed graph.old → result ≡ closed }
    ensures kept { SameGraph graph.old graph.new }
{
    match graph.take(alloc) {
        None => CLOSED,
        Some(taken) => {
            let answer = graph_ref(&taken).len();
            graph.put(taken);
            answer
        }
    }
}

/// The number of strings of a role, given by its number.
fn role_len(graph: &Graph<'static>, role: u32) -> u64
    ensures { result ≡ role_len (graph_view graph.now) (role_by_number role) }
{
    match role_by_number(role) {
        Some(role) => graph.count(role),
        None => ABSENT,
    }
}

/// `hdt_count`: returns the number of strings of a role.
#[unsafe(no_mangle)]
pub extern "C" fn hdt_count(alloc: Global, graph: &mut HdtGraph, role: u32) -> u64
    ensures exact { IfOpen graph.old (λ g. result ≡ role_len g (role_by_number role)) }
    ensures closed { IsClosed graph.old → result ≡ closed }
    ensures kept { SameGraph graph.old graph.new }
{
    match graph.take(alloc) {
        None => CLOSED,
        Some(taken) => {
            let answer = role_len(graph_ref(&taken), role);
            graph.put(taken);
            answer
        }
    }
}

/// The ID of a string in a role.
fn id_in_role(graph: &Graph<'static>, role: Role, string: &[u8]) -> u64
    ensures { IsIdIn (role_strings (graph_view graph.now).dictionary role) string.now result }
{
    match graph.number_of(role, string, &mut Steps::new()) {
        Some(number) => number,
        None => ABSENT,
    }
}

/// The ID of a string in a role, given by its number.
fn number_of(graph: &Graph<'static>, role: u32, string: &[u8]) -> u64
    ensures { ReturnsId (graph_view graph.now) (role_by_number role) string.now result }
{
    match role_by_number(role) {
        Some(role) => id_in_role(graph, role, string),
        None => ABSENT,
    }
}

/// `hdt_number`: returns the ID of a string in a role, from 1. A binary search over the blocks of the role's sections,
/// then a scan of a block.
#[unsafe(no_mangle)]
pub extern "C" fn hdt_number(alloc: Global, graph: &mut HdtGraph, role: u32, string: &[u8]) -> u64
    ensures exact { IfOpen graph.old (λ g. ReturnsId g (role_by_number role) string.now result) }
    ensures closed { IsClosed graph.old → result ≡ closed }
    ensures kept { SameGraph graph.old graph.new }
{
    match graph.take(alloc) {
        None => CLOSED,
        Some(taken) => {
            let answer = number_of(graph_ref(&taken), role, string);
            graph.put(taken);
            answer
        }
    }
}

/// Writes a string to a buffer of the caller, as many bytes as fit, and returns its length.
fn put_string(
    alloc: Global,
    graph: &Graph<'static>,
    role: u32,
    number: u64,
    buffer: &mut [u8],
) -> u64
    ensures { ReturnsString (string_with_id (graph_view graph.now) (role_by_number role) number) result buffer.old
        buffer.new }
{
    let Some(role) = role_by_number(role) else {
        return ABSENT;
    };
    let mut string = Vec::new(alloc);
    match graph.string_of(role, number, &mut string, &mut Steps::new()) {
        Ok(true) => {
            copy_into(&string, buffer);
            string.len() as u64
        }
        Ok(false) => ABSENT,
        Err(_) => NO_MEMORY,
    }
}

/// `hdt_string`: writes the string of a role with an ID, from 1, to the buffer, as many bytes as fit, and returns its
/// length. It decodes the block of the string up to the string. On `HDT_ABSENT`, `HDT_NO_MEMORY` and `HDT_CLOSED` the
/// buffer is unchanged.
#[unsafe(no_mangle)]
pub extern "C" fn hdt_string(
    alloc: Global,
    graph: &mut HdtGraph,
    role: u32,
    number: u64,
    out: &mut [u8],
) -> u64
    ensures exact { IfOpen graph.old
        (λ g. ReturnsString (string_with_id g (role_by_number role) number) result out.old out.new) }
    ensures closed { IsClosed graph.old → (result ≡ closed) × (out.new ≡ out.old) }
    ensures kept { SameGraph graph.old graph.new }
{
    match graph.take(alloc) {
        None => CLOSED,
        Some(taken) => {
            let answer = put_string(alloc, graph_ref(&taken), role, number, out);
            graph.put(taken);
            answer
        }
    }
}

/// Writes the header body to a buffer of the caller, as many bytes as fit, and returns its length.
fn put_header(graph: &Graph<'static>, buffer: &mut [u8]) -> u64
    ensures len { result ≡ length (graph_view graph.now).header }
    ensures put { buffer.new ≡ overwritten_prefix (graph_view graph.now).header buffer.old }
{
    let header = graph.header();
    copy_into(header, buffer);
    header.len() as u64
}

/// `hdt_header`: writes the header body to the buffer, as many bytes as fit, and returns its length.
#[unsafe(no_mangle)]
pub extern "C" fn hdt_header(alloc: Global, graph: &mut HdtGraph, out: &mut [u8]) -> u64
    ensures exact { IfOpen graph.old (λ g. (result ≡ length g.header)
        × (out.new ≡ overwritten_prefix g.header out.old)) }
    ensures closed { IsClosed graph.old → (result ≡ closed) × (out.new ≡ out.old) }
    ensures kept { SameGraph graph.old graph.new }
{
    match graph.take(alloc) {
        None => CLOSED,
        Some(taken) => {
            let answer = put_header(graph_ref(&taken), out);
            graph.put(taken);
            answer
        }
    }
}
