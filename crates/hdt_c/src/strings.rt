//! The strings of many IDs.
ghost use Rattle.std.specs.Prelude.{◌≡◌, IfOk, MatchOption, IsOk};
ghost use Rattle.std.specs.List.{concat};
ghost use Rattle.hdt_dict.specs.StringBatch.{ends_from};
ghost use Rattle.hdt_file.specs.Graph.{graph_view};
ghost use Rattle.hdt_c.specs.LookUps.{closed, role_by_number};
ghost use Rattle.hdt_c.specs.Handle.{IsClosed, IfOpen, SameGraph};
ghost use Rattle.hdt_c.specs.StringLists.{AreIdsOfRole, WritesNothing, ReturnsStrings, strings_with_ids};

use crate::bytes::{HdtBytes, copy_into};
use crate::handle::{HdtGraph, graph_ref};
use crate::look_ups::{ABSENT, CLOSED, NO_MEMORY, role_by_number};
use hdt_file::Graph;
use hdt_seq::Steps;
use std::alloc::{AllocError, Global};

/// The strings with these IDs, one after another, and the byte offset at which each ends; `None` if there is no string
/// with one of the IDs.
fn strings_of(
    alloc: Global,
    graph: &Graph<'static>,
    role: u32,
    numbers: &[u64],
) -> Result<Option<(Vec<u8>, Vec<u64>)>, AllocError>
    ensures ok { IfOk result (λ made. MatchOption made
        (AreIdsOfRole (graph_view graph.now) (role_by_number role) numbers.now → ⊥)
        (λ m. AreIdsOfRole (graph_view graph.now) (role_by_number role) numbers.now
        × (m.0.items ≡ concat (strings_with_ids (graph_view graph.now) (role_by_number role) numbers.now))
        × (m.1.items ≡ ends_from 0 (strings_with_ids (graph_view graph.now) (role_by_number role) numbers.now)))) }
    ensures absent { (AreIdsOfRole (graph_view graph.now) (role_by_number role) numbers.now → ⊥) → IsOk result }
{
    let Some(role) = role_by_number(role) else {
        return Ok(None);
    };
    let mut bytes = Vec::new(alloc);
    let mut ends = Vec::new(alloc);
    let steps = &mut Steps::new();
    if graph.strings_of(alloc, role, numbers, &mut bytes, &mut ends, steps)? {
        Ok(Some((bytes, ends)))
    } else {
        Ok(None)
    }
}

/// Puts the strings into a handle, and writes the byte offset at which each ends to the buffer, as many as fit.
fn put_strings(
    alloc: Global,
    graph: &Graph<'static>,
    role: u32,
    numbers: &[u64],
    out: &mut HdtBytes,
    buffer: &mut [u64],
) -> u64
    ensures { ReturnsStrings (graph_view graph.now)
        (role_by_number role) numbers.now result out.new buffer.old buffer.new }
{
    match strings_of(alloc, graph, role, numbers) {
        Ok(Some((bytes, ends))) => {
            let len = bytes.len() as u64;
            match out.put(alloc, bytes) {
                Ok(()) => {
                    copy_into(&ends, buffer);
                    len
                }
                Err(_) => NO_MEMORY,
            }
        }
        Ok(None) => {
            out.free(alloc);
            ABSENT
        }
        Err(_) => {
            out.free(alloc);
            NO_MEMORY
        }
    }
}

/// `hdt_strings`: puts the strings of a role with these IDs, from 1, into `out`, one after another, and returns their
/// length together. The byte offset at which each ends is written to `ends`, as many as fit. On `HDT_ABSENT`,
/// `HDT_NO_MEMORY` and `HDT_CLOSED` there are no bytes, and `ends` is unchanged. If the IDs ascend, each block is
/// decoded once.
#[unsafe(no_mangle)]
pub extern "C" fn hdt_strings(
    alloc: Global,
    graph: &mut HdtGraph,
    role: u32,
    numbers: &[u64],
    out: &mut HdtBytes,
    ends: &mut [u64],
) -> u64
    ensures exact { IfOpen graph.old
        (λ g. ReturnsStrings g (role_by_number role) numbers.now result out.new ends.old ends.new) }
    ensures closed { IsClosed graph.old → (result ≡ closed) × WritesNothing out.new ends.old ends.new }
    ensures kept { SameGraph graph.old graph.new }
{
    match graph.take(alloc) {
        None => {
            out.free(alloc);
            CLOSED
        }
        Some(taken) => {
            let answer = put_strings(alloc, graph_ref(&taken), role, numbers, out, ends);
            graph.put(taken);
            answer
        }
    }
}
