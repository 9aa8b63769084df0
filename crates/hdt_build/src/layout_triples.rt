//! The triples of a file, as strings.
ghost use Rattle.std.specs.Prelude.{◌≡◌, ◌<◌, ◌≤◌, ◌++◌, ◌∷◌, [], List, ℕ, length, IfErr, IfOk, OnOk};
ghost use Rattle.hdt_triples.specs.Remaining.{remaining_matches};
ghost use Rattle.hdt_file.specs.Denoted.{denoted_triple, string_of};
ghost use Rattle.hdt_file.specs.Graph.{layout_view};
ghost use Rattle.hdt_build.specs.Inside.WindowStrings.{HasWindowStrings, strings_of_triples};
ghost use Rattle.hdt_build.specs.Layouts.{denoted_by};
ghost use Rattle.hdt_build.specs.Reading.{IfBuildFault};
ghost use Rattle.hdt_build.specs.Relabelling.{relabelled, relabelled_triple, relabelled_triples};

use crate::fault::{BuildFault, ScratchFault};
use crate::merged_triples::ANY;
use crate::reading::Collector;
use crate::window_strings::{Places, WindowStrings, relabel};
use hdt_dict::Role;
use hdt_file::Layout;
use hdt_seq::Steps;
use hdt_triples::Matches;
use std::alloc::{AllocError, Global};

/// The greatest number of triples in a window.
const MAX_WINDOW_LEN: usize = 1_048_576;

/// The number of triples in a window, given the memory in bytes. Each takes at most some 100 bytes, its strings aside.
fn window_len(memory: usize) -> usize {
    (memory / 512).clamp(256, MAX_WINDOW_LEN)
}

/// The greatest number of bytes of the strings of a window, the last one aside, given the memory in bytes.
fn max_string_bytes(memory: usize) -> usize {
    (memory / 16).max(4096)
}

/// String n of a role, with the prefix before its label. It decodes the block of the string up to the string.
fn decode_string(
    alloc: Global,
    prefix: &[u8],
    layout: &Layout<'_>,
    role: Role,
    n: u64,
) -> Result<Vec<u8>, AllocError>
    ensures { IfOk result (λ string. string.items ≡ relabelled prefix.now (string_of (layout_view layout.now) role n)) }
{
    let mut string = Vec::new(alloc);
    layout.string_of(role, n, &mut string, &mut Steps::new())?;
    relabel(alloc, prefix, &mut string)?;
    Ok(string)
}

/// Adds a triple, with the prefix before the labels of its strings. After an error, drop the collector.
fn collect_triple<C: Collector>(
    alloc: Global,
    prefix: &[u8],
    layout: &Layout<'_>,
    triple: (u64, u64, u64),
    window: &WindowStrings,
    places: &mut Places,
    collector: &mut C,
) -> Result<(), ScratchFault<C::Error>>
    requires window { HasWindowStrings prefix.now (layout_view layout.now) window.now }
    requires sound { C.IsSound collector.old }
    ensures added { OnOk result (C.IsKnown → C.triples collector.new ≡ C.triples collector.old
        ++ relabelled_triple prefix.now (denoted_triple (layout_view layout.now) triple) ∷ []) }
    ensures sound { OnOk result (C.IsSound collector.new) }
    ensures memory { IfErr result (IfBuildFault (λ e. e ≡ BuildFault.OutOfMemory)) }
{
    if let Some((s, p, o)) = window.get(triple, places) {
        return collector.collect(alloc, s, p, o);
    }
    let (s, p, o) = triple;
    let s = decode_string(alloc, prefix, layout, Role::Subject, s)?;
    let p = decode_string(alloc, prefix, layout, Role::Predicate, p)?;
    let o = decode_string(alloc, prefix, layout, Role::Object, o)?;
    collector.collect(alloc, s.as_slice(), p.as_slice(), o.as_slice())
}

/// Adds triples, with the prefix before the labels of their strings. After an error, drop the collector.
fn collect_part<C: Collector>(
    alloc: Global,
    prefix: &[u8],
    layout: &Layout<'_>,
    triples: &[(u64, u64, u64)],
    window: &WindowStrings,
    collector: &mut C,
) -> Result<(), ScratchFault<C::Error>>
    requires window { HasWindowStrings prefix.now (layout_view layout.now) window.now }
    requires sound { C.IsSound collector.old }
    ensures added { OnOk result (C.IsKnown → C.triples collector.new ≡ C.triples collector.old
        ++ strings_of_triples prefix.now (layout_view layout.now) triples.now) }
    ensures sound { OnOk result (C.IsSound collector.new) }
    ensures memory { IfErr result (IfBuildFault (λ e. e ≡ BuildFault.OutOfMemory)) }
{
    let mut rest = triples;
    let mut places = Places::new();
    'triples: while let Some((triple, later)) = rest.split_first() {
        collect_triple(
            alloc,
            prefix,
            layout,
            *triple,
            window,
            &mut places,
            collector,
        )?;
        rest = later;
    }
    Ok(())
}

/// Fills a window with the strings of the first `most` triples, or of all of them, or of half as many until they fit.
/// Returns how many triples these are: if only one is left, without its strings.
fn fill_first(
    alloc: Global,
    prefix: &[u8],
    layout: &Layout<'_>,
    triples: &[(u64, u64, u64)],
    most: usize,
    max_bytes: usize,
    window: &mut WindowStrings,
) -> Result<usize, AllocError>
    requires some { 0 < length triples.now }
    requires window { HasWindowStrings prefix.now (layout_view layout.now) window.old }
    ensures window { OnOk result (HasWindowStrings prefix.now (layout_view layout.now) window.new) }
    ensures some { IfOk result (λ count. 0 < count) }
    ensures within { IfOk result (λ count. count ≤ length triples.now) }
{
    let mut count = triples.len().min(most);
    'halvings: while count > 1 {
        if window.fill(alloc, prefix, layout, triples.split_at(count).0, max_bytes)? {
            return Ok(count);
        }
        count /= 2;
    }
    Ok(1)
}

/// Adds the triples of a window, in parts if their strings take too much memory. After an error, drop the collector.
fn collect_window<C: Collector>(
    alloc: Global,
    prefix: &[u8],
    layout: &Layout<'_>,
    triples: &[(u64, u64, u64)],
    max_bytes: usize,
    window: &mut WindowStrings,
    collector: &mut C,
) -> Result<(), ScratchFault<C::Error>>
    requires window { HasWindowStrings prefix.now (layout_view layout.now) window.old }
    requires sound { C.IsSound collector.old }
    ensures window { OnOk result (HasWindowStrings prefix.now (layout_view layout.now) window.new) }
    ensures added { OnOk result (C.IsKnown → C.triples collector.new ≡ C.triples collector.old
        ++ strings_of_triples prefix.now (layout_view layout.now) triples.now) }
    ensures sound { OnOk result (C.IsSound collector.new) }
    ensures memory { IfErr result (IfBuildFault (λ e. e ≡ BuildFault.OutOfMemory)) }
{
    let mut rest = triples;
    let mut most = triples.len();
    'parts: while !rest.is_empty() {
        let count = fill_first(alloc, prefix, layout, rest, most, max_bytes, window)?;
        let (part, later) = rest.split_at(count);
        collect_part(alloc, prefix, layout, part, window, collector)?;
        rest = later;
        most = count.saturating_mul(2);
    }
    Ok(())
}

/// Replaces a list by a triple and the matches after it, `most` triples in all, or fewer if there are no more.
fn take_matches(
    first: (u64, u64, u64),
    matches: &mut Matches<'_>,
    most: usize,
    triples: &mut Vec<(u64, u64, u64)>,
) -> Result<(), AllocError>
    ensures taken { OnOk result (first ∷ remaining_matches matches.old
        ≡ triples.new.items ++ remaining_matches matches.new) }
    ensures fewer { length (remaining_matches matches.new) ≤ length (remaining_matches matches.old) }
{
    triples.clear();
    triples.push(first)?;
    'triples: while triples.len() < most {
        let Some(triple) = matches.next() else {
            return Ok(());
        };
        triples.push(triple)?;
    }
    Ok(())
}

/// Adds the triples of a file, with the prefix before the labels of their strings. After an error, drop the collector.
///
/// It does so in windows of as many triples as fit into a third of the memory, which is in bytes. Time: for each window
/// it decodes the blocks that its strings are in, each once. Look-ups of each string would take quadratic time in a
/// file with a large block.
pub(crate) fn collect_layout<C: Collector>(
    alloc: Global,
    prefix: &[u8],
    layout: &Layout<'_>,
    memory: usize,
    collector: &mut C,
) -> Result<(), ScratchFault<C::Error>>
    requires { C.IsSound collector.old }
    ensures added { OnOk result (C.IsKnown → C.triples collector.new ≡ C.triples collector.old
        ++ relabelled_triples prefix.now (denoted_by (layout_view layout.now))) }
    ensures sound { OnOk result (C.IsSound collector.new) }
    ensures memory { IfErr result (IfBuildFault (λ e. e ≡ BuildFault.OutOfMemory)) }
{
    let most = window_len(memory);
    let max_bytes = max_string_bytes(memory);
    let mut window = WindowStrings::new(alloc)?;
    let mut triples = Vec::new(alloc);
    let mut matches = layout.search(ANY);
    'windows: while let Some(first) = matches.next() {
        take_matches(first, &mut matches, most, &mut triples)?;
        collect_window(
            alloc,
            prefix,
            layout,
            &triples,
            max_bytes,
            &mut window,
            collector,
        )?;
    }
    Ok(())
}
