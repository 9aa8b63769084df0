//! Whether a file is the one that `rewrite` makes of it.
ghost use Rattle.std.specs.Prelude.{◌≡◌, ◌↔◌, IfOk, IsTrue};
ghost use Rattle.hdt_file.specs.File.{GraphParts, IsLayout};
ghost use Rattle.hdt_file.specs.Graph.{layout_view};
ghost use Rattle.hdt_file.specs.Tight.{IsTightLayout};
ghost use Rattle.hdt_build.specs.Built.{IsRewrittenAs};
ghost use Rattle.hdt_build.specs.Canonical.{canonical_file};
ghost use Rattle.hdt_build.specs.Options.{IsBlockSize};

use crate::comparing::is_canonical_file;
use crate::options::is_block_size;
use hdt_file::{Layout, OpenFault, layout_is_tight, layouts_are_graphs, one_layout, read_head};
use std::alloc::{AllocError, Global};

/// Whether the bytes of a file are those that its own header body, dictionary and triples are encoded as.
fn is_own_encoding(
    alloc: Global,
    layout: &Layout<'_>,
    block_size: u32,
    bytes: &[u8],
) -> Result<bool, AllocError>
    requires layout { IsLayout bytes.now (layout_view layout.now) }
    requires block { IsBlockSize block_size }
    ensures { IfOk result (λ same. IsTrue same ↔ (bytes.now ≡ canonical_file (layout_view layout.now).header block_size
        (layout_view layout.now).dictionary (layout_view layout.now).triples)) }
{
    layouts_are_graphs();
    match read_head(bytes) {
        Ok(head) => is_canonical_file(alloc, head.body(), layout, block_size, bytes),
        Err(_) => unreachable!(),
    }
}

/// Returns what [`is_canonical`] returns for the bytes that a layout was read from, which are not verified again.
///
/// # Errors
///
/// An error only if memory ran out.
pub fn layout_is_canonical(
    alloc: Global,
    layout: &Layout<'_>,
    bytes: &[u8],
    block_size: u32,
) -> Result<bool, AllocError>
    requires { IsLayout bytes.now (layout_view layout.now) }
    ensures same { IfOk result (λ same. IsTrue same ↔ IsRewrittenAs block_size bytes.now) }
    ensures tight { IfOk result (λ same. IsTrue same → (graph : GraphParts) × IsTightLayout bytes.now graph) }
{
    layouts_are_graphs();
    one_layout();
    if !is_block_size(block_size) {
        return Ok(false);
    }
    let own = is_own_encoding(alloc, layout, block_size, bytes)?;
    if !own {
        return Ok(false);
    }
    layout_is_tight(alloc, layout)
}

/// Returns whether bytes are the file that [`rewrite`](crate::rewrite) makes of them with a block size: a valid file in
/// canonical form, without unused strings. False if the bytes are not a valid file, or if the block size is not 1 to
/// 65,535.
///
/// Linear time: that of [`Layout::read`], of encoding the file again, up to the first difference, and then of
/// [`layout_is_tight`]. Memory: the most of twice the largest section, of 18 bytes for each triple with the encoding of
/// the triples, and of what `layout_is_tight` takes.
///
/// # Errors
///
/// An error only if memory ran out.
pub fn is_canonical(alloc: Global, bytes: &[u8], block_size: u32) -> Result<bool, AllocError>
    // The bytes are the file that `rewrite` makes of them.
    ensures same { IfOk result (λ same. IsTrue same ↔ IsRewrittenAs block_size bytes.now) }
    // Triples then use all strings of the file.
    ensures tight { IfOk result (λ same. IsTrue same → (graph : GraphParts) × IsTightLayout bytes.now graph) }
{
    match Layout::read(alloc, bytes) {
        Ok(layout) => layout_is_canonical(alloc, &layout, bytes, block_size),
        Err(OpenFault::Fault(_)) => Ok(false),
        Err(OpenFault::OutOfMemory) => Err(AllocError),
    }
}
