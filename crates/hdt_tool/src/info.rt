//! What `info` finds out about a file.
ghost use Rattle.std.specs.Prelude.{◌↔◌, IfErr, IfOk, IsTrue, List, ℕ};
ghost use Rattle.hdt_file.specs.Graph.{layout_view};
ghost use Rattle.hdt_file.specs.Tight.{IsTight};
ghost use Rattle.hdt_build.specs.Built.{IsRewrittenAs};
ghost use Rattle.hdt_tool.specs.Info.{PrintsInfo};
ghost use Rattle.hdt_tool.specs.Outcomes.{IsFaultOfBytes};
ghost use Rattle.hdt_tool.specs.declared.request.Action.TheVariants as Action;

use crate::fault::ToolFault;
use crate::printed_info::info_text;
use hdt_build::layout_is_canonical;
use hdt_file::{Layout, layout_info, layout_is_tight, one_layout};
use std::alloc::{AllocError, Global};

/// Whether a file is tight. A canonical file is, so only another one is checked.
fn is_tight(alloc: Global, canonical: bool, layout: &Layout<'_>) -> Result<bool, AllocError>
    requires { IsTrue canonical → IsTight (layout_view layout.now) }
    ensures { IfOk result (λ tight. IsTrue tight ↔ IsTight (layout_view layout.now)) }
{
    if canonical {
        return Ok(true);
    }
    layout_is_tight(alloc, layout)
}

/// The block size, or one that is not valid either if it exceeds 32 bits.
fn bounded_block_size(block_size: u64) -> u32
    ensures { (bytes : List ℕ) → IsRewrittenAs result bytes ↔ IsRewrittenAs block_size bytes }
{
    block_size.min(u64::from(u32::MAX)) as u32
}

/// The output of `info` for the bytes of a file: their sizes, whether triples use all strings, and whether `rewrite`
/// with the block size of the predicates would make the same bytes.
///
/// The file is read once. Time: that of reading it, of [`layout_info`] and of [`layout_is_canonical`]; and of
/// [`layout_is_tight`] if the file is not canonical. Memory: the most that one of them takes.
///
/// # Errors
///
/// [`ToolFault::File`] with the first error of the file; [`ToolFault::OutOfMemory`].
pub(crate) fn file_info_text(alloc: Global, json: bool, bytes: &[u8]) -> Result<Vec<u8>, ToolFault>
    ensures ok { IfOk result (λ text. PrintsInfo json bytes.now text.items) }
    ensures err { IfErr result (IsFaultOfBytes (Action.Info json) bytes.now) }
{
    one_layout();
    let layout = Layout::read(alloc, bytes)?;
    let info = layout_info(alloc, &layout, bytes)?;
    let block_size = bounded_block_size(info.dictionary.predicates.block_size);
    let canonical = layout_is_canonical(alloc, &layout, bytes, block_size)?;
    let tight = is_tight(alloc, canonical, &layout)?;
    Ok(info_text(alloc, json, &info, tight, canonical)?)
}
