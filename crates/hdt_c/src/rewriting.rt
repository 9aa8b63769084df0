//! Rewriting a file.
ghost use Rattle.std.specs.Prelude.{◌≡◌, IfOk, IfErr};
ghost use Rattle.hdt_c.specs.Rewriting.{IsRewriteOf, RefusesRewriting, ReportsRewrite, rewritten_verdict};

use crate::bytes::HdtBytes;
use crate::verdict::{BAD_OPTIONS, HdtVerdict, OUT_OF_MEMORY, verdict_for, verdict_of_result};
use hdt_build::{Options, Report, RewriteFault, rewrite_bytes};
use hdt_file::open;
use std::alloc::Global;

/// The verdict of a file that was rewritten.
pub(crate) fn rewritten_verdict(report: Report) -> HdtVerdict
    ensures { result ≡ rewritten_verdict report }
{
    HdtVerdict {
        reason: 0,
        place: 0,
        counts: [
            report.triples,
            report.shared,
            report.subjects,
            report.predicates,
            report.objects,
        ],
    }
}

/// The canonical file of the graph of a file, or the verdict if there is none.
fn rewrite_file(
    alloc: Global,
    bytes: &[u8],
    block_size: u32,
) -> Result<(Vec<u8>, Report), HdtVerdict>
    ensures ok { IfOk result (λ made. IsRewriteOf bytes.now block_size made.0.items made.1) }
    ensures err { IfErr result (RefusesRewriting bytes.now block_size) }
{
    let graph = match open(alloc, bytes) {
        Ok(graph) => graph,
        Err(fault) => return Err(verdict_of_result(Err(fault))),
    };
    let options = Options {
        block_size,
        base: Vec::new(alloc),
    };
    match rewrite_bytes(alloc, &graph, &options) {
        Ok(made) => Ok(made),
        Err(RewriteFault::BadOptions) => Err(verdict_for(BAD_OPTIONS)),
        Err(_) => Err(verdict_for(OUT_OF_MEMORY)),
    }
}

/// `hdt_rewrite`: rewrites a file as the canonical one of the same graph. On an error `out` has no bytes.
#[unsafe(no_mangle)]
pub extern "C" fn hdt_rewrite(
    alloc: Global,
    bytes: &[u8],
    block_size: u32,
    out: &mut HdtBytes,
    verdict: &mut HdtVerdict,
)
    ensures { ReportsRewrite bytes.now block_size out.new verdict.new }
{
    *verdict = match rewrite_file(alloc, bytes, block_size) {
        Ok((new, report)) => match out.put(alloc, new) {
            Ok(()) => rewritten_verdict(report),
            Err(_) => verdict_for(OUT_OF_MEMORY),
        },
        Err(fault) => {
            out.free(alloc);
            fault
        }
    };
}
