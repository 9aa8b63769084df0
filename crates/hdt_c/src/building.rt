//! Building a file from N-Triples.
ghost use Rattle.std.specs.Prelude.{◌≡◌, IfOk, IfErr};
ghost use Rattle.hdt_c.specs.Building.{BuildsText, HasBuildFault, ReportsBuild, built_report, report_for};
ghost use Rattle.hdt_c.specs.Building.{report_of_fault};

use crate::bytes::HdtBytes;
use crate::report::HdtReport;
use crate::verdict::{BAD_OPTIONS, OUT_OF_MEMORY};
use hdt_build::{BuildFault, Options, Report, build_bytes};
use hdt_wire::Counted;
use std::alloc::Global;

/// `HDT_NO_TRIPLES`: the document has no triples.
pub(crate) const NO_TRIPLES: u32 = 251;

/// A report with a reason but no line.
pub(crate) fn report_for(reason: u32) -> HdtReport
    ensures { result ≡ report_for reason }
{
    HdtReport {
        reason,
        line: 0,
        column: 0,
        counts: [0; 5],
    }
}

/// The report on a file that was built.
pub(crate) fn built_report(report: Report) -> HdtReport
    ensures { result ≡ built_report report }
{
    HdtReport {
        reason: 0,
        line: 0,
        column: 0,
        counts: [
            report.triples,
            report.shared,
            report.subjects,
            report.predicates,
            report.objects,
        ],
    }
}

/// The report of an error.
fn report_of_fault(fault: BuildFault) -> HdtReport
    ensures { result ≡ report_of_fault fault }
{
    match fault {
        BuildFault::Line(line) => HdtReport {
            reason: u32::from(line.reason.number()),
            line: line.line,
            column: line.column,
            counts: [0; 5],
        },
        BuildFault::NoTriples => report_for(NO_TRIPLES),
        BuildFault::BadOptions => report_for(BAD_OPTIONS),
        BuildFault::OutOfMemory | BuildFault::Write(_) => report_for(OUT_OF_MEMORY),
    }
}

/// The canonical file of a document's graph.
fn build_file(
    alloc: Global,
    text: &[u8],
    base: &[u8],
    block_size: u32,
) -> Result<(Vec<u8>, Report), BuildFault>
    ensures ok { IfOk result (λ made. BuildsText text.now base.now block_size made.0.items made.1) }
    ensures err { IfErr result (HasBuildFault text.now base.now block_size) }
{
    let options = Options {
        block_size,
        base: Vec::from_slice(alloc, base)?,
    };
    match build_bytes(alloc, &mut Counted::new(text), &options) {
        Ok(made) => Ok(made),
        Err(fault) => Err(fault),
    }
}

/// `hdt_build`: builds the canonical file of the graph of an N-Triples document. On an error `out` has no bytes.
#[unsafe(no_mangle)]
pub extern "C" fn hdt_build(
    alloc: Global,
    text: &[u8],
    base: &[u8],
    block_size: u32,
    out: &mut HdtBytes,
    report: &mut HdtReport,
)
    ensures { ReportsBuild text.now base.now block_size out.new report.new }
{
    *report = match build_file(alloc, text, base, block_size) {
        Ok((bytes, numbers)) => match out.put(alloc, bytes) {
            Ok(()) => built_report(numbers),
            Err(_) => report_of_fault(BuildFault::OutOfMemory),
        },
        Err(fault) => {
            out.free(alloc);
            report_of_fault(fault)
        }
    };
}
