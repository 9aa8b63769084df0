//! Replacing the header of a file.
ghost use Rattle.std.specs.Prelude.{◌≡◌};
ghost use Rattle.hdt_c.specs.NewHeader.{ReportsNewHeader, report_of_header_fault, verdict_of_header_fault};

use crate::building::{built_report, report_for};
use crate::bytes::HdtBytes;
use crate::report::HdtReport;
use crate::rewriting::rewritten_verdict;
use crate::verdict::{HdtVerdict, OUT_OF_MEMORY, verdict_for, verdict_of_result};
use hdt_build::{HeaderFault, with_header};
use hdt_file::OpenFault;
use std::alloc::Global;

/// The verdict on the file.
fn verdict_of_fault(fault: HeaderFault) -> HdtVerdict
    ensures { result ≡ verdict_of_header_fault fault }
{
    match fault {
        HeaderFault::File(fault) => verdict_of_result(Err(OpenFault::Fault(fault))),
        HeaderFault::Line(_) => verdict_for(0),
        HeaderFault::OutOfMemory => verdict_for(OUT_OF_MEMORY),
    }
}

/// The report on the header.
fn report_of_fault(fault: HeaderFault) -> HdtReport
    ensures { result ≡ report_of_header_fault fault }
{
    match fault {
        HeaderFault::File(_) => report_for(0),
        HeaderFault::Line(line) => HdtReport {
            reason: u32::from(line.reason.number()),
            line: line.line,
            column: line.column,
            counts: [0; 5],
        },
        HeaderFault::OutOfMemory => report_for(OUT_OF_MEMORY),
    }
}

/// `hdt_with_header`: replaces the header of a file, and nothing else. On an error `out` has no bytes.
#[unsafe(no_mangle)]
pub extern "C" fn hdt_with_header(
    alloc: Global,
    bytes: &[u8],
    header: &[u8],
    out: &mut HdtBytes,
    verdict: &mut HdtVerdict,
    report: &mut HdtReport,
)
    ensures { ReportsNewHeader header.now bytes.now out.new verdict.new report.new }
{
    match with_header(alloc, bytes, header) {
        Ok((new, counts)) => match out.put(alloc, new) {
            Ok(()) => {
                *verdict = rewritten_verdict(counts);
                *report = built_report(counts);
            }
            Err(_) => {
                *verdict = verdict_of_fault(HeaderFault::OutOfMemory);
                *report = report_of_fault(HeaderFault::OutOfMemory);
            }
        },
        Err(fault) => {
            out.free(alloc);
            *verdict = verdict_of_fault(fault);
            *report = report_of_fault(fault);
        }
    }
}
