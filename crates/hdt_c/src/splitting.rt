//! Splitting N-Triples by the subjects of its triples.
ghost use Rattle.std.specs.Prelude.{◌≡◌, ◌<◌, Some, [], IfOk, IfErr, map, replicate};
ghost use Rattle.std.specs.List.{concat};
ghost use Rattle.hdt_dict.specs.StringBatch.{ends_from};
ghost use Rattle.hdt_c.specs.Splitting.{HasSplitFault, JoinsParts, ReportsSplit, SplitsText, report_of_line};
ghost use Rattle.hdt_c.specs.Splitting.{split_report, split_report_for, split_report_of_fault, written_text};
ghost use Rattle.hdt_c.specs.Splitting.{written_texts};

use crate::bytes::{HdtBytes, copy_into};
use crate::report::HdtSplitReport;
use crate::verdict::{BAD_OPTIONS, OUT_OF_MEMORY};
use hdt_terms::{LineFault, LineReason, MAX_PARTS, SplitFault, SplitReport, split_document};
use hdt_wire::Counted;
use std::alloc::{AllocError, Global};

/// A report with a reason but no line.
fn split_report_for(reason: u32) -> HdtSplitReport
    ensures { result ≡ split_report_for reason }
{
    HdtSplitReport {
        reason,
        has_blank_nodes: 0,
        line: 0,
        column: 0,
        lines: 0,
        triples: 0,
    }
}

/// The report of a text that was split.
fn split_report(report: SplitReport) -> HdtSplitReport
    ensures { result ≡ split_report report }
{
    HdtSplitReport {
        reason: 0,
        has_blank_nodes: if report.has_blank_nodes { 1 } else { 0 },
        line: 0,
        column: 0,
        lines: report.lines,
        triples: report.triples,
    }
}

/// The report of a faulty line.
fn report_of_line(fault: LineFault) -> HdtSplitReport
    ensures { result ≡ report_of_line fault }
{
    match fault.reason {
        LineReason::OutOfMemory => split_report_for(OUT_OF_MEMORY),
        reason => HdtSplitReport {
            reason: u32::from(reason.number()),
            has_blank_nodes: 0,
            line: fault.line,
            column: fault.column,
            lines: 0,
            triples: 0,
        },
    }
}

/// The report of an error.
fn split_report_of_fault(fault: SplitFault) -> HdtSplitReport
    ensures { result ≡ split_report_of_fault fault }
{
    match fault {
        SplitFault::Line(line) => report_of_line(line),
        SplitFault::Write(_) | SplitFault::OutOfMemory => split_report_for(OUT_OF_MEMORY),
    }
}

/// Writers into memory, one for each part.
fn empty_writers(alloc: Global, parts: u32) -> Result<Vec<Counted<Vec<u8>>>, AllocError>
    ensures { IfOk result (λ outs. map (λ out. Some (written_text out)) outs.items ≡ replicate parts (Some [])) }
{
    let mut outs = Vec::new(alloc);
    'parts: while outs.len() < parts as usize {
        outs.push(Counted::new(Vec::new(alloc)))?;
    }
    Ok(outs)
}

/// The texts one after another, and the byte offset at which each ends.
fn join(alloc: Global, outs: Vec<Counted<Vec<u8>>>) -> Result<(Vec<u8>, Vec<u64>), AllocError>
    ensures bytes { IfOk result (λ joined. joined.0.items ≡ concat (written_texts outs.items)) }
    ensures ends { IfOk result (λ joined. joined.1.items ≡ ends_from 0 (written_texts outs.items)) }
{
    let mut bytes = Vec::new(alloc);
    let mut ends = Vec::new(alloc);
    'outs: for out in outs {
        let text = out.into_inner();
        bytes.extend_from_slice(&text)?;
        ends.push(bytes.len() as u64)?;
    }
    Ok((bytes, ends))
}

/// The text of each part.
fn texts_of_parts(
    alloc: Global,
    text: &[u8],
    parts: u32,
    prefix: &[u8],
) -> Result<(Vec<Counted<Vec<u8>>>, SplitReport), SplitFault>
    requires { 0 < parts }
    ensures ok { IfOk result (λ made. SplitsText text.now parts prefix.now (written_texts made.0.items) made.1) }
    ensures err { IfErr result (HasSplitFault text.now) }
{
    let mut outs = empty_writers(alloc, parts)?;
    let report = split_document(alloc, prefix, &mut Counted::new(text), &mut outs)?;
    Ok((outs, report))
}

/// The texts of the parts one after another, and the byte offset at which each ends.
fn join_parts(
    alloc: Global,
    text: &[u8],
    parts: u32,
    prefix: &[u8],
) -> Result<(Vec<u8>, Vec<u64>, SplitReport), SplitFault>
    requires { 0 < parts }
    ensures ok { IfOk result (λ made. JoinsParts text.now parts prefix.now made.0.items made.1.items made.2) }
    ensures err { IfErr result (HasSplitFault text.now) }
{
    let (outs, report) = texts_of_parts(alloc, text, parts, prefix)?;
    let (bytes, ends) = join(alloc, outs)?;
    Ok((bytes, ends, report))
}

/// `hdt_split`: splits an N-Triples document by the subjects of its triples. `out` has the texts of the parts one after
/// another, and the byte offset at which each ends is written to `ends`, as many as fit. On an error `out` has no
/// bytes, and `ends` is unchanged.
#[unsafe(no_mangle)]
pub extern "C" fn hdt_split(
    alloc: Global,
    text: &[u8],
    parts: u32,
    prefix: &[u8],
    out: &mut HdtBytes,
    ends: &mut [u64],
    report: &mut HdtSplitReport,
)
    ensures { ReportsSplit text.now parts prefix.now out.new ends.old ends.new report.new }
{
    if parts == 0 || parts > MAX_PARTS {
        out.free(alloc);
        *report = split_report_for(BAD_OPTIONS);
        return;
    }
    *report = match join_parts(alloc, text, parts, prefix) {
        Ok((bytes, offsets, found)) => match out.put(alloc, bytes) {
            Ok(()) => {
                copy_into(&offsets, ends);
                split_report(found)
            }
            Err(_) => split_report_for(OUT_OF_MEMORY),
        },
        Err(fault) => {
            out.free(alloc);
            split_report_of_fault(fault)
        }
    };
}
