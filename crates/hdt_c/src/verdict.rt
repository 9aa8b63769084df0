//! Verifying a file.
ghost use Rattle.std.specs.Prelude.{◌≡◌, IsOk};
ghost use Rattle.hdt_file.specs.File.{decode_graph};
ghost use Rattle.hdt_file.specs.Tight.{decode_tight_graph};
ghost use Rattle.hdt_c.specs.Verdicts.{IsVerdictOn, verdict_for, verdict_of_result};

use hdt_file::{OpenFault, verify, verify_tight};
use std::alloc::Global;

/// `HDT_OUT_OF_MEMORY`: memory ran out.
pub(crate) const OUT_OF_MEMORY: u32 = 255;

/// `HDT_BAD_OPTIONS`: the options are not valid.
pub(crate) const BAD_OPTIONS: u32 = 252;

/// `hdt_verdict`: the result of verifying a file.
#[repr(C)]
#[derive(Clone, Copy)]
pub struct HdtVerdict {
    /// 0: valid; 1 to 34: the number of the first error's reason; 255: out of memory; or another one of c/hdt.h.
    pub reason: u32,
    /// The byte offset of the error; 0 if there is none.
    pub place: u64,
    /// The number of triples, then of strings: shared, subjects, predicates, objects; zeros if the reason isn't 0.
    pub counts: [u64; 5],
}

/// The verdict of a result.
pub(crate) fn verdict_of_result(got: Result<[u64; 5], OpenFault>) -> HdtVerdict
    ensures exact { result ≡ verdict_of_result got }
    ensures done { result.reason ≡ 0 → IsOk got }
{
    match got {
        Ok(counts) => HdtVerdict {
            reason: 0,
            place: 0,
            counts,
        },
        Err(OpenFault::Fault(fault)) => HdtVerdict {
            reason: u32::from(fault.reason.number()),
            place: fault.place,
            counts: [0; 5],
        },
        Err(OpenFault::OutOfMemory) => verdict_for(OUT_OF_MEMORY),
    }
}

/// A verdict with a reason but no byte offset.
pub(crate) fn verdict_for(reason: u32) -> HdtVerdict
    ensures { result ≡ verdict_for reason }
{
    HdtVerdict {
        reason,
        place: 0,
        counts: [0; 5],
    }
}

/// `hdt_verify`: verifies a file, as `hdt_file::verify` does.
#[unsafe(no_mangle)]
pub extern "C" fn hdt_verify(alloc: Global, bytes: &[u8], verdict: &mut HdtVerdict)
    // The verdict is that on the bytes, or says that memory ran out.
    ensures { IsVerdictOn verdict.new (decode_graph bytes.now) }
{
    *verdict = verdict_of_result(verify(alloc, bytes));
}

/// `hdt_verify_tight`: verifies a file whose strings have to be used, as `hdt_file::verify_tight` does.
#[unsafe(no_mangle)]
pub extern "C" fn hdt_verify_tight(alloc: Global, bytes: &[u8], verdict: &mut HdtVerdict)
    // The verdict is that on the bytes, or says that memory ran out.
    ensures { IsVerdictOn verdict.new (decode_tight_graph bytes.now) }
{
    *verdict = verdict_of_result(verify_tight(alloc, bytes));
}
