//! The command `lint`: reports every faulty line of a document.
ghost use Rattle.std.specs.Prelude.{◌≡◌, ◌≢◌, ◌⊎◌, ◌+◌, ℕ, IfOk, IfErr, IsErrOf, OnOk, ◌<◌, ◌^◌};
ghost use Rattle.hdt_wire.specs.Counted.{inner, failures};
ghost use Rattle.hdt_terms.specs.Lint.{GainsBytes};
ghost use Rattle.hdt_tool.specs.Changes.{change};
ghost use Rattle.hdt_tool.specs.Linting.{IsAny, Lints, LintsUntilError, longest_line, most_faulty};

use crate::error_context::ErrorSource;
use crate::error_hints::print_document_hint;
use crate::fault::{ToolFault, line_fault};
use crate::files::open_input;
use hdt_terms::{LintFault, MAX_INPUT_LEN, lint_document};
use hdt_wire::Counted;
use std::alloc::Global;
use std::io::{self, Read, Write};

impl From<LintFault> for ToolFault {
    ghost use Rattle.hdt_tool.specs.Linting.{lint_fault_of};

    ghost from_gives = { λ fault e. e ≡ lint_fault_of fault };

    fn from(fault: LintFault) -> ToolFault {
        match fault {
            LintFault::Line(fault) => line_fault(fault),
            LintFault::Write(count) => ToolFault::Write(count),
            LintFault::OutOfMemory => ToolFault::OutOfMemory,
        }
    }
}

/// The number of faulty lines after which to stop.
fn most_faulty(most: Option<u64>) -> u64
    ensures { result ≡ most_faulty most }
{
    most.unwrap_or(u64::MAX)
}

/// The greatest number of bytes of a line: the given one, or that of an input.
fn longest_line(longest: Option<u64>) -> u64
    ensures value { result ≡ longest_line longest }
    ensures limit { result < 2 ^ 63 }
{
    match longest {
        Some(longest) => longest.min(MAX_INPUT_LEN),
        None => MAX_INPUT_LEN,
    }
}

/// Whether a number is above zero.
fn is_any(count: u64) -> bool
    ensures { IsAny count result }
{
    count > 0
}

/// What `lint` checks and prints.
#[derive(Clone, Copy)]
pub(crate) struct LintOptions {
    /// The greatest number of bytes of a line, without its end; `None` for no limit.
    longest: Option<u64>,
    /// Whether the lines without an error are printed.
    keep: bool,
    /// The number of faulty lines after which to stop; `None` for no limit.
    most: Option<u64>,
}

/// Checks the lines of a document and reports each faulty one to `reported`, as [`lint_document`] does. Returns whether
/// there are any. Writes the lines without an error to `kept`, if they are wanted.
///
/// # Errors
///
/// [`ToolFault::Read`] if the reader failed, [`ToolFault::Write`] if a writer did, [`ToolFault::Input`] if the input
/// has 2^63 bytes or more, and [`ToolFault::OutOfMemory`].
pub(crate) fn lint_input<R: Read, K: Write, T: Write>(
    alloc: Global,
    options: LintOptions,
    input: &mut Counted<R>,
    kept: &mut Counted<K>,
    reported: &mut Counted<T>,
) -> Result<bool, ToolFault>
    // All lines were checked, or those up to the last of `most` faulty ones; the result is whether any is faulty.
    ensures ok { IfOk result (Lints options (change R.remaining input.old input.new)
        (change K.contents kept.old kept.new) (change T.contents reported.old reported.new)) }
    ensures writer_unfailed { OnOk result ((failures kept.new ≡ failures kept.old)
        × (failures reported.new ≡ failures reported.old)) }
    // `Write(n)`: one of them failed once in this call, after it had gained n bytes, and the other one did not fail.
    ensures write { IfErr result (λ e. (n : ℕ) → e ≡ ToolFault.Write n
        → ((failures kept.new ≡ failures kept.old + 1) × (failures reported.new ≡ failures reported.old)
        × GainsBytes n (K.contents (inner kept.old)) (K.contents (inner kept.new)))
        ⊎ ((failures kept.new ≡ failures kept.old) × (failures reported.new ≡ failures reported.old + 1)
        × GainsBytes n (T.contents (inner reported.old)) (T.contents (inner reported.new)))) }
    // The writers have gained a prefix of the output for some first lines; all lines before one that cannot be read.
    ensures stopped { IfErr result
        (LintsUntilError options (change R.remaining input.old input.new)
        (change K.contents kept.old kept.new) (change T.contents reported.old reported.new)) }
    // `Read`: the reader failed once in this call. With any other result it did not fail.
    ensures read { IsErrOf result ToolFault.Read → failures input.new ≡ failures input.old + 1 }
    ensures reader_unfailed { OnOk result (failures input.new ≡ failures input.old) }
    ensures reader_reported { IfErr result (λ e. e ≢ ToolFault.Read → failures input.new ≡ failures input.old) }
{
    let (longest, most) = (longest_line(options.longest), most_faulty(options.most));
    let count = lint_document(alloc, longest, options.keep, most, input, kept, reported)?;
    Ok(is_any(count))
}

/// Lints the document at a path, as [`lint_input`] does. The reports go to standard output; with `keep`, to standard
/// error, and the lines without an error to standard output. Prints a hint if any line is faulty.
pub(crate) fn lint_path(
    rt: &HostRuntime,
    source: ErrorSource<'_>,
    path: &str,
    keep: bool,
    most: Option<u64>,
) -> Result<bool, ToolFault> {
    let session = source.session;
    let options = LintOptions {
        longest: session.longest_line(),
        keep,
        most,
    };
    let mut input = Counted::new(open_input(rt, path, session)?);
    let mut out = Counted::new(session.watch(io::writer(rt)));
    let mut errors = Counted::new(session.watch(rt.stderr()));
    let faulty = if keep {
        lint_input(rt.alloc(), options, &mut input, &mut out, &mut errors)?
    } else {
        lint_input(rt.alloc(), options, &mut input, &mut errors, &mut out)?
    };
    if faulty {
        session.clear();
        print_document_hint(rt, source);
    }
    Ok(faulty)
}
