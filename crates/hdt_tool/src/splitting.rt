//! `split`: several documents into the parts of one graph, by subject.
ghost use Rattle.std.specs.Prelude.{◌≡◌, ◌≢◌, ◌<◌, ◌^◌, ℕ, IfOk, IfErr, OnOk, length, map, true};
ghost use Rattle.hdt_wire.specs.Counted.{inner, failures};
ghost use Rattle.hdt_dict.specs.Strings.{IsDictionaryString};
ghost use Rattle.hdt_terms.specs.Split.{FailsOnce};
ghost use Rattle.hdt_terms.specs.declared.split.SplitFault.TheVariants as SplitFault;
ghost use Rattle.hdt_tool.specs.Changes.{update};
ghost use Rattle.hdt_tool.specs.SplitInputs.{IsBlankNodesFault, SplitsInTurn, StopsInTurn, first_turn};
ghost use Rattle.hdt_tool.specs.SplitInputs.{MixesBlankNodes, first_with_blank_nodes, input_prefix};
ghost use Rattle.hdt_tool.specs.declared.splitting.SplitInputsFault.TheVariants as SplitInputsFault;

use crate::request::BlankNodes;
use hdt_build::apart_prefix;
use hdt_terms::{SplitFault, split_document};
use hdt_wire::Counted;
use std::alloc::{AllocError, Global};
use std::io::{Read, Write};

/// Why [`split_inputs`] stopped. Inputs are numbered from 0.
#[derive(Clone, Copy, Debug, PartialEq, Eq)]
pub(crate) enum SplitInputsFault {
    /// The input with this number has an error, could not be read, or a part of it not written.
    Input(u64, SplitFault),
    /// Both inputs have blank nodes, and whether a label is one node in both was not said.
    BlankNodes(u64, u64),
    /// Memory ran out before the next input was read.
    OutOfMemory,
}

impl From<AllocError> for SplitInputsFault {
    ghost from_gives = { λ _ e. e ≡ SplitInputsFault.OutOfMemory };

    fn from(_error: AllocError) -> SplitInputsFault {
        SplitInputsFault::OutOfMemory
    }
}

/// What goes before the labels of an input.
pub(crate) fn input_prefix(
    alloc: Global,
    blank_nodes: Option<BlankNodes>,
    number: u64,
) -> Result<Vec<u8>, AllocError>
    ensures is { IfOk result (λ prefix. prefix.items ≡ input_prefix blank_nodes number) }
    ensures text { IfOk result (λ prefix. IsDictionaryString prefix.items) }
{
    match blank_nodes {
        Some(BlankNodes::Apart) => apart_prefix(alloc, number),
        Some(BlankNodes::One) => Ok(Vec::new(alloc)),
        None => Ok(Vec::new(alloc)),
    }
}

/// The first input with blank nodes so far; an error if this is another one and it matters.
pub(crate) fn first_with_blank_nodes(
    blank_nodes: Option<BlankNodes>,
    first: Option<u64>,
    number: u64,
    has_blank_nodes: bool,
) -> Result<Option<u64>, SplitInputsFault>
    ensures ok { IfOk result (λ next. (next ≡ first_with_blank_nodes first number has_blank_nodes)
        × (MixesBlankNodes blank_nodes first has_blank_nodes → ⊥)) }
    ensures err { IfErr result (λ stop. IsBlankNodesFault blank_nodes first number stop × (has_blank_nodes ≡ true)) }
{
    match (blank_nodes, first, has_blank_nodes) {
        (None, Some(first), true) => Err(SplitInputsFault::BlankNodes(first, number)),
        (_, None, true) => Ok(Some(number)),
        _ => Ok(first),
    }
}

/// Splits documents, one after another: each line with a triple goes whole to the writer of the part of its subject
/// ([`part_of`](hdt_terms::part_of) its dictionary string), in the order of inputs and lines; other lines go nowhere.
/// There are as many parts as writers. With `Apart` the labels of blank nodes get a prefix: `f0_` those of the first
/// input, `f1_` those of the second one, and so on. Each input is dropped before the next one is read.
///
/// Linear time. Memory: the longest line, twice, and 64 KiB for the input and for each part.
///
/// # Errors
///
/// [`SplitInputsFault::Input`] with the first error of the first input that has one; [`SplitInputsFault::BlankNodes`]
/// once a second input with blank nodes is read, if `blank_nodes` is `None`; [`SplitInputsFault::OutOfMemory`].
pub(crate) fn split_inputs<R: Read + Drop, W: Write>(
    alloc: Global,
    blank_nodes: Option<BlankNodes>,
    inputs: Vec<R>,
    outs: &mut [Counted<W>],
) -> Result<(), SplitInputsFault>
    requires parts { (0 < length outs.old) × (length outs.old < 2 ^ 32) }
    // Each input in turn was split: the writers have gained the lines of their parts of all of them.
    ensures ok { OnOk result (SplitsInTurn (first_turn blank_nodes) (map (λ input. R.remaining input) inputs.items)
        (update (map (λ out. W.contents (inner out)) outs.old) (map (λ out. W.contents (inner out)) outs.new))) }
    // The inputs before that of the error were split, and a prefix of its lines.
    ensures stopped { IfErr result (StopsInTurn (first_turn blank_nodes) (map (λ input. R.remaining input) inputs.items)
        (update (map (λ out. W.contents (inner out)) outs.old) (map (λ out. W.contents (inner out)) outs.new))) }
    // The writer of the part that `Write` names failed, once, and no other writer. At any other result none failed.
    ensures write { IfErr result (λ e. (k part : ℕ) → e ≡ SplitInputsFault.Input k (SplitFault.Write part)
        → FailsOnce part (map failures outs.old) (map failures outs.new)) }
    ensures others { IfErr result (λ e. ((k part : ℕ) → e ≢ SplitInputsFault.Input k (SplitFault.Write part))
        → map failures outs.new ≡ map failures outs.old) }
    ensures writer_unfailed { OnOk result (map failures outs.new ≡ map failures outs.old) }
{
    let mut first = None;
    let mut number = 0;
    'inputs: for input in inputs {
        let mut input = Counted::new(input);
        let prefix = input_prefix(alloc, blank_nodes, number)?;
        let report = match split_document(alloc, &prefix, &mut input, outs) {
            Ok(report) => report,
            Err(fault) => return Err(SplitInputsFault::Input(number, fault)),
        };
        first = first_with_blank_nodes(blank_nodes, first, number, report.has_blank_nodes)?;
        number += 1;
    }
    Ok(())
}
