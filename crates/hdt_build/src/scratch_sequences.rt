//! The canonical encoding of triples on scratch: their measures, and then one sequence after another.
ghost use Rattle.std.specs.Prelude.{◌<◌, [], ℕ, List, length, IfOk, OnOk};
ghost use Rattle.hdt_wire.specs.Control.{control};
ghost use Rattle.hdt_wire.specs.declared.control.Kind.TheVariants as kinds;
ghost use Rattle.hdt_seq.specs.PackedBits.{EachFits};
ghost use Rattle.hdt_triples.specs.Writing.{canonical_triples, order_property, sequences_of};
ghost use Rattle.hdt_build.specs.Inside.EntryWriting.{IsWritingEntries};
ghost use Rattle.hdt_build.specs.Inside.Output.{OutputState, Puts};
ghost use Rattle.hdt_build.specs.Inside.ScratchSequences.{AreMeasures, HaveMeasured, sequence_encoding};
ghost use Rattle.hdt_build.specs.Inside.ScratchSequences.{sequence_head, sequence_width};
ghost use Rattle.hdt_build.specs.Inside.TripleEntries.{entries_of, with_entry};

use crate::chunks::fail_if;
use crate::entry_writer::EntryWriter;
use crate::fault::{BuildFault, ScratchFault};
use crate::output::Output;
use crate::scratch::Scratch;
use crate::triple_cursor::TripleCursor;
use crate::triple_entries::{Sequence, entry_of, next_entry};
use crate::triple_tape::TripleTape;
use hdt_seq::width_of;
use hdt_wire::{Kind, put_control};
use std::alloc::{AllocError, Global};
use std::io::Write;

/// The number of entries of a sequence, and the greatest one; 0 if there is none.
#[derive(Clone, Copy)]
struct EntryMeasure {
    count: u64,
    greatest: u64,
}

impl EntryMeasure {
    /// Adds an entry, if there is one.
    fn add(&mut self, entry: Option<u64>) -> Result<(), AllocError>
        ensures { OnOk result ((all rest : List ℕ) → HaveMeasured all (with_entry entry rest) self.old
            → HaveMeasured all rest self.new) }
    {
        let Some(entry) = entry else {
            return Ok(());
        };
        // No list has so many entries.
        fail_if(self.count == u64::MAX)?;
        self.count += 1;
        self.greatest = self.greatest.max(entry);
        Ok(())
    }
}

/// What the sequences of triples need before their entries.
#[derive(Clone, Copy)]
pub(crate) struct TripleMeasures {
    /// The number of triples.
    pub(crate) triples: u64,
    /// The number of pairs of a subject and a predicate.
    pairs: u64,
    greatest_predicate: u64,
    greatest_object: u64,
}

/// The measures of triples.
pub(crate) fn measure<S: Scratch>(
    alloc: Global,
    triples: &TripleTape<S>,
) -> Result<TripleMeasures, S::Error>
    ensures { IfOk result (λ made. S.IsKnown → AreMeasures triples.now made) }
{
    let none = EntryMeasure {
        count: 0,
        greatest: 0,
    };
    let (mut predicates, mut objects) = (none, none);
    let mut rest = TripleCursor::new(alloc, triples)?;
    'triples: while let Some(triple) = rest.take()? {
        let next = rest.current();
        predicates.add(entry_of(Sequence::Predicates, triple, next))?;
        objects.add(entry_of(Sequence::Objects, triple, next))?;
    }
    Ok(TripleMeasures {
        triples: objects.count,
        pairs: predicates.count,
        greatest_predicate: predicates.greatest,
        greatest_object: objects.greatest,
    })
}

/// Writes what precedes the entries of a sequence.
fn begin_sequence<W: Write + Drop>(
    alloc: Global,
    sequence: Sequence,
    measures: &TripleMeasures,
    out: Output<W>,
) -> Result<EntryWriter<W>, BuildFault>
    ensures { IfOk result
        (IsWritingEntries out (sequence_head sequence measures.now) (sequence_width sequence measures.now) []) }
{
    let TripleMeasures {
        triples,
        pairs,
        greatest_predicate,
        greatest_object,
    } = *measures;
    match sequence {
        Sequence::PairEnds => EntryWriter::bits(alloc, pairs, out),
        Sequence::TripleEnds => EntryWriter::bits(alloc, triples, out),
        Sequence::Predicates => {
            EntryWriter::numbers(alloc, pairs, width_of(&[greatest_predicate]), out)
        }
        Sequence::Objects => {
            EntryWriter::numbers(alloc, triples, width_of(&[greatest_object]), out)
        }
    }
}

/// Writes the entries of a sequence.
fn put_entries<S: Scratch, W: Write>(
    alloc: Global,
    triples: &TripleTape<S>,
    sequence: Sequence,
    writer: &mut EntryWriter<W>,
) -> Result<(), ScratchFault<S::Error>>
    ensures { OnOk result (S.IsKnown → (before : OutputState) (head : List ℕ) (width : ℕ)
        → EachFits width (entries_of sequence triples.now) → IsWritingEntries before head width [] writer.old
        → IsWritingEntries before head width (entries_of sequence triples.now) writer.new) }
{
    let mut rest = TripleCursor::new(alloc, triples).map_err(ScratchFault::Scratch)?;
    'entries: while let Some(entry) = next_entry(sequence, &mut rest).map_err(
        ScratchFault::Scratch,
    )? {
        writer.push(entry)?;
    }
    Ok(())
}

/// Writes a sequence.
fn put_sequence<S: Scratch, W: Write + Drop>(
    alloc: Global,
    triples: &TripleTape<S>,
    measures: &TripleMeasures,
    sequence: Sequence,
    out: Output<W>,
) -> Result<Output<W>, ScratchFault<S::Error>>
    ensures { IfOk result (λ made. S.IsKnown → AreMeasures triples.now measures.now
        → Puts out made (sequence_encoding sequence (sequences_of triples.now))) }
{
    let mut writer = begin_sequence(alloc, sequence, measures, out)?;
    put_entries(alloc, triples, sequence, &mut writer)?;
    Ok(writer.finish()?)
}

/// Writes what precedes the sequences.
fn put_head<W: Write>(alloc: Global, out: &mut Output<W>) -> Result<(), BuildFault>
    ensures { OnOk result (Puts out.old out.new (control kinds.Triples order_property)) }
{
    let mut head = Vec::new(alloc);
    put_control(Kind::Triples, b"order=1;", &mut head)?;
    out.put(head.as_slice())
}

/// Writes the canonical encoding of triples, given their measures. The triples are read four times.
pub(crate) fn put_triples<S: Scratch, W: Write + Drop>(
    alloc: Global,
    triples: &TripleTape<S>,
    measures: &TripleMeasures,
    mut out: Output<W>,
) -> Result<Output<W>, ScratchFault<S::Error>>
    ensures { IfOk result (λ made. S.IsKnown → AreMeasures triples.now measures.now → 0 < length triples.now
        → Puts out made (canonical_triples triples.now)) }
{
    put_head(alloc, &mut out)?;
    let out = put_sequence(alloc, triples, measures, Sequence::PairEnds, out)?;
    let out = put_sequence(alloc, triples, measures, Sequence::TripleEnds, out)?;
    let out = put_sequence(alloc, triples, measures, Sequence::Predicates, out)?;
    put_sequence(alloc, triples, measures, Sequence::Objects, out)
}
