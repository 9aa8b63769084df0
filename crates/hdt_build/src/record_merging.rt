//! Merging runs of records, which are strings with their roles, to the four sections.
ghost use Rattle.std.specs.Prelude.{◌≡◌, ◌≤◌, ◌<◌, ◌/◌, ◌%◌, ◌++◌, ◌∷◌, [], ℕ, List, cond, drop, length, set};
ghost use Rattle.std.specs.Prelude.{slice_index_or};
ghost use Rattle.std.specs.Prelude.{IfOk, IfSome, IsTrue, OnOk, Some, None};
ghost use Rattle.hdt_wire.specs.declared.Role.{Role as RoleValue};
ghost use Rattle.hdt_build.specs.Inside.GroupedSections.{HasGroups};
ghost use Rattle.hdt_build.specs.Inside.Groups.{numbers_of_codes};
ghost use Rattle.hdt_build.specs.Inside.RecordMerging.{AreMergedRecords, IsMergedTo, IsMerging, IsNoted};
ghost use Rattle.hdt_build.specs.Inside.Records.{record_of, role_code};

use crate::four_sections::FinishedSections;
use crate::grouped_sections::{Pushed, SectionBuilder};
use crate::number_tape::{NumberTape, NumberWriter};
use crate::scratch::Scratch;
use crate::string_tape::{StringTape, StringTapeReader};
use crate::tournament::{RunOrder, Tournament};
use hdt_dict::Role;
use std::alloc::{AllocError, Global};
use std::marker::Model;

/// The string and the role of a record; none of other bytes.
fn split_record(bytes: &[u8]) -> Option<(&[u8], Role)>
    ensures { IfSome result (λ made. (role : RoleValue) (text : List ℕ) → bytes.now ≡ record_of role text
        → (made.0.now ≡ text) × (made.1 ≡ role)) }
{
    let len = bytes.len().checked_sub(2)?;
    let role = match bytes[len + 1] {
        1 => Role::Predicate,
        2 => Role::Object,
        3 => Role::Subject,
        _ => return None,
    };
    Some((&bytes[..len], role))
}

/// A cursor over a run. In contracts it is the list of the records that remain.
#[derive(Drop)]
struct RecordCursor<'a, S: Scratch> {
    reader: StringTapeReader<'a, S>,
    has_current: bool,
}

impl<'a, S: Scratch> Model for RecordCursor<'a, S> {
    ghost use Rattle.std.specs.Prelude.{◌∷◌, [], ℕ, List, cond};

    ghost Value = { List (List ℕ) };

    ghost view = { λ c. cond c.has_current (c.reader.0 ∷ c.reader.1) [] };
}

impl<'a, S: Scratch> RecordCursor<'a, S> {
    /// A cursor at the first record.
    fn new(alloc: Global, run: &'a StringTape<S>) -> Result<RecordCursor<'a, S>, S::Error>
        ensures { IfOk result (λ made. S.IsKnown → made ≡ run.now) }
    {
        let mut reader = run.reader(alloc);
        let has_current = reader.next()?;
        Ok(RecordCursor {
            reader,
            has_current,
        })
    }

    /// The current record; none at the end.
    fn current(&self) -> Option<&[u8]>
        ensures some { IfSome result (λ x. self.now ≡ x.now ∷ drop 1 self.now) }
        ensures none { result ≡ None → self.now ≡ [] }
    {
        if self.has_current {
            return Some(self.reader.text());
        }
        None
    }

    /// Advances to the next record.
    fn step(&mut self) -> Result<(), S::Error>
        ensures { OnOk result (S.IsKnown → self.new ≡ drop 1 self.old) }
    {
        if self.has_current {
            self.has_current = self.reader.next()?;
        }
        Ok(())
    }
}

impl<S: Scratch> RunOrder for RecordCursor<'_, S> {
    fn is_at_most(&self, other: &RecordCursor<'_, S>) -> bool {
        match (self.current(), other.current()) {
            (Some(one), Some(two)) => one.cmp(two).is_le(),
            (_, None) => true,
            (None, Some(_)) => false,
        }
    }
}

/// Appends a cursor.
fn push_cursor<'a, S: Scratch>(
    cursor: RecordCursor<'a, S>,
    out: &mut Vec<RecordCursor<'a, S>>,
) -> Result<(), AllocError>
    ensures { OnOk result (out.new.items ≡ out.old.items ++ cursor.entry ∷ []) }
{
    out.push(cursor)?;
    Ok(())
}

/// A cursor for each run.
fn cursors_of<'a, S: Scratch>(
    alloc: Global,
    runs: &'a [StringTape<S>],
) -> Result<Vec<RecordCursor<'a, S>>, S::Error>
    ensures { IfOk result (λ made. S.IsKnown → made.items ≡ runs.now) }
{
    let mut made = Vec::new(alloc);
    for run in runs {
        let cursor = RecordCursor::new(alloc, run)?;
        push_cursor(cursor, &mut made)?;
    }
    Ok(made)
}

/// The current record of a run; none at the end.
fn current<'a, S: Scratch>(cursors: &'a [RecordCursor<'_, S>], run: usize) -> Option<&'a [u8]>
    ensures within { IfSome result (λ x. run < length cursors.now) }
    ensures first { IfSome result
        (λ x. slice_index_or cursors.now run [] ≡ x.now ∷ drop 1 (slice_index_or cursors.now run [])) }
{
    if run >= cursors.len() {
        return None;
    }
    cursors[run].current()
}

/// Advances the cursor of a run to its next record.
fn step_run<S: Scratch>(cursors: &mut Vec<RecordCursor<'_, S>>, run: usize) -> Result<(), S::Error>
    requires { run < length cursors.old.items }
    ensures { OnOk result (S.IsKnown
        → cursors.new.items ≡ set cursors.old.items run (drop 1 (slice_index_or cursors.old.items run []))) }
{
    cursors[run].step()
}

/// Whether no records remain.
fn are_done<S: Scratch>(cursors: &[RecordCursor<'_, S>]) -> bool
    ensures { IsTrue result → (b : ℕ) → b < length cursors.now → slice_index_or cursors.now b [] ≡ [] }
{
    for at in 0..cursors.len() {
        let cursor = &cursors[at];
        if cursor.has_current {
            return false;
        }
    }
    true
}

/// Appends the two numbers of a string.
#[tactic(auto, using(std::proofs::Common::append_assoc))]
fn push_codes<S: Scratch>(
    codes: Option<(u64, u64)>,
    numbers: &mut NumberWriter<S>,
) -> Result<(), S::Error>
    ensures { OnOk result (S.IsKnown → numbers.new ≡ numbers.old ++ numbers_of_codes codes) }
{
    if let Some((node, predicate)) = codes {
        numbers.push(node)?;
        numbers.push(predicate)?;
    }
    Ok(())
}

/// Appends the numbers that a push gave; returns 1 if it began a string, and else 0. None if the string was refused.
fn note_push<S: Scratch>(
    pushed: Pushed,
    numbers: &mut NumberWriter<S>,
) -> Result<Option<u64>, S::Error>
    ensures { IfOk result (λ r. IfSome r (λ begins. IsNoted S.IsKnown pushed begins numbers.old numbers.new)) }
{
    match pushed {
        Pushed::Refused => Ok(None),
        Pushed::Added => Ok(Some(0)),
        Pushed::Began(codes) => {
            push_codes(codes, numbers)?;
            Ok(Some(1))
        }
    }
}

/// The second number of an event. None if there are too many runs for it.
fn target_of(run: usize, role: Role) -> Option<u64>
    ensures run { IfSome result (λ t. t / 4 ≡ run) }
    ensures role { IfSome result (λ t. t % 4 ≡ role_code role) }
{
    let first = (run as u64).checked_mul(4)?;
    let number = match role {
        Role::Predicate => 1,
        Role::Object => 2,
        Role::Subject => 3,
    };
    Some(first + number)
}

/// Appends an event.
#[tactic(auto, using(std::proofs::Common::append_assoc))]
fn push_event<S: Scratch>(
    begins: u64,
    target: u64,
    events: &mut NumberWriter<S>,
) -> Result<(), S::Error>
    ensures { OnOk result (S.IsKnown → events.new ≡ events.old ++ begins ∷ target ∷ []) }
{
    events.push(begins)?;
    events.push(target)
}

/// Takes the current record of a run: its string becomes a group, or its role one of the current group. False if the
/// run is at its end, or the record is refused.
fn take_record<S: Scratch + Drop>(
    cursors: &mut Vec<RecordCursor<'_, S>>,
    run: usize,
    builder: &mut SectionBuilder<S>,
    numbers: &mut NumberWriter<S>,
    events: &mut NumberWriter<S>,
) -> Result<bool, S::Error>
    ensures { IfOk result (λ taken. IsTrue taken → (n : ℕ) (runs : List (List (List ℕ)))
        → IsMerging S.IsKnown n runs cursors.old.items builder.old numbers.old events.old
        → IsMerging S.IsKnown n runs cursors.new.items builder.new numbers.new events.new) }
{
    let Some(bytes) = current(cursors.as_slice(), run) else {
        return Ok(false);
    };
    let Some((text, role)) = split_record(bytes) else {
        return Ok(false);
    };
    let Some(target) = target_of(run, role) else {
        return Ok(false);
    };
    let pushed = builder.push(text, role)?;
    let Some(begins) = note_push(pushed, numbers)? else {
        return Ok(false);
    };
    push_event(begins, target, events)?;
    step_run(cursors, run)?;
    Ok(true)
}

/// The sections of merged runs.
#[derive(Drop)]
pub(crate) struct MergedRecords<S: Scratch> {
    pub(crate) sections: FinishedSections<S>,
    /// Two numbers for each string: the code of its node, and its ID as a predicate.
    pub(crate) numbers: NumberTape<S>,
    /// Two numbers for each record: whether it is the first of its string; and 4 times its run plus its role.
    pub(crate) events: NumberTape<S>,
}

/// The number of all records.
fn record_count<S: Scratch>(runs: &[StringTape<S>]) -> usize {
    let mut sum: usize = 0;
    for run in runs {
        sum = sum.saturating_add(run.len());
    }
    sum
}

/// Takes all records of runs, with a builder without strings. False if they do not ascend, or have other bytes than
/// records.
fn take_records<S: Scratch + Drop>(
    alloc: Global,
    runs: &[StringTape<S>],
    builder: &mut SectionBuilder<S>,
    numbers: &mut NumberWriter<S>,
    events: &mut NumberWriter<S>,
) -> Result<bool, S::Error>
    requires numbers { S.IsKnown → numbers.old ≡ [] }
    requires events { S.IsKnown → events.old ≡ [] }
    ensures { IfOk result (λ done. IsTrue done → (n : ℕ) → HasGroups n builder.old [] []
        → IsMergedTo S.IsKnown n runs.now builder.new numbers.new events.new) }
{
    let mut cursors = cursors_of(alloc, runs)?;
    let mut order = Tournament::new(alloc, cursors.as_slice())?;
    'records: for _ in 0..record_count(runs) {
        let run = order.winner();
        if !take_record(&mut cursors, run, builder, numbers, events)? {
            return Ok(false);
        }
        order.replay(cursors.as_slice());
    }
    Ok(are_done(cursors.as_slice()))
}

/// Merges ascending runs of records to sections, with a builder without strings. None if they do not ascend, or have
/// other bytes than records.
fn merge_records<S: Scratch + Drop>(
    alloc: Global,
    runs: &[StringTape<S>],
    builder: SectionBuilder<S>,
    numbers: &mut NumberWriter<S>,
    events: &mut NumberWriter<S>,
) -> Result<Option<FinishedSections<S>>, S::Error>
    requires numbers { S.IsKnown → numbers.old ≡ [] }
    requires events { S.IsKnown → events.old ≡ [] }
    ensures { IfOk result (λ found. IfSome found (λ made. (n : ℕ) → HasGroups n builder [] []
        → AreMergedRecords S.IsKnown n runs.now made numbers.new events.new)) }
{
    let mut builder = builder;
    if !take_records(alloc, runs, &mut builder, numbers, events)? {
        return Ok(None);
    }
    let (sections, codes) = builder.finish()?;
    push_codes(codes, numbers)?;
    Ok(Some(sections))
}

/// Writes what is left of two lists.
fn finish_lists<S: Scratch + Drop>(
    numbers: NumberWriter<S>,
    events: NumberWriter<S>,
) -> Result<(NumberTape<S>, NumberTape<S>), S::Error>
    ensures { IfOk result (λ made. S.IsKnown → (made.0 ≡ numbers) × (made.1 ≡ events)) }
{
    let numbers = numbers.finish()?;
    let events = events.finish()?;
    Ok((numbers, events))
}

/// The sections of ascending runs of records, and the lists for their IDs. None if the runs do not ascend, or have
/// other bytes than records.
pub(crate) fn merged_records<S: Scratch + Drop>(
    alloc: Global,
    scratch: &mut S,
    chunk_len: usize,
    runs: &[StringTape<S>],
    block_size: u32,
) -> Result<Option<MergedRecords<S>>, S::Error>
    requires { 1 ≤ block_size }
    ensures { IfOk result (λ found. IfSome found (λ made. AreMergedRecords S.IsKnown block_size runs.now made.sections
        made.numbers made.events)) }
{
    let mut numbers = NumberWriter::new(alloc, scratch.fresh()?, chunk_len);
    let mut events = NumberWriter::new(alloc, scratch.fresh()?, chunk_len);
    let builder = SectionBuilder::new(alloc, scratch, chunk_len, block_size)?;
    let Some(sections) = merge_records(alloc, runs, builder, &mut numbers, &mut events)? else {
        return Ok(None);
    };
    let (numbers, events) = finish_lists(numbers, events)?;
    Ok(Some(MergedRecords {
        sections,
        numbers,
        events,
    }))
}
