//! Merging runs of records: the IDs of the records of each run.
ghost use Rattle.std.specs.Prelude.{◌≡◌, ◌<◌, ◌+◌, ◌/◌, ◌%◌, ◌^◌, ◌++◌, ◌∷◌, [], ℕ, List, length, slice_index_or, cond};
ghost use Rattle.std.specs.Prelude.{nat_eq, IfOk, IfSome, IsTrue, None, OnOk, Some};
ghost use Rattle.hdt_build.specs.Inside.Events.{advanced, dealt, pairs_of, id_of_codes};

use crate::number_tape::{NumberTape, NumberTapeReader, NumberWriter};
use crate::scratch::Scratch;
use std::alloc::Global;

/// Reads two numbers; none at the end.
#[tactic(auto, unfolding(crate::specs::Inside::Events::pairs_of))]
fn next_pair<S: Scratch>(
    numbers: &mut NumberTapeReader<'_, S>,
) -> Result<Option<(u64, u64)>, S::Error>
    ensures { IfOk result (λ r. IfSome r (λ pair. S.IsKnown → pairs_of numbers.old ≡ pair ∷ pairs_of numbers.new)) }
{
    let Some(one) = numbers.next()? else {
        return Ok(None);
    };
    let Some(two) = numbers.next()? else {
        return Ok(None);
    };
    Ok(Some((one, two)))
}

/// Reads an event; none at the end.
fn next_event<S: Scratch>(
    events: &mut NumberTapeReader<'_, S>,
) -> Result<Option<(u64, u64)>, S::Error>
    ensures { IfOk result (λ r. IfSome r (λ event. S.IsKnown → events.old ≡ event.0 ∷ event.1 ∷ events.new)) }
{
    let Some(begins) = events.next()? else {
        return Ok(None);
    };
    let Some(target) = events.next()? else {
        return Ok(None);
    };
    Ok(Some((begins, target)))
}

/// The current pair after an event. None if there is none.
#[tactic(auto, unfolding(crate::specs::Inside::Events::advanced))]
fn pair_after<S: Scratch>(
    begins: u64,
    current: Option<(u64, u64)>,
    numbers: &mut NumberTapeReader<'_, S>,
) -> Result<Option<(u64, u64)>, S::Error>
    ensures { IfOk result (λ r. IfSome r (λ pair. S.IsKnown
        → advanced begins current (pairs_of numbers.old) ≡ (Some pair, pairs_of numbers.new))) }
{
    if begins == 0 {
        return Ok(current);
    }
    next_pair(numbers)
}

/// The ID of a record with this role, given the code of its node and its ID as a predicate. None if it is too great for
/// a `u64`.
#[tactic(auto, unfolding(crate::specs::Inside::Events::id_of_codes))]
fn record_id(shared: u64, role: u64, codes: (u64, u64)) -> Option<u64>
    ensures { IfSome result (λ id. id ≡ id_of_codes shared role codes) }
{
    let (node, predicate) = codes;
    if role == 1 {
        return Some(predicate);
    }
    if node % 2 == 0 {
        return Some(node / 2);
    }
    (node / 2).checked_add(shared)
}

/// Appends a number to one of the lists. False if there is none with this index.
fn push_to<S: Scratch>(
    lists: &mut Vec<NumberWriter<S>>,
    index: u64,
    number: u64,
) -> Result<bool, S::Error>
    ensures long { length lists.new.items ≡ length lists.old.items }
    ensures pushed { IfOk result (λ done. IsTrue done → S.IsKnown → (b : ℕ) → b < length lists.old.items
        → slice_index_or lists.new.items b []
        ≡ slice_index_or lists.old.items b [] ++ cond (nat_eq index b) (number ∷ []) []) }
{
    let index = index as usize;
    if index >= lists.len() {
        return Ok(false);
    }
    lists[index].push(number)?;
    Ok(true)
}

/// Appends the ID of each record to the list of its run. False if the events or the numbers end too soon, which they do
/// not.
#[tactic(auto, unfolding(crate::specs::Inside::Events::dealt))]
pub(crate) fn distribute<S: Scratch>(
    alloc: Global,
    events: &NumberTape<S>,
    numbers: &NumberTape<S>,
    shared: u64,
    lists: &mut Vec<NumberWriter<S>>,
) -> Result<bool, S::Error>
    ensures long { length lists.new.items ≡ length lists.old.items }
    ensures dealt { IfOk result (λ done. IsTrue done → S.IsKnown → (b : ℕ) → b < length lists.old.items
        → slice_index_or lists.new.items b []
        ≡ slice_index_or lists.old.items b [] ++ dealt (id_of_codes shared) b None (pairs_of numbers.now) events.now) }
{
    let count = events.len() / 2;
    let mut events = events.reader(alloc);
    let mut numbers = numbers.reader(alloc);
    let mut current = None;
    'events: for _ in 0..count {
        let Some((begins, target)) = next_event(&mut events)? else {
            return Ok(false);
        };
        let Some(codes) = pair_after(begins, current, &mut numbers)? else {
            return Ok(false);
        };
        current = Some(codes);
        let Some(id) = record_id(shared, target % 4, codes) else {
            return Ok(false);
        };
        if !push_to(lists, target / 4, id)? {
            return Ok(false);
        }
    }
    match events.next()? {
        None => Ok(true),
        Some(_) => Ok(false),
    }
}
