//! The strings of a list in ascending order, without duplicates.
ghost use Rattle.std.specs.Prelude.{◌≡◌, ◌+◌, ◌-◌, ◌<◌, [], length, slice_index_or, None, IfOk, IfSome};
ghost use Rattle.std.specs.declared.cmp.Ordering.TheVariants.{Less, Greater};
ghost use Rattle.hdt_front.specs.Canonical.{borrowed_texts};
ghost use Rattle.hdt_front.specs.Order.{IsAscending, string_cmp};
ghost use Rattle.hdt_build.specs.Inside.SortedEntries.{entry_strings, AreEntriesOf, AreIndicesOf, IsPushedOnce};
ghost use Rattle.hdt_build.specs.Inside.SortedEntries.{IsLessThanLast, NeverDescends};

use crate::packed_strings::PackedStrings;
use crate::prefetch::prefetch_entries;
use crate::string_sort::{sort_by_keys, sort_by_string};
use hdt_dict::Arena;
use std::alloc::{AllocError, Global};

/// The strings of entries, if they are in ascending order, without duplicates; and for each index of the list, the
/// index of its string among them. Else None.
fn dedup_entries(
    alloc: Global,
    list: &Arena,
    ordered: &[(u64, usize)],
) -> Result<Option<(PackedStrings, Vec<u64>)>, AllocError>
    requires { AreEntriesOf list.now ordered.now }
    ensures ascend { IfOk result (λ found. IfSome found (λ made. IsAscending made.0)) }
    ensures ranks { IfOk result
        (λ found. IfSome found (λ made. AreIndicesOf list.now made.0 made.1.items)) }
    ensures unsorted { IfOk result (λ found. found ≡ None → NeverDescends (entry_strings list.now ordered.now) → ⊥) }
{
    let mut strings = PackedStrings::new(alloc);
    let mut ranks = Vec::from_elem(alloc, 0, list.len())?;
    let mut seen = 0;
    for at in 0..ordered.len() {
        seen = prefetch_entries(list, ordered, at, seen);
        let (_, index) = ordered[at];
        let Some(rank) = strings.push_distinct(list.get(index))? else {
            return Ok(None);
        };
        ranks[index] = rank as u64;
    }
    Ok(Some((strings, ranks)))
}

/// Returns the strings of a list in ascending order without duplicates; and for each index of the list, the index of
/// its string among them.
pub(crate) fn dedup_strings(
    alloc: Global,
    list: &Arena,
) -> Result<(PackedStrings, Vec<u64>), AllocError>
    ensures ascend { IfOk result (λ made. IsAscending made.0) }
    ensures ranks { IfOk result (λ made. AreIndicesOf list.now made.0 made.1.items) }
{
    let mut ordered = sort_by_keys(alloc, list)?;
    if let Some(found) = dedup_entries(alloc, list, ordered.as_slice())? {
        return Ok(found);
    }
    // Keys give the order of the strings, so this is not reached. No proof says so.
    sort_by_string(list, &mut ordered);
    match dedup_entries(alloc, list, ordered.as_slice())? {
        Some(found) => Ok(found),
        None => unreachable!(),
    }
}
