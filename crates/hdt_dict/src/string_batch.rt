//! Looking up the strings of many IDs at once.
ghost use Rattle.std.specs.Prelude.{◌≡◌, ◌<◌, ◌≤◌, ◌+◌, ◌-◌, ◌*◌, ◌++◌, [], ℕ, true, false, length, max};
ghost use Rattle.std.specs.Prelude.{slice_index_or, slice_index, OnOk, OnErr, option_copied};
ghost use Rattle.hdt_wire.specs.Control.{IsPrefixOf};
ghost use Rattle.hdt_front.specs.Strings.{strings_of, block_size};
ghost use Rattle.hdt_dict.specs.RoleSections.{second_strings, second_block_size};
ghost use Rattle.hdt_dict.specs.Inside.Seeking.{AreAtString};
ghost use Rattle.hdt_dict.specs.StringBatch.{AppendsStrings, AreIds, AscendTo, strings_by_id};

use crate::role_sections::RoleSections;
use hdt_front::Seeker;
use hdt_seq::Steps;
use std::alloc::{AllocError, Global};

/// Whether all ids are valid IDs: from 1 to `count`.
pub(crate) fn are_ids(ids: &[u64], count: u64) -> bool
    ensures if_true { result ≡ true → (i : ℕ) → i < length ids.now → (1 ≤ slice_index ids.now i)
        × (slice_index ids.now i ≤ count) }
    ensures if_false { result ≡ false
        → ((i : ℕ) → i < length ids.now → (1 ≤ slice_index ids.now i) × (slice_index ids.now i ≤ count)) → ⊥ }
{
    for at in 0..ids.len() {
        if ids[at] == 0 || ids[at] > count {
            return false;
        }
    }
    true
}

/// Appends the string with ID n of two consecutive sections, the first of which has `many` strings.
pub(crate) fn append_next(
    first: &mut Seeker<'_>,
    second: &mut Seeker<'_>,
    many: u64,
    n: u64,
    out: &mut Vec<u8>,
    steps: &mut Steps,
) -> Result<(), AllocError>
    requires many { many ≡ length (strings_of first.old.section) }
    requires from_one { 1 ≤ n }
    requires within { n ≤ length (strings_of first.old.section ++ strings_of second.old.section) }
    ensures sections { (first.new.section ≡ first.old.section) × (second.new.section ≡ second.old.section) }
    ensures ok { OnOk result (out.new.items
        ≡ out.old.items ++ slice_index_or (strings_of first.old.section ++ strings_of second.old.section) (n - 1) []) }
    ensures err { OnErr result (out.new.items ≡ out.old.items) }
    ensures cost { steps.new ≤ steps.old + max (block_size first.old.section) (block_size second.old.section) }
    ensures near { (before : ℕ) → AreAtString first.old second.old before → before ≤ n
        → steps.new + before ≤ steps.old + n }
    ensures at_string { OnOk result ((before : ℕ) → AreAtString first.old second.old before → before ≤ n
        → AreAtString first.new second.new n) }
    ensures more { steps.old ≤ steps.new }
{
    if n <= many {
        first.seek(n, steps)?;
        return out.extend_from_slice(first.string());
    }
    second.seek(n - many, steps)?;
    out.extend_from_slice(second.string())
}

/// Appends the strings of a role with these IDs, and the offset at which each ends. An error may leave some of them in
/// the buffers.
pub(crate) fn append_batch(
    alloc: Global,
    sections: &RoleSections<'_, '_>,
    ids: &[u64],
    out: &mut Vec<u8>,
    ends: &mut Vec<u64>,
    steps: &mut Steps,
) -> Result<(), AllocError>
    requires { AreIds (strings_of sections.now.first.now
        ++ second_strings (option_copied sections.now.second)) ids.now }
    ensures ok { OnOk result (AppendsStrings
        (strings_by_id (strings_of sections.now.first.now
        ++ second_strings (option_copied sections.now.second)) ids.now) out.old.items out.new.items ends.old.items
        ends.new.items) }
    ensures err { OnErr result (IsPrefixOf out.old.items out.new.items) }
    ensures places { OnErr result (IsPrefixOf ends.old.items ends.new.items) }
    ensures cost { steps.new ≤ steps.old + length ids.now * max (block_size sections.now.first.now)
        (second_block_size (option_copied sections.now.second)) }
    ensures once { (n : ℕ) → AscendTo ids.now n → steps.new ≤ steps.old + n }
    ensures more { steps.old ≤ steps.new }
{
    let mut in_first = Seeker::new(alloc, sections.first);
    // Without a second section, no ID is greater than the number of strings of the first one.
    let mut in_second = Seeker::new(alloc, sections.second.unwrap_or(sections.first));
    let many = sections.first.len();
    for at in 0..ids.len() {
        append_next(&mut in_first, &mut in_second, many, ids[at], out, steps)?;
        ends.push(out.len() as u64)?;
    }
    Ok(())
}
