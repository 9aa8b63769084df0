//! Finding strings that are in two sections, by merging them.
ghost use Rattle.std.specs.Prelude.{◌≡◌, ◌||◌, [], OnOk, IfOk, unwrap_or};
ghost use Rattle.hdt_dict.specs.Inside.Overlap.{contains_string, first_offset, drop_less, IsComparison};
ghost use Rattle.hdt_dict.specs.Inside.Overlap.{IsStaleComparison};
ghost use Rattle.hdt_front.specs.Iteration.{LocatedAscend};

use hdt_front::Cursor;
use std::alloc::AllocError;
use std::cmp::Ordering;

/// Updates the ordering of a cursor's string and another one, and the length of their longest common prefix, after one
/// of them advanced to a string that shares `kept` bytes with it. If `kept` is greater than that length, nothing
/// changes; else the strings are compared from byte `kept` on.
fn update_comparison(
    cursor: &Cursor<'_>,
    x: &[u8],
    kept: usize,
    comparison: (Ordering, usize),
) -> (Ordering, usize)
    requires { IsStaleComparison kept comparison cursor.now x.now }
    ensures { IsComparison result cursor.now x.now }
{
    if kept > comparison.1 {
        return comparison;
    }
    cursor.cmp_with_lcp(x, kept)
}

/// Advances a cursor to the first string that is not less than another one, and compares it. Each entry is compared at
/// most once.
fn seek_not_less(
    cursor: &mut Cursor<'_>,
    x: &[u8],
    kept: usize,
    comparison: (Ordering, usize),
) -> Result<(Ordering, usize), AllocError>
    requires { IsStaleComparison kept comparison cursor.old x.now }
    ensures comparison { IfOk result (λ r. IsComparison r cursor.new x.now) }
    ensures left { OnOk result (cursor.new ≡ drop_less x.now cursor.old) }
{
    let mut comparison = update_comparison(cursor, x, kept, comparison);
    while comparison.0 == Ordering::Less {
        let kept = cursor.advance()?;
        comparison = update_comparison(cursor, x, kept, comparison);
    }
    Ok(comparison)
}

/// As [`seek_not_less`]; without a cursor the comparison is that of a cursor at the end.
fn seek_if_any(
    cursor: &mut Option<Cursor<'_>>,
    x: &[u8],
    kept: usize,
    comparison: (Ordering, usize),
) -> Result<(Ordering, usize), AllocError>
    requires { IsStaleComparison kept comparison (unwrap_or cursor.old []) x.now }
    ensures comparison { IfOk result (λ r. IsComparison r (unwrap_or cursor.new []) x.now) }
    ensures left { OnOk result (unwrap_or cursor.new [] ≡ drop_less x.now (unwrap_or cursor.old [])) }
{
    match cursor {
        Some(cursor) => seek_not_less(cursor, x, kept, comparison),
        None => Ok((Ordering::Greater, 0)),
    }
}

/// The byte offset of the first string of a section that is in one of two others.
pub(crate) fn first_common(
    list: &mut Cursor<'_>,
    one: &mut Cursor<'_>,
    two: &mut Option<Cursor<'_>>,
) -> Result<Option<usize>, AllocError>
    requires list { LocatedAscend list.old }
    requires one { LocatedAscend one.old }
    requires two { LocatedAscend (unwrap_or two.old []) }
    ensures { IfOk result (λ r. r
        ≡ first_offset (λ x. contains_string one.old x || contains_string (unwrap_or two.old []) x) list.old) }
{
    let mut kept = 0;
    let mut first = (Ordering::Less, 0);
    let mut second = (Ordering::Less, 0);
    while let Some(x) = list.string() {
        first = seek_not_less(one, x, kept, first)?;
        second = seek_if_any(two, x, kept, second)?;
        if first.0 == Ordering::Equal || second.0 == Ordering::Equal {
            return Ok(list.place());
        }
        kept = list.advance()?;
    }
    Ok(None)
}
