//! Prefetching strings that are scattered in memory: the first and the last byte of several are loaded without a branch
//! on them, so that the loads overlap.

use crate::string_sort::text_at;
use hdt_dict::Arena;

/// The number of strings that are prefetched at a time.
const PREFETCH_COUNT: usize = 64;

/// The sum of the first and the last byte of a string: their cache lines hold all of a short string.
fn touch_ends(text: &[u8]) -> usize {
    if text.is_empty() {
        return 0;
    }
    usize::from(text[0]) + usize::from(text[text.len() - 1])
}

/// Returns the index up to which strings are prefetched. The sum has no meaning; using it keeps the loads from being
/// optimized away.
fn prefetched_to(end: usize, sum: usize) -> usize {
    end.saturating_sub(sum.min(1))
}

/// Prefetches the next strings of `len` ones, unless this was done; returns the index up to which strings are
/// prefetched. The closure gives the string at an index, or an empty one to prefetch nothing.
pub(crate) fn prefetch_next<'a, F: Fn(usize) -> &'a [u8]>(
    len: usize,
    at: usize,
    seen: usize,
    string_at: F,
) -> usize
    requires { F.IsAlwaysCallable string_at }
{
    if at < seen {
        return seen;
    }
    let end = len.min(at.saturating_add(PREFETCH_COUNT));
    let mut sum: usize = 0;
    for next in at..end {
        sum = sum.wrapping_add(touch_ends(string_at(next)));
    }
    prefetched_to(end, sum)
}

/// Prefetches the strings of the next entries, unless this was done; returns the index up to which entries are
/// prefetched.
pub(crate) fn prefetch_entries(
    list: &Arena,
    entries: &[(u64, usize)],
    at: usize,
    seen: usize,
) -> usize {
    prefetch_next(entries.len(), at, seen, |next| match entries.get(next) {
        Some((_, index)) => text_at(list, *index),
        None => &[],
    })
}
