//! Merging two ascending lists of strings.
ghost use Rattle.std.specs.Prelude.{◌≡◌, ◌⊎◌, ◌+◌, ◌<◌, length, IfOk, not};
ghost use Rattle.std.specs.declared.cmp.Ordering.TheVariants.{Less, Equal, Greater};
ghost use Rattle.std.specs.List.{filter};
ghost use Rattle.hdt_front.specs.Canonical.{borrowed_texts};
ghost use Rattle.hdt_dict.specs.Inside.Merging.{ArePassed, IsNextInFirstOnly, AreNextInBoth};
ghost use Rattle.hdt_dict.specs.Strings.{has};
ghost use Rattle.hdt_front.specs.Order.{IsAscending};

use std::alloc::{AllocError, Global};
use std::cmp::Ordering;

/// Which of two ascending lists has the next string, after i strings of the first and j of the second: `Less` for the
/// first, `Greater` for the second, `Equal` for both.
fn next_side(xs: &[&[u8]], i: usize, ys: &[&[u8]], j: usize) -> Ordering
    requires some { (i < length xs.now) ⊎ (j < length ys.now) }
    requires xs_ascending { IsAscending (borrowed_texts xs.now) }
    requires ys_ascending { IsAscending (borrowed_texts ys.now) }
    requires xs_passed { ArePassed (borrowed_texts xs.now) i (borrowed_texts ys.now) j }
    requires ys_passed { ArePassed (borrowed_texts ys.now) j (borrowed_texts xs.now) i }
    ensures first { result ≡ Less → IsNextInFirstOnly (borrowed_texts xs.now) i (borrowed_texts ys.now) j }
    ensures second { result ≡ Greater → IsNextInFirstOnly (borrowed_texts ys.now) j (borrowed_texts xs.now) i }
    ensures both { result ≡ Equal → AreNextInBoth (borrowed_texts xs.now) i (borrowed_texts ys.now) j }
{
    if j >= ys.len() {
        return Ordering::Less;
    }
    if i >= xs.len() {
        return Ordering::Greater;
    }
    xs[i].cmp(ys[j])
}

/// The strings of two ascending lists, by the lists that have them.
pub(crate) struct Merged<'a> {
    /// The strings that are in both lists.
    pub(crate) both: Vec<&'a [u8]>,
    /// The strings that are only in the first list.
    pub(crate) first: Vec<&'a [u8]>,
    /// The strings that are only in the second list.
    pub(crate) second: Vec<&'a [u8]>,
}

/// Merges two ascending lists of strings. Linear time.
pub(crate) fn merge<'a>(
    alloc: Global,
    xs: &[&'a [u8]],
    ys: &[&'a [u8]],
) -> Result<Merged<'a>, AllocError>
    requires xs_ascending { IsAscending (borrowed_texts xs.now) }
    requires ys_ascending { IsAscending (borrowed_texts ys.now) }
    ensures both { IfOk result (λ m. borrowed_texts m.both.items
        ≡ filter (has (borrowed_texts ys.now)) (borrowed_texts xs.now)) }
    ensures first { IfOk result (λ m. borrowed_texts m.first.items
        ≡ filter (λ x. not (has (borrowed_texts ys.now) x)) (borrowed_texts xs.now)) }
    ensures second { IfOk result (λ m. borrowed_texts m.second.items
        ≡ filter (λ y. not (has (borrowed_texts xs.now) y)) (borrowed_texts ys.now)) }
{
    let mut both = Vec::new(alloc);
    let mut first = Vec::new(alloc);
    let mut second = Vec::new(alloc);
    let mut i = 0;
    let mut j = 0;
    'sides: while i < xs.len() || j < ys.len() {
        match next_side(xs, i, ys, j) {
            Ordering::Less => {
                first.push(xs[i])?;
                i += 1;
            }
            Ordering::Greater => {
                second.push(ys[j])?;
                j += 1;
            }
            Ordering::Equal => {
                both.push(xs[i])?;
                i += 1;
                j += 1;
            }
        }
    }
    Ok(Merged {
        both,
        first,
        second,
    })
}
