//! Dividing the strings of three roles into the four sections of a dictionary.
ghost use Rattle.std.specs.Prelude.{◌≡◌, IfOk};
ghost use Rattle.hdt_front.specs.Canonical.{borrowed_texts, texts};
ghost use Rattle.hdt_dict.specs.Split.{IsSplit, lists_of_parts};
ghost use Rattle.hdt_dict.specs.Strings.{SameMembers};
ghost use Rattle.hdt_front.specs.Order.{IsAscending};

use crate::merge::{Merged, merge};
use std::alloc::{AllocError, Global};

/// The strings of the four sections of a dictionary.
#[derive(Drop)]
pub struct Parts {
    /// The strings that are both subjects and objects.
    pub shared: Vec<Vec<u8>>,
    /// The subjects that are not objects.
    pub subjects: Vec<Vec<u8>>,
    /// The predicates.
    pub predicates: Vec<Vec<u8>>,
    /// The objects that are not subjects.
    pub objects: Vec<Vec<u8>>,
}

/// Returns the vectors as slices, in order.
fn borrow_strings<'a>(alloc: Global, strings: &'a [Vec<u8>]) -> Result<Vec<&'a [u8]>, AllocError>
    ensures { IfOk result (λ made. borrowed_texts made.items ≡ texts strings.now) }
{
    let mut made = Vec::with_capacity(alloc, strings.len())?;
    for string in strings {
        made.push(string.as_slice())?;
    }
    Ok(made)
}

/// Returns the distinct strings of a list in ascending order: by unsigned bytes, a prefix before longer strings. Time:
/// one sort. No string is copied.
fn sort_dedup_strings<'a>(
    alloc: Global,
    strings: &'a [Vec<u8>],
) -> Result<Vec<&'a [u8]>, AllocError>
    ensures ascending { IfOk result (λ made. IsAscending (borrowed_texts made.items)) }
    ensures same { IfOk result (λ made. SameMembers (borrowed_texts made.items) (texts strings.now)) }
{
    let mut made = borrow_strings(alloc, strings)?;
    made.sort_unstable();
    made.dedup();
    Ok(made)
}

/// Copies borrowed strings into vectors.
fn copy_strings(alloc: Global, list: &[&[u8]]) -> Result<Vec<Vec<u8>>, AllocError>
    ensures { IfOk result (λ made. texts made.items ≡ borrowed_texts list.now) }
{
    let mut made = Vec::with_capacity(alloc, list.len())?;
    for text in list {
        made.push(Vec::from_slice(alloc, *text)?)?;
    }
    Ok(made)
}

/// Divides the strings of three roles, in any order and with duplicates, into the four sections of a dictionary. Time:
/// sorting the strings. Memory: the strings of the result, and a reference to each string.
///
/// ```rust
/// let parts = split(alloc, subjects, predicates, objects)?;
/// let mut out = Vec::new(alloc);
/// put_dictionary(alloc, &parts, 16, &mut out)?;
/// ```
#[tactic(auto, unfolding(crate::specs::Split::lists_of_parts))]
pub fn split(
    alloc: Global,
    subjects: &[Vec<u8>],
    predicates: &[Vec<u8>],
    objects: &[Vec<u8>],
) -> Result<Parts, AllocError>
    ensures { IfOk result (λ parts. IsSplit (texts subjects.now) (texts predicates.now) (texts objects.now)
        (lists_of_parts parts)) }
{
    let all_subjects = sort_dedup_strings(alloc, subjects)?;
    let all_predicates = sort_dedup_strings(alloc, predicates)?;
    let all_objects = sort_dedup_strings(alloc, objects)?;
    let Merged {
        both,
        first,
        second,
    } = merge(alloc, all_subjects.as_slice(), all_objects.as_slice())?;
    let shared = copy_strings(alloc, both.as_slice())?;
    let subjects = copy_strings(alloc, first.as_slice())?;
    let predicates = copy_strings(alloc, all_predicates.as_slice())?;
    let objects = copy_strings(alloc, second.as_slice())?;
    Ok(Parts {
        shared,
        subjects,
        predicates,
        objects,
    })
}
