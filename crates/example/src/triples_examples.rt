//! The examples in the documentation of hdt_triples. The counts are what `Triples::read` requires: at most the length
//! of the input, as those of a dictionary in it are.
ghost use Rattle.std.specs.Prelude.{◌≤◌, length};

use crate::example_fault::ExampleFault;
use hdt_seq::Steps;
use hdt_triples::{Counts, ListedTriples, Pattern, Triples};
use std::alloc::{AllocError, Global};

/// Of the crate.
pub(crate) fn crate_example(
    alloc: Global,
    bytes: &[u8],
    at: usize,
    counts: Counts,
) -> Result<(u64, Option<(u64, u64, u64)>, usize), ExampleFault>
    requires subjects { counts.subjects ≤ length bytes.now }
    requires predicates { counts.predicates ≤ length bytes.now }
    requires objects { counts.objects ≤ length bytes.now }
{
    let (triples, end) = Triples::read(bytes, at, counts)?;
    let Ok(indexed) = triples.with_directories(alloc) else {
        return Err(AllocError.into());
    };
    let Ok(listed) = indexed.with_lists(alloc) else {
        return Err(AllocError.into());
    };
    let pattern = Pattern {
        s: None,
        p: Some(1),
        o: None,
    };
    let count = listed.matching(pattern, &mut Steps::new());
    let first = listed.find(pattern).next();
    Ok((count, first, end))
}

/// Of `Triples`.
pub(crate) fn triples_example(
    bytes: &[u8],
    at: usize,
    counts: Counts,
) -> Result<(Option<(u64, u64, u64)>, usize), ExampleFault>
    requires subjects { counts.subjects ≤ length bytes.now }
    requires predicates { counts.predicates ≤ length bytes.now }
    requires objects { counts.objects ≤ length bytes.now }
{
    let (triples, next) = Triples::read(bytes, at, counts)?;
    let pattern = Pattern {
        s: None,
        p: Some(1),
        o: None,
    };
    let first = triples.find(pattern).next();
    Ok((first, next))
}

/// Of `ListedTriples`.
pub(crate) fn listed_triples_example(
    alloc: Global,
    triples: Triples<'_>,
    pattern: Pattern,
    objects: &mut Vec<u64>,
) -> Result<(), ExampleFault> {
    let Ok(indexed) = triples.with_directories(alloc) else {
        return Err(AllocError.into());
    };
    let Ok(listed) = indexed.with_lists(alloc) else {
        return Err(AllocError.into());
    };
    for (_, _, object) in listed.find(pattern) {
        objects.push(object)?;
    }
    Ok(())
}

/// Of `Matches`.
pub(crate) fn matches_example(
    listed: ListedTriples<'_>,
    pattern: Pattern,
    subjects: &mut Vec<u64>,
) -> Result<(), ExampleFault> {
    let mut matches = listed.find(pattern);
    while let Some((subject, _, _)) = matches.next() {
        subjects.push(subject)?;
    }
    Ok(())
}
