//! The examples in the documentation of hdt_dict.
ghost use Rattle.std.specs.Prelude.{All};
ghost use Rattle.hdt_front.specs.Canonical.{texts};
ghost use Rattle.hdt_dict.specs.Strings.{IsDictionaryString};

use crate::example_fault::ExampleFault;
use hdt_dict::{Arena, Dictionary, Role, put_dictionary, split};
use hdt_seq::Steps;
use std::alloc::Global;

/// Of the crate.
pub(crate) fn crate_example(
    alloc: Global,
    bytes: &[u8],
    at: usize,
    ids: &mut Vec<u64>,
    text: &mut Vec<u8>,
) -> Result<(Option<u64>, usize), ExampleFault> {
    let (dictionary, end) = Dictionary::read(alloc, bytes, at)?;
    let subject = dictionary.number_of(Role::Subject, b"http://a/", &mut Steps::new());
    let mut objects = dictionary.strings(alloc, Role::Object);
    while let Some(id) = objects.next()? {
        ids.push(id)?;
        text.extend_from_slice(objects.string())?;
    }
    Ok((subject, end))
}

/// Of `Dictionary`.
pub(crate) fn dictionary_example(
    alloc: Global,
    bytes: &[u8],
    at: usize,
) -> Result<(Option<u64>, bool, usize), ExampleFault> {
    let (dictionary, end) = Dictionary::read(alloc, bytes, at)?;
    let mut steps = Steps::new();
    let id = dictionary.number_of(Role::Predicate, b"http://a/", &mut steps);
    let mut string = Vec::new(alloc);
    let found = dictionary.string_of(Role::Object, 7, &mut string, &mut steps)?;
    Ok((id, found, end))
}

/// Of `Strings`.
pub(crate) fn strings_example(
    alloc: Global,
    dictionary: Dictionary<'_>,
    ids: &mut Vec<u64>,
    text: &mut Vec<u8>,
) -> Result<(), ExampleFault> {
    let mut subjects = dictionary.strings(alloc, Role::Subject);
    while let Some(id) = subjects.next()? {
        ids.push(id)?;
        text.extend_from_slice(subjects.string())?;
    }
    Ok(())
}

/// Of `RoleSeeker`.
pub(crate) fn seeker_example(
    alloc: Global,
    dictionary: Dictionary<'_>,
    ids: &[u64],
) -> Result<Vec<u8>, ExampleFault> {
    let mut text = Vec::new(alloc);
    let mut objects = dictionary.seeker(alloc, Role::Object);
    for id in ids {
        text.clear();
        objects.append_string(*id, &mut text)?;
    }
    Ok(text)
}

/// Of `Arena`.
pub(crate) fn arena_example(alloc: Global, out: &mut Vec<u8>) -> Result<(), ExampleFault> {
    let mut arena = Arena::new(alloc)?;
    arena.push(b"u:a")?;
    let first = arena.get(0); // b"u:a"
    out.extend_from_slice(first)?;
    Ok(())
}

/// Of `split`. The strings are what `put_dictionary` requires: UTF-8 without zero bytes.
pub(crate) fn split_example(
    alloc: Global,
    subjects: &[Vec<u8>],
    predicates: &[Vec<u8>],
    objects: &[Vec<u8>],
) -> Result<Vec<u8>, ExampleFault>
    requires subjects { All IsDictionaryString (texts subjects.now) }
    requires predicates { All IsDictionaryString (texts predicates.now) }
    requires objects { All IsDictionaryString (texts objects.now) }
{
    let parts = split(alloc, subjects, predicates, objects)?;
    let mut out = Vec::new(alloc);
    put_dictionary(alloc, &parts, 16, &mut out)?;
    Ok(out)
}
