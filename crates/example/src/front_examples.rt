//! The examples in the documentation of hdt_front.
ghost use Rattle.hdt_front.specs.Section.{AreSectionStrings};
ghost use Rattle.hdt_front.specs.Canonical.{borrowed_texts};

use crate::example_fault::ExampleFault;
use hdt_front::{Section, SectionIter, SectionWriter, Seeker};
use hdt_seq::Steps;
use std::alloc::Global;

/// Of the crate.
pub(crate) fn crate_example(
    alloc: Global,
    bytes: &[u8],
    at: usize,
) -> Result<(Option<u64>, Vec<u8>, usize), ExampleFault> {
    let (section, next) = Section::read(alloc, bytes, at)?;
    let mut steps = Steps::new();
    let id = section.place_of(b"http://a/b", &mut steps);
    let mut last = Vec::new(alloc);
    if section.len() > 0 {
        section.string(section.len(), &mut last, &mut steps)?;
    }
    Ok((id, last, next))
}

/// Of `Section`.
pub(crate) fn section_example(
    alloc: Global,
    bytes: &[u8],
    at: usize,
    id: u64,
) -> Result<(Vec<u8>, usize), ExampleFault> {
    let (section, next) = Section::read(alloc, bytes, at)?;
    let mut string = Vec::new(alloc);
    if id > 0 && id <= section.len() {
        section.string(id, &mut string, &mut Steps::new())?;
    }
    Ok((string, next))
}

/// Of `SectionIter`.
pub(crate) fn section_iter_example(
    alloc: Global,
    section: Section<'_>,
    starts: &mut Vec<usize>,
    text: &mut Vec<u8>,
) -> Result<(), ExampleFault> {
    let mut strings = SectionIter::new(alloc, &section);
    while let Some(start) = strings.next()? {
        starts.push(start)?;
        text.extend_from_slice(strings.string())?;
    }
    Ok(())
}

/// Of `Seeker`.
pub(crate) fn seeker_example(
    alloc: Global,
    section: Section<'_>,
    ids: &[u64],
    text: &mut Vec<u8>,
) -> Result<(), ExampleFault> {
    let mut seeker = Seeker::new(alloc, &section);
    let mut steps = Steps::new();
    for id in ids {
        if *id > 0 && *id <= section.len() {
            seeker.seek(*id, &mut steps)?;
            text.extend_from_slice(seeker.string())?;
        }
    }
    Ok(())
}

/// Of `SectionWriter`. The strings are what it requires: UTF-8 without zero bytes, ascending.
pub(crate) fn section_writer_example(
    alloc: Global,
    strings: &[&[u8]],
) -> Result<Vec<u8>, ExampleFault>
    requires { AreSectionStrings (borrowed_texts strings.now) }
{
    let mut writer = SectionWriter::new(alloc, 16);
    for string in strings {
        writer.push(string)?;
    }
    let mut out = Vec::new(alloc);
    writer.finish(&mut out)?;
    Ok(out)
}
