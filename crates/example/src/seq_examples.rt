//! The examples in the documentation of hdt_seq.

use crate::example_fault::ExampleFault;
use hdt_seq::{Bits, Directory, Numbers, SequenceWriter, Steps};
use std::alloc::Global;

/// Of the crate.
pub(crate) fn crate_example(
    alloc: Global,
    bytes: &[u8],
    at: usize,
) -> Result<(u64, u64, usize), ExampleFault> {
    let (bits, next) = Bits::read(bytes, at)?;
    let directory = Directory::new(alloc, &bits)?;
    let ones = directory.rank(&bits, bits.len(), &mut Steps::new());
    let (numbers, end) = Numbers::read(bytes, next)?;
    let count = numbers.len();
    Ok((ones, count, end))
}

/// Of `Numbers`.
pub(crate) fn numbers_example(bytes: &[u8], at: usize) -> Result<(u64, usize), ExampleFault> {
    let (numbers, next) = Numbers::read(bytes, at)?;
    let mut largest = 0;
    for i in 0..numbers.len() {
        largest = largest.max(numbers.get(i));
    }
    Ok((largest, next))
}

/// Of `Bits`.
pub(crate) fn bits_example(bytes: &[u8], at: usize) -> Result<(bool, usize), ExampleFault> {
    let (bits, next) = Bits::read(bytes, at)?;
    let first = bits.len() > 0 && bits.get(0);
    Ok((first, next))
}

/// Of `Directory`.
pub(crate) fn directory_example(
    alloc: Global,
    bytes: &[u8],
    at: usize,
    positions: &mut Vec<u64>,
) -> Result<usize, ExampleFault> {
    let (bits, next) = Bits::read(bytes, at)?;
    let directory = Directory::new(alloc, &bits)?;
    let mut steps = Steps::new();
    let ones = directory.rank(&bits, bits.len(), &mut steps);
    if ones > 0 {
        let last = directory.select(&bits, ones, &mut steps);
        positions.push(last)?;
    }
    Ok(next)
}

/// Of `SequenceWriter`.
pub(crate) fn sequence_writer_example(alloc: Global) -> Result<Vec<u8>, ExampleFault> {
    let mut out = Vec::new(alloc);
    let mut writer = SequenceWriter::numbers(2, 7, &mut out)?;
    writer.push(5, &mut out)?;
    writer.push(100, &mut out)?;
    writer.finish(&mut out)?;
    Ok(out)
}
