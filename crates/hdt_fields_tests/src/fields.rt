//! The fields of indexes and of a graph, for the sample file v1.hdt.

use hdt_file::{OpenFault, open};
use hdt_seq::{Bits, Directory};
use hdt_triples::{Counts, IndexedTriples, Triples};
use hdt_wire::Fault;
use std::alloc::{AllocError, Global};

/// The file, with one triple. Its triples part begins at byte 369, and in it the first bitmap at byte 425.
static FILE: &[u8] =
    b"$HDT\x01<http://purl.org/HDT/hdt#HDTv1>\x00\x00v5$HDT\x02ntriples\x00length=150;\x00\x0EM<http://a/> <http://www.w3.org/1999/02/22-rdf-syntax-ns#type> <http://purl.org/HDT/hdt#Dataset> .\n<http://a/> <http://rdfs.org/ns/void#triples> \"1\" .\n$HDT\x03<http://purl.org/HDT/hdt#dictionaryFour>\x00mapping=1;\x00\x82\xB8\x02\x81\x8A\x90\x81\x01\x04\x82\xB8\xA0\xF7\xE66\xF0http://a/\x00\xF4\x81z\xD4\x02\x80\x80\x90h\x01\x01\x81\xF0\x00QS}R\x00\x00\x00\x00\x02\x81\x8A\x90\x81\x01\x04\x82\xB8\xA0\xF7\xE66\xF0http://a/\x00\xF4\x81z\xD4\x02\x80\x80\x90h\x01\x01\x81\xF0\x00QS}R\x00\x00\x00\x00$HDT\x04<http://purl.org/HDT/hdt#triplesBitmap>\x00order=1;\x00Y\xE9\x01\x81\x9B\x01R\xD0\x16\xA0\x01\x81\x9B\x01R\xD0\x16\xA0\x01\x01\x81\xF0\x01R\xD0\x16\xA0\x01\x01\x81\xF0\x01R\xD0\x16\xA0";

/// Why a test fails before it compares.
#[derive(Debug, Drop)]
enum TestFailure {
    Fault(Fault),
    OutOfMemory,
}

impl From<Fault> for TestFailure {
    fn from(fault: Fault) -> TestFailure {
        TestFailure::Fault(fault)
    }
}

impl From<AllocError> for TestFailure {
    fn from(_error: AllocError) -> TestFailure {
        TestFailure::OutOfMemory
    }
}

impl From<OpenFault> for TestFailure {
    fn from(fault: OpenFault) -> TestFailure {
        match fault {
            OpenFault::Fault(fault) => TestFailure::Fault(fault),
            OpenFault::OutOfMemory => TestFailure::OutOfMemory,
        }
    }
}

/// A bitmap of one bit: the number of 1-bits before its one group, and the total.
#[test]
fn directory_fields(rt: HostRuntime) -> Result<(), TestFailure> {
    let (bits, _end) = Bits::read(FILE, 425)?;
    let directory = Directory::new(rt.alloc(), &bits)?;
    assert_eq!(rt; directory.held(), 2);
    Ok(())
}

/// The triples with the rank/select indexes of their two bitmaps.
fn indexed(alloc: Global) -> Result<IndexedTriples<'static>, TestFailure> {
    let counts = Counts {
        subjects: 1,
        predicates: 1,
        objects: 1,
    };
    let (triples, _end) = Triples::read(FILE, 369, counts)?;
    match triples.with_directories(alloc) {
        Ok(indexed) => Ok(indexed),
        Err(_) => Err(TestFailure::OutOfMemory),
    }
}

/// One triple: two values for each rank/select index, and three for each inverted index (of one predicate, one object).
#[test]
fn triples_fields(rt: HostRuntime) -> Result<(), TestFailure> {
    let indexed = indexed(rt.alloc())?;
    assert_eq!(rt; indexed.held(), 4);
    match indexed.with_lists(rt.alloc()) {
        Ok(listed) => assert_eq!(rt; listed.held(), 10),
        Err(_) => return Err(TestFailure::OutOfMemory),
    }
    Ok(())
}

/// A graph keeps only what its triples keep.
#[test]
fn graph_fields(rt: HostRuntime) -> Result<(), TestFailure> {
    let graph = open(rt.alloc(), FILE)?;
    assert_eq!(rt; graph.held(), 10);
    Ok(())
}
