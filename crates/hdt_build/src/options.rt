//! The options of building.
ghost use Rattle.std.specs.Prelude.{◌↔◌, IsTrue};
ghost use Rattle.hdt_build.specs.Options.{AreValidOptions, IsBlockSize};

use hdt_terms::is_iri;

/// The greatest block size.
const MAX_BLOCK_SIZE: u32 = 65_535;

/// The options of a file that is built.
#[derive(Debug, Drop)]
pub struct Options {
    /// The number of strings in a dictionary block: 1 to 65,535. Larger blocks make smaller files and slower look-ups.
    pub block_size: u32,
    /// The subject of the triples in the header, in UTF-8: an absolute IRI without characters that IRIs exclude.
    pub base: Vec<u8>,
}

/// Whether a block size is valid.
pub(crate) fn is_block_size(block_size: u32) -> bool
    ensures { IsTrue result ↔ IsBlockSize block_size }
{
    1 <= block_size && block_size <= MAX_BLOCK_SIZE
}

/// Returns whether the block size and the base are valid. Linear time in the base.
pub fn are_valid_options(options: &Options) -> bool
    ensures { IsTrue result ↔ AreValidOptions options.now }
{
    is_block_size(options.block_size) && is_iri(options.base.as_slice())
}

/// The counts of a file that was built or rewritten.
#[derive(Clone, Copy, Debug, PartialEq, Eq)]
pub struct Report {
    /// The number of triples.
    pub triples: u64,
    /// The number of strings that are both subjects and objects.
    pub shared: u64,
    /// The number of strings that are only subjects.
    pub subjects: u64,
    /// The number of strings that are predicates.
    pub predicates: u64,
    /// The number of strings that are only objects.
    pub objects: u64,
    /// The length of the file in bytes.
    pub bytes: u64,
}
