//! Bounds on the steps of look-ups, by which a search chooses its strategy.
ghost use Rattle.std.specs.Prelude.{◌≡◌, ◌≤◌};
ghost use Rattle.hdt_seq.specs.Width.{digits};
ghost use Rattle.hdt_triples.specs.Views.{triples_view};
ghost use Rattle.hdt_triples.specs.IndexViews.{triples_indexed};
ghost use Rattle.hdt_triples.specs.Bounds.{lookup_cost, pair_search_cost};

use crate::indexed::IndexedTriples;

/// Bits per group of a rank/select index.
const GROUP: u64 = 512;

/// Returns the number of binary digits of n: the most steps of a binary search among n numbers.
#[tactic(auto, using(hdt_seq::specs::Laws::Width::digits_by_zeros))]
pub(crate) fn digits_of(n: u64) -> u64
    ensures is { result ≡ digits n }
    ensures few { result ≤ 64 }
{
    u64::from(64 - n.leading_zeros())
}

/// Returns the bound on finding a subject or a pair by rank and select: a binary search of the groups of both bitmaps,
/// and 20 more.
#[tactic(auto, unfolding(crate::specs::Bounds::lookup_cost, crate::specs::Views::triples_view))]
pub(crate) fn lookup_cost(indexed: &IndexedTriples<'_>) -> u64
    ensures is { result ≡ lookup_cost (triples_view (triples_indexed indexed.now)) }
    ensures few { result ≤ 148 }
{
    let pairs = indexed.triples.bitmap_y.len().div_ceil(GROUP);
    let triples = indexed.triples.bitmap_z.len().div_ceil(GROUP);
    digits_of(pairs) + digits_of(triples) + 20
}

/// Returns the bound on finding an object in a pair: two searches by rank and select, and a binary search among all
/// triples.
#[tactic(auto, unfolding(crate::specs::Bounds::pair_search_cost, crate::specs::Views::triples_view))]
pub(crate) fn pair_search_cost(indexed: &IndexedTriples<'_>) -> u64
    ensures { result ≡ pair_search_cost (triples_view (triples_indexed indexed.now)) }
{
    2 * lookup_cost(indexed) + digits_of(indexed.triples.array_z.len())
}
