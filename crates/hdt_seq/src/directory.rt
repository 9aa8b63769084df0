//! Rank/select indexes: the 1-bits of a bitmap, counted by groups of 512 bits.
ghost use Rattle.std.specs.Prelude.{◌≡◌, ◌≤◌, ◌<◌, nat_lt, if◌then◌else◌, ◌+◌, ◌-◌, ◌*◌, ◌/◌, ◌%◌, ◌^◌, ℕ, List, Bool};
ghost use Rattle.std.specs.Prelude.{length, slice_index, slice_get, Some, true, IfOk, SomeIndex};
ghost use Rattle.std.specs.Int.Count.{ones};
ghost use Rattle.hdt_seq.specs.Width.{digits};
ghost use Rattle.hdt_seq.specs.RankSelect.{ones_before, IsSelect};
ghost use Rattle.hdt_seq.specs.Bits.{bits_of};

use crate::bits::{Bits, Steps};
use std::alloc::{AllocError, Global};

/// The number of bits of a group. The last group of a bitmap may have fewer.
const GROUP: u64 = 512;

/// The number of bits of a word.
const WORD: u64 = 64;

/// A rank/select index over a bitmap: the number of 1-bits before each group of 512 bits, and their total.
///
/// It borrows nothing. Each call takes the bitmap, which must be the one that the index was built from. A step is an
/// access to one count, or to at most 64 consecutive bits of the bitmap.
///
/// ```rust
/// let (bits, next) = Bits::read(bytes, at)?;
/// let directory = Directory::new(alloc, &bits)?;
/// let mut steps = Steps::new();
/// let ones = directory.rank(&bits, bits.len(), &mut steps);
/// if ones > 0 {
///     let last = directory.select(&bits, ones, &mut steps);
///     positions.push(last)?;
/// }
/// ```
#[derive(Drop)]
pub struct Directory {
    counts: Vec<u64>,
}

impl Directory {
    ghost use Rattle.hdt_seq.specs.Directory.{groups, stored_counts, IsDirectoryOf};

    /// Builds the index in one pass over the bitmap, without its padding bits. Linear time. Its only allocation is the
    /// counts: 8 bytes a group, and 8 more. Fails if the allocation fails.
    #[tactic(auto, unfolding(crate::specs::Directory::stored_counts))]
    pub fn new(alloc: Global, bits: &Bits<'_>) -> Result<Directory, AllocError>
        ensures { IfOk result (λ d. IsDirectoryOf d (bits_of bits.now)) }
    {
        let groups = bits.len().div_ceil(GROUP);
        let mut counts = Vec::with_capacity(alloc, groups as usize + 1)?;
        counts.push(0)?;
        let mut uncounted = Steps::new();
        let mut at = 0;
        let mut total = 0;
        for group in 0..groups {
            let next = at + (bits.len() - at).min(GROUP);
            total += ones_in_range(bits, at, next, &mut uncounted);
            at = next;
            counts.push(total)?;
        }
        Ok(Directory { counts })
    }

    /// Returns the number of 1-bits before position i, from 0, in at most 8 steps. For the length of the bitmap, that
    /// is the number of all 1-bits, in one step. `i` must be at most `bits.len()`.
    #[tactic(auto, unfolding(crate::specs::Directory::stored_counts), using(crate::specs::Laws::RankSelect::ones_before_le, crate::proofs::GroupCounts::group_end))]
    pub fn rank(&self, bits: &Bits<'_>, i: u64, steps: &mut Steps) -> u64
        requires is_directory { IsDirectoryOf self.now (bits_of bits.now) }
        requires within { i ≤ length (bits_of bits.now) }
        ensures is { result ≡ ones_before (bits_of bits.now) i }
        ensures most { result ≤ i }
        ensures cost { steps.new ≤ steps.old + 8 }
        ensures more { steps.old ≤ steps.new }
        ensures total { i ≡ length (bits_of bits.now) → steps.new ≡ steps.old + 1 }
    {
        if i == bits.len() {
            return self.count(self.counts.len() as u64 - 1, steps);
        }
        let group = i / GROUP;
        let inside = i % GROUP;
        if inside < GROUP - WORD {
            let before = self.count(group, steps);
            before + ones_in_range(bits, i - inside, i, steps)
        } else {
            // In the group's last word: counted backward from the count of the next group.
            let left = (GROUP - inside).min(bits.len() - i);
            let through = self.count(group + 1, steps);
            through - ones_in_range(bits, i, i + left, steps)
        }
    }

    /// Returns the position, from 0, of the k-th 1-bit, k from 1. `k` must be at most the number of 1-bits. Takes at
    /// most 8 steps, plus one for each binary digit of the number of groups.
    pub fn select(&self, bits: &Bits<'_>, k: u64, steps: &mut Steps) -> u64
        requires is_directory { IsDirectoryOf self.now (bits_of bits.now) }
        requires some { 0 < k }
        requires many { k ≤ ones_before (bits_of bits.now) (length (bits_of bits.now)) }
        ensures is { IsSelect (bits_of bits.now) k result }
        ensures within { result < length (bits_of bits.now) }
        ensures through { ones_before (bits_of bits.now) (result + 1) ≡ k }
        ensures cost { steps.new ≤ steps.old + (digits (groups (bits_of bits.now)) + 8) }
        ensures more { steps.old ≤ steps.new }
    {
        let (group, before) = self.find_group(k, steps);
        select_from(bits, group * GROUP, k - before, steps)
    }

    /// Returns the memory of the index in units of 8 bytes: one for each group, and one for the total.
    #[tactic(auto, unfolding(crate::specs::Directory::stored_counts))]
    pub fn held(&self) -> u128
        ensures is { result ≡ length (stored_counts self.now) }
        ensures groups { (bits : List Bool) → IsDirectoryOf self.now bits → result ≡ groups bits + 1 }
    {
        // The pattern names every field, so a new one doesn't compile until it is counted here.
        let Directory { counts } = self;
        let counts: &Vec<u64> = counts;
        counts.len() as u128
    }

    /// The count of a group. One step.
    #[tactic(auto, unfolding(crate::specs::Directory::stored_counts))]
    fn count(&self, group: u64, steps: &mut Steps) -> u64
        requires { group < length (stored_counts self.now) }
        ensures is { result ≡ slice_index (stored_counts self.now) group }
        ensures cost { steps.new ≡ steps.old + 1 }
    {
        steps.tick();
        self.counts[group as usize]
    }

    /// The group of the k-th 1-bit, and the number of 1-bits before that group. Binary search.
    #[tactic(auto, unfolding(crate::specs::Directory::stored_counts), using(crate::specs::Laws::Width::digits_split))]
    fn find_group(&self, k: u64, steps: &mut Steps) -> (u64, u64)
        requires some { 1 < length (stored_counts self.now) }
        requires first { slice_index (stored_counts self.now) 0 ≡ 0 }
        requires asked { 0 < k }
        requires last { k ≤ slice_index (stored_counts self.now) (length (stored_counts self.now) - 1) }
        ensures inside { result.0 + 1 < length (stored_counts self.now) }
        ensures before_is { result.1 ≡ slice_index (stored_counts self.now) result.0 }
        ensures before { result.1 < k }
        ensures through { k ≤ slice_index (stored_counts self.now) (result.0 + 1) }
        ensures cost { steps.new ≤ steps.old + digits (length (stored_counts self.now) - 2) }
        ensures more { steps.old ≤ steps.new }
    {
        let mut low = 0;
        let mut before = 0;
        let mut high = self.counts.len() as u64 - 1;
        while high - low > 1 {
            let middle = low + (high - low) / 2;
            let count = self.count(middle, steps);
            if count < k {
                low = middle;
                before = count;
            } else {
                high = middle;
            }
        }
        (low, before)
    }
}

/// The number of 1-bits from one position up to another. One step for each 64 bits.
#[tactic(auto, using(crate::specs::Laws::RankSelect::ones_before_le))]
fn ones_in_range(bits: &Bits<'_>, from: u64, to: u64, steps: &mut Steps) -> u64
    requires order { from ≤ to }
    requires within { to ≤ length (bits_of bits.now) }
    ensures is { ones_before (bits_of bits.now) from + result ≡ ones_before (bits_of bits.now) to }
    ensures cost { steps.new ≤ steps.old + (to - from + 63) / 64 }
    ensures more { steps.old ≤ steps.new }
{
    let mut between = 0;
    let mut at = from;
    while at < to {
        let next = at + (to - at).min(WORD);
        between += u64::from(bits.word(at, next, steps).count_ones());
        at = next;
    }
    between
}

/// The position of the `left`-th 1-bit at or after `from`, `left` from 1. It must be less than a group away.
fn select_from(bits: &Bits<'_>, from: u64, left: u64, steps: &mut Steps) -> u64
    requires some { 0 < left }
    requires near { ones_before (bits_of bits.now) from + left ≤ ones_before (bits_of bits.now) (from + 512) }
    ensures within { result < length (bits_of bits.now) }
    ensures before { ones_before (bits_of bits.now) result + 1 ≡ ones_before (bits_of bits.now) from + left }
    ensures through { ones_before (bits_of bits.now) (result + 1) ≡ ones_before (bits_of bits.now) from + left }
    ensures cost { steps.new ≤ steps.old + 8 }
    ensures more { steps.old ≤ steps.new }
{
    let mut at = from;
    let mut left = left;
    loop {
        let next = at + (bits.len() - at).min(WORD);
        let word = bits.word(at, next, steps);
        let found = u64::from(word.count_ones());
        if left <= found {
            return at + select_in_word(word, next - at, left);
        }
        left -= found;
        at = next;
    }
}

/// 1 if a word has fewer than k 1-bits before a position, else 0.
#[inline(always)]
#[tactic(auto, using(crate::proofs::OnesOfWords::lowest_bits))]
fn has_fewer(word: u64, place: u64, k: u64) -> u64
    requires { place < 64 }
    ensures { result ≡ (if nat_lt (ones (word % 2 ^ place)) k then 1 else 0) }
{
    let lowest = word & ((1 << place) - 1);
    u64::from(u64::from(lowest.count_ones()) < k)
}

/// The position of the k-th 1-bit, k from 1, among the lowest bits of a word. Finds its six binary digits from the
/// highest on, without branches, which would be unpredictable.
fn select_in_word(word: u64, width: u64, k: u64) -> u64
    requires narrow { width ≤ 64 }
    requires some { 0 < k }
    requires many { k ≤ ones (word % 2 ^ width) }
    ensures within { result < width }
    ensures before { ones (word % 2 ^ result) + 1 ≡ k }
    ensures through { ones (word % 2 ^ (result + 1)) ≡ k }
{
    let mut low: u64 = 0;
    let mut left: u64 = 6;
    while left > 0 {
        left -= 1;
        let half = 1 << left;
        low += has_fewer(word, low + half, k) * half;
    }
    low
}

/// Laws of rank and select, which are inverse: the 1-bits of a list are numbered from 1, in order.
pub fn rank_select_inverse()
    // The number of a 1-bit is one more than the number of 1-bits before it.
    ensures number { (bits : List Bool) (i : ℕ) → slice_get bits i ≡ Some true
        → IsSelect bits (ones_before bits i + 1) i }
    // Each number from 1 to the number of 1-bits is that of exactly one 1-bit.
    ensures some { (bits : List Bool) (k : ℕ) → 0 < k → k ≤ ones_before bits (length bits)
        → SomeIndex bits (IsSelect bits k) }
    ensures one { (bits : List Bool) (k i j : ℕ) → IsSelect bits k i → IsSelect bits k j → i ≡ j }
    ensures ascend { (bits : List Bool) (k m i j : ℕ) → IsSelect bits k i → IsSelect bits m j → k < m → i < j }
    ensures through { (bits : List Bool) (k i : ℕ) → IsSelect bits k i → ones_before bits (i + 1) ≡ k }
    // Rank never decreases.
    ensures monotone { (bits : List Bool) (i j : ℕ) → i ≤ j → ones_before bits i ≤ ones_before bits j }
{}
