//! Reads of the sequences and of the inverted indexes, each counted as one step.
ghost use Rattle.std.specs.Prelude.{◌≡◌, ◌+◌, ◌<◌, length, slice_get, slice_index, Some, ◌≤◌, ◌-◌, ℕ};
ghost use Rattle.hdt_seq.specs.Bits.{bits_of};
ghost use Rattle.hdt_seq.specs.Numbers.{numbers_of};
ghost use Rattle.hdt_seq.specs.Width.{digits};

use hdt_seq::{Bits, Numbers, Steps};

/// Reads number i of a log array. One step.
pub(crate) fn read_entry(xs: &Numbers<'_>, i: u64, steps: &mut Steps) -> u64
    requires { i < length (numbers_of xs.now) }
    ensures is { result ≡ slice_index (numbers_of xs.now) i }
    ensures cost { steps.new ≡ steps.old + 1 }
{
    steps.tick();
    xs.get(i)
}

/// Reads bit i of a bitmap. One step.
pub(crate) fn read_bit(bits: &Bits<'_>, i: u64, steps: &mut Steps) -> bool
    requires { i < length (bits_of bits.now) }
    ensures is { slice_get (bits_of bits.now) i ≡ Some result }
    ensures cost { steps.new ≡ steps.old + 1 }
{
    steps.tick();
    bits.get(i)
}

/// Reads number i of an inverted index. One step.
pub(crate) fn read_list(xs: &[u64], i: usize, steps: &mut Steps) -> u64
    requires { i < length xs.now }
    ensures is { result ≡ slice_index xs.now i }
    ensures cost { steps.new ≡ steps.old + 1 }
{
    steps.tick();
    xs[i]
}

/// Returns the first index from `from` to `to` whose number is at least x, or else `to`. The range must ascend.
#[tactic(auto, using(hdt_seq::specs::Laws::Width::digits_split))]
pub(crate) fn lower_bound_in(xs: &Numbers<'_>, from: u64, to: u64, x: u64, steps: &mut Steps) -> u64
    requires order { from ≤ to }
    requires within { to ≤ length (numbers_of xs.now) }
    requires ascend { (i j : ℕ) → from ≤ i → i < j → j < to
        → slice_index (numbers_of xs.now) i < slice_index (numbers_of xs.now) j }
    ensures low { from ≤ result }
    ensures high { result ≤ to }
    ensures below { (i : ℕ) → from ≤ i → i < result → slice_index (numbers_of xs.now) i < x }
    ensures above { (i : ℕ) → result ≤ i → i < to → x ≤ slice_index (numbers_of xs.now) i }
    ensures cost { steps.new ≤ steps.old + digits (to - from) }
    ensures more { steps.old ≤ steps.new }
{
    let mut low = from;
    let mut high = to;
    'halves: while low < high {
        let middle = low + (high - low) / 2;
        if read_entry(xs, middle, steps) < x {
            low = middle + 1;
        } else {
            high = middle;
        }
    }
    low
}

/// Returns the first index of an ascending list whose number is at least x, or else its length.
#[tactic(auto, using(hdt_seq::specs::Laws::Width::digits_split))]
pub(crate) fn lower_bound(xs: &[u64], x: u64, steps: &mut Steps) -> usize
    requires ascend { (i j : ℕ) → i < j → j < length xs.now → slice_index xs.now i < slice_index xs.now j }
    ensures high { result ≤ length xs.now }
    ensures below { (i : ℕ) → i < result → slice_index xs.now i < x }
    ensures above { (i : ℕ) → result ≤ i → i < length xs.now → x ≤ slice_index xs.now i }
    ensures cost { steps.new ≤ steps.old + digits (length xs.now) }
    ensures more { steps.old ≤ steps.new }
{
    let mut low = 0;
    let mut high = xs.len();
    'halves: while low < high {
        let middle = low + (high - low) / 2;
        if read_list(xs, middle, steps) < x {
            low = middle + 1;
        } else {
            high = middle;
        }
    }
    low
}
