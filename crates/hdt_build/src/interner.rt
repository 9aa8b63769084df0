//! String interning with a bounded cache: a string has one index, unless the cache loses it.
ghost use Rattle.std.specs.Prelude.{◌≡◌, ◌<◌, ◌≤◌, ◌++◌, ◌∷◌, [], ℕ, List, ◌+◌, IfSome, length, slice_index_or};
ghost use Rattle.std.specs.Prelude.{vec_len, IfOk, OnOk, OnErr};
ghost use Rattle.hdt_build.specs.Inside.SortedEntries.{AreIndicesOf, ExtendsList};

use hdt_dict::Arena;
use std::alloc::{AllocError, Global};
use std::hash::{FoldHasher, Hasher};
use std::marker::Model;

/// The number of consecutive slots that an entry may be in, from the slot of its hash.
const PROBES: usize = 8;

/// The initial number of slots.
const FIRST: usize = 1024;

/// A list of strings with a cache of their indices. A look-up probes eight slots at most. If many strings have the same
/// hash, which an attacker can arrange, the cache loses some of them. A lost string is appended again, and sorting
/// drops the duplicate. So no choice of strings makes look-ups slow.
#[derive(Drop)]
pub(crate) struct Interner {
    list: Arena,
    /// The upper half of a string's hash, and its index + 1; 0 is a free slot.
    slots: Vec<u64>,
    /// The total length of the strings in bytes.
    bytes: usize,
}

impl Model for Interner {
    ghost Value = { List (List ℕ) };

    ghost view = { λ s. s.list };

    ghost invariant = { λ s. 8 ≤ vec_len s.slots };
}

/// The hash of a string. The result of a build doesn't depend on it.
fn hash(text: &[u8]) -> u64 {
    let mut hasher = FoldHasher::default();
    hasher.write(text);
    hasher.finish()
}

/// The first slot for a hash.
fn first_slot(slots: &[u64], hash: u64) -> usize
    requires { 8 ≤ length slots.now }
    ensures { result + 8 ≤ length slots.now }
{
    let last = slots.len() - PROBES;
    ((hash >> 32) as u128 * (last + 1) as u128 >> 32) as usize
}

/// The index of a string in the list, if one of the slots has it.
fn find(list: &Arena, slots: &[u64], text: &[u8], hash: u64) -> Option<usize>
    ensures { IfSome result (λ i. (i < length list.now) × (slice_index_or list.now i [] ≡ text.now)) }
{
    for entry in slots {
        if *entry >> 32 == hash >> 32 {
            let at = ((*entry & 0xFFFF_FFFF) as usize).wrapping_sub(1);
            if at < list.len() && list.get(at) == text {
                return Some(at);
            }
        }
    }
    None
}

/// Replaces the contents of a vector by the hashes of strings.
fn store_hashes(strings: &Arena, hashes: &mut Vec<u64>) -> Result<(), AllocError>
    ensures { OnOk result (length hashes.new.items ≡ length strings.now) }
{
    hashes.clear();
    'strings: for at in 0..strings.len() {
        hashes.push(hash(strings.get(at)))?;
    }
    Ok(())
}

/// The index of some entry with this hash, or `usize::MAX`. No iteration depends on the previous one, so the loads
/// overlap.
fn guess(slots: &[u64], hash: u64) -> usize {
    let mut index = 0;
    for entry in slots {
        if (*entry ^ hash) >> 32 == 0 {
            index = *entry & 0xFFFF_FFFF;
        }
    }
    (index as usize).wrapping_sub(1)
}

/// Prefetches the slots of the hashes: the sum of the first and the last one of each, with no branch between the loads.
fn prefetch_slots(slots: &[u64], hashes: &[u64]) -> u64
    requires { 8 ≤ length slots.now }
{
    let mut sum: u64 = 0;
    for hash in hashes {
        let from = first_slot(slots, *hash);
        sum = sum
            .wrapping_add(slots[from])
            .wrapping_add(slots[from + PROBES - 1]);
    }
    sum
}

/// Replaces the contents of a vector by a guess at the index of each string, by its hash only.
fn store_guesses(slots: &[u64], hashes: &[u64], guesses: &mut Vec<usize>) -> Result<(), AllocError>
    requires { 8 ≤ length slots.now }
    ensures { OnOk result (length guesses.new.items ≡ length hashes.now) }
{
    // The sum has no meaning; using it keeps the loads from being optimized away.
    let capacity = hashes
        .len()
        .saturating_add(prefetch_slots(slots, hashes).min(1) as usize);
    guesses.clear();
    guesses.reserve(capacity)?;
    for hash in hashes {
        let from = first_slot(slots, *hash);
        guesses.push(guess(&slots[from..from + PROBES], *hash))?;
    }
    Ok(())
}

/// Whether the string at an index has the first and the last byte of another one. For most strings these two loads
/// prefetch every cache line that a full comparison reads.
fn has_same_ends(list: &Arena, at: usize, text: &[u8]) -> bool {
    at < list.len() && list.get(at).first() == text.first() && list.get(at).last() == text.last()
}

/// Drops guesses whose first or last byte differs. The loads don't depend on each other.
fn drop_wrong_guesses(list: &Arena, strings: &Arena, guesses: &mut Vec<usize>)
    requires { length guesses.old.items ≡ length strings.now }
    ensures { length guesses.new.items ≡ length guesses.old.items }
{
    'strings: for at in 0..strings.len() {
        if !has_same_ends(list, guesses[at], strings.get(at)) {
            guesses[at] = usize::MAX;
        }
    }
}

/// Stores an entry in the first free slot for its hash; if there is none, it overwrites the last one.
fn insert_entry(slots: &mut [u64], entry: u64)
    requires { 8 ≤ length slots.old }
{
    let from = first_slot(slots, entry);
    for at in from..from + PROBES - 1 {
        if slots[at] == 0 {
            slots[at] = entry;
            return;
        }
    }
    slots[from + PROBES - 1] = entry;
}

/// Adds the index of a string to the cache, if it fits in 32 bits.
fn remember(slots: &mut [u64], hash: u64, at: usize)
    requires { 8 ≤ length slots.old }
{
    if at < 0xFFFF_FFFF {
        insert_entry(slots, (hash & 0xFFFF_FFFF_0000_0000) | (at as u64 + 1));
    }
}

/// Rehashes the entries into twice as many slots. An entry may be lost if the slots for its hash are full.
fn double_slots(alloc: Global, slots: &[u64]) -> Result<Vec<u64>, AllocError>
    requires { 8 ≤ length slots.now }
    ensures { IfOk result (λ made. 8 ≤ vec_len made) }
{
    let mut made = Vec::from_elem(alloc, 0, slots.len().saturating_mul(2))?;
    for entry in slots {
        if *entry != 0 {
            insert_entry(made.as_mut_slice(), *entry);
        }
    }
    Ok(made)
}

/// What looking up several strings stores for each of them. The vectors are reused.
#[derive(Drop)]
pub(crate) struct Lookups {
    hashes: Vec<u64>,
    guesses: Vec<usize>,
    /// The index of each string.
    pub(crate) indices: Vec<u64>,
}

impl Lookups {
    /// Empty vectors.
    pub(crate) fn new(alloc: Global) -> Lookups {
        Lookups {
            hashes: Vec::new(alloc),
            guesses: Vec::new(alloc),
            indices: Vec::new(alloc),
        }
    }
}

impl Interner {
    /// An empty list, with an empty cache.
    pub(crate) fn new(alloc: Global) -> Result<Interner, AllocError>
        ensures { IfOk result (λ made. made ≡ []) }
    {
        Ok(Interner {
            list: Arena::new(alloc)?,
            slots: Vec::from_elem(alloc, 0, FIRST)?,
            bytes: 0,
        })
    }

    /// An estimate of the memory in bytes, also while the list is sorted: that of the strings, and 50 for each.
    pub(crate) fn memory(&self) -> usize {
        self.bytes
            .saturating_add(self.list.len().saturating_mul(50))
    }

    /// Returns the strings, and frees the cache.
    pub(crate) fn into_list(self) -> Arena
        ensures { result ≡ self }
    {
        let Interner {
            list,
            slots: _,
            bytes: _,
        } = self;
        list
    }

    /// Returns an index of a string. Appends the string if neither the guess nor the cache finds it.
    fn intern(
        &mut self,
        alloc: Global,
        text: &[u8],
        hash: u64,
        guess: usize,
    ) -> Result<usize, AllocError>
        ensures within { IfOk result (λ i. i < length self.new) }
        ensures is { IfOk result (λ i. slice_index_or self.new i [] ≡ text.now) }
        ensures list { OnOk result (ExtendsList self.old self.new) }
        ensures err { OnErr result (self.new ≡ self.old) }
    {
        if guess < self.list.len() && self.list.get(guess) == text {
            return Ok(guess);
        }
        let from = first_slot(self.slots.as_slice(), hash);
        match find(&self.list, &self.slots[from..from + PROBES], text, hash) {
            Some(at) => Ok(at),
            None => self.add(alloc, text, hash),
        }
    }

    /// Stores an index for each of these strings. Appends those that the cache doesn't have.
    pub(crate) fn intern_all(
        &mut self,
        alloc: Global,
        strings: &Arena,
        lookups: &mut Lookups,
    ) -> Result<(), AllocError>
        ensures indices { OnOk result (AreIndicesOf strings.now self.new lookups.new.indices.items) }
        ensures list { OnOk result (ExtendsList self.old self.new) }
    {
        store_hashes(strings, &mut lookups.hashes)?;
        let slots = self.slots.as_slice();
        store_guesses(slots, lookups.hashes.as_slice(), &mut lookups.guesses)?;
        drop_wrong_guesses(&self.list, strings, &mut lookups.guesses);
        lookups.indices.clear();
        'strings: for at in 0..strings.len() {
            let (hash, guess) = (lookups.hashes[at], lookups.guesses[at]);
            let index = self.intern(alloc, strings.get(at), hash, guess)?;
            lookups.indices.push(index as u64)?;
        }
        Ok(())
    }

    /// Appends a string, whether or not it is in the list.
    fn add(&mut self, alloc: Global, text: &[u8], hash: u64) -> Result<usize, AllocError>
        ensures at { IfOk result (λ i. i ≡ length self.old) }
        ensures ok { OnOk result (self.new ≡ self.old ++ text.now ∷ []) }
        ensures err { OnErr result (self.new ≡ self.old) }
    {
        let at = self.list.len();
        if at >= self.slots.len() / 2 {
            self.slots = double_slots(alloc, self.slots.as_slice())?;
        }
        self.list.push(text)?;
        self.bytes = self.bytes.saturating_add(text.len());
        remember(self.slots.as_mut_slice(), hash, at);
        Ok(at)
    }
}
