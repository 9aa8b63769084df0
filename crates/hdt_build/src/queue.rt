//! Triples whose strings have not been looked up yet.
ghost use Rattle.std.specs.Prelude.{◌≡◌, ◌<◌, ◌++◌, ◌∷◌, [], length, slice_index_or, IfOk, OnOk, IsTrue, IsFalse, ◌≤◌};
ghost use Rattle.std.specs.Prelude.{◌⊎◌};
ghost use Rattle.std.specs.List.{All};
ghost use Rattle.hdt_build.specs.Inside.Collecting.{queued_triples, IsValidQueue};
ghost use Rattle.hdt_build.specs.Inside.SortedEntries.{ExtendsList};

use hdt_dict::Arena;
use std::alloc::{AllocError, Global};

/// The greatest number of queued triples: enough for the loads of look-ups to overlap, and few enough to fit in the
/// processor's cache.
const MAX_TRIPLES: usize = 256;

/// The greatest number of bytes of their strings, before that of the last triple.
const MAX_BYTES: usize = 65_536;

/// A queue whose strings had more bytes than this gives their memory back when it is emptied.
const MAX_KEPT_BYTES: usize = 1_048_576;

/// Triples as indices into a list of their own strings. The list has duplicates, but a subject that equals that of the
/// previous triple is shared.
#[derive(Drop)]
pub(crate) struct Queue {
    pub(crate) strings: Arena,
    pub(crate) ids: Vec<(u64, u64, u64)>,
    /// The total length of the strings in bytes, counting shared subjects again.
    bytes: usize,
}

/// Appends a string to a list, and returns its index.
fn push_string(list: &mut Arena, text: &[u8]) -> Result<usize, AllocError>
    ensures within { IfOk result (λ i. i < length list.new) }
    ensures is { IfOk result (λ i. slice_index_or list.new i [] ≡ text.now) }
    ensures list { OnOk result (ExtendsList list.old list.new) }
{
    let at = list.len();
    list.push(text)?;
    Ok(at)
}

/// Returns the index of a subject in the list. Appends it, unless it is that of the previous triple.
fn subject_index(
    list: &mut Arena,
    ids: &[(u64, u64, u64)],
    subject: &[u8],
) -> Result<usize, AllocError>
    requires { All (λ t. t.0 < length list.old) ids.now }
    ensures within { IfOk result (λ i. i < length list.new) }
    ensures is { IfOk result (λ i. slice_index_or list.new i [] ≡ subject.now) }
    ensures list { OnOk result (ExtendsList list.old list.new) }
{
    if let Some((before, _, _)) = ids.last() {
        let before = *before as usize;
        if list.get(before) == subject {
            return Ok(before);
        }
    }
    push_string(list, subject)
}

impl Queue {
    /// An empty queue, with capacity for a full one, except for long strings of the last triple.
    pub(crate) fn new(alloc: Global) -> Result<Queue, AllocError>
        ensures ids { IfOk result (λ made. made.ids.items ≡ []) }
        ensures sound { IfOk result IsValidQueue }
    {
        Ok(Queue {
            strings: Arena::with_capacity(alloc, MAX_TRIPLES.saturating_mul(3), MAX_BYTES)?,
            ids: Vec::with_capacity(alloc, MAX_TRIPLES)?,
            bytes: 0,
        })
    }

    /// Removes all triples. The memory is kept for the next ones, unless long strings made it large.
    pub(crate) fn clear(&mut self, alloc: Global) -> Result<(), AllocError>
        ensures ids { OnOk result (self.new.ids.items ≡ []) }
        ensures sound { OnOk result (IsValidQueue self.new) }
    {
        if self.bytes > MAX_KEPT_BYTES {
            *self = Queue::new(alloc)?;
            return Ok(());
        }
        self.strings.clear();
        self.ids.clear();
        self.bytes = 0;
        Ok(())
    }

    /// Adds a triple. After an error, drop the queue.
    pub(crate) fn add(&mut self, s: &[u8], p: &[u8], o: &[u8]) -> Result<(), AllocError>
        requires { IsValidQueue self.old }
        ensures graph { OnOk result (queued_triples self.new ≡ queued_triples self.old ++ (s.now, p.now, o.now) ∷ []) }
        ensures sound { OnOk result (IsValidQueue self.new) }
    {
        let i = subject_index(&mut self.strings, self.ids.as_slice(), s)?;
        let j = push_string(&mut self.strings, p)?;
        let k = push_string(&mut self.strings, o)?;
        self.ids.push((i as u64, j as u64, k as u64))?;
        self.bytes = self
            .bytes
            .saturating_add(s.len())
            .saturating_add(p.len())
            .saturating_add(o.len());
        Ok(())
    }

    /// Whether the queue is full.
    pub(crate) fn is_full(&self) -> bool
        ensures more { IsFalse result → (length self.now.ids.items < 256) × (self.now.bytes < 65536) }
        ensures full { IsTrue result → (256 ≤ length self.now.ids.items) ⊎ (65536 ≤ self.now.bytes) }
    {
        self.ids.len() >= MAX_TRIPLES || self.bytes >= MAX_BYTES
    }
}
