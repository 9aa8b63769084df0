//! Collecting the triples of a document, as indices into one list of strings.
ghost use Rattle.std.specs.Prelude.{◌≡◌, ◌++◌, ◌∷◌, [], length, IfOk, OnOk, IsTrue, ◌↔◌};
ghost use Rattle.hdt_build.specs.Inside.Collecting.{collected_triples, IsValidCollector, AreBelow};
ghost use Rattle.hdt_build.specs.Graph.{string_triples_of};

use crate::interner::{Interner, Lookups};
use crate::queue::Queue;
use crate::triples::extend_mapped;
use hdt_dict::Arena;
use std::alloc::{AllocError, Global};

/// The triples of a document, as indices into one list of strings for all roles. New triples are queued, and their
/// strings are looked up in batches.
#[derive(Drop)]
pub(crate) struct TripleCollector {
    terms: Interner,
    ids: Vec<(u64, u64, u64)>,
    queue: Queue,
    lookups: Lookups,
}

impl TripleCollector {
    /// A collector without triples.
    pub(crate) fn new(alloc: Global) -> Result<TripleCollector, AllocError>
        ensures graph { IfOk result (λ made. collected_triples made ≡ []) }
        ensures sound { IfOk result IsValidCollector }
    {
        Ok(TripleCollector {
            terms: Interner::new(alloc)?,
            ids: Vec::new(alloc),
            queue: Queue::new(alloc)?,
            lookups: Lookups::new(alloc),
        })
    }

    /// Adds a triple. After an error, drop the collector.
    pub(crate) fn add(
        &mut self,
        alloc: Global,
        s: &[u8],
        p: &[u8],
        o: &[u8],
    ) -> Result<(), AllocError>
        requires { IsValidCollector self.old }
        ensures graph { OnOk result (collected_triples self.new ≡ collected_triples self.old ++ (s.now, p.now, o.now)
            ∷ []) }
        ensures sound { OnOk result (IsValidCollector self.new) }
    {
        self.flush_if_full(alloc)?;
        self.queue.add(s, p, o)
    }

    /// Looks up the strings of the queued triples, if the queue is full.
    fn flush_if_full(&mut self, alloc: Global) -> Result<(), AllocError>
        requires { IsValidCollector self.old }
        ensures graph { OnOk result (collected_triples self.new ≡ collected_triples self.old) }
        ensures sound { OnOk result (IsValidCollector self.new) }
    {
        if !self.queue.is_full() {
            return Ok(());
        }
        self.intern_queued(alloc)
    }

    /// Looks up the strings of the queued triples, and empties the queue. After an error, drop the collector.
    fn intern_queued(&mut self, alloc: Global) -> Result<(), AllocError>
        requires { IsValidCollector self.old }
        ensures graph { OnOk result (string_triples_of self.new.terms self.new.ids.items ≡ collected_triples self.old) }
        ensures sound { OnOk result (IsValidCollector self.new) }
        ensures none { OnOk result (self.new.queue.ids.items ≡ []) }
    {
        self.terms
            .intern_all(alloc, &self.queue.strings, &mut self.lookups)?;
        let indices = self.lookups.indices.as_slice();
        extend_mapped(&mut self.ids, self.queue.ids.as_slice(), indices)?;
        self.queue.clear(alloc)?;
        Ok(())
    }

    /// Whether there are no triples.
    pub(crate) fn is_empty(&self) -> bool
        ensures { IsTrue result ↔ (collected_triples self.now ≡ []) }
    {
        self.ids.is_empty() && self.queue.ids.is_empty()
    }

    /// An estimate of the memory in bytes, but for that of the queue, also while the strings are sorted.
    pub(crate) fn memory(&self) -> usize {
        self.terms
            .memory()
            .saturating_add(self.ids.len().saturating_mul(24))
    }

    /// Returns the strings and the triples, and frees the cache of the interner.
    pub(crate) fn into_parts(
        self,
        alloc: Global,
    ) -> Result<(Arena, Vec<(u64, u64, u64)>), AllocError>
        requires { IsValidCollector self }
        ensures graph { IfOk result (λ parts. string_triples_of parts.0 parts.1.items ≡ collected_triples self) }
        ensures within { IfOk result (λ parts. AreBelow (length parts.0) parts.1.items) }
    {
        let mut collector = self;
        collector.intern_queued(alloc)?;
        let TripleCollector {
            terms,
            ids,
            queue: _,
            lookups: _,
        } = collector;
        Ok((terms.into_list(), ids))
    }
}
