//! Mapping the old IDs of a role to new ones.
ghost use Rattle.std.specs.Prelude.{◌≡◌, ◌<◌, ◌≤◌, ◌+◌, ◌-◌, ℕ, length, slice_index, IsTrue};
ghost use Rattle.hdt_build.specs.Inside.Rewriting.{new_id};

/// A map from old to new IDs of a role. If no ID changes, as in a canonical file, it needs no memory.
#[derive(Drop)]
pub(crate) enum IdMap {
    Unchanged,
    Listed(Vec<u64>),
    /// The IDs 1, 2, .. become this number and those after it.
    Shifted(u64),
}

/// Whether each new ID equals the old one.
fn is_identity(ids: &[u64]) -> bool
    ensures { IsTrue result → (k : ℕ) → k < length ids.now → slice_index ids.now k ≡ k + 1 }
{
    for index in 0..ids.len() {
        if ids[index] != index as u64 + 1 {
            return false;
        }
    }
    true
}

/// The map to these new IDs, of the old IDs 1, 2, ..
pub(crate) fn id_map_of(ids: Vec<u64>) -> IdMap
    ensures { (n : ℕ) → 1 ≤ n → n ≤ length ids.items → new_id result n ≡ slice_index ids.items (n - 1) }
{
    if is_identity(ids.as_slice()) {
        return IdMap::Unchanged;
    }
    IdMap::Listed(ids)
}

impl IdMap {
    /// Returns the new ID of an old one.
    pub(crate) fn new_id(&self, old: u64) -> u64
        ensures { result ≡ new_id self.now old }
    {
        match self {
            IdMap::Unchanged => old,
            IdMap::Listed(ids) => id_at(ids.as_slice(), old),
            IdMap::Shifted(first) => first.wrapping_add(old.saturating_sub(1)),
        }
    }
}

/// The new ID in the list; 0 if the old one is not valid.
fn id_at(ids: &[u64], old: u64) -> u64
    ensures { result ≡ slice_index ids.now (old - 1) }
{
    let at = old.saturating_sub(1) as usize;
    if at < ids.len() { ids[at] } else { 0 }
}
