//! A ghost counter. Only `new` and `incremented` set it; both need proofs written by hand.
ghost use Rattle.std.specs.Prelude.{◌≡◌, ◌+◌, ℕ};
ghost use base.Fml.{ftrue};

use std::marker::{Model, PhantomData};

/// A ghost counter: only contracts see `count`. It takes no memory, and only [`GhostCounter::tick`] increments it.
#[derive(Drop)]
pub struct GhostCounter {
    marker: PhantomData<()>,
    pub ghost count: { ℕ },
}

impl Model for GhostCounter {
    ghost also_owns = { λ _. ftrue };
}

impl GhostCounter {
    /// Returns a counter at 0.
    pub fn new() -> GhostCounter
        ensures { result.count ≡ 0 }
    {
        GhostCounter {
            marker: PhantomData,
        }
    }

    /// A counter that is one higher.
    fn incremented(before: &GhostCounter) -> GhostCounter
        ensures { result.count ≡ before.now.count + 1 }
    {
        let _ = before;
        GhostCounter {
            marker: PhantomData,
        }
    }

    /// Increments the counter.
    pub fn tick(&mut self)
        ensures { self.new.count ≡ self.old.count + 1 }
    {
        *self = GhostCounter::incremented(self);
    }
}
