//! A ghost list of strings. Only `new` and `longer` set it; both need proofs written by hand.
ghost use Rattle.std.specs.Prelude.{◌≡◌, ◌++◌, ◌∷◌, [], ℕ, List};
ghost use base.Fml.{ftrue};

use std::marker::{Model, PhantomData};

/// A ghost list of strings: only contracts see `strings`. It takes no memory, and only [`GhostStrings::push`] adds one.
#[derive(Drop)]
pub(crate) struct GhostStrings {
    marker: PhantomData<()>,
    pub ghost strings: { List (List ℕ) },
}

impl Model for GhostStrings {
    ghost also_owns = { λ _. ftrue };
}

impl GhostStrings {
    /// Returns an empty list.
    pub(crate) fn new() -> GhostStrings
        ensures { result.strings ≡ [] }
    {
        GhostStrings {
            marker: PhantomData,
        }
    }

    /// The list with one more string at the end.
    fn longer(before: &GhostStrings, text: &[u8]) -> GhostStrings
        ensures { result.strings ≡ before.now.strings ++ text.now ∷ [] }
    {
        let _ = before;
        let _ = text;
        GhostStrings {
            marker: PhantomData,
        }
    }

    /// Adds a string at the end.
    pub(crate) fn push(&mut self, text: &[u8])
        ensures { self.new.strings ≡ self.old.strings ++ text.now ∷ [] }
    {
        *self = GhostStrings::longer(self, text);
    }
}
