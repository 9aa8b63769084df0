//! The least of the current elements of many runs. No proof depends on the order that this gives: the caller verifies
//! it.

use std::alloc::{AllocError, Global};

/// A place of the tree that no run has reached.
const NONE: usize = usize::MAX;

/// A tournament of the runs. The runs are the leaves of a binary tree, numbered from its root, 1; each inner node has
/// the loser of the match there. A match takes the time of one comparison, and a step of the winner one match a level.
#[derive(Drop)]
pub(crate) struct Tournament {
    losers: Vec<usize>,
    winner: usize,
}

/// A cursor over an ascending run.
pub(crate) trait RunOrder {
    /// Whether the current element is at most that of another run. A run at its end comes last.
    fn is_at_most(&self, other: &Self) -> bool;
}

/// Whether the current element of a run is at most that of another one.
fn comes_first<C: RunOrder>(cursors: &[C], one: usize, two: usize) -> bool {
    if one < cursors.len() && two < cursors.len() {
        cursors[one].is_at_most(&cursors[two])
    } else {
        one < cursors.len()
    }
}

impl Tournament {
    /// A tournament after all of its matches.
    pub(crate) fn new<C: RunOrder>(alloc: Global, cursors: &[C]) -> Result<Tournament, AllocError> {
        let mut made = Tournament {
            losers: Vec::from_elem(alloc, NONE, cursors.len())?,
            winner: 0,
        };
        for run in 0..cursors.len() {
            made.play(cursors, run);
        }
        Ok(made)
    }

    /// The run with the least current element.
    pub(crate) fn winner(&self) -> usize {
        self.winner
    }

    /// Plays the matches of the winner again, after its step.
    pub(crate) fn replay<C: RunOrder>(&mut self, cursors: &[C]) {
        self.play(cursors, self.winner);
    }

    /// Plays the matches of a run, up to one that it loses, whose winner goes on, or that has no other run yet.
    fn play<C: RunOrder>(&mut self, cursors: &[C], run: usize) {
        let mut at = self.losers.len().saturating_add(run) / 2;
        let mut best = run;
        for _ in 0..usize::BITS {
            if at == 0 || at >= self.losers.len() {
                break;
            }
            let other = self.losers[at];
            if other == NONE {
                self.losers[at] = best;
                return;
            }
            if !comes_first(cursors, best, other) {
                self.losers[at] = best;
                best = other;
            }
            at /= 2;
        }
        self.winner = best;
    }
}
