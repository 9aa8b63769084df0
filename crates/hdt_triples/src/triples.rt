//! Bitmap triples.
ghost use Rattle.std.specs.Prelude.{◌≡◌, ◌≤◌, ◌<◌, ◌^◌, length, IfOk, ◌+◌, Some, ◌-◌, ◌*◌, min, None};
ghost use Rattle.hdt_wire.specs.Checks.{Reads};
ghost use Rattle.hdt_seq.specs.Numbers.{numbers_of};
ghost use Rattle.hdt_seq.specs.Bits.{bits_of};
ghost use Rattle.hdt_triples.specs.TripleSequences.{AreValidSequences, triples_of};
ghost use Rattle.hdt_seq.specs.RankSelect.{ones_before};
ghost use Rattle.hdt_triples.specs.Scanning.{IsTriplePosition};
ghost use Rattle.hdt_triples.specs.Bounds.{of_subject, scan_steps};
ghost use Rattle.hdt_triples.specs.Patterns.{matches};
ghost use Rattle.hdt_triples.specs.Inside.Runs.{IsMatchRange};

use crate::access::{read_bit, read_entry};
use crate::checks::{check_sequences, has_spo_order, ones_before};
use crate::matches::Matches;
use crate::pattern::{Counts, Pattern};
use crate::scan::ScanMatches;
use hdt_seq::{Bits, Numbers, Steps};
use hdt_wire::{Fault, Kind, Reason, demand, read_control};

/// A position in the triples: the index of a triple, that of its pair, both from 0, and the ID of its subject.
#[derive(Clone, Copy)]
pub(crate) struct TriplePosition {
    pub(crate) at: u64,
    pub(crate) pair: u64,
    pub(crate) subject: u64,
}

/// Validated triples. They borrow the input and decode it on each access.
///
/// ```rust
/// let (triples, next) = Triples::read(bytes, at, counts)?;
/// let pattern = Pattern {
///     s: None,
///     p: Some(1),
///     o: None,
/// };
/// let first = triples.find(pattern).next();
/// ```
#[derive(Clone, Copy)]
pub struct Triples<'a> {
    pub(crate) bitmap_y: Bits<'a>,
    pub(crate) bitmap_z: Bits<'a>,
    pub(crate) array_y: Numbers<'a>,
    pub(crate) array_z: Numbers<'a>,
    pub(crate) counts: Counts,
    ghost few: { counts.subjects < 2 ^ 63 },
    ghost predicates_few: { counts.predicates < 2 ^ 63 },
    ghost objects_few: { counts.objects < 2 ^ 63 },
    ghost valid: { AreValidSequences counts
        (record {
          bitmap_y = bits_of bitmap_y;
          bitmap_z = bits_of bitmap_z;
          array_y = numbers_of array_y;
          array_z =
              numbers_of array_z;
        }) },
}

#[tactic(auto, unfolding(crate::specs::Views::triples_view))]
impl<'a> Triples<'a> {
    ghost use Rattle.hdt_triples.specs.TripleSequences.{triple_at};
    ghost use Rattle.hdt_triples.specs.IndexViews.{string_counts};
    ghost use Rattle.hdt_triples.specs.Views.{triples_view, entry_widths, read_view, decode_triples};

    /// Reads the triples part at byte offset `at`, from 0, and checks that each ID is at most the count of its role.
    /// Returns the triples and the byte offset after them; more bytes may follow. Each count must be at most
    /// `bytes.len()`. Linear time, no allocation: one pass over the pairs and one over the triples.
    ///
    /// # Errors
    ///
    /// The first failed check, in this order: the control information, `TripleOrder`, the encodings of the four
    /// sequences, `LengthsDiffer`, `LastMark`, `MarkCount`, each pair (`SubjectRange`, `PredicateRange`,
    /// `PredicatesNotAscending`), each object (`ObjectRange`, `ObjectsNotAscending`).
    #[tactic(auto, unfolding(crate::specs::Triples::decode_triple_parts, crate::specs::Views::triples_view, crate::specs::Views::entry_widths))]
    pub fn read(bytes: &'a [u8], at: usize, counts: Counts) -> Result<(Triples<'a>, usize), Fault>
        requires subjects { counts.subjects ≤ length bytes.now }
        requires predicates { counts.predicates ≤ length bytes.now }
        requires objects { counts.objects ≤ length bytes.now }
        // The result is that of the checks: the triples that are encoded there, or the first error
        // (`triples_are_exact`).
        ensures exact { Reads read_view result (decode_triples counts bytes.now at) }
        ensures end { IfOk result (λ r. r.1 ≤ length bytes.now) }
        // The triples keep the counts they were checked against.
        ensures roles { IfOk result (λ r. string_counts r.0 ≡ counts) }
    {
        let control = read_control(bytes, at, Kind::Triples)?;
        demand(
            has_spo_order(control.properties()),
            control.properties_at(),
            Reason::TripleOrder,
        )?;
        let (bitmap_y, bitmap_y_end) = Bits::read(bytes, control.end())?;
        let (bitmap_z, bitmap_z_end) = Bits::read(bytes, bitmap_y_end)?;
        let (array_y, array_y_end) = Numbers::read(bytes, bitmap_z_end)?;
        let (array_z, end) = Numbers::read(bytes, array_y_end)?;
        check_sequences(&counts, &bitmap_y, &bitmap_z, &array_y, &array_z)?;
        Ok((
            Triples {
                bitmap_y,
                bitmap_z,
                array_y,
                array_z,
                counts,
            },
            end,
        ))
    }

    /// Returns the width in bits of an entry of array Y, and of array Z.
    #[tactic(auto, unfolding(crate::specs::Views::entry_widths))]
    pub fn entry_widths(&self) -> (u8, u8)
        ensures { result ≡ entry_widths self.now }
    {
        (self.array_y.width(), self.array_z.width())
    }

    /// Returns the number of triples.
    pub fn len(&self) -> u64
        ensures { result ≡ length (triples_view self.now).array_z }
    {
        self.array_z.len()
    }

    /// Returns the subject, predicate and object IDs of triple j, from 0. Linear time in j, as it counts the 1-bits of
    /// the bitmaps from the start. `j` must be less than [`len`](Triples::len).
    #[tactic(auto, using(crate::specs::Laws::Order::pair_within), unfolding(crate::specs::Views::triples_view))]
    pub fn get(&self, j: u64) -> (u64, u64, u64)
        requires { j < length (triples_view self.now).array_z }
        ensures { result ≡ triple_at (triples_view self.now) j }
    {
        let pair = ones_before(&self.bitmap_z, j);
        let subject = ones_before(&self.bitmap_y, pair) + 1;
        (subject, self.array_y.get(pair), self.array_z.get(j))
    }
    /// Returns the position of the first triple.
    #[tactic(auto, using(hdt_seq::specs::Laws::RankSelect::ones_before_at_0), unfolding(crate::specs::Views::triples_view))]
    pub(crate) fn first(&self) -> TriplePosition
        ensures at { result.at ≡ 0 }
        ensures positioned { IsTriplePosition (triples_view self.now) result }
    {
        TriplePosition {
            at: 0,
            pair: 0,
            subject: 1,
        }
    }

    /// Returns the end position, given the number of subjects.
    pub(crate) fn end(&self, subjects: u64) -> TriplePosition
        requires { subjects ≡ ones_before (triples_view self.now).bitmap_y (length (triples_view self.now).bitmap_y) }
        ensures at { result.at ≡ length (triples_view self.now).array_z }
        ensures positioned { IsTriplePosition (triples_view self.now) result }
    {
        TriplePosition {
            at: self.array_z.len(),
            pair: self.array_y.len(),
            subject: subjects + 1,
        }
    }

    /// Returns the triple at a position. Two steps.
    pub(crate) fn read_triple(&self, position: TriplePosition, steps: &mut Steps) -> (u64, u64, u64)
        requires positioned { IsTriplePosition (triples_view self.now) position }
        requires within { position.at < length (triples_view self.now).array_z }
        ensures is { result ≡ triple_at (triples_view self.now) position.at }
        ensures cost { steps.new ≡ steps.old + 2 }
    {
        (
            position.subject,
            read_entry(&self.array_y, position.pair, steps),
            read_entry(&self.array_z, position.at, steps),
        )
    }

    /// Returns the next position. At most two steps.
    pub(crate) fn advance(&self, position: TriplePosition, steps: &mut Steps) -> TriplePosition
        requires positioned { IsTriplePosition (triples_view self.now) position }
        requires within { position.at < length (triples_view self.now).array_z }
        ensures at { result.at ≡ position.at + 1 }
        ensures later { position.subject ≤ result.subject }
        ensures positioned { IsTriplePosition (triples_view self.now) result }
        ensures cost { steps.new ≤ steps.old + 2 }
        ensures more { steps.old ≤ steps.new }
    {
        // Branch-free, since the bits are unpredictable.
        let is_last_of_pair = read_bit(&self.bitmap_z, position.at, steps);
        let is_last_of_subject = is_last_of_pair & read_bit(&self.bitmap_y, position.pair, steps);
        TriplePosition {
            at: position.at + 1,
            pair: position.pair + u64::from(is_last_of_pair),
            subject: position.subject + u64::from(is_last_of_subject),
        }
    }
}

impl<'a> Triples<'a> {
    ghost use Rattle.hdt_triples.specs.Remaining.{remaining_matches, step_limit};
    ghost use Rattle.hdt_triples.specs.Views.{triples_view};

    /// Finds the matches of a pattern: the triples that have each given ID, once each, in order. Scans all triples, in
    /// at most four steps each. Allocates nothing.
    pub fn find(&self, pattern: Pattern) -> Matches<'a>
        ensures items { remaining_matches result ≡ matches pattern (triples_of (triples_view self.now)) }
        // There are fewer than 2^64.
        ensures fits { length (remaining_matches result) < 2 ^ 64 }
        ensures few { step_limit result ≡ 4 * length (triples_view self.now).array_z }
    {
        ScanMatches::find(self, pattern)
    }

    /// Returns the number of matches, but at most `most`, by a scan that stops there.
    pub(crate) fn count_by_scan(&self, pattern: Pattern, most: u64, steps: &mut Steps) -> u64
        ensures is { result ≡ min most (length (matches pattern (triples_of (triples_view self.now)))) }
        ensures cost { steps.new ≤ steps.old + 4 * length (triples_view self.now).array_z }
        ensures more { steps.old ≤ steps.new }
    {
        let mut position = self.first();
        let mut count = 0;
        'triples: while count < most && position.at < self.len() {
            let triple = self.read_triple(position, steps);
            position = self.advance(position, steps);
            count += u64::from(pattern.is_match(triple));
        }
        count
    }

    /// Returns how many of a subject's triples, those with index `from` to `to`, have this object. One step each.
    pub(crate) fn count_object_in_range(
        &self,
        pattern: Pattern,
        subject: u64,
        object: u64,
        from: u64,
        to: u64,
        steps: &mut Steps,
    ) -> u64
        requires subject_given { pattern.s ≡ Some subject }
        requires predicate_free { pattern.p ≡ None }
        requires object_given { pattern.o ≡ Some object }
        requires between { IsMatchRange (triples_view self.now) (of_subject subject) from to }
        ensures is { result ≡ length (matches pattern (triples_of (triples_view self.now))) }
        ensures cost { steps.new ≡ steps.old + (to - from) }
    {
        let mut count = 0;
        let mut at = from;
        'triples: while at < to {
            count += u64::from(object == read_entry(&self.array_z, at, steps));
            at += 1;
        }
        count
    }

    /// Returns the number of matches of a pattern, but at most `most`. Scans triples, in at most four steps each, until
    /// `most` matches are counted; given nothing, constant time. Allocates nothing.
    #[tactic(auto, unfolding(crate::specs::Bounds::scan_steps))]
    pub fn matching_up_to(&self, pattern: Pattern, most: u64, steps: &mut Steps) -> u64
        ensures is { result ≡ min most (length (matches pattern (triples_of (triples_view self.now)))) }
        ensures cost { steps.new ≤ steps.old + scan_steps (triples_view self.now) pattern }
        ensures more { steps.old ≤ steps.new }
    {
        match (pattern.s, pattern.p, pattern.o) {
            (None, None, None) => self.len().min(most),
            _ => self.count_by_scan(pattern, most, steps),
        }
    }

    /// Returns the number of matches of a pattern. Scans all triples, in at most four steps each; given nothing,
    /// constant time. Allocates nothing.
    #[tactic(auto, using(crate::proofs::ScanLaws::matches_fit))]
    pub fn matching(&self, pattern: Pattern, steps: &mut Steps) -> u64
        ensures is { result ≡ length (matches pattern (triples_of (triples_view self.now))) }
        ensures cost { steps.new ≤ steps.old + scan_steps (triples_view self.now) pattern }
        ensures more { steps.old ≤ steps.new }
    {
        self.matching_up_to(pattern, u64::MAX, steps)
    }
}
