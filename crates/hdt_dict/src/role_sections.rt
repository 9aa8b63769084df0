//! The sections of a role, and look-ups in them.
ghost use Rattle.std.specs.Prelude.{◌≡◌, ◌<◌, ◌≤◌, ◌+◌, ◌-◌, ◌^◌, ◌++◌, [], length, max, slice_index_or, Some, None};
ghost use Rattle.std.specs.Prelude.{IfSome, MatchOption, option_map, option_copied};
ghost use Rattle.hdt_front.specs.Cost.{section_search_cost};
ghost use Rattle.hdt_front.specs.Strings.{strings_of, section_of, block_size, packed_block};
ghost use Rattle.hdt_front.specs.StringIds.{id_of};
ghost use Rattle.hdt_dict.specs.Dictionary.{AreDisjoint};
ghost use Rattle.hdt_dict.specs.Ids.{string_at_id};
ghost use Rattle.hdt_dict.specs.RoleSections.{second_strings, second_search_cost, second_block_size};
ghost use Rattle.hdt_dict.specs.Views.{block_bytes_of_two};

use hdt_front::Section;
use hdt_seq::Steps;

/// The sections of a role. IDs of the second one, if there is one, continue those of the first.
#[derive(Clone, Copy)]
pub(crate) struct RoleSections<'d, 'a> {
    pub(crate) first: &'d Section<'a>,
    pub(crate) second: Option<&'d Section<'a>>,
    ghost few: { length (strings_of first.now ++ second_strings (option_copied second)) < 2 ^ 64 },
    ghost apart: { AreDisjoint (strings_of first.now) (second_strings (option_copied second)) },
}

impl<'d, 'a> RoleSections<'d, 'a> {
    /// A copy of the second section.
    #[inline]
    pub(crate) fn copy_second(&self) -> Option<Section<'a>>
        ensures { result ≡ option_copied self.now.second }
    {
        match self.second {
            None => None,
            Some(second) => Some(*second),
        }
    }

    /// The number of strings of the second section.
    #[inline]
    fn second_len(&self) -> u64
        ensures { result ≡ length (second_strings (option_copied self.now.second)) }
    {
        match self.second {
            None => 0,
            Some(second) => second.len(),
        }
    }

    /// The number of strings.
    #[inline]
    pub(crate) fn len(&self) -> u64
        ensures { result ≡ length (strings_of self.now.first.now ++ second_strings (option_copied self.now.second)) }
    {
        self.first.len() + self.second_len()
    }

    /// The ID of a string that is searched for in the second section.
    #[tactic(auto, unfolding(hdt_front::specs::StringIds::id_of))]
    fn find_in_second(&self, x: &[u8], steps: &mut Steps) -> Option<u64>
        ensures is { result ≡ option_map (λ n. length (strings_of self.now.first.now) + n)
            (id_of (second_strings (option_copied self.now.second)) x.now) }
        ensures cost { steps.new ≤ steps.old + second_search_cost (option_copied self.now.second) }
        ensures more { steps.old ≤ steps.new }
    {
        match self.second {
            None => None,
            Some(second) => match second.place_of(x, steps) {
                Some(n) => Some(self.first.len() + n),
                None => None,
            },
        }
    }

    /// The ID of a string. The section with more strings is searched first.
    pub(crate) fn find(&self, x: &[u8], steps: &mut Steps) -> Option<u64>
        ensures is { result ≡ id_of (strings_of self.now.first.now
            ++ second_strings (option_copied self.now.second)) x.now }
        ensures cost { steps.new ≤ steps.old + (section_search_cost (section_of self.now.first.now) + second_search_cost
            (option_copied self.now.second)) }
        ensures more { steps.old ≤ steps.new }
    {
        if self.first.len() < self.second_len() {
            return match self.find_in_second(x, steps) {
                Some(n) => Some(n),
                None => self.first.place_of(x, steps),
            };
        }
        match self.first.place_of(x, steps) {
            Some(n) => Some(n),
            None => self.find_in_second(x, steps),
        }
    }

    /// The section that has the string with ID n, and the ID of the string there.
    #[inline]
    pub(crate) fn locate(&self, n: u64) -> Option<(&'d Section<'a>, u64)>
        ensures none { result ≡ None
            → string_at_id (strings_of self.now.first.now ++ second_strings (option_copied self.now.second)) n ≡ None }
        ensures string { IfSome result
            (λ p. string_at_id (strings_of self.now.first.now ++ second_strings (option_copied self.now.second)) n
            ≡ Some (slice_index_or (strings_of p.0.now) (p.1 - 1) [])) }
        ensures within { IfSome result (λ p. (1 ≤ p.1) × (p.1 ≤ length (strings_of p.0.now))) }
        ensures bytes { MatchOption result (block_bytes_of_two self.now.first.now (option_copied self.now.second) n
            ≡ []) (λ p. block_bytes_of_two self.now.first.now (option_copied self.now.second) n
            ≡ packed_block p.0.now (p.1 - 1)) }
        ensures size { IfSome result (λ p. block_size p.0.now
            ≤ max (block_size self.now.first.now) (second_block_size (option_copied self.now.second))) }
    {
        let before = self.first.len();
        if n == 0 {
            return None;
        }
        if n <= before {
            return Some((self.first, n));
        }
        let second = self.second?;
        if n - before > second.len() {
            return None;
        }
        Some((second, n - before))
    }
}
