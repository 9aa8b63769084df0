//! Reading a dictionary, look-ups by role, and laws: functions that do nothing, whose contracts are theorems.
ghost use Rattle.std.specs.Prelude.{◌≡◌, ◌⊎◌, ◌<◌, ◌≤◌, ◌+◌, ◌-◌, ◌*◌, ◌^◌, ◌↔◌, ◌++◌, ◌∷◌, [], ℕ, List, All, length};
ghost use Rattle.std.specs.Prelude.{max, option_copied, Ok, Err, Some, None, IsOk, OnErr, IfOk};
ghost use Rattle.hdt_wire.specs.Checks.{ReadsUnlessOom, IsBytes, HasSlice};
ghost use Rattle.hdt_wire.specs.Exact.{Exactly, UniqueValue, UniqueFault};
ghost use Rattle.hdt_wire.specs.declared.fault.Fault.{Fault as FaultIs};
ghost use Rattle.hdt_front.specs.declared.section.ReadFault.TheVariants.{Fault as FaultOf};
ghost use Rattle.hdt_front.specs.Faults.{read_fault_of};
ghost use Rattle.hdt_front.specs.StringIds.{id_of};
ghost use Rattle.hdt_front.specs.Strings.{strings_of, section_of, block_size};
ghost use Rattle.hdt_front.specs.Cost.{section_search_cost};
ghost use Rattle.hdt_front.specs.Section.{AreSectionStrings, string_offset};
ghost use Rattle.hdt_dict.specs.Dictionary.{AreDisjoint, DictionaryParts, SectionLists, IsDictionaryAt, section_id};
ghost use Rattle.hdt_dict.specs.Dictionary.{section_by_id, disjoint_at, dictionary_at, checks_before_strings};
ghost use Rattle.hdt_dict.specs.Dictionary.{role_strings, lists_of_dictionary};
ghost use Rattle.hdt_dict.specs.Strings.{IsDictionaryString};
ghost use Rattle.hdt_dict.specs.Ids.{string_at_id, AppendsString};
ghost use Rattle.hdt_dict.specs.Iteration.{AreLocated};
ghost use Rattle.hdt_dict.specs.RoleSections.{second_strings, second_search_cost, second_block_size};
ghost use Rattle.hdt_dict.specs.Split.{IsSplit};
ghost use Rattle.hdt_dict.specs.StringBatch.{AppendsAll, AreIds, AscendTo};
ghost use Rattle.hdt_dict.specs.Writing.{AreSections, canonical_dictionary, canonical_dictionary_parts};
ghost use Rattle.hdt_wire.specs.declared.Role.{Role};

use crate::disjoint::check_disjoint;
use crate::role_iter::RoleIter;
use crate::role_sections::RoleSections;
use crate::role_seeker::RoleSeeker;
use crate::string_batch::{append_batch, are_ids};
use hdt_front::{ReadFault, Section, SectionIter};
use hdt_seq::Steps;
use hdt_wire::{Kind, Role, read_control, truncate_on_error};
use std::alloc::{AllocError, Global};

/// The sections of a dictionary, in file order.
#[derive(Clone, Copy)]
pub enum SectionId {
    Shared,
    Subjects,
    Predicates,
    Objects,
}

/// The section at an index, from 0, in file order.
fn section_id(index: usize) -> SectionId
    ensures { result ≡ section_id index }
{
    match index {
        0 => SectionId::Shared,
        1 => SectionId::Subjects,
        2 => SectionId::Predicates,
        _ => SectionId::Objects,
    }
}

/// A dictionary that was read. It borrows the input and owns no memory.
///
/// ```rust
/// let (dictionary, end) = Dictionary::read(alloc, bytes, at)?;
/// let mut steps = Steps::new();
/// let id = dictionary.number_of(Role::Predicate, b"http://a/", &mut steps);
/// let mut string = Vec::new(alloc);
/// let found = dictionary.string_of(Role::Object, 7, &mut string, &mut steps)?;
/// ```
#[derive(Clone, Copy)]
pub struct Dictionary<'a> {
    pub(crate) shared: Section<'a>,
    pub(crate) subjects: Section<'a>,
    pub(crate) predicates: Section<'a>,
    pub(crate) objects: Section<'a>,
    ghost subjects_fit: { length (strings_of shared) + length (strings_of subjects) < 2 ^ 64 },
    ghost objects_fit: { length (strings_of shared) + length (strings_of objects) < 2 ^ 64 },
    ghost subjects_apart: { disjoint_at (strings_of shared) (section_of subjects) ≡ Ok tt },
    ghost objects_apart: { disjoint_at (strings_of shared ++ strings_of subjects) (section_of objects) ≡ Ok tt },
}

impl<'a> Dictionary<'a> {
    ghost use Rattle.hdt_dict.specs.Cost.{role_search_cost, role_decode_cost};
    ghost use Rattle.hdt_dict.specs.Views.{dictionary_of, block_bytes_of_two, role_block_bytes};

    /// Reads the dictionary at a byte offset, from 0. Returns it with the offset after it. More bytes may follow.
    ///
    /// Linear time in the bytes: each string is decoded twice, to check its section and to find strings that are in two
    /// sections. Holds at most three strings at a time, and frees them.
    ///
    /// # Errors
    ///
    /// The first error in this order: in the control information; in the sections shared, subjects, predicates and
    /// objects; then `SectionsOverlap` at the first string of subjects that is in shared, else at the first string of
    /// objects that is in shared or in subjects. Or [`ReadFault::OutOfMemory`].
    #[tactic(auto, unfolding(crate::specs::Dictionary::dictionary_at, crate::specs::Dictionary::checks_before_strings, crate::specs::Views::dictionary_of, hdt_front::specs::Strings::section_of, hdt_wire::specs::Control::control_view))]
    pub fn read(
        alloc: Global,
        bytes: &'a [u8],
        at: usize,
    ) -> Result<(Dictionary<'a>, usize), ReadFault>
        // The result is that of the checks: the dictionary that is encoded at the offset, or the first error
        // (`dictionaries_are_exact`).
        ensures exact { ReadsUnlessOom read_fault_of (λ r. dictionary_of r.0) result (dictionary_at bytes.now at) }
        // An error before the first string is found without allocating memory.
        ensures without_memory { (f : FaultIs) → checks_before_strings bytes.now at ≡ Err f → result ≡ Err (FaultOf f) }
        ensures next { IfOk result (λ r. r.1 ≡ (dictionary_of r.0).objects.end) }
        // A role has at most as many strings as the input has bytes.
        ensures few { IfOk result (λ r. (role : Role)
            → length (role_strings (lists_of_dictionary (dictionary_of r.0)) role) ≤ length bytes.now) }
        ensures end { IfOk result (λ r. (at < r.1) × (r.1 ≤ length bytes.now)) }
    {
        let control = read_control(bytes, at, Kind::Dictionary)?;
        let (shared, subjects_at) = Section::read(alloc, bytes, control.end())?;
        let (subjects, predicates_at) = Section::read(alloc, bytes, subjects_at)?;
        let (predicates, objects_at) = Section::read(alloc, bytes, predicates_at)?;
        let (objects, end) = Section::read(alloc, bytes, objects_at)?;
        check_disjoint(alloc, &shared, None, &subjects)?;
        check_disjoint(alloc, &shared, Some(subjects), &objects)?;
        let dictionary = Dictionary {
            shared,
            subjects,
            predicates,
            objects,
        };
        Ok((dictionary, end))
    }

    /// Law: the strings of each section are UTF-8 without zero bytes and ascend, and no string is in two of shared,
    /// subjects and objects. Does nothing when called.
    #[tactic(auto, unfolding(crate::specs::Views::dictionary_of, hdt_front::specs::Strings::section_of))]
    pub fn sections_are_valid(&self)
        ensures shared { AreSectionStrings (dictionary_of self.now).shared.strings }
        ensures subjects { AreSectionStrings (dictionary_of self.now).subjects.strings }
        ensures predicates { AreSectionStrings (dictionary_of self.now).predicates.strings }
        ensures objects { AreSectionStrings (dictionary_of self.now).objects.strings }
        ensures shared_subjects { AreDisjoint (dictionary_of self.now).shared.strings
            (dictionary_of self.now).subjects.strings }
        ensures shared_objects { AreDisjoint (dictionary_of self.now).shared.strings
            (dictionary_of self.now).objects.strings }
        ensures subjects_objects { AreDisjoint (dictionary_of self.now).subjects.strings
            (dictionary_of self.now).objects.strings }
    {
        self.shared.strings_are_valid();
        self.subjects.strings_are_valid();
        self.predicates.strings_are_valid();
        self.objects.strings_are_valid();
    }

    /// Returns the number of strings of each section: shared, subjects, predicates, objects.
    #[tactic(auto, unfolding(crate::specs::Views::dictionary_of, hdt_front::specs::Strings::section_of))]
    pub fn section_lens(&self) -> [u64; 4]
        ensures { result ≡ length (dictionary_of self.now).shared.strings
            ∷ length (dictionary_of self.now).subjects.strings ∷ length (dictionary_of self.now).predicates.strings
            ∷ length (dictionary_of self.now).objects.strings ∷ [] }
    {
        [
            self.shared.len(),
            self.subjects.len(),
            self.predicates.len(),
            self.objects.len(),
        ]
    }

    /// The sections of a role.
    #[inline]
    #[tactic(auto, unfolding(crate::specs::Views::dictionary_of, crate::specs::Views::role_block_bytes, crate::specs::Cost::role_search_cost, crate::specs::Cost::role_decode_cost, hdt_front::specs::Strings::section_of))]
    pub(crate) fn sections_of(&self, role: Role) -> RoleSections<'_, 'a>
        ensures strings { strings_of result.first.now ++ second_strings (option_copied result.second)
            ≡ role_strings (lists_of_dictionary (dictionary_of self.now)) role }
        ensures search { section_search_cost (section_of result.first.now) + second_search_cost
            (option_copied result.second) ≡ role_search_cost (dictionary_of self.now) role }
        ensures blocks { (n : ℕ) → block_bytes_of_two result.first.now (option_copied result.second) n
            ≡ role_block_bytes self.now role n }
        ensures decode { max (block_size result.first.now) (second_block_size (option_copied result.second))
            ≡ role_decode_cost (dictionary_of self.now) role }
    {
        match role {
            Role::Subject => RoleSections {
                first: &self.shared,
                second: Some(&self.subjects),
            },
            Role::Predicate => RoleSections {
                first: &self.predicates,
                second: None,
            },
            Role::Object => RoleSections {
                first: &self.shared,
                second: Some(&self.objects),
            },
        }
    }

    /// Returns the number of strings of a role. Their IDs are 1 to this number.
    pub fn count(&self, role: Role) -> u64
        ensures { result ≡ length (role_strings (lists_of_dictionary (dictionary_of self.now)) role) }
    {
        self.sections_of(role).len()
    }

    /// Returns the ID of a string in a role, from 1, or `None` if the role has no such string.
    ///
    /// For each section of the role: a binary search over its blocks, then a scan of one block.
    pub fn number_of(&self, role: Role, x: &[u8], steps: &mut Steps) -> Option<u64>
        // It is n exactly if n is the ID of the string.
        ensures exact { (n : ℕ) → (result ≡ Some n)
            ↔ (string_at_id (role_strings (lists_of_dictionary (dictionary_of self.now)) role) n ≡ Some x.now) }
        ensures is { result ≡ id_of (role_strings (lists_of_dictionary (dictionary_of self.now)) role) x.now }
        ensures cost { steps.new ≤ steps.old + role_search_cost (dictionary_of self.now) role }
        ensures more { steps.old ≤ steps.new }
    {
        self.sections_of(role).find(x, steps)
    }

    /// Appends the string of a role with ID n, from 1, to `out`, and returns true. Returns false if n is not a valid
    /// ID. In this case, and if memory runs out, `out` is unchanged.
    ///
    /// Decodes the block of the string from its start up to the string.
    pub fn string_of(
        &self,
        role: Role,
        n: u64,
        out: &mut Vec<u8>,
        steps: &mut Steps,
    ) -> Result<bool, AllocError>
        ensures ok { IfOk result (λ b. AppendsString
            (string_at_id (role_strings (lists_of_dictionary (dictionary_of self.now)) role) n) b out.old.items
            out.new.items) }
        ensures err { OnErr result (out.new.items ≡ out.old.items) }
        ensures cost { steps.new ≤ steps.old + role_decode_cost (dictionary_of self.now) role }
        ensures absent { string_at_id (role_strings (lists_of_dictionary (dictionary_of self.now)) role) n ≡ None
            → IsOk result }
        ensures more { steps.old ≤ steps.new }
    {
        let Some((section, place)) = self.sections_of(role).locate(n) else {
            return Ok(false);
        };
        section.string(place, out, steps)?;
        Ok(true)
    }

    /// Appends the strings of a role with these IDs, from 1, to `out`, and the byte offset in `out` at which each ends
    /// to `ends`. Returns true; or false if one of the IDs is 0 or greater than [`count`](Dictionary::count). In this
    /// case, and if memory runs out, `out` and `ends` are unchanged.
    ///
    /// Each string takes at most as many steps as [`string_of`](Dictionary::string_of). If the IDs never descend, each
    /// block is decoded once, and all strings together take at most as many steps as the last ID.
    pub fn strings_by_id(
        &self,
        alloc: Global,
        role: Role,
        ids: &[u64],
        out: &mut Vec<u8>,
        ends: &mut Vec<u64>,
        steps: &mut Steps,
    ) -> Result<bool, AllocError>
        ensures ok { IfOk result (λ all. AppendsAll (role_strings (lists_of_dictionary (dictionary_of self.now)) role)
            ids.now all out.old.items out.new.items ends.old.items ends.new.items) }
        ensures err { OnErr result ((out.new.items ≡ out.old.items) × (ends.new.items ≡ ends.old.items)) }
        ensures cost { steps.new ≤ steps.old + length ids.now * role_decode_cost (dictionary_of self.now) role }
        ensures once { (n : ℕ) → AscendTo ids.now n → steps.new ≤ steps.old + n }
        ensures more { steps.old ≤ steps.new }
        ensures absent { (AreIds (role_strings (lists_of_dictionary (dictionary_of self.now)) role) ids.now → ⊥)
            → IsOk result }
    {
        if !are_ids(ids, self.count(role)) {
            return Ok(false);
        }
        let start = out.len();
        let listed = ends.len();
        let sections = self.sections_of(role);
        let appended = append_batch(alloc, &sections, ids, out, ends, steps);
        if appended.is_err() {
            ends.truncate(listed);
        }
        truncate_on_error(appended, start, out)?;
        Ok(true)
    }

    /// Returns an iterator over the strings of a role, in the order of their IDs. Allocates nothing yet.
    pub fn strings(&self, alloc: Global, role: Role) -> RoleIter<'a>
        ensures { result ≡ record {
          given = 0;
          last = [];
          ahead =
              role_strings (lists_of_dictionary (dictionary_of self.now)) role;
        } }
    {
        RoleIter::new(alloc, &self.sections_of(role))
    }

    /// Returns a cursor with random access to the strings of a role. Allocates nothing yet.
    pub fn seeker(&self, alloc: Global, role: Role) -> RoleSeeker<'a>
        ensures { result ≡ role_strings (lists_of_dictionary (dictionary_of self.now)) role }
    {
        RoleSeeker::new(alloc, &self.sections_of(role))
    }

    /// Returns the front-coded bytes of the block that has the string of a role with ID n, from 1, borrowed from the
    /// input: decoding the string reads no others. Empty if n is not a valid ID. Two memory accesses.
    pub fn block(&self, role: Role, n: u64) -> &'a [u8]
        ensures { result.now ≡ role_block_bytes self.now role n }
    {
        match self.sections_of(role).locate(n) {
            None => &[],
            Some((section, place)) => section.block_bytes(place),
        }
    }

    /// Returns a section.
    #[inline]
    #[tactic(auto, unfolding(crate::specs::Views::dictionary_of))]
    pub fn section(&self, id: SectionId) -> &Section<'a>
        ensures { section_of result.now ≡ section_by_id (dictionary_of self.now) id }
    {
        match id {
            SectionId::Shared => &self.shared,
            SectionId::Subjects => &self.subjects,
            SectionId::Predicates => &self.predicates,
            SectionId::Objects => &self.objects,
        }
    }

    /// Returns the byte offset in the input of string n, from 1, of a section, as errors report it. The section is an
    /// index, from 0, in file order; it must be less than 4, and n at most the number of strings of the section. Scans
    /// at most one block.
    #[tactic(auto, unfolding(hdt_front::specs::Strings::section_of))]
    pub fn string_start(&self, section: usize, n: u64) -> u64
        requires section { section < 4 }
        requires from_one { 1 ≤ n }
        requires within { n ≤ length (section_by_id (dictionary_of self.now) (section_id section)).strings }
        ensures { result ≡ string_offset (section_by_id (dictionary_of self.now) (section_id section)) (n - 1) }
    {
        self.section(section_id(section)).string_start(n)
    }

    /// Returns an iterator over the strings of a section with their byte offsets, as errors report them. A full
    /// iteration takes time linear in the front-coded bytes, where a call of
    /// [`string_start`](Dictionary::string_start) for each string would scan a block each. Allocates nothing yet.
    pub fn located_strings(&self, alloc: Global, section: SectionId) -> SectionIter<'a>
        ensures { AreLocated (section_by_id (dictionary_of self.now) section) result.ahead }
    {
        SectionIter::new(alloc, self.section(section))
    }
}

/// The checks of a dictionary return a dictionary exactly if it is encoded at the offset.
#[tactic(auto, using(crate::specs::Laws::Dictionary::dictionary_exact))]
pub fn dictionaries_are_exact()
    ensures { (bytes : List ℕ) (at : ℕ) → IsBytes bytes
        → Exactly (dictionary_at bytes at) (λ d. IsDictionaryAt d bytes at) }
{}

/// At most one dictionary is encoded at an offset. Either it is, or there is exactly one first error.
pub fn one_dictionary()
    ensures one { (bytes : List ℕ) (at : ℕ) (d e : DictionaryParts) → IsBytes bytes → IsDictionaryAt d bytes at
        → IsDictionaryAt e bytes at → d ≡ e }
    ensures or_fault { (bytes : List ℕ) (at : ℕ) → IsBytes bytes
        → UniqueValue (dictionary_at bytes at) (λ d. IsDictionaryAt d bytes at)
        ⊎ UniqueFault (dictionary_at bytes at) (λ d. IsDictionaryAt d bytes at) }
{}

/// The canonical bytes of a dictionary are read back as that dictionary, whatever precedes and follows them.
#[tactic(auto, using(crate::specs::Laws::Writing::dictionary_encoded))]
pub fn dictionary_round_trip()
    ensures { (b : ℕ) (d : SectionLists) (bytes : List ℕ) (at end : ℕ) → 1 ≤ b → b < 2 ^ 64 → AreSections d
        → length bytes < 2 ^ 64
        → HasSlice bytes at (canonical_dictionary b d) end
        → IsDictionaryAt (canonical_dictionary_parts b d at) bytes at }
{}

/// Dividing strings that are UTF-8 without zero bytes gives valid sections of a dictionary.
pub fn split_makes_sections()
    ensures { (subjects predicates objects : List (List ℕ)) (d : SectionLists) → IsSplit subjects predicates objects d
        → All IsDictionaryString subjects → All IsDictionaryString predicates → All IsDictionaryString objects
        → AreSections d }
{}
