//! Laws about sections that callers can use. They do nothing when called.
ghost use Rattle.std.specs.Prelude.{◌≡◌, ◌⊎◌, ◌+◌, ◌<◌, ◌≤◌, ◌^◌, ◌-◌, ◌*◌, ◌++◌, [], ℕ, List, length, take, get_or};
ghost use Rattle.std.specs.Prelude.{Ok, Some};
ghost use Rattle.std.specs.List.{concat};
ghost use Rattle.hdt_wire.specs.Checks.{IsBytes, HasSlice};
ghost use Rattle.hdt_wire.specs.Exact.{Exactly, UniqueValue, UniqueFault};
ghost use Rattle.hdt_seq.specs.Numbers.{numbers_encoding};
ghost use Rattle.hdt_seq.specs.Width.{width_of};
ghost use Rattle.hdt_front.specs.declared.section.Section.{Section as SectionIs};
ghost use Rattle.hdt_front.specs.StringIds.{id_of};
ghost use Rattle.hdt_front.specs.Strings.{strings_of, blocks_of, block_size};
ghost use Rattle.hdt_front.specs.Canonical.{canonical, canonical_parts};
ghost use Rattle.hdt_front.specs.Section.{SectionParts, AreSectionStrings, IsSectionAt, section_at, string_offset};
ghost use Rattle.hdt_front.specs.SectionWriting.{CanBeWritten, section_preamble, section_encoding};

/// Law: the checks accept exactly the sections that are encoded at the offset.
pub fn sections_are_exact()
    ensures { (bytes : List ℕ) (at : ℕ) → IsBytes bytes → Exactly (section_at bytes at) (λ s. IsSectionAt s bytes at) }
{}

/// Law: at an offset there is exactly one section and no error, or exactly one error and no section.
pub fn one_section()
    ensures one { (bytes : List ℕ) (at : ℕ) (s t : SectionParts) → IsBytes bytes → IsSectionAt s bytes at
        → IsSectionAt t bytes at → s ≡ t }
    ensures or_fault { (bytes : List ℕ) (at : ℕ) → IsBytes bytes
        → UniqueValue (section_at bytes at) (λ s. IsSectionAt s bytes at)
        ⊎ UniqueFault (section_at bytes at) (λ s. IsSectionAt s bytes at) }
{}

/// Law: the offset of a string is that of its entry.
pub fn string_places()
    ensures { (s : SectionParts) (bytes : List ℕ) (at : ℕ) (h : IsSectionAt s bytes at) (i : ℕ) → i < length s.strings
        → string_offset s i ≡ s.packed_offset + length (concat (take i h.front_coded.entries)) }
{}

/// Law: the bytes written for strings are read back as their section, whatever precedes and follows them. This holds
/// for the canonical bytes and for any other front coding of the strings.
pub fn section_round_trip()
    ensures canonical { (b : ℕ) (strings : List (List ℕ)) (bytes : List ℕ) (at end : ℕ) → 1 ≤ b → b < 2 ^ 64
        → AreSectionStrings strings → length bytes < 2 ^ 64
        → HasSlice bytes at (canonical b strings) end → IsSectionAt (canonical_parts b strings at) bytes at }
    ensures again { (b : ℕ) (strings : List (List ℕ)) (before after : List ℕ) → 1 ≤ b → b < 2 ^ 64
        → AreSectionStrings strings
        → IsBytes (before ++ canonical b strings ++ after) → length (before ++ canonical b strings ++ after) < 2 ^ 64
        → section_at (before ++ canonical b strings ++ after) (length before)
        ≡ Ok (canonical_parts b strings (length before)) }
    ensures front_coded { (strings : List (List ℕ)) (b : ℕ) (starts packed bytes : List ℕ) (at end : ℕ)
        → CanBeWritten strings b starts packed
        → HasSlice bytes at (section_encoding (length strings) b starts packed) end
        → IsSectionAt (record {
          strings = strings;
          block_size = b;
          offset_bits = width_of starts;
          packed = packed;
          packed_offset = at + length (section_preamble (length strings) (length packed) b) + 1 + length
              (numbers_encoding starts);
          end = end;
        }) bytes at }
{}

/// Law: look-ups by string and by ID are inverse. The ID found for a string has this string, and the string of an ID
/// has this ID.
pub fn look_ups_are_inverse()
    ensures found { (s : SectionIs) (x : List ℕ) (n : ℕ) → id_of (strings_of s) x ≡ Some n
        → (1 ≤ n) × (n ≤ length (strings_of s)) × (get_or (strings_of s) (n - 1) [] ≡ x) }
    ensures only { (s : SectionIs) (n : ℕ) → 1 ≤ n → n ≤ length (strings_of s)
        → id_of (strings_of s) (get_or (strings_of s) (n - 1) []) ≡ Some n }
{}

/// Law: the number of blocks is the least number whose product with the block size is at least the number of strings.
/// It is 0 if there are no strings.
pub fn blocks_are_least()
    ensures enough { (s : SectionIs) → length (strings_of s) ≤ blocks_of s * block_size s }
    ensures least { (s : SectionIs) (k : ℕ) → length (strings_of s) ≤ k * block_size s → blocks_of s ≤ k }
    ensures none { (s : SectionIs) → length (strings_of s) ≡ 0 → blocks_of s ≡ 0 }
{}
