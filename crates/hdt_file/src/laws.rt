//! Laws of the text of a graph: empty functions whose contracts other crates use.
ghost use Rattle.std.specs.Prelude.{◌≡◌, ℕ, List, map, [], Option, filter};
ghost use Rattle.std.specs.List.{AllByRecursion};
ghost use Rattle.hdt_terms.specs.Lines.{Document};
ghost use Rattle.hdt_wire.specs.declared.Role.{Role};
ghost use Rattle.hdt_triples.specs.TripleSequences.{Triple};
ghost use Rattle.hdt_file.specs.Denoted.{StringTriple, denoted};
ghost use Rattle.hdt_file.specs.Documents.{triple_of, AreGrammarTerms};
ghost use Rattle.hdt_file.specs.File.{GraphParts};
ghost use Rattle.hdt_file.specs.Text.{IsFirstNonTerm, IsTextOf};
ghost use Rattle.hdt_dict.specs.Strings.{BorrowedString};
ghost use Rattle.hdt_triples.specs.Patterns.{matches};
ghost use Rattle.hdt_triples.specs.declared.pattern.Pattern.{Pattern};
ghost use Rattle.hdt_file.specs.Graph.{IsGraph};
ghost use Rattle.hdt_file.specs.Search.{IsPattern};
ghost use Rattle.hdt_file.specs.StringTriples.{AreDistinctTriples, has_given_strings};

use hdt_terms::{term_string_is_injective, written_text_encodes_term};

/// Triples have either one text, or one first string that is not a term that its role allows; never both.
pub fn one_text()
    ensures text { (triples : List StringTriple) (a b : List ℕ) → IsTextOf triples a → IsTextOf triples b → a ≡ b }
    ensures first { (g : GraphParts) (ts : List Triple) (role other : Role) (m n : ℕ) →
        IsFirstNonTerm g ts role m → IsFirstNonTerm g ts other n → (role ≡ other) × (m ≡ n) }
    ensures apart { (g : GraphParts) (ts : List Triple) (text : List ℕ) (role : Role) (number : ℕ) →
        IsTextOf (denoted g ts) text → IsFirstNonTerm g ts role number → ⊥ }
{
    term_string_is_injective()
}

/// The text of triples is a document of exactly these triples, if their strings are those of terms of the grammar.
pub fn text_is_a_document()
    ensures { (triples : List StringTriple) (text : List ℕ) (h : IsTextOf triples text) →
        AllByRecursion AreGrammarTerms h.terms → Document text (map triple_of h.terms) }
{
    written_text_encodes_term()
}

/// A search by strings is a filter of the denoted graph: the matches of the pattern of the given strings denote exactly
/// the triples that have each given string in its role, in the same order. If there is no such pattern, no triple has
/// the strings.
#[tactic(auto, using(crate::proofs::StringSearchLaws::matches_denoted, crate::proofs::StringSearchLaws::none_denoted))]
pub fn search_is_a_filter()
    ensures some { (g : GraphParts) (given : List (Option BorrowedString)) (p : Pattern) → IsGraph g
        → IsPattern g given p →
        denoted g (matches p g.triples) ≡ filter (has_given_strings given) (denoted g g.triples) }
    ensures none { (g : GraphParts) (given : List (Option BorrowedString)) → IsGraph g
        → ((p : Pattern) → IsPattern g given p → ⊥) →
        filter (has_given_strings given) (denoted g g.triples) ≡ [] }
{}

/// No triple of strings occurs twice in the denoted graph, so a search finds none twice.
#[tactic(auto, using(crate::proofs::StringSearchLaws::denoted_triples_are_distinct))]
pub fn denoted_triples_are_distinct()
    ensures { (g : GraphParts) → IsGraph g → AreDistinctTriples (denoted g g.triples) }
{}
