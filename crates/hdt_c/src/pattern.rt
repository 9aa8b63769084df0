//! Patterns of strings and IDs.
ghost use Rattle.std.specs.Prelude.{◌≡◌, ◌↔◌, ℕ, Option, Some};
ghost use Rattle.hdt_dict.specs.Dictionary.{role_strings};
ghost use Rattle.hdt_triples.specs.declared.pattern.Pattern.{Pattern};
ghost use Rattle.hdt_file.specs.Graph.{graph_view};
ghost use Rattle.hdt_file.specs.TextWriting.{matches_if_given};
ghost use Rattle.hdt_c.specs.GivenPatterns.{GivesId, IsGivenPattern};
ghost use Rattle.hdt_c.specs.LookUps.{AreMatches};

use hdt_dict::Role;
use hdt_file::Graph;
use hdt_seq::Steps;
use hdt_triples::Pattern;

/// `hdt_part`: the subject, the predicate or the object of a pattern.
#[repr(C)]
pub struct HdtPart<'a> {
    /// 0: any; 1: the ID; 2: the string; with another kind the pattern matches nothing.
    pub kind: u32,
    /// The ID, from 1.
    pub id: u64,
    /// The string.
    pub string: &'a [u8],
}

/// `hdt_pattern`: a part for each role.
#[repr(C)]
pub struct HdtPattern<'a> {
    /// The subject.
    pub s: HdtPart<'a>,
    /// The predicate.
    pub p: HdtPart<'a>,
    /// The object.
    pub o: HdtPart<'a>,
}

/// What a part gives in its role: `Some(None)` if it is any. `None` if it is a string that the role doesn't have, or of
/// a kind that there isn't.
fn id_of_part(graph: &Graph<'static>, role: Role, part: &HdtPart<'_>) -> Option<Option<u64>>
    ensures { (given : Option ℕ) → (result ≡ Some given)
        ↔ GivesId (role_strings (graph_view graph.now).dictionary role) part.now given }
{
    match part.kind {
        0 => Some(None),
        1 => Some(Some(part.id)),
        2 => Some(Some(graph.number_of(role, part.string, &mut Steps::new())?)),
        _ => None,
    }
}

/// The pattern with the IDs that the parts give; `None` if one of them gives none.
pub(crate) fn ids_of_parts(graph: &Graph<'static>, given: &HdtPattern<'_>) -> Option<Pattern>
    ensures { (p : Pattern) → (result ≡ Some p) ↔ IsGivenPattern (graph_view graph.now) given.now p }
{
    Some(Pattern {
        s: id_of_part(graph, Role::Subject, &given.s)?,
        p: id_of_part(graph, Role::Predicate, &given.p)?,
        o: id_of_part(graph, Role::Object, &given.o)?,
    })
}

/// The pattern with the IDs that the parts give, whose matches are those of the parts; `None` if one of them gives
/// none.
pub(crate) fn pattern_of_parts(graph: &Graph<'static>, given: &HdtPattern<'_>) -> Option<Pattern>
    ensures { AreMatches (graph_view graph.now) (IsGivenPattern (graph_view graph.now) given.now)
        (matches_if_given (graph_view graph.now) result) }
{
    ids_of_parts(graph, given)
}
