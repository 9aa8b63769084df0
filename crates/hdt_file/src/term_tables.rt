//! Writing many lines of N-Triples from tables that have each string once, as it is written in a line.
ghost use Rattle.std.specs.Prelude.{◌≡◌, ℕ, List, map, IfOk, IfErr, OnOk};
ghost use Rattle.hdt_file.specs.File.{GraphParts};
ghost use Rattle.hdt_wire.specs.Control.{IsPrefixOf};
ghost use Rattle.hdt_file.specs.Inside.RenderedTerms.{AreRendered, RendersRole, AreTables, AppendsRenderedIfMarked};
ghost use Rattle.hdt_file.specs.Inside.RenderedTerms.{RendersTriple, IsRendered, is_marked, rendered_string};
ghost use Rattle.hdt_file.specs.TextWriting.{AppendsLine, AppendsTerm, AppendsText, ReportsFirstNonTerm};
ghost use Rattle.hdt_file.specs.TextWriting.{ReportsNonTermOfTriple, ReportsNonTerm};
ghost use Rattle.hdt_file.specs.Graph.{layout_view};
ghost use Rattle.hdt_dict.specs.Dictionary.{role_strings};

use crate::fault::DumpFault;
use crate::layout::Layout;
use crate::term_writing::render_term;
use hdt_dict::{Arena, Role};
use hdt_terms::StringFault;
use hdt_triples::use_flags;
use std::alloc::{AllocError, Global};

/// For each role, the strings in the order of their IDs as they are written in a line. An entry is empty if the string
/// is not a term that the role allows, or is not needed.
#[derive(Drop)]
pub(crate) struct TermTables {
    subjects: Arena,
    predicates: Arena,
    objects: Arena,
}

/// Whether an ID is marked; an ID out of range counts as marked.
fn is_marked(marks: &[bool], number: u64) -> bool
    ensures { result ≡ is_marked marks.now number }
{
    match marks.get(number as usize) {
        Some(mark) => *mark,
        None => true,
    }
}

/// Appends a string of a role as it is written in a line, if its ID is marked and it is a term that the role allows.
fn put_rendered_if_marked(
    marked: bool,
    role: Role,
    string: &[u8],
    out: &mut Vec<u8>,
) -> Result<(), AllocError>
    ensures { OnOk result (AppendsRenderedIfMarked marked role string.now out.old.items out.new.items) }
{
    if !marked {
        return Ok(());
    }
    match render_term(role, string, out) {
        Ok(()) | Err(StringFault::NotATerm) => Ok(()),
        Err(StringFault::OutOfMemory) => Err(AllocError),
    }
}

/// The table of the strings of a role whose IDs are marked. Each string of the role is decoded once.
fn render_marked(
    alloc: Global,
    layout: &Layout<'_>,
    role: Role,
    marks: &[bool],
) -> Result<Arena, AllocError>
    ensures { IfOk result (λ arena. AreRendered role marks.now 1
        (role_strings (layout_view layout.now).dictionary role) arena) }
{
    let mut bytes = Vec::new(alloc);
    let mut starts = Vec::new(alloc);
    let mut strings = layout.strings(alloc, role);
    starts.push(0)?;
    'strings: while let Some(number) = strings.next()? {
        put_rendered_if_marked(is_marked(marks, number), role, strings.string(), &mut bytes)?;
        starts.push(bytes.len())?;
    }
    Ok(Arena::from_parts(bytes, starts))
}

/// The table of the strings that triples have in a role.
fn render_used(
    alloc: Global,
    layout: &Layout<'_>,
    role: Role,
    triples: &[(u64, u64, u64)],
) -> Result<Arena, AllocError>
    ensures { IfOk result (RendersRole (layout_view layout.now) role triples.now) }
{
    let ids = (layout.count(role) as usize).saturating_add(1);
    let marks = use_flags(alloc, triples, role, ids)?;
    Ok(render_marked(alloc, layout, role, &marks)?)
}

/// The tables of the strings that triples have. Linear time in the dictionary, these strings and the triples.
pub(crate) fn build_tables(
    alloc: Global,
    layout: &Layout<'_>,
    triples: &[(u64, u64, u64)],
) -> Result<TermTables, AllocError>
    ensures { IfOk result (AreTables (layout_view layout.now) triples.now) }
{
    Ok(TermTables {
        subjects: render_used(alloc, layout, Role::Subject, triples)?,
        predicates: render_used(alloc, layout, Role::Predicate, triples)?,
        objects: render_used(alloc, layout, Role::Object, triples)?,
    })
}

/// The entry of string n, from 1; empty if there is none.
fn rendered_string(rendered_list: &Arena, n: u64) -> &[u8]
    ensures { result.now ≡ rendered_string rendered_list.now n }
{
    if n == 0 || n > rendered_list.len() as u64 {
        return &[];
    }
    rendered_list.get((n - 1) as usize)
}

/// The length of the lines of triples together, up to the first with a string that is not a term.
pub(crate) fn total_line_len(tables: &TermTables, triples: &[(u64, u64, u64)]) -> usize {
    let mut bytes: usize = 0;
    for (subject, predicate, object) in triples {
        let subject = rendered_string(&tables.subjects, *subject).len();
        let predicate = rendered_string(&tables.predicates, *predicate).len();
        let object = rendered_string(&tables.objects, *object).len();
        if subject == 0 || predicate == 0 || object == 0 {
            return bytes;
        }
        bytes = bytes
            .saturating_add(subject)
            .saturating_add(predicate)
            .saturating_add(object);
    }
    bytes
}

/// Appends an entry; an empty one is an error, as its string is not a term. After an error `out` is unchanged.
fn append_rendered(role: Role, n: u64, rendered: &[u8], out: &mut Vec<u8>) -> Result<(), DumpFault>
    ensures ok { OnOk result ((string : List ℕ) → IsRendered role string rendered.now
        → AppendsTerm role string out.old.items out.new.items) }
    ensures err { IfErr result (λ e. (string : List ℕ) → IsRendered role string rendered.now
        → ReportsNonTerm role n string e) }
    ensures kept { IsPrefixOf out.old.items out.new.items }
{
    if rendered.is_empty() {
        return Err(DumpFault::NotATerm(role, n));
    }
    Ok(out.extend_from_slice(rendered)?)
}

/// Appends the line of a triple, given the entry of its object. An error may leave its first bytes in `out`.
fn append_line_from_tables(
    tables: &TermTables,
    triple: (u64, u64, u64),
    object: &[u8],
    out: &mut Vec<u8>,
) -> Result<(), DumpFault>
    ensures ok { OnOk result ((g : GraphParts) → RendersTriple g tables.now triple
        → object.now ≡ rendered_string tables.now.objects triple.2 → AppendsLine g triple out.old.items out.new.items) }
    ensures err { IfErr result (λ e. (g : GraphParts) → RendersTriple g tables.now triple
        → object.now ≡ rendered_string tables.now.objects triple.2 → ReportsNonTermOfTriple g triple e) }
    ensures kept { IsPrefixOf out.old.items out.new.items }
{
    let (s, p, o) = triple;
    append_rendered(Role::Subject, s, rendered_string(&tables.subjects, s), out)?;
    append_rendered(
        Role::Predicate,
        p,
        rendered_string(&tables.predicates, p),
        out,
    )?;
    append_rendered(Role::Object, o, object, out)?;
    Ok(())
}

/// The entries of the objects of triples. It doesn't read their bytes.
fn rendered_objects<'t>(
    alloc: Global,
    tables: &'t TermTables,
    triples: &[(u64, u64, u64)],
) -> Result<Vec<&'t [u8]>, AllocError>
    ensures { IfOk result (λ made. map (λ x. x.now) made.items
        ≡ map (λ t. rendered_string tables.now.objects t.2) triples.now) }
{
    let mut made = Vec::with_capacity(alloc, triples.len())?;
    'triples: for triple in triples {
        made.push(rendered_string(&tables.objects, triple.2))?;
    }
    Ok(made)
}

/// Prefetches entries, and returns their length together: reads the first and the last byte of each, in loads that
/// don't depend on each other. Entries with a zero byte there would not count, but none has one.
fn prefetch_rendered(rendered_list: &[&[u8]]) -> usize {
    let mut bytes: usize = 0;
    for rendered in rendered_list {
        if rendered.first() != Some(&0) && rendered.last() != Some(&0) {
            bytes = bytes.saturating_add(rendered.len());
        }
    }
    bytes
}

/// Appends the lines of triples: finds the entries of all objects, prefetches them, then copies. An error may leave
/// some of the lines in `out`.
pub(crate) fn append_lines(
    alloc: Global,
    tables: &TermTables,
    triples: &[(u64, u64, u64)],
    out: &mut Vec<u8>,
) -> Result<(), DumpFault>
    ensures ok { OnOk result ((g : GraphParts) → AreTables g triples.now tables.now
        → AppendsText g triples.now out.old.items out.new.items) }
    ensures err { IfErr result (λ e. (g : GraphParts) → AreTables g triples.now tables.now
        → ReportsFirstNonTerm g triples.now e) }
    ensures kept { IsPrefixOf out.old.items out.new.items }
{
    let objects = rendered_objects(alloc, tables, triples)?;
    out.reserve(prefetch_rendered(&objects))?;
    'triples: for at in 0..triples.len() {
        append_line_from_tables(tables, triples[at], objects[at], out)?;
    }
    Ok(())
}
