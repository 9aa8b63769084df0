//! Writing the strings of a graph as N-Triples terms.
ghost use Rattle.std.specs.Prelude.{◌≡◌, ◌↔◌, ◌++◌, None, Some, IfErr, IfOk, OnOk, OnErr, IsErrOf, IfSome};
ghost use Rattle.std.specs.Prelude.{IsTrue};
ghost use Rattle.std.specs.List.{All};
ghost use Rattle.hdt_terms.specs.Strings.{kind_of};
ghost use Rattle.hdt_terms.specs.declared.triple.Term.{Term};
ghost use Rattle.hdt_terms.specs.declared.fault.StringFault.TheVariants as StringFaultOf;
ghost use Rattle.hdt_file.specs.Denoted.{string_of};
ghost use Rattle.hdt_file.specs.Text.{FitsRole, HasNoTerm};
ghost use Rattle.hdt_file.specs.File.{GraphParts};
ghost use Rattle.hdt_file.specs.CachedTerms.{CachesPredicate, CachesTerm, CachesTerms};
ghost use Rattle.hdt_wire.specs.Control.{IsPrefixOf};
ghost use Rattle.hdt_wire.specs.declared.Role.TheVariants.{Predicate, Object};
ghost use Rattle.hdt_file.specs.TextWriting.{AppendsLine, AppendsTerm, ReportsNonTermOfTriple, ReportsNonTerm};
ghost use Rattle.hdt_file.specs.TextWriting.{separator};
ghost use Rattle.hdt_file.specs.Graph.{layout_view};

use crate::fault::DumpFault;
use crate::layout::Layout;
use hdt_dict::Role;
use hdt_seq::Steps;
use hdt_terms::{StringFault, TermKind, put_string};
use hdt_wire::truncate_on_error;
use std::alloc::{AllocError, Global};

/// Whether a role allows terms of this kind: a subject is an IRI or a blank node, a predicate is an IRI, an object is
/// any term.
fn role_allows(role: Role, kind: TermKind) -> bool
    ensures { (term : Term) → kind ≡ kind_of term → IsTrue result ↔ FitsRole role term }
{
    match (role, kind) {
        (Role::Subject, TermKind::Literal) => false,
        (Role::Subject, _) => true,
        (Role::Predicate, TermKind::Iri) => true,
        (Role::Predicate, _) => false,
        (Role::Object, _) => true,
    }
}

/// Appends what follows the term of a role in a line.
fn append_separator(role: Role, out: &mut Vec<u8>) -> Result<(), AllocError>
    ensures ok { OnOk result (out.new.items ≡ out.old.items ++ separator role) }
    ensures err { OnErr result (out.new.items ≡ out.old.items) }
{
    match role {
        Role::Subject | Role::Predicate => out.extend_from_slice(b" "),
        Role::Object => out.extend_from_slice(b" .\n"),
    }
}

/// Appends a string of the role as it is written in a line: its term and what follows it. After an error `out` is
/// unchanged.
pub(crate) fn render_term(role: Role, string: &[u8], out: &mut Vec<u8>) -> Result<(), StringFault>
    ensures ok { OnOk result (AppendsTerm role string.now out.old.items out.new.items) }
    ensures none { IsErrOf result StringFaultOf.NotATerm → HasNoTerm role string.now }
    ensures err { OnErr result (out.new.items ≡ out.old.items) }
{
    let len = out.len();
    let kind = put_string(string, out)?;
    if !role_allows(role, kind) {
        out.truncate(len);
        return Err(StringFault::NotATerm);
    }
    let appended = append_separator(role, out);
    Ok(truncate_on_error(appended, len, out)?)
}

/// Appends string n of a role as it is written in a line. `string` is a buffer. After an error `out` is unchanged.
fn append_string_as_term(
    layout: &Layout<'_>,
    role: Role,
    n: u64,
    string: &mut Vec<u8>,
    out: &mut Vec<u8>,
) -> Result<(), DumpFault>
    ensures ok { OnOk result
        (AppendsTerm role (string_of (layout_view layout.now) role n) out.old.items out.new.items) }
    ensures err { IfErr result (ReportsNonTerm role n (string_of (layout_view layout.now) role n)) }
    ensures left { OnErr result (out.new.items ≡ out.old.items) }
{
    string.clear();
    layout.string_of(role, n, string, &mut Steps::new())?;
    match render_term(role, string, out) {
        Ok(()) => Ok(()),
        Err(StringFault::NotATerm) => Err(DumpFault::NotATerm(role, n)),
        Err(StringFault::OutOfMemory) => Err(DumpFault::OutOfMemory),
    }
}

/// A string of a role as it is written in a line, cached for lines with the same string.
#[derive(Drop)]
struct CachedTerm {
    id: Option<u64>,
    text: Vec<u8>,
}

/// The initial capacity of a buffer for a term or a string; most are not longer.
const TERM_CAPACITY: usize = 128;

impl CachedTerm {
    fn new(alloc: Global, capacity: usize) -> Result<CachedTerm, AllocError>
        ensures { IfOk result (λ s. s.id ≡ None) }
    {
        Ok(CachedTerm {
            id: None,
            text: Vec::with_capacity(alloc, capacity)?,
        })
    }

    /// Caches string n of a role, unless it is the cached one.
    fn cache_term(
        &mut self,
        layout: &Layout<'_>,
        role: Role,
        n: u64,
        string: &mut Vec<u8>,
    ) -> Result<(), DumpFault>
        requires { CachesTerm (layout_view layout.now) role self.old.id self.old.text.items }
        ensures kept { CachesTerm (layout_view layout.now) role self.new.id self.new.text.items }
        ensures ok { OnOk result (CachesTerm (layout_view layout.now) role (Some n) self.new.text.items) }
        ensures err { IfErr result (ReportsNonTerm role n (string_of (layout_view layout.now) role n)) }
    {
        if self.id == Some(n) {
            return Ok(());
        }
        self.id = None;
        self.text.clear();
        append_string_as_term(layout, role, n, string, &mut self.text)?;
        self.id = Some(n);
        Ok(())
    }

    /// Appends string n of a role as it is written in a line, and caches it.
    fn append_and_cache(
        &mut self,
        layout: &Layout<'_>,
        role: Role,
        n: u64,
        string: &mut Vec<u8>,
        out: &mut Vec<u8>,
    ) -> Result<(), DumpFault>
        requires { CachesTerm (layout_view layout.now) role self.old.id self.old.text.items }
        ensures kept { CachesTerm (layout_view layout.now) role self.new.id self.new.text.items }
        ensures spelled { OnOk result (CachesTerm (layout_view layout.now) role (Some n) self.new.text.items) }
        ensures ok { OnOk result (AppendsTerm role
            (string_of (layout_view layout.now) role n) out.old.items out.new.items) }
        ensures err { IfErr result (ReportsNonTerm role n (string_of (layout_view layout.now) role n)) }
        ensures left { OnErr result (IsPrefixOf out.old.items out.new.items) }
    {
        self.cache_term(layout, role, n, string)?;
        Ok(out.extend_from_slice(&self.text)?)
    }

    /// Caches string n, which is written as `text`.
    fn store(&mut self, n: u64, text: &[u8]) -> Result<(), AllocError>
        ensures id { OnOk result (self.new.id ≡ Some n) }
        ensures text { OnOk result (self.new.text.items ≡ text.now) }
        ensures err { OnErr result (self.new.id ≡ None) }
    {
        self.id = None;
        self.text.clear();
        self.text.extend_from_slice(text)?;
        self.id = Some(n);
        Ok(())
    }
}

/// The number of predicates whose terms are cached.
const MAX_CACHED: usize = 256;

/// The greatest length of a predicate's term that is cached.
const MAX_CACHED_LEN: usize = 256;

/// The cache slot of predicate n.
fn slot_of(n: u64) -> usize {
    (n % MAX_CACHED as u64) as usize
}

/// The cached term of predicate n.
fn cached_term(slots: &[CachedTerm], n: u64) -> Option<&[u8]>
    ensures { (g : GraphParts) → All (CachesPredicate g) slots.now
        → IfSome result (λ text. CachesTerm g Predicate (Some n) text.now) }
{
    let slot = slots.get(slot_of(n))?;
    if slot.id == Some(n) {
        Some(&slot.text)
    } else {
        None
    }
}

/// Caches the term of predicate n, if it is short and its slot is free. A slot is never overwritten.
fn cache_predicate(slots: &mut Vec<CachedTerm>, n: u64, text: &[u8]) -> Result<(), AllocError>
    ensures { (g : GraphParts) → All (CachesPredicate g) slots.old.items → CachesTerm g Predicate (Some n) text.now
        → All (CachesPredicate g) slots.new.items }
{
    let at = slot_of(n);
    if at < slots.len() && text.len() <= MAX_CACHED_LEN && slots[at].id.is_none() {
        slots[at].store(n, text)?;
    }
    Ok(())
}

/// Empty slots for the terms of predicates.
fn empty_slots(alloc: Global, count: usize) -> Result<Vec<CachedTerm>, AllocError>
    ensures { IfOk result (λ slots. (g : GraphParts) → All (CachesPredicate g) slots.items) }
{
    let mut slots = Vec::with_capacity(alloc, count)?;
    'slots: for _ in 0..count {
        slots.push(CachedTerm::new(alloc, 0)?)?;
    }
    Ok(slots)
}

/// A writer of N-Triples terms. It caches what lines of one graph have in common: the last term of each role, and terms
/// of predicates. An object is cached once it is repeated.
#[derive(Drop)]
pub struct TermWriter {
    string: Vec<u8>,
    subject: CachedTerm,
    predicate: CachedTerm,
    object: CachedTerm,
    last_object: u64,
    cached_predicates: Vec<CachedTerm>,
}

impl TermWriter {
    /// A writer with an empty cache that has `count` slots for predicates.
    fn with_slots(alloc: Global, count: usize) -> Result<TermWriter, AllocError>
        ensures { IfOk result (λ s. (g : GraphParts) → CachesTerms g s) }
    {
        Ok(TermWriter {
            string: Vec::with_capacity(alloc, TERM_CAPACITY)?,
            subject: CachedTerm::new(alloc, TERM_CAPACITY)?,
            predicate: CachedTerm::new(alloc, TERM_CAPACITY)?,
            object: CachedTerm::new(alloc, TERM_CAPACITY)?,
            last_object: 0,
            cached_predicates: empty_slots(alloc, count)?,
        })
    }

    /// A writer for one text, which caches only the last terms.
    pub(crate) fn new(alloc: Global) -> Result<TermWriter, AllocError>
        ensures { IfOk result (λ s. (g : GraphParts) → CachesTerms g s) }
    {
        TermWriter::with_slots(alloc, 0)
    }

    /// Returns a writer for many texts of one graph ([`append_graph_text`](crate::append_graph_text)). Its buffers grow
    /// to the longest string and the longest term of each role, and it caches the terms of up to 256 predicates, of at
    /// most 256 bytes each.
    pub fn with_cache(alloc: Global) -> Result<TermWriter, AllocError>
        ensures { IfOk result (λ s. (g : GraphParts) → CachesTerms g s) }
    {
        TermWriter::with_slots(alloc, MAX_CACHED)
    }

    /// Whether the term of predicate n is cached, and so is not decoded again.
    pub(crate) fn caches_predicate(&self, n: u64) -> bool {
        cached_term(&self.cached_predicates, n).is_some()
    }

    /// Appends predicate n as it is written in a line.
    fn put_predicate(
        &mut self,
        layout: &Layout<'_>,
        n: u64,
        out: &mut Vec<u8>,
    ) -> Result<(), DumpFault>
        requires { CachesTerms (layout_view layout.now) self.old }
        ensures kept { CachesTerms (layout_view layout.now) self.new }
        ensures ok { OnOk result (AppendsTerm Predicate
            (string_of (layout_view layout.now) Predicate n) out.old.items out.new.items) }
        ensures err { IfErr result (ReportsNonTerm Predicate n (string_of (layout_view layout.now) Predicate n)) }
        ensures left { OnErr result (IsPrefixOf out.old.items out.new.items) }
    {
        if let Some(text) = cached_term(&self.cached_predicates, n) {
            return Ok(out.extend_from_slice(text)?);
        }
        self.predicate
            .append_and_cache(layout, Role::Predicate, n, &mut self.string, out)?;
        Ok(cache_predicate(&mut self.cached_predicates, n, &self.predicate.text)?)
    }

    /// Appends object n as it is written in a line. Most objects occur once, so only repeated ones are cached.
    fn put_object(
        &mut self,
        layout: &Layout<'_>,
        n: u64,
        out: &mut Vec<u8>,
    ) -> Result<(), DumpFault>
        requires { CachesTerms (layout_view layout.now) self.old }
        ensures kept { CachesTerms (layout_view layout.now) self.new }
        ensures ok { OnOk result (AppendsTerm Object
            (string_of (layout_view layout.now) Object n) out.old.items out.new.items) }
        ensures err { IfErr result (ReportsNonTerm Object n (string_of (layout_view layout.now) Object n)) }
        ensures left { OnErr result (IsPrefixOf out.old.items out.new.items) }
    {
        if self.last_object == n {
            return self
                .object
                .append_and_cache(layout, Role::Object, n, &mut self.string, out);
        }
        self.last_object = n;
        append_string_as_term(layout, Role::Object, n, &mut self.string, out)
    }
}

/// Appends the line of a triple. An error may leave its first bytes in `out`.
pub(crate) fn append_line(
    layout: &Layout<'_>,
    triple: (u64, u64, u64),
    term_writer: &mut TermWriter,
    out: &mut Vec<u8>,
) -> Result<(), DumpFault>
    requires { CachesTerms (layout_view layout.now) term_writer.old }
    ensures kept { CachesTerms (layout_view layout.now) term_writer.new }
    ensures ok { OnOk result (AppendsLine (layout_view layout.now) triple out.old.items out.new.items) }
    ensures err { IfErr result (ReportsNonTermOfTriple (layout_view layout.now) triple) }
    ensures left { OnErr result (IsPrefixOf out.old.items out.new.items) }
{
    let (subject, predicate, object) = triple;
    term_writer.subject.append_and_cache(
        layout,
        Role::Subject,
        subject,
        &mut term_writer.string,
        out,
    )?;
    term_writer.put_predicate(layout, predicate, out)?;
    term_writer.put_object(layout, object, out)
}
