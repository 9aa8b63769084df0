//! The strings of a window of a file's triples.
ghost use Rattle.std.specs.Prelude.{◌≡◌, [], List, ℕ, IfOk, IfSome, OnOk};
ghost use Rattle.hdt_dict.specs.Dictionary.{role_strings};
ghost use Rattle.hdt_file.specs.Denoted.{string_of};
ghost use Rattle.hdt_file.specs.File.{GraphParts};
ghost use Rattle.hdt_file.specs.Graph.{layout_view};
ghost use Rattle.hdt_wire.specs.declared.Role.{Role};
ghost use Rattle.hdt_build.specs.Inside.WindowStrings.{AreStringsOfIds, AreStringsOfTriple, HasRoleStrings};
ghost use Rattle.hdt_build.specs.Inside.WindowStrings.{HasWindowStrings};
ghost use Rattle.hdt_build.specs.Relabelling.{relabelled};

use crate::labels::{has_label, with_prefix};
use hdt_dict::{Arena, Role, RoleSeeker};
use hdt_file::Layout;
use std::alloc::{AllocError, Global};

/// Puts the prefix before the label of the string, if it begins with `_:`.
pub(crate) fn relabel(alloc: Global, prefix: &[u8], string: &mut Vec<u8>) -> Result<(), AllocError>
    ensures { OnOk result (string.new.items ≡ relabelled prefix.now string.old.items) }
{
    if prefix.is_empty() || !has_label(string) {
        return Ok(());
    }
    let made = with_prefix(alloc, prefix, string)?;
    *string = made;
    Ok(())
}

/// Replaces `out` by string n of a role; it becomes empty if the role has no string n.
fn put_string(strings: &mut RoleSeeker<'_>, n: u64, out: &mut Vec<u8>) -> Result<(), AllocError>
    ensures same { strings.new ≡ strings.old }
    ensures ok { OnOk result ((g : GraphParts) (role : Role) → strings.old ≡ role_strings g.dictionary role
        → out.new.items ≡ string_of g role n) }
{
    out.clear();
    strings.append_string(n, out)?;
    Ok(())
}

/// The ID of a triple in a role.
fn role_id(role: Role, triple: (u64, u64, u64)) -> u64 {
    match role {
        Role::Subject => triple.0,
        Role::Predicate => triple.1,
        Role::Object => triple.2,
    }
}

/// Replaces `ids` by the distinct IDs of triples in a role, in ascending order.
fn put_ids(role: Role, triples: &[(u64, u64, u64)], ids: &mut Vec<u64>) -> Result<(), AllocError> {
    ids.clear();
    for triple in triples {
        let id = role_id(role, *triple);
        if ids.last() != Some(&id) {
            ids.push(id)?;
        }
    }
    if !ids.is_sorted() {
        ids.sort_unstable();
    }
    ids.dedup();
    Ok(())
}

/// The strings of a role that the triples of a window have.
#[derive(Drop)]
struct RoleStrings {
    /// Their IDs, in ascending order.
    ids: Vec<u64>,
    /// The string of each ID, with the prefix before its label.
    strings: Arena,
}

impl RoleStrings {
    fn new(alloc: Global) -> Result<RoleStrings, AllocError>
        ensures { IfOk result (λ made. (prefix : List ℕ) (g : GraphParts) (role : Role)
            → HasRoleStrings prefix g role made) }
    {
        Ok(RoleStrings {
            ids: Vec::new(alloc),
            strings: Arena::new(alloc)?,
        })
    }

    /// Replaces the strings by those of other triples. Returns whether all of them fit into `room` bytes, the last one
    /// aside.
    fn fill(
        &mut self,
        alloc: Global,
        prefix: &[u8],
        layout: &Layout<'_>,
        role: Role,
        triples: &[(u64, u64, u64)],
        room: &mut usize,
    ) -> Result<bool, AllocError>
        ensures { OnOk result (HasRoleStrings prefix.now (layout_view layout.now) role self.new) }
    {
        put_ids(role, triples, &mut self.ids)?;
        self.strings.clear();
        put_strings(
            alloc,
            prefix,
            layout,
            role,
            &self.ids,
            room,
            &mut self.strings,
        )
    }

    /// String n, if it is here. It is sought at `place` first, which becomes its index.
    fn get(&self, n: u64, place: &mut usize) -> Option<&[u8]>
        ensures { (prefix : List ℕ) (g : GraphParts) (role : Role) → HasRoleStrings prefix g role self.now
            → IfSome result (λ string. string.now ≡ relabelled prefix (string_of g role n)) }
    {
        if self.ids.get(*place) != Some(&n) {
            *place = self.ids.binary_search(&n).ok()?;
        }
        if *place >= self.strings.len() {
            return None;
        }
        Some(self.strings.get(*place))
    }
}

/// Puts the strings of a role with these ascending IDs into an empty list, with the prefix before their labels. Returns
/// whether all of them fit into `room` bytes, the last one aside.
fn put_strings(
    alloc: Global,
    prefix: &[u8],
    layout: &Layout<'_>,
    role: Role,
    ids: &[u64],
    room: &mut usize,
    strings: &mut Arena,
) -> Result<bool, AllocError>
    requires { strings.old ≡ [] }
    ensures { OnOk result (AreStringsOfIds prefix.now (layout_view layout.now) role ids.now strings.new) }
{
    let mut all = layout.seeker(alloc, role);
    let mut string = Vec::new(alloc);
    'ids: for at in 0..ids.len() {
        if *room == 0 {
            return Ok(false);
        }
        put_string(&mut all, ids[at], &mut string)?;
        relabel(alloc, prefix, &mut string)?;
        *room = room.saturating_sub(string.len());
        strings.push(&string)?;
    }
    Ok(true)
}

/// The indices at which the strings of the last triple are.
#[derive(Clone, Copy)]
pub(crate) struct Places {
    subject: usize,
    predicate: usize,
    object: usize,
}

impl Places {
    /// The first ones.
    pub(crate) fn new() -> Places {
        Places {
            subject: 0,
            predicate: 0,
            object: 0,
        }
    }
}

/// The strings of the triples of a window, with a prefix before their labels, each decoded once. Between windows it
/// keeps its memory, and its place in the strings of each role: the subjects of a file ascend, so windows that follow
/// one another take one pass over them.
#[derive(Drop)]
pub(crate) struct WindowStrings {
    subjects: RoleStrings,
    predicates: RoleStrings,
    objects: RoleStrings,
}

impl WindowStrings {
    /// Those of no triple.
    pub(crate) fn new(alloc: Global) -> Result<WindowStrings, AllocError>
        ensures { IfOk result (λ made. (prefix : List ℕ) (g : GraphParts) → HasWindowStrings prefix g made) }
    {
        Ok(WindowStrings {
            subjects: RoleStrings::new(alloc)?,
            predicates: RoleStrings::new(alloc)?,
            objects: RoleStrings::new(alloc)?,
        })
    }

    /// Replaces the strings by those of other triples. Returns whether all of them fit into so many bytes, the last one
    /// aside. It decodes each role up to its last string.
    pub(crate) fn fill(
        &mut self,
        alloc: Global,
        prefix: &[u8],
        layout: &Layout<'_>,
        triples: &[(u64, u64, u64)],
        max_bytes: usize,
    ) -> Result<bool, AllocError>
        requires { HasWindowStrings prefix.now (layout_view layout.now) self.old }
        ensures { OnOk result (HasWindowStrings prefix.now (layout_view layout.now) self.new) }
    {
        let mut room = max_bytes;
        if !self
            .subjects
            .fill(alloc, prefix, layout, Role::Subject, triples, &mut room)?
        {
            return Ok(false);
        }
        if !self
            .predicates
            .fill(alloc, prefix, layout, Role::Predicate, triples, &mut room)?
        {
            return Ok(false);
        }
        self.objects
            .fill(alloc, prefix, layout, Role::Object, triples, &mut room)
    }

    /// The strings of a triple, if all of them are here. They are sought at `places` first, which become their indices.
    pub(crate) fn get(
        &self,
        triple: (u64, u64, u64),
        places: &mut Places,
    ) -> Option<(&[u8], &[u8], &[u8])>
        ensures { (prefix : List ℕ) (g : GraphParts) → HasWindowStrings prefix g self.now
            → IfSome result (AreStringsOfTriple prefix g triple) }
    {
        let (subject, predicate, object) = triple;
        Some((
            self.subjects.get(subject, &mut places.subject)?,
            self.predicates.get(predicate, &mut places.predicate)?,
            self.objects.get(object, &mut places.object)?,
        ))
    }
}
