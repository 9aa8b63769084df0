//! Writing the four sections in one pass, from ascending strings with their roles.
ghost use Rattle.std.specs.Prelude.{◌≡◌, ◌↔◌, ◌≤◌, ◌++◌, ◌∷◌, [], ℕ, List, cond, true, false};
ghost use Rattle.std.specs.Prelude.{IfOk, OnOk, OnErr, IsTrue};
ghost use Rattle.std.specs.declared.cmp.Ordering.TheVariants.{Greater};
ghost use Rattle.hdt_wire.specs.Control.{HasNoZero};
ghost use Rattle.hdt_front.specs.Order.{string_cmp};
ghost use Rattle.hdt_dict.specs.Strings.{IsDictionaryString};
ghost use Rattle.hdt_build.specs.Inside.Groups.{AreFinished, AreWritten, Group, group_of, IsGroupWritten};
ghost use Rattle.hdt_build.specs.Inside.Groups.{new_group, numbers_of_codes, with_role};

use crate::four_sections::{
    FinishedSections, SectionTapes, finish_sections, new_sections, write, write_predicate,
};
use crate::scratch::Scratch;
use hdt_dict::Role;
use hdt_front::{are_section_strings, cmp_from};
use std::alloc::{AllocError, Global};
use std::cmp::Ordering;
use std::marker::Model;

/// The roles of a string.
#[derive(Clone, Copy)]
pub(crate) struct Roles {
    subject: bool,
    predicate: bool,
    object: bool,
}

impl Roles {
    /// No role.
    fn none() -> Roles
        ensures { result ≡ record { subject = false; predicate = false; object = false } }
    {
        Roles {
            subject: false,
            predicate: false,
            object: false,
        }
    }

    /// One more role.
    fn with(self, role: Role) -> Roles
        ensures { (text : List ℕ) → group_of text result ≡ with_role role (group_of text self) }
    {
        match role {
            Role::Subject => Roles {
                subject: true,
                ..self
            },
            Role::Predicate => Roles {
                predicate: true,
                ..self
            },
            Role::Object => Roles {
                object: true,
                ..self
            },
        }
    }
}

/// What a push did.
#[derive(Clone, Copy)]
pub(crate) enum Pushed {
    /// Nothing: the string is less than the current one, or no dictionary string.
    Refused,
    /// It added a role to the current string.
    Added,
    /// It began a string. The one before it, if any, was written: the code of its node, and its ID as a predicate.
    Began(Option<(u64, u64)>),
}

/// Writes a string to its sections; returns the code of its node and its ID as a predicate.
fn write_group<S: Scratch>(
    text: &[u8],
    roles: Roles,
    sections: &mut SectionTapes<S>,
) -> Result<(u64, u64), S::Error>
    requires { HasNoZero text.now }
    ensures { IfOk result (λ codes. IsGroupWritten (group_of text.now roles) sections.old sections.new codes) }
{
    let predicate = write_predicate(text, roles.predicate, sections)?;
    if roles.subject {
        if roles.object {
            let id = write(text, &mut sections.shared)?;
            return Ok((2 * id, predicate));
        }
        let id = write(text, &mut sections.subjects)?;
        return Ok((2 * id + 1, predicate));
    }
    if roles.object {
        let id = write(text, &mut sections.objects)?;
        return Ok((2 * id + 1, predicate));
    }
    Ok((0, predicate))
}

/// Whether a dictionary can have the string.
fn is_dictionary_string(text: &[u8]) -> bool
    ensures { IsTrue result ↔ IsDictionaryString text.now }
{
    are_section_strings(&[text])
}

/// Replaces a text. If memory runs out, it is empty.
fn replace(text: &[u8], out: &mut Vec<u8>) -> Result<(), AllocError>
    ensures ok { OnOk result (out.new.items ≡ text.now) }
    ensures err { OnErr result (out.new.items ≡ []) }
{
    out.clear();
    out.extend_from_slice(text)
}

/// Four sections that are written from ascending strings, each of which comes with its roles in turn.
#[derive(Drop)]
pub(crate) struct SectionBuilder<S: Scratch> {
    sections: SectionTapes<S>,
    /// The current string, which is not written yet.
    text: Vec<u8>,
    roles: Roles,
    has_current: bool,
}

impl<S: Scratch> Model for SectionBuilder<S> {
    ghost use Rattle.hdt_wire.specs.Control.{HasNoZero};
    ghost use Rattle.hdt_build.specs.Inside.GroupedSections.{BuilderState};

    ghost Value = { BuilderState };

    ghost view = { λ b. record {
      sections = b.sections;
      text = b.text.items;
      roles = b.roles;
      has_current = b.has_current;
    } };

    ghost invariant = { λ b. HasNoZero b.text.items };
}

impl<S: Scratch + Drop> SectionBuilder<S> {
    ghost use Rattle.hdt_build.specs.Inside.GroupedSections.{current_groups, HasGroups, IsPushed};

    /// No strings. The block size must be at least 1.
    pub(crate) fn new(
        alloc: Global,
        scratch: &mut S,
        chunk_len: usize,
        block_size: u32,
    ) -> Result<SectionBuilder<S>, S::Error>
        requires { 1 ≤ block_size }
        ensures { IfOk result (λ made. HasGroups block_size made [] []) }
    {
        Ok(SectionBuilder {
            sections: new_sections(alloc, scratch, chunk_len, block_size)?,
            text: Vec::new(alloc),
            roles: Roles::none(),
            has_current: false,
        })
    }

    /// Compares a string with the current one. It is greater if there is none.
    fn cmp(&self, text: &[u8]) -> Ordering
        ensures { result ≡ cond self.now.has_current (string_cmp text.now self.now.text) Greater }
    {
        if !self.has_current {
            return Ordering::Greater;
        }
        cmp_from(text, &self.text, 0).0
    }

    /// Writes the current string, if there is one, and returns its two numbers.
    fn close(&mut self) -> Result<Option<(u64, u64)>, S::Error>
        ensures { IfOk result (λ codes. (n : ℕ) (gs : List Group) (numbers : List ℕ) → HasGroups n self.old gs numbers
            → AreWritten n self.new.sections gs (numbers ++ numbers_of_codes codes)) }
    {
        if !self.has_current {
            return Ok(None);
        }
        let codes = write_group(&self.text, self.roles, &mut self.sections)?;
        Ok(Some(codes))
    }

    /// Begins a string, after the one before was written.
    fn begin(&mut self, text: &[u8], role: Role) -> Result<(), AllocError>
        requires { HasNoZero text.now }
        ensures begun { OnOk result (current_groups self.new ≡ new_group text.now role ∷ []) }
        ensures has { OnOk result (self.new.has_current ≡ true) }
        ensures kept { OnOk result (self.new.sections ≡ self.old.sections) }
    {
        self.has_current = true;
        self.roles = Roles::none().with(role);
        replace(text, &mut self.text)
    }

    /// Adds a string with one of its roles. It must not be less than the one before. The string before is written, and
    /// its numbers are returned, if this one is not equal to it.
    pub(crate) fn push(&mut self, text: &[u8], role: Role) -> Result<Pushed, S::Error>
        ensures { IfOk result (λ pushed. (n : ℕ) (gs : List Group) (numbers : List ℕ) → HasGroups n self.old gs numbers
            → IsPushed n self.new gs numbers text.now role pushed) }
    {
        match self.cmp(text) {
            Ordering::Less => Ok(Pushed::Refused),
            Ordering::Equal => {
                self.roles = self.roles.with(role);
                Ok(Pushed::Added)
            }
            Ordering::Greater => {
                if !is_dictionary_string(text) {
                    return Ok(Pushed::Refused);
                }
                let codes = self.close()?;
                self.begin(text, role)?;
                Ok(Pushed::Began(codes))
            }
        }
    }

    /// Writes the last string, if there is one; returns the sections and its two numbers.
    pub(crate) fn finish(mut self) -> Result<(FinishedSections<S>, Option<(u64, u64)>), S::Error>
        ensures { IfOk result (λ made. (n : ℕ) (gs : List Group) (numbers : List ℕ) → HasGroups n self gs numbers
            → AreFinished n made.0 gs (numbers ++ numbers_of_codes made.1)) }
    {
        let codes = self.close()?;
        let SectionBuilder {
            sections,
            text: _,
            roles: _,
            has_current: _,
        } = self;
        Ok((finish_sections(sections)?, codes))
    }
}
