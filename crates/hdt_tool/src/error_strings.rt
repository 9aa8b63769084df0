//! The string that an error is about.
ghost use Rattle.std.specs.Prelude.{◌<◌, ◌≤◌, length};
ghost use Rattle.hdt_dict.specs.Dictionary.{section_by_id, section_id};
ghost use Rattle.hdt_dict.specs.Views.{dictionary_of};

use crate::error_context::{reopen, width};
use crate::error_lines::role_name;
use hdt_dict::{Dictionary, Role};
use hdt_file::read_dictionary;
use hdt_seq::Steps;
use hdt_usage::put_shown;
use hdt_wire::put_decimal;
use std::io::{self, Read};

/// The bytes of a regular file; none of another file.
fn read_regular_file(rt: &HostRuntime, path: &str) -> io::Result<Vec<u8>> {
    let mut bytes = Vec::new(rt.alloc());
    if let Some(mut file) = reopen(rt, path)? {
        file.read_to_end(&mut bytes)?;
    }
    Ok(bytes)
}

/// The ID in its section, from 1, of the string at a byte offset of the file. Binary search.
fn section_id_at(dictionary: &Dictionary<'_>, section: usize, len: u64, place: u64) -> Option<u64>
    requires section { section < 4 }
    requires within { len ≤ length (section_by_id (dictionary_of dictionary.now) (section_id section)).strings }
{
    let mut low = 0;
    let mut high = len;
    'halves: while low < high {
        let middle = low + (high - low) / 2;
        let start = dictionary.string_start(section, middle + 1);
        if start == place {
            return Some(middle + 1);
        }
        if start < place {
            low = middle + 1;
        } else {
            high = middle;
        }
    }
    None
}

/// The ID in a role of the string at a byte offset of the file.
fn id_at(dictionary: &Dictionary<'_>, place: u64) -> Option<(Role, u64)> {
    let [shared, subjects, predicates, objects] = dictionary.section_lens();
    if let Some(id) = section_id_at(dictionary, 0, shared, place) {
        return Some((Role::Subject, id));
    }
    if let Some(id) = section_id_at(dictionary, 1, subjects, place) {
        return Some((Role::Subject, shared.saturating_add(id)));
    }
    if let Some(id) = section_id_at(dictionary, 2, predicates, place) {
        return Some((Role::Predicate, id));
    }
    let id = section_id_at(dictionary, 3, objects, place)?;
    Some((Role::Object, shared.saturating_add(id)))
}

/// Appends a line with a role, an ID and its string, cut to the width of the terminal.
fn put_labelled_string(
    rt: &HostRuntime,
    dictionary: &Dictionary<'_>,
    role: Role,
    id: u64,
    out: &mut Vec<u8>,
) -> io::Result<()> {
    let mut string = Vec::new(rt.alloc());
    let mut steps = Steps::new();
    if !dictionary.string_of(role, id, &mut string, &mut steps)? {
        return Ok(());
    }
    let mut line = Vec::new(rt.alloc());
    line.extend_from_slice(b"  ")?;
    line.extend_from_slice(role_name(role).as_bytes())?;
    line.push(b' ')?;
    put_decimal(id, &mut line)?;
    line.extend_from_slice(b": ")?;
    put_shown(&string, &mut line)?;
    line.truncate(width(rt));
    line.push(b'\n')?;
    Ok(out.extend_from_slice(&line)?)
}

/// Appends a line with the string at a byte offset of a regular file, if it is an HDT file.
pub(crate) fn put_unused_string(
    rt: &HostRuntime,
    path: &str,
    place: u64,
    out: &mut Vec<u8>,
) -> io::Result<()> {
    let bytes = read_regular_file(rt, path)?;
    let Ok((_, dictionary, _)) = read_dictionary(rt.alloc(), &bytes) else {
        return Ok(());
    };
    match id_at(&dictionary, place) {
        Some((role, id)) => put_labelled_string(rt, &dictionary, role, id, out),
        None => Ok(()),
    }
}

/// Appends a line with the string of a role with an ID, of a regular file, if it is an HDT file.
pub(crate) fn put_term_string(
    rt: &HostRuntime,
    path: &str,
    role: Role,
    id: u64,
    out: &mut Vec<u8>,
) -> io::Result<()> {
    let bytes = read_regular_file(rt, path)?;
    match read_dictionary(rt.alloc(), &bytes) {
        Ok((_, dictionary, _)) => put_labelled_string(rt, &dictionary, role, id, out),
        Err(_) => Ok(()),
    }
}
