//! The labels of blank nodes, in dictionary strings.
ghost use Rattle.std.specs.Prelude.{◌≡◌, ◌||◌, IfOk};
ghost use Rattle.hdt_dict.specs.Strings.{IsDictionaryString};
ghost use Rattle.hdt_terms.specs.Split.{is_blank_string, prefix_label};
ghost use Rattle.hdt_build.specs.Relabelling.{has_label, apart_prefix};

use std::alloc::{AllocError, Global};

/// Whether this is the string of a blank node.
fn is_blank(string: &[u8]) -> bool
    ensures { result ≡ is_blank_string string.now }
{
    match string.split_first() {
        None => false,
        Some((first, _)) => *first == b'_',
    }
}

/// Whether the subject or the object of a triple is a blank node, or one of an earlier triple was.
pub(crate) fn has_blank_node(before: bool, s: &[u8], o: &[u8]) -> bool
    ensures { result ≡ (before || (is_blank_string s.now || is_blank_string o.now)) }
{
    before || is_blank(s) || is_blank(o)
}

/// Whether the string begins with `_:`.
pub(crate) fn has_label(string: &[u8]) -> bool
    ensures { result ≡ has_label string.now }
{
    match string {
        [b'_', b':', ..] => true,
        _ => false,
    }
}

/// The string, with the prefix before its label if it is that of a blank node.
pub(crate) fn with_prefix(
    alloc: Global,
    prefix: &[u8],
    string: &[u8],
) -> Result<Vec<u8>, AllocError>
    ensures { IfOk result (λ made. made.items ≡ prefix_label prefix.now string.now) }
{
    let mut made = Vec::new(alloc);
    match string {
        [b'_', mark, label @ ..] => {
            made.push(b'_')?;
            made.push(*mark)?;
            made.extend_from_slice(prefix)?;
            made.extend_from_slice(label)?;
        }
        _ => made.extend_from_slice(string)?,
    }
    Ok(made)
}

/// What goes before the labels of the blank nodes of the document or graph with this number, from 0, if the nodes of
/// several are kept apart: `f`, the number and `_`. It is UTF-8 without zero bytes.
///
/// # Errors
///
/// Out of memory.
pub fn apart_prefix(alloc: Global, number: u64) -> Result<Vec<u8>, AllocError>
    ensures is { IfOk result (λ prefix. prefix.items ≡ apart_prefix number) }
    ensures text { IfOk result (λ prefix. IsDictionaryString prefix.items) }
{
    Ok(format!(in alloc; "f{number}_")?.into_bytes())
}
