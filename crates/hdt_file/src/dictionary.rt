//! Reading the head of a file and its dictionary.
ghost use Rattle.std.specs.Prelude.{◌≡◌, ◌≤◌, ℕ, List, ◌<◌, ◌^◌, length, Ok, IfOk};
ghost use Rattle.hdt_wire.specs.Checks.{ReadsUnlessOom, IsBytes};
ghost use Rattle.hdt_wire.specs.Exact.{Exactly};
ghost use Rattle.hdt_wire.specs.declared.Role.{Role};
ghost use Rattle.hdt_dict.specs.Dictionary.{DictionaryParts, lists_of_dictionary, role_strings};
ghost use Rattle.hdt_dict.specs.Views.{dictionary_of};
ghost use Rattle.hdt_file.specs.Faults.{open_fault_of};
ghost use Rattle.hdt_file.specs.Dictionary.{IsHeadAndDictionary, front_view, decode_head_and_dictionary};
ghost use Rattle.hdt_file.specs.Head.{HeadParts};

use crate::fault::OpenFault;
use crate::head::{Head, read_head};
use hdt_dict::Dictionary;
use std::alloc::Global;

/// Reads the head and the dictionary, one check after another.
#[tactic(auto, unfolding(crate::specs::Dictionary::decode_head_and_dictionary))]
fn read_by_checks<'a>(
    alloc: Global,
    bytes: &'a [u8],
) -> Result<(Head<'a>, Dictionary<'a>, usize), OpenFault>
    ensures exact { ReadsUnlessOom open_fault_of front_view result (decode_head_and_dictionary bytes.now) }
    ensures next { IfOk result (λ r. r.2 ≡ (dictionary_of r.1).objects.end) }
    ensures few { IfOk result (λ r. (role : Role) → length (role_strings (lists_of_dictionary (dictionary_of r.1)) role)
        ≤ length bytes.now) }
{
    let head = read_head(bytes)?;
    let (dictionary, end) = Dictionary::read(alloc, bytes, head.end())?;
    Ok((head, dictionary, end))
}

/// Reads the head of a file and its dictionary. Returns them with the byte offset after the dictionary. What follows is
/// not read. Linear time in the bytes up to that offset.
///
/// # Errors
///
/// Those of [`read_head`](crate::read_head), then those of `Dictionary::read`.
///
/// ```rust
/// let (head, dictionary, end) = read_dictionary(alloc, bytes)?;
/// let subjects = dictionary.count(Role::Subject);
/// ```
pub fn read_dictionary<'a>(
    alloc: Global,
    bytes: &'a [u8],
) -> Result<(Head<'a>, Dictionary<'a>, usize), OpenFault>
    // What is returned is encoded at the start of the file.
    ensures found { IfOk result (λ r. IsHeadAndDictionary (front_view r) bytes.now) }
    // What is encoded there is returned, unless memory ran out.
    ensures only { (front : HeadParts × DictionaryParts) → IsHeadAndDictionary front bytes.now
        → ReadsUnlessOom open_fault_of front_view result (Ok front) }
    // Otherwise it is the first error.
    ensures exact { ReadsUnlessOom open_fault_of front_view result (decode_head_and_dictionary bytes.now) }
    ensures next { IfOk result (λ r. r.2 ≡ (dictionary_of r.1).objects.end) }
    // A role has at most as many strings as the input has bytes.
    ensures few { IfOk result (λ r. (role : Role) → length (role_strings (lists_of_dictionary (dictionary_of r.1)) role)
        ≤ length bytes.now) }
{
    read_by_checks(alloc, bytes)
}

/// The checks of the head and the dictionary are exact: they return what is encoded at the start of the file.
#[tactic(auto, using(crate::proofs::HeadLaws::front_exact))]
pub fn head_and_dictionary_are_exact()
    ensures { (bytes : List ℕ) → IsBytes bytes → length bytes < 2 ^ 64
        → Exactly (decode_head_and_dictionary bytes) (λ front. IsHeadAndDictionary front bytes) }
{}
